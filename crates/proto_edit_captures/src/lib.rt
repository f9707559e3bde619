//! The target of a rename, and what stands against it: a word, a name, a captured reference.
//! Which reference an added import overtakes.
#![tactic(auto)]

mod capturing;
mod collisions;
mod finding;
mod first;
mod first_keys;
pub mod laws;
mod names;
mod overtaking;
mod parts;
mod refusing;
mod rename_target;
mod scope;
mod shown;
mod words;

pub use collisions::collides;
pub use finding::find_target;
pub use first::first_captured;
pub use overtaking::first_overtaken;
pub use parts::{beside, front};
pub use refusing::captured_refusal;
pub use rename_target::{NoTarget, RenameTarget};
pub use words::{has_name, is_keyword};
