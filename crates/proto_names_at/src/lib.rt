//! The word at an offset of a file, and the name that stands at a token.
#![tactic(auto)]

mod declared;
mod defaults;
mod fields;
pub mod laws;
mod names;
mod offsets;
mod place;
mod references;
mod targets;
mod values;

pub use names::name_at;
pub use offsets::word_at;
