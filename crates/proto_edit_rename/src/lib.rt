//! The rename of a name: the least case that refuses it, or what it changes; and what the blocks of a
//! file say of a field or a value: reserved names, and the enum of a value.
#![tactic(auto)]

mod changed_files;
mod changes;
mod changing;
mod checks;
mod defaults;
mod enum_names;
mod file_occurrences;
mod found_target;
mod json_names;
mod members;
mod option_checks;
mod places;
mod renaming;
mod reserved;
mod scenes;
mod standing;

pub use file_occurrences::{FileOccurrences, occurrences};
pub use members::oneof_fields;
pub use proto_resolved::{BlockAt, blocks_of};
pub use renaming::rename;
pub use scenes::scene;
