//! The checks of a schema that is linked: numbers, names, labels, types, options and defaults.
#![tactic(auto)]

mod defaults;
mod enums;
mod extends;
mod fields;
mod file;
mod json_clashes;
pub mod laws;
mod messages;
mod names;
mod options;

pub use file::file_flaws;
pub use proto_desc_numbers::{Flaw, least};
