//! The imports of files: their paths, their cycles, and what is reached by them.
#![tactic(auto)]

pub mod first_places;
pub mod import;
pub mod import_cycles;
mod import_paths;
pub mod laws;
pub mod one_file;
pub mod sight;
pub mod walk;
pub mod written;
