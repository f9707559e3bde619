//! The files that have to be re-resolved once some are edited, and the lists of references to
//! each name, renewed.
#![tactic(auto)]

mod backlinks;
pub mod changed_files;
mod file_meanings;
mod first_words;
pub mod gathering;
pub mod kind_rows;
pub mod laws;
pub mod marking;
pub mod renewed_references;
mod shown_names;
pub mod sight;

pub use backlinks::renewed;
pub use file_meanings::FileMeanings;
pub use first_words::FirstWords;
