//! Which files an edit of others affects, by what is kept of each: what its references meant, the
//! enums that it declares, whether it is proto3, and whether it extends messages; and the laws by
//! which the scenes, the descriptors and the flaws of all others stay.
#![tactic(auto)]

pub mod file_summary;
pub mod laws;
pub mod marks;
mod still_enums;

pub use file_summary::{EnumSummary, FileSummary, TypeUse, copy_file_summaries, file_summaries};
