//! What a language server answers of a workspace at an offset of a file: renames and other edits as
//! text edits, and where what stands there is declared and used. Nothing changes.
#![tactic(auto)]

mod actions;
mod answers;
mod declaring;
mod definitions;
mod entry_edits;
pub mod laws;
mod line_ends;
mod preparing;
mod ranges;
mod references;
mod renaming;
mod standing;
mod symbols;

pub use actions::{field_deletion, import_drop};
pub use answers::{Answer, FileEdits};
pub use definitions::definition_at;
pub use entry_edits::{answer_to, edits_of_entry, rename_in};
pub use preparing::{Prepared, prepare_rename};
pub use ranges::{Location, Range};
pub use references::references_at;
pub use renaming::rename_at;
pub use standing::FileOffset;
pub use symbols::{Symbol, symbols_in};
