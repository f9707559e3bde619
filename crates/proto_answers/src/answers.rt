//! What is answered to an edit.

use proto_edit::Refusal;
use proto_positions::RangeEdit;

/// The text edits of a file.
#[derive(Drop)]
pub struct FileEdits {
    /// The path of the file.
    pub path: String,
    /// Its text edits in their order, of which none overlaps another.
    pub edits: Vec<RangeEdit>,
}

/// The answer to an edit of a workspace.
#[derive(Drop)]
pub enum Answer {
    /// The text edits of the files that change, in the order of their paths.
    Edits(Vec<FileEdits>),
    /// It is admissible, but not all editors would make the same of it: a file that changes has a
    /// carriage return without a line feed behind it, or has one and would get a new line end, or a
    /// splice begins or ends within a line end or a character.
    LineEnds,
    /// The least case that refuses it.
    Refused(Refusal),
}
