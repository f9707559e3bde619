//! The forms of rows.

use crate::step::{Said, Step};

/// Files: paths and texts.
pub type Texts<'a> = &'a [(&'a str, &'a str)];

/// Which entry is undone, counted from 0; what that is answered; and the files afterwards.
pub type Undo<'a> = (usize, Said<'a>, Texts<'a>);

/// Files, and edits of them one after another.
#[derive(Drop)]
pub struct Row<'a> {
    /// The paths and texts of the files.
    pub files: &'a [(&'a str, &'a str)],
    /// The edits, and what each is answered.
    pub steps: &'a [Step<'a>],
    /// The files afterwards; none where they are as before.
    pub after: &'a [(&'a str, &'a str)],
    /// What stands in the descriptors afterwards.
    pub json: &'a str,
}
