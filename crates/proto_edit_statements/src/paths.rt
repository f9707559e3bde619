//! The paths of an edit of imports.

/// The paths of an edit, of the file and of what it imports, with the numbers of these files.
#[derive(Clone, Copy)]
pub(crate) struct Paths<'a> {
    pub(crate) file: &'a str,
    pub(crate) path: &'a str,
    pub(crate) from: u32,
    pub(crate) to: u32,
}
