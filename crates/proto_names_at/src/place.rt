//! A token of a file.

/// A token, by the number of its file and its index there, both from 0.
#[derive(Clone, Copy)]
pub(crate) struct Place {
    pub(crate) file: u32,
    pub(crate) token: u32,
}
