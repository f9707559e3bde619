//! The language that a file is of.

/// The language that a file is of. What the core language reads, the language as written reads as
/// the same.
#[derive(Clone, Copy, Debug, PartialEq, Eq)]
pub enum Profile {
    /// The core language: each option is set by its word.
    Core,
    /// The language as it is written: custom options are read, too, and their values are kept as
    /// they stand.
    AsWritten,
}
