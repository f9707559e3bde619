//! How large a file and a journal may be.

/// The most bytes that a file of a workspace may have.
pub const MAX_LEN: usize = 1_048_576;

/// The most bytes that a journal may have.
pub const MAX_JOURNAL_LEN: usize = 16_777_216;
