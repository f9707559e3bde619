//! Positions in texts, as the protocol has them.

/// A position in a text. Its columns count in the encoding that was agreed on at `initialize`.
#[derive(Clone, Copy, Debug, PartialEq, Eq)]
pub struct Position {
    /// The line, from 0.
    pub line: u32,
    /// The column, from 0: units of UTF-16, or bytes of UTF-8.
    pub character: u32,
}

/// The part of a text from one position up to another.
#[derive(Clone, Copy, Debug, PartialEq, Eq)]
pub struct Range {
    /// Where it begins.
    pub start: Position,
    /// The position right behind it.
    pub end: Position,
}
