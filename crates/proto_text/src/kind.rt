//! What a text consists of.

/// The kind of a token.
#[derive(Clone, Copy, Debug, PartialEq, Eq)]
pub enum TokenKind {
    /// An ASCII letter or `_`, and then letters, digits and `_`.
    Word,
    /// A whole number, in decimal, octal or hexadecimal.
    Number,
    /// A string, with its quotes.
    Text,
    /// One byte of punctuation.
    Punctuation,
}

/// The kind of a piece: one byte of white space, a comment or a token.
#[derive(Clone, Copy)]
pub enum PieceKind {
    /// One byte of white space.
    Blank,
    /// From `//` to the end of the line, without its line feed.
    LineComment,
    /// From `/*` through the first `*/`.
    BlockComment,
    /// A token of the kind.
    Solid(TokenKind),
}
