//! Another text for the file at a place: as it is given, with its tokens, with its tree.

use proto_text::{Source, Token};
use proto_tree::File;

/// A text of which nothing is read yet.
#[derive(Drop)]
pub struct GivenText {
    pub place: u32,
    pub bytes: Vec<u8>,
}

/// A text with its tokens.
#[derive(Drop)]
pub struct LexedText {
    pub place: u32,
    pub source: Source,
    pub tokens: Vec<Token>,
}

/// A text with its tokens and the tree that they spell.
#[derive(Drop)]
pub struct ReadText {
    pub place: u32,
    pub source: Source,
    pub tokens: Vec<Token>,
    pub tree: File,
}
