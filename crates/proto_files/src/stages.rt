//! A file of a workspace as it is read: by its path, with its tokens, with its tree.

use proto_base::Profile;
use proto_text::{Source, Token};
use proto_tree::File;

/// A path and the bytes that stand at it, of a language.
#[derive(Drop)]
pub struct NamedFile {
    pub path: String,
    pub bytes: Vec<u8>,
    pub profile: Profile,
}

/// A file with the tokens of its text.
#[derive(Drop)]
pub struct LexedFile {
    pub path: String,
    pub source: Source,
    pub tokens: Vec<Token>,
    pub profile: Profile,
}

/// A file of a workspace, with the tokens of its source and the tree that they spell.
#[derive(Drop)]
pub struct ReadFile {
    pub path: String,
    pub source: Source,
    pub tokens: Vec<Token>,
    pub tree: File,
    pub profile: Profile,
}
