//! The numbers of names and of references, and what a reference means.

ghost use Rattle.std.specs.Prelude.{◌≡◌};

/// A reference: its file, and its first token (the dot, where it begins with one).
#[derive(Clone, Copy, Debug, PartialEq, Eq)]
pub struct RefId {
    /// The number of its file, from 0.
    pub file: u32,
    /// The index of its first token in that file, from 0.
    pub token: u32,
}

/// A name of a link, by its number there.
#[derive(Clone, Copy, Debug, PartialEq, Eq)]
pub struct SymbolId {
    /// The row of its table that has the name, from 0.
    pub row: usize,
}

/// A reference by its first token (the dot, where it begins with one), the key of its first word
/// (`word_key`), and the row of the name that it means.
#[derive(Clone, Copy, PartialEq, Eq)]
pub struct Meant {
    /// The index of its first token in its file, from 0.
    pub token: u32,
    /// The key of its first word.
    pub first: u32,
    /// The row of the name that it means, from 0.
    pub row: usize,
}

impl Meant {
    /// The first token of the reference (the dot, where it begins with one).
    pub fn token(self) -> u32
        ensures { result ≡ self.token }
    {
        self.token
    }

    /// The key of its first word (`word_key`).
    pub fn first_key(self) -> u32
        ensures { result ≡ self.first }
    {
        self.first
    }

    /// The name that it means.
    pub fn symbol(self) -> SymbolId
        ensures { result.row ≡ self.row }
    {
        SymbolId { row: self.row }
    }
}
