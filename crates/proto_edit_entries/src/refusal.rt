//! Why an edit or an undo is refused.

ghost use Rattle.std.specs.Prelude.{◌≡◌};
ghost use Rattle.proto_edit_entries.specs.RefusalTable.{refusal_number, refusal_name};

use proto_base::NoMemory;
use std::alloc::{AllocError, AllocFailed};
use std::fmt;
use thiserror::Error;

/// Why an edit or an undo is refused: the least case that holds, by number. Out of memory may come
/// in place of any.
#[derive(Debug, Drop, Error)]
pub enum Refusal {
    /// No symbol has the name.
    UnknownTarget,
    /// The edit is not for a symbol of this kind.
    KindNotAllowed,
    /// The new name is no word.
    NotAnIdentifier,
    /// The new name is a listed word that such a symbol may not have.
    KeywordName,
    /// The new name is the present one.
    SameName,
    /// A new name is the name of another symbol.
    Collision,
    /// A reference would mean something else. Its file, and the offset of its first token in bytes
    /// from 0.
    Captured { path: String, offset: u32 },
    /// The new name is reserved where the symbol stands.
    NameReserved,
    /// Two fields of a proto3 message would have one JSON name.
    JsonClash,
    /// The field is the only one of its oneof.
    LastOfOneof,
    /// A file is not in the workspace.
    UnknownFile,
    /// The file imports the path.
    AlreadyImported,
    /// The file does not import the path.
    NotImported,
    /// An import cycle would be closed.
    Cycle,
    /// A reference means a symbol that would no longer be seen. Its file, and the offset of its
    /// first token in bytes from 0.
    Needed { path: String, offset: u32 },
    /// A changed file would pass 1,048,576 bytes.
    TooLarge,
    /// The files are not as the entry left them.
    Stale,
    /// There was no memory.
    NoMemory,
    /// A word of a custom option may stand for what is renamed or deleted. Its file, and its offset
    /// in bytes from 0.
    OptionValue { path: String, offset: u32 },
    /// An options message of google.protobuf would have another name, or something else its name.
    FixedName,
}

impl fmt::Display for Refusal {
    fn fmt<W: fmt::Write>(&self, f: &mut fmt::Formatter<W>) -> fmt::Result {
        write!(f, "{} {}: {}", self.number(), self.name(), self.text())?;
        match self.place() {
            None => Ok(()),
            Some((path, offset)) => write!(f, ": {path}: byte {offset}"),
        }
    }
}

impl Refusal {
    // What is refused, in words, for people.
    fn text(&self) -> &'static str {
        match self {
            Refusal::UnknownTarget => "no symbol has the name",
            Refusal::KindNotAllowed => "the edit is not for a symbol of this kind",
            Refusal::NotAnIdentifier => "the new name is no word",
            Refusal::KeywordName => "the new name is a listed word",
            Refusal::SameName => "the new name is the present one",
            Refusal::Collision => "a new name is the name of another symbol",
            Refusal::Captured { .. } => "a reference would mean something else",
            Refusal::NameReserved => "the new name is reserved",
            Refusal::JsonClash => "two fields would have one JSON name",
            Refusal::LastOfOneof => "the field is the only one of its oneof",
            Refusal::UnknownFile => "the file is not in the workspace",
            Refusal::AlreadyImported => "the file imports the path",
            Refusal::NotImported => "the file does not import the path",
            Refusal::Cycle => "an import cycle would be closed",
            Refusal::Needed { .. } => "a reference means a symbol that would no longer be seen",
            Refusal::TooLarge => "a changed file would have more than 1,048,576 bytes",
            Refusal::Stale => "the files are not as the entry left them",
            Refusal::NoMemory => "no memory",
            Refusal::OptionValue { .. } => "a word of an option may stand for the symbol",
            Refusal::FixedName => "options are looked up by this name",
        }
    }

    // The file and the offset in it that the words for people name.
    fn place(&self) -> Option<(&str, u32)> {
        match self {
            Refusal::Captured { path, offset }
            | Refusal::Needed { path, offset }
            | Refusal::OptionValue { path, offset } => Some((path.as_str(), *offset)),
            _ => None,
        }
    }

    /// The number in the table of refusals, from 1 to 20.
    pub fn number(&self) -> u32
        ensures { result ≡ refusal_number self.now }
    {
        match self {
            Refusal::UnknownTarget => 1,
            Refusal::KindNotAllowed => 2,
            Refusal::NotAnIdentifier => 3,
            Refusal::KeywordName => 4,
            Refusal::SameName => 5,
            Refusal::Collision => 6,
            Refusal::Captured { .. } => 7,
            Refusal::NameReserved => 8,
            Refusal::JsonClash => 9,
            Refusal::LastOfOneof => 10,
            Refusal::UnknownFile => 11,
            Refusal::AlreadyImported => 12,
            Refusal::NotImported => 13,
            Refusal::Cycle => 14,
            Refusal::Needed { .. } => 15,
            Refusal::TooLarge => 16,
            Refusal::Stale => 17,
            Refusal::NoMemory => 18,
            Refusal::OptionValue { .. } => 19,
            Refusal::FixedName => 20,
        }
    }

    /// The name in the table of refusals.
    pub fn name(&self) -> &'static str
        ensures { result.now ≡ refusal_name self.now }
    {
        match self {
            Refusal::UnknownTarget => "UnknownTarget",
            Refusal::KindNotAllowed => "KindNotAllowed",
            Refusal::NotAnIdentifier => "NotAnIdentifier",
            Refusal::KeywordName => "KeywordName",
            Refusal::SameName => "SameName",
            Refusal::Collision => "Collision",
            Refusal::Captured { .. } => "Captured",
            Refusal::NameReserved => "NameReserved",
            Refusal::JsonClash => "JsonClash",
            Refusal::LastOfOneof => "LastOfOneof",
            Refusal::UnknownFile => "UnknownFile",
            Refusal::AlreadyImported => "AlreadyImported",
            Refusal::NotImported => "NotImported",
            Refusal::Cycle => "Cycle",
            Refusal::Needed { .. } => "Needed",
            Refusal::TooLarge => "TooLarge",
            Refusal::Stale => "Stale",
            Refusal::NoMemory => "NoMemory",
            Refusal::OptionValue { .. } => "OptionValue",
            Refusal::FixedName => "FixedName",
        }
    }
}

impl From<AllocError> for Refusal {
    ghost use Rattle.proto_edit_entries.specs.declared.refusal.Refusal.TheVariants.{NoMemory};

    ghost from_gives = { λ _ e. e ≡ NoMemory };

    fn from(_e: AllocError) -> Refusal {
        Refusal::NoMemory
    }
}

impl From<NoMemory> for Refusal {
    ghost use Rattle.proto_edit_entries.specs.declared.refusal.Refusal.TheVariants.{NoMemory as OutOfMemory};

    ghost from_gives = { λ _ e. e ≡ OutOfMemory };

    fn from(_e: NoMemory) -> Refusal {
        Refusal::NoMemory
    }
}

impl<T: Drop> From<AllocFailed<T>> for Refusal {
    ghost use Rattle.proto_edit_entries.specs.declared.refusal.Refusal.TheVariants.{NoMemory};

    ghost from_gives = { λ _ e. e ≡ NoMemory };

    fn from(_e: AllocFailed<T>) -> Refusal {
        Refusal::NoMemory
    }
}
