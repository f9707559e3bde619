//! What may be wrong with a text.

ghost use Rattle.std.specs.Prelude.{◌≡◌};
ghost use Rattle.proto_text.specs.FaultTable.{lex_number, lex_name, text_offset, text_number, text_name};
ghost use Rattle.proto_text.specs.declared.fault.TextFault.TheVariants.{NoMemory};

use std::alloc::{AllocError, AllocFailed};
use std::fmt;
use thiserror::Error;

/// Why no whole and allowed piece begins at a place.
#[derive(Clone, Copy, Debug, PartialEq, Eq, Error)]
pub enum LexFault {
    /// A character begins no token, white space or comment.
    BadChar,
    /// A block comment is not closed.
    OpenComment,
    /// A string is not closed in its line.
    OpenString,
    /// A string has an escape that is not allowed, or its value is not UTF-8.
    BadEscape,
    /// A digit and the identifier characters behind it are no number.
    BadNumber,
}

impl fmt::Display for LexFault {
    fn fmt<W: fmt::Write>(&self, f: &mut fmt::Formatter<W>) -> fmt::Result {
        f.write_str(self.text())
    }
}

impl LexFault {
    // What is wrong, in words, for people.
    fn text(self) -> &'static str {
        match self {
            LexFault::BadChar => "a character that begins no token, white space or comment",
            LexFault::OpenComment => "a block comment that is not closed",
            LexFault::OpenString => "a string that is not closed",
            LexFault::BadEscape => "a string with a refused escape, or whose value is not UTF-8",
            LexFault::BadNumber => "a word that begins with a digit and is no number",
        }
    }

    /// The number of the fault, from 3 to 7.
    pub fn number(self) -> u32
        ensures { result ≡ lex_number self }
    {
        match self {
            LexFault::BadChar => 3,
            LexFault::OpenComment => 4,
            LexFault::OpenString => 5,
            LexFault::BadEscape => 6,
            LexFault::BadNumber => 7,
        }
    }

    /// The name of the fault.
    pub fn name(self) -> &'static str
        ensures { result.now ≡ lex_name self }
    {
        match self {
            LexFault::BadChar => "BadChar",
            LexFault::OpenComment => "OpenComment",
            LexFault::OpenString => "OpenString",
            LexFault::BadEscape => "BadEscape",
            LexFault::BadNumber => "BadNumber",
        }
    }
}

/// Why bytes are no text, or why a text has no tokens.
#[derive(Debug, Drop, Error)]
pub enum TextFault {
    /// The bytes are more than `MAX_LEN`.
    TooLarge,
    /// The bytes are not UTF-8.
    NotUtf8,
    /// The bytes before the offset are whole white space, comments and tokens.
    At {
        /// Where the fault stands, in bytes from 0.
        offset: u32,
        /// What is wrong there.
        fault: LexFault,
    },
    /// There was no memory.
    NoMemory,
}

impl fmt::Display for TextFault {
    fn fmt<W: fmt::Write>(&self, f: &mut fmt::Formatter<W>) -> fmt::Result {
        match self {
            TextFault::TooLarge => f.write_str("more than 1,048,576 bytes"),
            TextFault::NotUtf8 => f.write_str("not UTF-8"),
            TextFault::At { offset, fault } => write!(f, "{fault}, at byte {offset}"),
            TextFault::NoMemory => f.write_str("no memory"),
        }
    }
}

impl TextFault {
    /// The place of the fault, in bytes from 0. A fault of the whole text, and out of memory,
    /// stand at 0.
    pub fn offset(&self) -> u32
        ensures { result ≡ text_offset self.now }
    {
        match self {
            TextFault::At { offset, .. } => *offset,
            TextFault::TooLarge | TextFault::NotUtf8 | TextFault::NoMemory => 0,
        }
    }

    /// The number of the fault, from 1 to 7; 0 when out of memory.
    pub fn number(&self) -> u32
        ensures { result ≡ text_number self.now }
    {
        match self {
            TextFault::TooLarge => 1,
            TextFault::NotUtf8 => 2,
            TextFault::At { fault, .. } => fault.number(),
            TextFault::NoMemory => 0,
        }
    }

    /// The name of the fault.
    pub fn name(&self) -> &'static str
        ensures { result.now ≡ text_name self.now }
    {
        match self {
            TextFault::TooLarge => "TooLarge",
            TextFault::NotUtf8 => "NotUtf8",
            TextFault::At { fault, .. } => fault.name(),
            TextFault::NoMemory => "NoMemory",
        }
    }
}

impl From<AllocError> for TextFault {
    ghost from_gives = { λ _ e. e ≡ NoMemory };

    fn from(_e: AllocError) -> TextFault {
        TextFault::NoMemory
    }
}

impl From<proto_base::NoMemory> for TextFault {
    ghost from_gives = { λ _ e. e ≡ NoMemory };

    fn from(_e: proto_base::NoMemory) -> TextFault {
        TextFault::NoMemory
    }
}

impl<T: Drop> From<AllocFailed<T>> for TextFault {
    ghost from_gives = { λ _ e. e ≡ NoMemory };

    fn from(_e: AllocFailed<T>) -> TextFault {
        TextFault::NoMemory
    }
}
