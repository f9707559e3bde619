//! A text, and places in it.

ghost use Rattle.std.specs.Prelude.{◌≡◌, ◌≤◌, length};
ghost use Rattle.std.specs.Str.{IsUtf8};
ghost use Rattle.proto_base.specs.Texts.{text_limit};
ghost use Rattle.proto_text.specs.Lines.{line_behind, column_behind, line_at, column_at};

use crate::fault::TextFault;
use proto_base::MAX_LEN;
use std::marker::Model;

/// The bytes from `start` on and before `end`, counted from 0.
#[derive(Clone, Copy, Debug, PartialEq, Eq)]
pub struct Span {
    /// The offset of its first byte.
    pub start: u32,
    /// The offset behind its last byte.
    pub end: u32,
}

/// A text of at most `MAX_LEN` bytes.
#[derive(Drop)]
pub struct Source {
    text: String,
}

impl Model for Source {
    ghost use Rattle.std.specs.Prelude.{List, ℕ, ◌≤◌, length};
    ghost use Rattle.std.specs.String.{string_bytes};
    ghost use Rattle.proto_base.specs.Texts.{text_limit};

    ghost Value = { List ℕ };

    ghost view = { λ s. string_bytes s.text };

    ghost invariant = { λ s. length (string_bytes s.text) ≤ text_limit };
}

// The line and the column behind the bytes.
fn last_line_col(front: &[u8]) -> (u32, u32)
    requires { length front.now ≤ text_limit }
    ensures line { result.0 ≡ line_behind front.now }
    ensures column { result.1 ≡ column_behind front.now }
{
    let mut line: u32 = 1;
    let mut column: u32 = 1;
    for byte in front {
        if *byte == b'\n' {
            line += 1;
            column = 1;
        } else {
            column += 1;
        }
    }
    (line, column)
}

impl Source {
    ghost use Rattle.proto_text.specs.SourceFacts.{NewSource, IsSpan, text_at};

    /// The text of the bytes. It is refused as too large past `MAX_LEN` bytes, else where they are
    /// not UTF-8. Takes no memory.
    pub fn new(bytes: Vec<u8>) -> Result<Source, TextFault>
        ensures new { NewSource bytes.items result }
    {
        if bytes.len() > MAX_LEN {
            return Err(TextFault::TooLarge);
        }
        match String::from_utf8(bytes) {
            Ok(text) => {
                let _text = text.as_str();
                Ok(Source { text })
            }
            Err(_) => Err(TextFault::NotUtf8),
        }
    }

    /// The text at a span, as that of a token. Takes no memory.
    pub fn text(&self, span: Span) -> &str
        requires { IsSpan self.now span }
        ensures { result.now ≡ text_at self.now span }
    {
        &self.text.as_str()[span.start as usize..span.end as usize]
    }

    /// The line and the column of an offset, in bytes and from 1. A line feed ends its line.
    pub fn line_col(&self, offset: u32) -> (u32, u32)
        requires { offset ≤ length self.now }
        ensures line { result.0 ≡ line_at self.now offset }
        ensures column { result.1 ≡ column_at self.now offset }
    {
        let (front, _) = self.text.as_str().as_bytes().split_at(offset as usize);
        last_line_col(front)
    }

    /// The bytes of the text.
    pub fn as_bytes(&self) -> &[u8]
        ensures value { result.now ≡ self.now }
        ensures short { length result.now ≤ text_limit }
        ensures utf8 { IsUtf8 result.now }
    {
        self.text.as_str().as_bytes()
    }
}
