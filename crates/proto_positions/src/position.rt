//! Positions and the offsets that they lead to.

ghost use Rattle.std.specs.Prelude.{◌≡◌, ◌≤◌, length};
ghost use Rattle.proto_base.specs.Texts.{Text, text_limit};
ghost use Rattle.proto_positions.specs.Positions.{offset_of, position_of};
ghost use Rattle.proto_positions.specs.declared.encoding.Encoding.{Encoding};

use crate::encoding::Encoding;
use crate::walk::Walk;

/// A position in a text.
#[derive(Clone, Copy, Debug, PartialEq, Eq)]
pub struct Position {
    /// The line, from 0.
    pub line: u32,
    /// The column, from 0, in units of an encoding.
    pub character: u32,
}

/// The offset of a position in the text, in bytes from 0. A column past its line leads to the
/// line's end, a line past the text to the text's end, and a column within a character to the
/// character's end; so the offset is never within a character or a line end. Takes no memory.
pub fn offset_of(text: &[u8], encoding: Encoding, position: Position) -> usize
    requires { length text.now ≤ text_limit }
    ensures exact { result ≡ offset_of encoding text.now position }
    ensures within { result ≤ length text.now }
{
    let mut walk = Walk::new();
    for (at, byte) in text.iter().enumerate() {
        if walk.is_at(*byte, position) {
            return at;
        }
        walk = walk.step(encoding, *byte);
    }
    text.len()
}

/// An offset of a text, with its position, from which one goes on.
#[derive(Clone, Copy)]
pub struct Cursor {
    pub(crate) offset: usize,
    pub(crate) walk: Walk,
}

impl Cursor {
    ghost use Rattle.proto_positions.specs.Positions.{IsCursorIn};

    /// At the beginning of any text.
    pub fn new() -> Cursor
        ensures there { (encoding : Encoding) (text : Text) → IsCursorIn encoding text result }
        ensures offset { result.offset ≡ 0 }
    {
        Cursor {
            offset: 0,
            walk: Walk::new(),
        }
    }

    // Itself where it is no further than the offset; else at the beginning.
    fn or_new(self, text: &[u8], encoding: Encoding, offset: usize) -> Cursor
        requires { IsCursorIn encoding text.now self }
        ensures there { IsCursorIn encoding text.now result }
        ensures before { result.offset ≤ offset }
    {
        if self.offset <= offset {
            self
        } else {
            Cursor::new()
        }
    }

    /// At another offset of the same text, in bytes from 0. It reads only what lies between, so
    /// that rising offsets take one walk through the text; for an offset before its own it begins
    /// anew. Takes no memory.
    pub fn moved_to(self, text: &[u8], encoding: Encoding, offset: usize) -> Cursor
        requires limit { length text.now ≤ text_limit }
        requires cursor { IsCursorIn encoding text.now self }
        requires offset { offset ≤ length text.now }
        ensures there { IsCursorIn encoding text.now result }
        ensures offset { result.offset ≡ offset }
    {
        let from = self.or_new(text, encoding, offset);
        let mut walk = from.walk;
        for at in from.offset..offset {
            walk = walk.step(encoding, text[at]);
        }
        Cursor { offset, walk }
    }

    /// The position of its offset.
    pub fn position(&self) -> Position
        ensures { (encoding : Encoding) (text : Text) → IsCursorIn encoding text self.now
            → result ≡ position_of encoding text self.now.offset }
    {
        Position {
            line: self.walk.line,
            character: self.walk.column,
        }
    }
}
