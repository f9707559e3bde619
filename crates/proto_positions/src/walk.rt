//! A walk through a text, byte by byte.

ghost use Rattle.std.specs.Prelude.{◌≡◌, ◌+◌, ◌<◌, ◌≤◌, ◌^◌};
ghost use Rattle.proto_positions.specs.Positions.{is_reached, start, step};

use crate::encoding::{Encoding, units};
use crate::position::Position;

/// Where a walk through a text is.
#[derive(Clone, Copy)]
pub(crate) struct Walk {
    /// How many lines ended so far.
    pub(crate) line: u32,
    /// How many units the line has so far.
    pub(crate) column: u32,
    /// Whether the byte before is a carriage return.
    pub(crate) follows_return: bool,
}

impl Walk {
    /// At the beginning.
    pub(crate) fn new() -> Walk
        ensures { result ≡ start }
    {
        Walk {
            line: 0,
            column: 0,
            follows_return: false,
        }
    }

    /// One byte further.
    pub(crate) fn step(self, encoding: Encoding, byte: u8) -> Walk
        requires line { self.line < 2 ^ 31 }
        requires column { self.column < 2 ^ 31 }
        ensures step { result ≡ step encoding self byte }
        ensures few_lines { result.line ≤ self.line + 1 }
        ensures few_columns { result.column ≤ self.column + 2 }
    {
        match byte {
            b'\r' => Walk {
                line: self.line + 1,
                column: 0,
                follows_return: true,
            },
            b'\n' => Walk {
                line: if self.follows_return {
                    self.line
                } else {
                    self.line + 1
                },
                column: 0,
                follows_return: false,
            },
            _ => Walk {
                line: self.line,
                column: self.column + units(encoding, byte),
                follows_return: false,
            },
        }
    }

    /// Whether the walk has come to the position, before this byte.
    pub(crate) fn is_at(self, byte: u8, position: Position) -> bool
        ensures { result ≡ is_reached self byte position }
    {
        let is_end = byte == b'\n' || byte == b'\r';
        let is_inner = byte >= 128 && byte < 192;
        self.line == position.line
            && !(self.follows_return && byte == b'\n')
            && (is_end || (position.character <= self.column && !is_inner))
    }
}
