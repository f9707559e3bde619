//! In what units columns are counted.

ghost use Rattle.std.specs.Prelude.{◌≡◌, ◌≤◌};
ghost use Rattle.proto_positions.specs.Positions.{units};

/// In what units columns are counted.
#[derive(Clone, Copy, Debug, PartialEq, Eq)]
pub enum Encoding {
    /// Bytes.
    Utf8,
    /// Units of UTF-16: two for a character past U+FFFF, else one.
    Utf16,
}

/// How many units a byte adds, where a character adds them at its first byte.
pub(crate) fn units(encoding: Encoding, byte: u8) -> u32
    ensures units { result ≡ units encoding byte }
    ensures few { result ≤ 2 }
{
    match encoding {
        Encoding::Utf8 => 1,
        Encoding::Utf16 => {
            if byte >= 128 && byte < 192 {
                0
            } else if byte < 240 {
                1
            } else {
                2
            }
        }
    }
}
