//! The bytes of a schema, by what they may begin.

ghost use Rattle.std.specs.Prelude.{◌≡◌};
ghost use Rattle.proto_text.specs.Classes.{class_of, is_identifier};

/// What a byte may begin.
#[derive(Clone, Copy)]
pub enum Class {
    /// One byte of white space.
    Space,
    /// A word: an ASCII letter or `_`.
    Letter,
    /// A number: a decimal digit.
    Digit,
    /// A string: `"` or `'`.
    Quote,
    /// One byte of punctuation, which is a token.
    Mark,
    /// A comment: `/`.
    Slash,
    /// Nothing.
    Other,
}

/// The class of a byte.
#[tactic(auto, unfolding(crate::specs::Classes::class_of))]
pub fn class_of_byte(byte: u8) -> Class
    ensures { result ≡ class_of byte }
{
    if byte == b' ' || (byte >= 9 && byte <= 13) {
        return Class::Space;
    }
    if byte.is_ascii_alphabetic() || byte == b'_' {
        return Class::Letter;
    }
    if byte.is_ascii_digit() {
        return Class::Digit;
    }
    match byte {
        b'"' | b'\'' => Class::Quote,
        b'('
        | b')'
        | b','
        | b'-'
        | b'.'
        | b':'
        | b';'
        | b'<'
        | b'='
        | b'>'
        | b'['
        | b']'
        | b'{'
        | b'}' => Class::Mark,
        b'/' => Class::Slash,
        _ => Class::Other,
    }
}

/// Whether a byte is an ASCII letter, `_` or a decimal digit.
pub fn is_identifier_byte(byte: u8) -> bool
    ensures { result ≡ is_identifier byte }
{
    match class_of_byte(byte) {
        Class::Letter | Class::Digit => true,
        _ => false,
    }
}
