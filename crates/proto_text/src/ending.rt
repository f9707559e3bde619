//! Where a string ends.

ghost use Rattle.std.specs.Prelude.{◌≡◌, ◌≤◌, length, false, IfSome};
ghost use Rattle.proto_text.specs.Strings.{step_of, end_len};

/// What a byte of a string does.
#[derive(Clone, Copy)]
pub enum Step {
    /// A line feed or U+0000: the string does not end.
    Breaks,
    /// The quote that ends the string.
    Ends,
    /// The string goes on; whether a backslash escapes the next byte.
    GoesOn(bool),
}

fn step_at(escaped: bool, quote: u8, byte: u8) -> Step
    ensures { result ≡ step_of escaped quote byte }
{
    if byte == b'\n' || byte == 0 {
        Step::Breaks
    } else if escaped {
        Step::GoesOn(false)
    } else if byte == quote {
        Step::Ends
    } else {
        Step::GoesOn(byte == b'\\')
    }
}

/// How many bytes there are through the quote that ends a string, if it ends. The bytes are those
/// behind its first quote.
pub fn string_close(quote: u8, bytes: &[u8]) -> Option<usize>
    ensures value { result ≡ end_len false quote bytes.now }
    ensures bound { IfSome result (λ n. n ≤ length bytes.now) }
{
    let mut escaped = false;
    for (i, byte) in bytes.iter().enumerate() {
        match step_at(escaped, quote, *byte) {
            Step::Breaks => return None,
            Step::Ends => return Some(i + 1),
            Step::GoesOn(next) => escaped = next,
        }
    }
    None
}
