//! What number tokens stand for.

ghost use Rattle.std.specs.Prelude.{◌≡◌, ◌≤◌, min};
ghost use Rattle.proto_text.specs.Strings.{number_in, digit_value};
ghost use Rattle.proto_ast.specs.Numbers.{past, number_value};

// Past every limit of the language.
const PAST: u128 = 1 << 64;

fn digit_value(digit: u8) -> u32
    ensures value { result ≡ digit_value digit }
    ensures small { result ≤ 255 }
{
    let digit = u32::from(digit);
    if digit >= 48 && digit <= 57 {
        digit - 48
    } else if digit >= 97 {
        digit - 87
    } else {
        digit.saturating_sub(55)
    }
}

// The number of the digits, or `PAST` where it is not less.
fn number_in(base: u32, digits: &[u8]) -> u128
    requires low { 1 ≤ base }
    requires high { base ≤ 16 }
    ensures { result ≡ min past (number_in base 0 digits.now) }
{
    let mut number: u128 = 0;
    for digit in digits {
        number = (number * u128::from(base) + u128::from(digit_value(*digit))).min(PAST);
    }
    number
}

/// What the text of a number token stands for, or 2^64 where that is less.
pub fn number_of(text: &str) -> u128
    ensures { result ≡ min past (number_value text.now) }
{
    match text.as_bytes() {
        [b'0', b'x' | b'X', digits @ ..] => number_in(16, digits),
        [b'0', ..] => number_in(8, text.as_bytes()),
        _ => number_in(10, text.as_bytes()),
    }
}
