//! Lower snake, upper snake and Pascal names.

ghost use Rattle.std.specs.Prelude.{◌≡◌, ◌||◌, ◌==◌, IfOk};
ghost use Rattle.std.specs.Char.{is_ascii_alphanumeric, is_ascii_digit, is_ascii_lowercase, is_ascii_uppercase};
ghost use Rattle.std.specs.List.{list_all};
ghost use Rattle.std.specs.String.{string_bytes};
ghost use Rattle.proto_base.specs.Ascii as ascii;
ghost use Rattle.proto_case.specs.Cases.{are_apart, begins_lower, begins_word, is_lower_snake, is_pascal, is_upper_snake, upper};

use proto_base::NoMemory;
use std::alloc::Global;

// Whether there is no `_` at the end, and no two are beside each other.
fn are_apart(bytes: &[u8]) -> bool
    ensures { result ≡ are_apart bytes.now }
{
    let mut is_behind = false;
    for byte in bytes {
        if is_behind && *byte == b'_' {
            return false;
        }
        is_behind = *byte == b'_';
    }
    !is_behind
}

// Lower-case letters, digits and `_` alone.
fn has_lower_snake_bytes(bytes: &[u8]) -> bool
    ensures { result ≡ list_all
        (λ b. is_ascii_lowercase b || is_ascii_digit b || b == ascii.underscore) bytes.now }
{
    bytes
        .iter()
        .all(|b| matches!(*b, b'a'..=b'z' | b'0'..=b'9' | b'_'))
}

/// Whether a name has lower-case letters, digits and `_` alone, begins with a letter, does not end
/// in `_`, and has no two `_` beside each other. Letters are those of ASCII.
pub fn is_lower_snake(name: &str) -> bool
    ensures { result ≡ is_lower_snake name.now }
{
    match name.as_bytes() {
        [] => false,
        [first, rest @ ..] => first.is_ascii_lowercase()
            && has_lower_snake_bytes(rest)
            && are_apart(name.as_bytes()),
    }
}

// Upper-case letters, digits and `_` alone.
fn has_upper_snake_bytes(bytes: &[u8]) -> bool
    ensures { result ≡ list_all
        (λ b. is_ascii_uppercase b || is_ascii_digit b || b == ascii.underscore) bytes.now }
{
    bytes
        .iter()
        .all(|b| matches!(*b, b'A'..=b'Z' | b'0'..=b'9' | b'_'))
}

// As `is_lower_snake`: letters of a case are told by a call of std, which is no value to pass.

/// Whether a name has upper-case letters, digits and `_` alone, begins with a letter, does not end
/// in `_`, and has no two `_` beside each other. Letters are those of ASCII.
pub fn is_upper_snake(name: &str) -> bool
    ensures { result ≡ is_upper_snake name.now }
{
    match name.as_bytes() {
        [] => false,
        [first, rest @ ..] => first.is_ascii_uppercase()
            && has_upper_snake_bytes(rest)
            && are_apart(name.as_bytes()),
    }
}

// Letters of ASCII and digits alone.
fn are_alphanumeric(bytes: &[u8]) -> bool
    ensures { result ≡ list_all is_ascii_alphanumeric bytes.now }
{
    bytes.iter().all(|b| b.is_ascii_alphanumeric())
}

/// Whether a name has letters and digits alone, and begins with an upper-case letter. Letters are
/// those of ASCII.
pub fn is_pascal(name: &str) -> bool
    ensures { result ≡ is_pascal name.now }
{
    match name.as_bytes() {
        [] => false,
        [first, rest @ ..] => first.is_ascii_uppercase() && are_alphanumeric(rest),
    }
}

// Whether the first byte, if there is one, is a lower-case letter.
fn begins_lower(bytes: &[u8]) -> bool
    ensures { result ≡ begins_lower bytes.now }
{
    match bytes {
        [] => false,
        [first, ..] => first.is_ascii_lowercase(),
    }
}

// Whether a word begins at a character, which stands between these.
fn begins_word(before: Option<char>, c: char, rest: &str) -> bool
    ensures { result ≡ begins_word before c rest.now }
{
    match before {
        None | Some('_') => false,
        Some(before) => c.is_ascii_uppercase()
            && (before.is_ascii_lowercase()
                || before.is_ascii_digit()
                || begins_lower(rest.as_bytes())),
    }
}

/// A name in upper case, with `_` before each word but the first: `HTTPCode` gives `HTTP_CODE`.
/// Letters of ASCII alone have an upper case. Fails only when out of memory.
pub fn upper(alloc: Global, name: &str) -> Result<String, NoMemory>
    ensures { IfOk result (λ s. string_bytes s ≡ upper name.now) }
{
    let mut words = String::new(alloc);
    let mut before = None;
    let mut chars = name.chars();
    while let Some(c) = chars.next() {
        if begins_word(before, c, chars.as_str()) {
            words.push('_')?;
        }
        words.push(c.to_ascii_uppercase())?;
        before = Some(c);
    }
    Ok(words)
}
