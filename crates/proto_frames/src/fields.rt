//! Header fields, and the length that they say.

ghost use Rattle.std.specs.Prelude.{◌≡◌, false};
ghost use Rattle.proto_frames.specs.Frames.{field, has_separator, is_length, is_named, number};

use crate::fault::FrameFault;

const LENGTH_NAME: &[u8; 16] = b"Content-Length: ";

// Whether a colon with a space after it stands in the text.
fn has_separator(text: &[u8]) -> bool
    ensures { result ≡ has_separator false text.now }
{
    let mut follows_colon = false;
    for byte in text {
        if follows_colon && *byte == b' ' {
            return true;
        }
        follows_colon = *byte == b':';
    }
    false
}

// Whether a line has a name, a colon and a space.
fn is_named(line: &[u8]) -> bool
    ensures { result ≡ is_named line.now }
{
    match line.split_first() {
        Some((_, rest)) => has_separator(rest),
        None => false,
    }
}

// Whether a line is the field of the length.
fn is_length(line: &[u8]) -> bool
    ensures value { result ≡ is_length line.now }
{
    match line.split_at_checked(16) {
        Some((name, _)) => name.eq_ignore_ascii_case(LENGTH_NAME),
        None => false,
    }
}

// The number of one to ten digits.
fn number(digits: &[u8]) -> Option<u64>
    ensures { result ≡ number digits.now }
{
    if digits.is_empty() || digits.len() > 10 {
        return None;
    }
    let mut value: u64 = 0;
    for digit in digits {
        if !digit.is_ascii_digit() {
            return None;
        }
        value = value * 10 + (*digit - b'0') as u64;
    }
    Some(value)
}

/// The length after a header field, from the length that the fields before it said.
pub(crate) fn length_after(len: Option<u64>, line: &[u8]) -> Result<Option<u64>, FrameFault>
    ensures { result ≡ field len line.now }
{
    if !is_named(line) {
        return Err(FrameFault::Malformed);
    }
    if !is_length(line) {
        return Ok(len);
    }
    if len.is_some() {
        return Err(FrameFault::Malformed);
    }
    match number(&line[16..]) {
        Some(value) => Ok(Some(value)),
        None => Err(FrameFault::Malformed),
    }
}
