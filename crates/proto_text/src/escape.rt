//! What a string stands for.

ghost use Rattle.std.specs.Prelude.{◌≡◌, ◌<◌, ◌≤◌, ◌↔◌, List, ℕ, length, IsTrue, IfOk, IfSome, MatchOption};
ghost use Rattle.std.specs.List.{list_any, prefix_len};
ghost use Rattle.std.specs.Str.{IsUtf8};
ghost use Rattle.proto_text.specs.Bytes.{is_backslash, is_octal, is_hex};
ghost use Rattle.proto_text.specs.Strings.{escape_of, digit_value, number_in, octal_at, hex_at, escape_at, unit_at, Means, IsAllowed};

use proto_base::NoMemory;
use std::alloc::Global;

/// What a character behind a backslash begins.
#[derive(Clone, Copy)]
pub enum Escape {
    /// One to three octal digits, of which it is the first.
    Octal,
    /// One or two hexadecimal digits behind it.
    Hexadecimal,
    /// Nothing more: the two characters stand for this byte.
    Single(u8),
    /// No allowed escape.
    Unknown,
}

#[tactic(auto, unfolding(crate::specs::Strings::escape_of))]
fn escape_of_byte(byte: u8) -> Escape
    ensures { result ≡ escape_of byte }
{
    match byte {
        b'0'..=b'7' => Escape::Octal,
        b'x' => Escape::Hexadecimal,
        b'a' => Escape::Single(7),
        b'b' => Escape::Single(8),
        b't' => Escape::Single(9),
        b'n' => Escape::Single(10),
        b'v' => Escape::Single(11),
        b'f' => Escape::Single(12),
        b'r' => Escape::Single(13),
        b'"' | b'\'' | b'?' | b'\\' => Escape::Single(byte),
        _ => Escape::Unknown,
    }
}

fn octal_len(bytes: &[u8]) -> usize
    ensures value { result ≡ prefix_len is_octal bytes.now }
    ensures bound { result ≤ length bytes.now }
{
    for (i, byte) in bytes.iter().enumerate() {
        if *byte < b'0' || *byte > b'7' {
            return i;
        }
    }
    bytes.len()
}

fn hex_len(bytes: &[u8]) -> usize
    ensures value { result ≡ prefix_len is_hex bytes.now }
    ensures bound { result ≤ length bytes.now }
{
    for (i, byte) in bytes.iter().enumerate() {
        if !byte.is_ascii_hexdigit() {
            return i;
        }
    }
    bytes.len()
}

fn value_of_digit(byte: u8) -> u32
    ensures value { result ≡ digit_value byte }
    ensures bound { result ≤ 255 }
{
    if byte.is_ascii_digit() {
        (byte - b'0') as u32
    } else if byte >= b'a' {
        (byte - 87) as u32
    } else {
        byte.saturating_sub(55) as u32
    }
}

fn octal_value(digits: &[u8]) -> u32
    requires { length digits.now ≤ 3 }
    ensures { result ≡ number_in 8 0 digits.now }
{
    let mut value: u32 = 0;
    for digit in digits {
        value = value * 8 + value_of_digit(*digit);
    }
    value
}

fn hex_value(digits: &[u8]) -> u32
    requires { length digits.now ≤ 3 }
    ensures { result ≡ number_in 16 0 digits.now }
{
    let mut value: u32 = 0;
    for digit in digits {
        value = value * 16 + value_of_digit(*digit);
    }
    value
}

#[tactic(auto, unfolding(crate::specs::Strings::octal_at))]
fn octal(bytes: &[u8]) -> Option<(u8, usize)>
    ensures { result ≡ octal_at bytes.now }
{
    let len = octal_len(bytes).min(3);
    let value = octal_value(&bytes[..len]);
    if len > 0 && value < 256 {
        Some((value as u8, 1 + len))
    } else {
        None
    }
}

#[tactic(auto, unfolding(crate::specs::Strings::hex_at))]
fn hexadecimal(bytes: &[u8]) -> Option<(u8, usize)>
    ensures { result ≡ hex_at bytes.now }
{
    let len = hex_len(bytes).min(2);
    let value = hex_value(&bytes[..len]);
    if len > 0 && value < 256 {
        Some((value as u8, 2 + len))
    } else {
        None
    }
}

#[tactic(auto, unfolding(crate::specs::Strings::escape_at))]
fn escape_unit(bytes: &[u8]) -> Option<(u8, usize)>
    ensures { result ≡ escape_at bytes.now }
{
    let [first, rest @ ..] = bytes else {
        return None;
    };
    match escape_of_byte(*first) {
        Escape::Octal => octal(bytes),
        Escape::Hexadecimal => hexadecimal(rest),
        Escape::Single(value) => Some((value, 2)),
        Escape::Unknown => None,
    }
}

#[tactic(auto, unfolding(crate::specs::Strings::unit_at))]
fn unit_of(bytes: &[u8]) -> Option<(u8, usize)>
    ensures { result ≡ unit_at bytes.now }
{
    match bytes {
        [] => None,
        [b'\\', rest @ ..] => escape_unit(rest),
        [first, ..] => Some((*first, 1)),
    }
}

/// The byte that the first bytes stand for, and how many these are. None where there is no byte, or
/// an escape that is not allowed.
pub fn unit(bytes: &[u8]) -> Option<(u8, usize)>
    ensures value { result ≡ unit_at bytes.now }
    ensures some { IfSome result (λ found. 0 < found.1) }
    ensures fits { IfSome result (λ found. found.1 ≤ length bytes.now) }
{
    unit_of(bytes)
}

fn has_backslash(bytes: &[u8]) -> bool
    ensures { result ≡ list_any is_backslash bytes.now }
{
    bytes.iter().any(|b| *b == b'\\')
}

/// The bytes that the text between the quotes stands for, if each escape is allowed. Fails only
/// when out of memory.
pub fn decoded_bytes(alloc: Global, body: &[u8]) -> Result<Option<Vec<u8>>, NoMemory>
    ensures { IfOk result (λ found. MatchOption found
        ((all : List ℕ) → Means body.now all → ⊥)
        (λ values. Means body.now values.items)) }
{
    if !has_backslash(body) {
        // It stands for itself, so one copy does.
        return Ok(Some(Vec::from_slice(alloc, body)?));
    }
    let mut values = Vec::new(alloc);
    let mut rest = body;
    while !rest.is_empty() {
        let (value, len) = match unit(rest) {
            Some(found) => found,
            None => return Ok(None),
        };
        values.push(value)?;
        let (_, after) = rest.split_at(len);
        rest = after;
    }
    Ok(Some(values))
}

fn is_utf8(bytes: &[u8]) -> bool
    ensures { IsTrue result ↔ IsUtf8 bytes.now }
{
    match std::str::from_utf8(bytes) {
        Ok(_) => true,
        Err(_) => false,
    }
}

/// Whether each escape is allowed, and what the text stands for is UTF-8. Fails only when out
/// of memory; a text without escapes takes none.
pub fn is_allowed(alloc: Global, body: &[u8]) -> Result<bool, NoMemory>
    ensures { IfOk result (λ allowed. IsTrue allowed ↔ IsAllowed body.now) }
{
    if !has_backslash(body) {
        return Ok(is_utf8(body));
    }
    match decoded_bytes(alloc, body)? {
        None => Ok(false),
        Some(values) => Ok(is_utf8(values.as_slice())),
    }
}
