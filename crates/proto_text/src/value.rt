//! The value of a string token.

ghost use Rattle.std.specs.Prelude.{◌≡◌, ◌↔◌, ◌<◌, ◌++◌, ◌∷◌, [], ℕ, length, IfOk, IfSome, IsTrue, MatchOption, Some};
ghost use Rattle.std.specs.String.{string_bytes};
ghost use Rattle.proto_text.specs.Strings.{IsString, Means};
ghost use Rattle.proto_text.specs.Values.{StandsFor, says, value_of};

use crate::escape::{decoded_bytes, unit};
use proto_base::NoMemory;
use std::alloc::Global;

// What stands between the first byte and the last.
fn between(text: &[u8]) -> Option<&[u8]>
    ensures { MatchOption result
        (length text.now < 2)
        (λ body. (first last : ℕ) × (text.now ≡ first ∷ (body.now ++ last ∷ []))) }
{
    match text {
        [_, body @ .., _] => Some(body),
        _ => None,
    }
}

// Takes a unit from a body and its byte from a value, if they are one.
fn behind_unit<'a, 'b>(body: &'a [u8], value: &'b [u8]) -> Option<(&'a [u8], &'b [u8])>
    requires { 0 < length body.now }
    ensures same { MatchOption result
        (Means body.now value.now → ⊥)
        (λ rest. Means rest.0.now rest.1.now ↔ Means body.now value.now) }
    ensures shorter { IfSome result (λ rest. length rest.0.now < length body.now) }
{
    let (found, len) = unit(body)?;
    let (first, more) = value.split_first()?;
    if found != *first {
        return None;
    }
    let (_, after) = body.split_at(len);
    Some((after, more))
}

fn means(body: &[u8], value: &[u8]) -> bool
    ensures { IsTrue result ↔ Means body.now value.now }
{
    let mut rest = body;
    let mut left = value;
    while !rest.is_empty() {
        let (after, more) = match behind_unit(rest, left) {
            Some(found) => found,
            None => return false,
        };
        rest = after;
        left = more;
    }
    left.is_empty()
}

fn is_value(text: &[u8], value: &[u8]) -> bool
    ensures { IsTrue result ↔ StandsFor text.now value.now }
{
    match between(text) {
        Some(body) => means(body, value),
        None => false,
    }
}

/// Whether the text of a string token stands for a value, after its escapes. Takes no memory.
pub fn stands_for(text: &str, value: &[u8]) -> bool
    ensures means { IsTrue result ↔ StandsFor text.now value.now }
    ensures test { result ≡ says text.now value.now }
{
    is_value(text.as_bytes(), value)
}

/// The value of a string token, after its escapes. Fails only when out of memory.
pub fn string_value(alloc: Global, text: &str) -> Result<String, NoMemory>
    requires { IsString text.now }
    ensures means { IfOk result (λ value. StandsFor text.now (string_bytes value)) }
    ensures value { IfOk result (λ value. value_of text.now ≡ Some (string_bytes value)) }
{
    let body = match between(text.as_bytes()) {
        Some(body) => body,
        None => unreachable!(),
    };
    match decoded_bytes(alloc, body)? {
        Some(values) => match String::from_utf8(values) {
            Ok(value) => Ok(value),
            Err(_) => unreachable!(),
        },
        None => unreachable!(),
    }
}
