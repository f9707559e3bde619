//! Camel case: words that `_` joins, each behind one begun in upper case.

ghost use Rattle.std.specs.Prelude.{◌≡◌, ◌≤◌, ◌++◌, length, IfOk, false, true};
ghost use Rattle.std.specs.Str.{IsUtf8};
ghost use Rattle.std.specs.String.{string_bytes};
ghost use Rattle.proto_case.specs.Camel.{camel_from};

use proto_base::NoMemory;
use std::alloc::Global;

// Writes the first character in upper case where it is no `_`, and answers what stands behind it.
fn push_raised<'a>(name: &mut String, word: &'a str) -> Result<&'a str, NoMemory>
    ensures word { IfOk result (λ rest. string_bytes name.new ++ camel_from false rest.now
        ≡ string_bytes name.old ++ camel_from true word.now) }
    ensures shorter { IfOk result (λ rest. length rest.now ≤ length word.now) }
    ensures utf8 { IfOk result (λ rest. IsUtf8 rest.now) }
{
    let mut chars = word.chars();
    match chars.next() {
        Some(first) if first != '_' => {
            name.push(first.to_ascii_uppercase())?;
            Ok(chars.as_str())
        }
        _ => Ok(word),
    }
}

/// A word without each `_`, the character after one in upper case, as is the first where `is_up`
/// says so. Letters of ASCII alone have an upper case. Fails only when out of memory.
pub fn camel_from(alloc: Global, is_up: bool, word: &str) -> Result<String, NoMemory>
    ensures { IfOk result (λ name. string_bytes name ≡ camel_from is_up word.now) }
{
    let mut name = String::with_capacity(alloc, word.len())?;
    let mut rest = if is_up {
        push_raised(&mut name, word)?
    } else {
        word
    };
    while let Some((before, behind)) = rest.split_once('_') {
        name.push_str(before)?;
        rest = push_raised(&mut name, behind)?;
    }
    name.push_str(rest)?;
    Ok(name)
}
