//! The name of the message that stands for a map field's pairs.

ghost use Rattle.std.specs.Prelude.{◌≡◌, IfOk};
ghost use Rattle.std.specs.String.{string_bytes};
ghost use Rattle.proto_case.specs.Camel.{entry_name};

use crate::camel_case::camel_from;
use proto_base::NoMemory;
use std::alloc::Global;

/// The name of the message that stands for a map field's pairs: the field's word without each `_`,
/// what follows one in upper case, as is the first, and `Entry` behind it. Letters of ASCII alone
/// have an upper case. Fails only when out of memory.
pub fn entry_name(alloc: Global, word: &str) -> Result<String, NoMemory>
    ensures name { IfOk result (λ name. string_bytes name ≡ entry_name word.now) }
{
    let mut name = camel_from(alloc, true, word)?;
    name.push_str("Entry")?;
    Ok(name)
}
