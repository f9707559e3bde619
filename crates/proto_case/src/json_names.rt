//! The names of fields in JSON.

ghost use Rattle.std.specs.Prelude.{◌≡◌, option_map, IfOk};
ghost use Rattle.std.specs.String.{string_bytes};
ghost use Rattle.proto_case.specs.Camel.{written_or};

use crate::camel_case::camel_from;
use proto_base::NoMemory;
use std::alloc::Global;

/// The name of a field in JSON: the one that is written, where one is; else its word without each
/// `_`, the character after one in upper case. Fails only when out of memory.
pub fn written_or(alloc: Global, written: Option<String>, word: &str) -> Result<String, NoMemory>
    ensures { IfOk result (λ name. string_bytes name
        ≡ written_or (option_map string_bytes written) word.now) }
{
    match written {
        Some(name) => Ok(name),
        None => camel_from(alloc, false, word),
    }
}
