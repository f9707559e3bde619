//! Full names as texts.

ghost use Rattle.std.specs.Prelude.{◌≡◌, IfOk, string_bytes};
ghost use Rattle.proto_names_rules.specs.Joined.{below};

use proto_base::NoMemory;
use std::alloc::Global;

/// The name of a word right below a scope: behind it and a dot. Fails only when out of memory.
pub fn below(alloc: Global, scope: &str, word: &str) -> Result<String, NoMemory>
    ensures { IfOk result (λ name. string_bytes name ≡ below scope.now word.now) }
{
    let len = scope.len().saturating_add(word.len()).saturating_add(1);
    let mut name = String::with_capacity(alloc, len)?;
    name.push_str(scope)?;
    name.push('.')?;
    name.push_str(word)?;
    Ok(name)
}
