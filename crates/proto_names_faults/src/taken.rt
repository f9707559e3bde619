//! Texts that are taken.

ghost use Rattle.std.specs.Prelude.{◌≡◌, ◌||◌, ℕ, List, IfOk, OnOk};
ghost use Rattle.std.specs.HashSet.{contains_text};
ghost use Rattle.std.specs.Str.{bytes_eq};

use proto_base::NoMemory;
use std::alloc::Global;
use std::collections::HashSet;

/// Puts a text among those that are taken; answers whether it was there. Fails only when out of
/// memory.
pub(crate) fn take_name(
    alloc: Global,
    taken: &mut HashSet<String>,
    text: &str,
) -> Result<bool, NoMemory>
    ensures was { IfOk result (λ b. b ≡ contains_text taken.old text.now) }
    ensures names { OnOk result ((other : List ℕ) → contains_text taken.new other
        ≡ (contains_text taken.old other || bytes_eq text.now other)) }
{
    let own = String::from_str(alloc, text)?;
    let is_new = taken.insert(own)?;
    Ok(!is_new)
}
