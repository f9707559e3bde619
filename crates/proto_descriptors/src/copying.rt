//! What has copies, and the copies of texts and lists.

ghost use Rattle.std.specs.Prelude.{◌≡◌, ℕ, List, IfOk, map, option_map, string_bytes};

use proto_base::NoMemory;
use std::alloc::Global;

/// What has copies that say the same, with texts and lists of their own.
pub(crate) trait HasCopy: Drop {
    ghost View: { Type 0 } = { Unit {0} };

    ghost view: { Self → View };

    /// The same again. Fails only when out of memory.
    fn copy(&self, alloc: Global) -> Result<Self, NoMemory>
        ensures { IfOk result (λ copy. view copy ≡ view self.now) };
}

impl HasCopy for String {
    ghost View = { List ℕ };

    ghost view = { string_bytes };

    fn copy(&self, alloc: Global) -> Result<String, NoMemory> {
        Ok(String::from_str(alloc, self.as_str())?)
    }
}

/// The same in the same order.
pub(crate) fn copies<T: HasCopy>(alloc: Global, values: &[T]) -> Result<Vec<T>, NoMemory>
    ensures { IfOk result (λ copy. map T.view copy.items ≡ map T.view values.now) }
{
    let mut copy = Vec::with_capacity(alloc, values.len())?;
    for value in values {
        let own = value.copy(alloc)?;
        copy.push(own)?;
    }
    Ok(copy)
}

/// The same text, where there is one.
pub(crate) fn copied_text(alloc: Global, text: &Option<String>) -> Result<Option<String>, NoMemory>
    ensures { IfOk result
        (λ copy. option_map string_bytes copy ≡ option_map string_bytes text.now) }
{
    match text {
        None => Ok(None),
        Some(text) => {
            let own = String::from_str(alloc, text.as_str())?;
            Ok(Some(own))
        }
    }
}
