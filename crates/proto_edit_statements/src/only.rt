//! One change.

ghost use Rattle.std.specs.Prelude.{◌≡◌, ◌∷◌, [], IfOk};

use proto_base::NoMemory;
use proto_edit_entries::Change;
use std::alloc::Global;

/// The change, as the only one.
pub(crate) fn only(alloc: Global, change: Change) -> Result<Vec<Change>, NoMemory>
    ensures { IfOk result (λ changes. changes.items ≡ change ∷ []) }
{
    let mut changes = Vec::new(alloc);
    changes.push(change)?;
    Ok(changes)
}
