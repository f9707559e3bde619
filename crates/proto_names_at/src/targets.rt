//! The target that a name has.

ghost use Rattle.std.specs.Prelude.{◌≡◌, ◌↔◌, List, IsTrue, IfOk, IfSome, IfNone};
ghost use Rattle.proto_files.specs.FilesRead.{AreRead, ReadOf};
ghost use Rattle.proto_edit_captures.specs.FoundTargets.{IsTargetOf};
ghost use Rattle.proto_names_at.specs.NamesAt.{HasTarget};

use crate::place::Place;
use proto_base::NoMemory;
use proto_edit_captures::{NoTarget, RenameTarget, find_target};
use proto_resolved::CleanLinked;
use std::alloc::Global;

/// The target with this name, if a symbol that may be renamed has it.
pub(crate) fn target<'a>(
    alloc: Global,
    linked: &CleanLinked<'_>,
    name: &'a str,
) -> Result<Option<RenameTarget<'a>>, NoMemory>
    ensures some { IfOk result (λ found. IfSome found
        (λ target. IsTargetOf linked.now.files target × (target.name.now ≡ name.entry.now))) }
    ensures none { IfOk result (λ found. IfNone found ((reads : List ReadOf)
        → AreRead linked.now.files reads → HasTarget linked.now.files reads name.entry.now → ⊥)) }
{
    // The files have no fault.
    linked.files();
    match find_target(alloc, linked, name) {
        Ok(target) => Ok(Some(target)),
        Err(NoTarget::Unknown) => Ok(None),
        Err(NoTarget::NotAllowed) => Ok(None),
        Err(NoTarget::NoMemory) => Err(NoMemory),
    }
}

/// Whether the target stands at the token.
pub(crate) fn is_at(target: RenameTarget, place: Place) -> bool
    ensures { IsTrue result
        ↔ ((target.entry.file ≡ place.file) × (target.entry.token ≡ place.token)) }
{
    target.file == place.file && target.token == place.token
}
