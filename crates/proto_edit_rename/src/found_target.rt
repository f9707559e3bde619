//! The target of a rename, or why there is none.

ghost use Rattle.std.specs.Prelude.{◌≡◌, ◌<◌, List, ℕ, length, IfOk, IfErr};
ghost use Rattle.proto_edit_rename.specs.Cases.{IsFreeBefore};
ghost use Rattle.proto_edit_rename.specs.Renames.{IsRenameRefusal};
ghost use Rattle.proto_edit_captures.specs.FoundTargets.{IsTargetOf};

use proto_edit_captures::{NoTarget, RenameTarget, find_target};
use proto_edit_entries::Refusal;
use proto_resolved::CleanLinked;
use std::alloc::Global;

/// The target with this name: cases 1 and 2.
pub(crate) fn target_of_name<'a>(
    alloc: Global,
    linked: &CleanLinked<'_>,
    name: &'a str,
) -> Result<RenameTarget<'a>, Refusal>
    ensures target { IfOk result (λ target. IsTargetOf linked.now.files target) }
    ensures named { IfOk result (λ target. target.name.now ≡ name.entry.now) }
    ensures file { IfOk result (λ target. target.file < length linked.now.files) }
    ensures free { IfOk result (λ target. (to : List ℕ)
        → IsFreeBefore linked.now.files name.entry.now to 3) }
    ensures err { IfErr result (λ e. (to : List ℕ)
        → IsRenameRefusal linked.now.files name.entry.now to e) }
{
    // Each file is read, and has no fault.
    linked.files();
    match find_target(alloc, linked, name) {
        Ok(target) => Ok(target),
        Err(NoTarget::Unknown) => Err(Refusal::UnknownTarget),
        Err(NoTarget::NotAllowed) => Err(Refusal::KindNotAllowed),
        Err(NoTarget::NoMemory) => Err(Refusal::NoMemory),
    }
}
