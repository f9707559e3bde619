//! The cases that refuse a rename, in the order of their numbers.

ghost use Rattle.std.specs.Prelude.{◌≡◌, true, IfOk, IfErr};
ghost use Rattle.proto_edit_rename.specs.Cases.{IsFreeBefore};
ghost use Rattle.proto_edit_rename.specs.Renames.{IsRenameRefusal};
ghost use Rattle.proto_edit_captures.specs.FoundTargets.{IsTargetOf};
ghost use Rattle.proto_text.specs.Words.{is_run};

use crate::json_names::clashes;
use crate::reserved::is_reserved;
use proto_edit_captures::{
    RenameTarget, captured_refusal, collides, first_captured, has_name, is_keyword,
};
use proto_edit_entries::Refusal;
use proto_resolved::CleanLinked;
use proto_text::is_word;
use std::alloc::Global;

/// Cases 3 to 5: the new name is a word, one that the target may have, and not the one that it has.
pub(crate) fn check_word(
    linked: &CleanLinked<'_>,
    target: RenameTarget,
    to: &str,
) -> Result<(), Refusal>
    requires target { IsTargetOf linked.now.files target }
    requires before { IsFreeBefore linked.now.files target.name.now to.now 3 }
    ensures free { IfOk result (λ _. IsFreeBefore linked.now.files target.entry.name.now to.now 6) }
    ensures word { IfOk result (λ _. is_run to.now ≡ true) }
    ensures err { IfErr result (IsRenameRefusal linked.now.files target.entry.name.now to.now) }
{
    let files = linked.files();
    if !is_word(to) {
        return Err(Refusal::NotAnIdentifier);
    }
    if is_keyword(target.kind, to) {
        return Err(Refusal::KeywordName);
    }
    if has_name(files, target, to) {
        return Err(Refusal::SameName);
    }
    Ok(())
}

/// Cases 6 and 7: no new name is taken, and no reference is captured.
pub(crate) fn check_names<'a>(
    alloc: Global,
    linked: &CleanLinked<'a>,
    target: RenameTarget<'a>,
    to: &'a str,
) -> Result<(), Refusal>
    requires target { IsTargetOf linked.now.files target }
    requires word { is_run to.now ≡ true }
    requires before { IsFreeBefore linked.now.files target.name.now to.now 6 }
    ensures free { IfOk result (λ _.
        IsFreeBefore linked.now.files target.entry.name.now to.entry.now 8) }
    ensures err { IfErr result
        (IsRenameRefusal linked.now.files target.entry.name.now to.entry.now) }
{
    let files = linked.files();
    if collides(alloc, linked, target, to)? {
        return Err(Refusal::Collision);
    }
    match first_captured(alloc, linked, &target, to)? {
        None => Ok(()),
        Some(reference) => Err(captured_refusal(alloc, files, reference.file, reference.token)?),
    }
}

/// Cases 8 and 9: the new name is not reserved, and no two fields get one JSON name.
pub(crate) fn check_members(
    alloc: Global,
    linked: &CleanLinked<'_>,
    target: RenameTarget,
    to: &str,
) -> Result<(), Refusal>
    requires target { IsTargetOf linked.now.files target }
    requires before { IsFreeBefore linked.now.files target.name.now to.now 8 }
    ensures free { IfOk result (λ _.
        IsFreeBefore linked.now.files target.entry.name.now to.now 10) }
    ensures err { IfErr result (IsRenameRefusal linked.now.files target.entry.name.now to.now) }
{
    linked.files();
    if is_reserved(alloc, linked, target, to)? {
        return Err(Refusal::NameReserved);
    }
    if clashes(alloc, linked, target, to)? {
        return Err(Refusal::JsonClash);
    }
    Ok(())
}
