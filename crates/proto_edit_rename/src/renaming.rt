//! The rename of a name.

ghost use Rattle.std.specs.Prelude.{◌<◌, length, map, IfOk, IfErr};
ghost use Rattle.proto_edit_entries.specs.Entries.{change_of};
ghost use Rattle.proto_edit_rename.specs.Cases.{IsFreeBefore};
ghost use Rattle.proto_edit_rename.specs.Changes.{IsChangesFault};
ghost use Rattle.proto_edit_rename.specs.Renames.{AreChangesOfRename, IsRenamed, IsRenameRefusal};
ghost use Rattle.proto_edit_captures.specs.FoundTargets.{IsTargetOf};
ghost use Rattle.proto_option_files.specs.OptionFiles.{AreOptionFiles};

use crate::changes::changes;
use crate::changing::RewordFault;
use crate::checks::{check_members, check_names, check_word};
use crate::found_target::target_of_name;
use crate::option_checks::{check_fixed, check_values};
use proto_edit_captures::RenameTarget;
use proto_edit_entries::{Change, Refusal};
use proto_option_files::OptionFiles;
use proto_resolved::CleanLinked;
use std::alloc::Global;

/// Case 16, and out of memory.
fn refusal_of(
    linked: &CleanLinked<'_>,
    target: RenameTarget,
    to: &str,
    fault: RewordFault,
) -> Refusal
    requires target { IsTargetOf linked.now.files target }
    requires before { IsFreeBefore linked.now.files target.name.now to.now 10 }
    requires fault { IsChangesFault linked.now.files target to.now fault }
    ensures { IsRenameRefusal linked.now.files target.entry.name.now to.now result }
{
    linked.files();
    match fault {
        RewordFault::TooLarge => Refusal::TooLarge,
        RewordFault::NoMemory => Refusal::NoMemory,
    }
}

/// What the rename of the target changes, or case 16, where no case before it refuses it.
fn changes_or_refusal(
    alloc: Global,
    linked: &CleanLinked<'_>,
    target: RenameTarget,
    to: &str,
) -> Result<Vec<Change>, Refusal>
    requires target { IsTargetOf linked.now.files target }
    requires file { target.file < length linked.now.files }
    requires before { IsFreeBefore linked.now.files target.name.now to.now 10 }
    ensures free { IfOk result (λ _.
        IsFreeBefore linked.now.files target.entry.name.now to.now 19) }
    ensures changes { IfOk result (λ cs.
        AreChangesOfRename linked.now.files target.entry.name.now to.now (map change_of cs.items)) }
    ensures err { IfErr result (IsRenameRefusal linked.now.files target.entry.name.now to.now) }
{
    linked.files();
    match changes(alloc, linked, target, to) {
        Ok(changes) => Ok(changes),
        Err(fault) => Err(refusal_of(linked, target, to, fault)),
    }
}

/// What the rename of the target changes, or the least of the cases from 3 on that refuses it.
fn changes_of_rename<'a>(
    alloc: Global,
    linked: &CleanLinked<'a>,
    index: &OptionFiles,
    target: RenameTarget<'a>,
    to: &'a str,
) -> Result<Vec<Change>, Refusal>
    requires index { AreOptionFiles linked.now.files index.now }
    requires target { IsTargetOf linked.now.files target }
    requires file { target.file < length linked.now.files }
    requires before { IsFreeBefore linked.now.files target.name.now to.now 3 }
    ensures ok { IfOk result (λ cs.
        IsRenamed linked.now.files target.entry.name.now to.entry.now (map change_of cs.items)) }
    ensures err { IfErr result
        (IsRenameRefusal linked.now.files target.entry.name.now to.entry.now) }
{
    check_word(linked, target, to)?;
    check_names(alloc, linked, target, to)?;
    check_members(alloc, linked, target, to)?;
    let changes = changes_or_refusal(alloc, linked, target, to)?;
    check_values(alloc, linked, index, target, to)?;
    check_fixed(alloc, linked, target, to)?;
    Ok(changes)
}

/// What the rename of a full name, without a leading dot, to a new simple name changes, file by
/// file; or the least case that refuses it, by number: UnknownTarget, KindNotAllowed,
/// NotAnIdentifier, KeywordName, SameName, Collision, Captured (with its place), NameReserved,
/// JsonClash, TooLarge, OptionValue (with its place), FixedName. `NoMemory` may come in place of any
/// answer. The index is asked which files may have an option with the old or the new name.
pub fn rename(
    alloc: Global,
    linked: &CleanLinked<'_>,
    index: &OptionFiles,
    name: &str,
    to: &str,
) -> Result<Vec<Change>, Refusal>
    requires index { AreOptionFiles linked.now.files index.now }
    ensures ok { IfOk result (λ cs.
        IsRenamed linked.now.files name.now to.now (map change_of cs.items)) }
    ensures err { IfErr result (IsRenameRefusal linked.now.files name.now to.now) }
{
    let target = target_of_name(alloc, linked, name)?;
    changes_of_rename(alloc, linked, index, target, to)
}
