//! The changes that a rename makes of files.

ghost use Rattle.std.specs.Prelude.{◌≡◌, ◌<◌, ◌++◌, length, map, IfOk, IfErr, OnOk, option_to_list};
ghost use Rattle.proto_edit_entries.specs.Entries.{change_of};
ghost use Rattle.proto_edit_rename.specs.Changes.{AreChangesOf, IsChangesFault, IsChangeIn, IsFaultIn};
ghost use Rattle.proto_edit_captures.specs.FoundTargets.{IsTargetOf};

use crate::changing::{RewordFault, change_of_file};
use crate::places::{RenameScope, places_in};
use proto_base::NoMemory;
use proto_edit_captures::RenameTarget;
use proto_edit_entries::Change;
use proto_resolved::CleanLinked;
use std::alloc::Global;

fn push_some(changes: &mut Vec<Change>, change: Option<Change>) -> Result<(), NoMemory>
    ensures { OnOk result (changes.new.items ≡ changes.old.items ++ option_to_list change) }
{
    if let Some(change) = change {
        changes.push(change)?;
    }
    Ok(())
}

/// The change of one file, if it is changed.
fn change_in(
    alloc: Global,
    scope: &RenameScope,
    file: u32,
    to: &str,
) -> Result<Option<Change>, RewordFault>
    requires { file < length scope.now.files }
    ensures change { IfOk result (λ found.
        IsChangeIn scope.now.files scope.now.target file to.now found) }
    ensures fault { IfErr result (IsFaultIn scope.now.files scope.now.target file to.now) }
{
    let places = places_in(alloc, scope, file)?;
    change_of_file(alloc, scope.files(), file, &places, to)
}

/// The changes of all files, in their order. Only files are looked at in which words may change.
fn changes_with(alloc: Global, scope: &RenameScope, to: &str) -> Result<Vec<Change>, RewordFault>
    ensures ok { IfOk result (λ changes.
        AreChangesOf scope.now.files scope.now.target to.now (map change_of changes.items)) }
    ensures err { IfErr result (IsChangesFault scope.now.files scope.now.target to.now) }
{
    let mut changes = Vec::new(alloc);
    let changed = scope.changed_files(alloc)?;
    for file in &changed {
        let change = change_in(alloc, scope, *file, to)?;
        push_some(&mut changes, change)?;
    }
    Ok(changes)
}

/// The changes of all files, in their order; refused where a file
/// would have more than 1,048,576 bytes.
pub(crate) fn changes<'a>(
    alloc: Global,
    linked: &'a CleanLinked<'a>,
    target: RenameTarget<'a>,
    to: &str,
) -> Result<Vec<Change>, RewordFault>
    requires target { IsTargetOf linked.now.files target }
    requires file { target.file < length linked.now.files }
    ensures ok { IfOk result (λ changes.
        AreChangesOf linked.now.files target.entry to.now (map change_of changes.items)) }
    ensures err { IfErr result (IsChangesFault linked.now.files target.entry to.now) }
{
    let scope = RenameScope::new(alloc, linked, target)?;
    changes_with(alloc, &scope, to)
}
