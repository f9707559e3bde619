//! The tokens of a file that a rename changes.

ghost use Rattle.std.specs.Prelude.{◌≡◌, ◌<◌, ◌++◌, length, IfOk, OnOk, option_map};
ghost use Rattle.std.specs.List.{All};
ghost use Rattle.proto_files.specs.GivenFiles.{AreWorkspaceFiles};
ghost use Rattle.proto_edit_rename.specs.Changes.{AreFilesToChange, ArePlacesIn, HasDefaultsIn, or_own};
ghost use Rattle.proto_edit_captures.specs.FoundTargets.{IsTargetOf};

use crate::changed_files::changed_files;
use crate::defaults::renamed_defaults_in;
use crate::enum_names::enum_name;
use crate::standing::standing_in;
use proto_base::NoMemory;
use proto_edit_captures::RenameTarget;
use proto_file_sets::FileSet;
use proto_files::{Files, Words};
use proto_resolved::CleanLinked;
use std::alloc::Global;
use std::marker::Model;

/// What a rename looks for in each file of a workspace: its target, with the old word, and the name
/// of the target's enum where that is a value.
#[derive(Drop)]
pub(crate) struct RenameScope<'a> {
    linked: &'a CleanLinked<'a>,
    target: RenameTarget<'a>,
    enum_name: Option<String>,
    old: &'a str,
    /// The files in which the rename may change words.
    changed: FileSet,
}

impl<'a> Model for RenameScope<'a> {
    ghost use Rattle.std.specs.Prelude.{option_map, string_bytes};
    ghost use Rattle.proto_edit_rename.specs.RenameScopes.{IsRenameScope, RenameScopeOf};

    ghost Value = { RenameScopeOf };

    ghost view = { λ s. record { files = s.linked.now.files; target = s.target } };

    ghost invariant = { λ s. IsRenameScope s.linked.now s.target
        (option_map string_bytes s.enum_name) s.old.now s.changed };
}

impl<'a> RenameScope<'a> {
    /// What the rename of the target looks for. Fails only when out of memory.
    pub(crate) fn new(
        alloc: Global,
        linked: &'a CleanLinked<'a>,
        target: RenameTarget<'a>,
    ) -> Result<RenameScope<'a>, NoMemory>
        requires target { IsTargetOf linked.now.files target }
        requires file { target.file < length linked.now.files }
        ensures files { IfOk result (λ scope. scope.files ≡ linked.entry.now.files) }
        ensures target { IfOk result (λ scope. scope.target ≡ target.entry) }
    {
        let enum_name = enum_name(alloc, linked, target)?;
        let old = Words::new(linked.files(), target.file).get(target.token);
        let changed = changed_files(alloc, linked, target, enum_name.as_deref())?;
        Ok(RenameScope {
            linked,
            target,
            enum_name,
            old,
            changed,
        })
    }

    /// The files.
    pub(crate) fn files(&self) -> &'a Files
        ensures { result.now ≡ self.now.files }
    {
        self.linked.files()
    }

    /// How many files there are.
    pub(crate) fn file_count(&self) -> usize
        ensures len { result ≡ length self.now.files }
        ensures workspace { AreWorkspaceFiles self.now.files }
    {
        self.linked.file_count()
    }

    /// The files in which the rename may change words, by their numbers, in order. Fails only when
    /// out of memory.
    pub(crate) fn changed_files(&self, alloc: Global) -> Result<Vec<u32>, NoMemory>
        ensures within { IfOk result (λ listed.
            All (λ file. file < length self.now.files) listed.items) }
        ensures whole { IfOk result (λ listed.
            AreFilesToChange self.now.files self.now.target listed.items) }
    {
        // By this there are few files, and none is too long.
        self.linked.files().len();
        let listed = self.changed.files(alloc)?;
        Ok(listed)
    }
}

/// The token, if it is one of this file.
fn push_own(places: &mut Vec<u32>, target: RenameTarget, file: u32) -> Result<(), NoMemory>
    ensures { OnOk result (places.new.items ≡ places.old.items
        ++ or_own target.entry.file target.entry.token file) }
{
    if target.file == file {
        places.push(target.token)?;
    }
    Ok(())
}

fn push_all(places: &mut Vec<u32>, more: &[u32]) -> Result<(), NoMemory>
    ensures { OnOk result (places.new.items ≡ places.old.items ++ more.now) }
{
    places.extend_from_slice(more)?;
    Ok(())
}

/// The defaults of a file that mean a value with this old word of the
/// enum; none where there is no enum.
fn defaults_in<'a>(
    alloc: Global,
    linked: &CleanLinked<'a>,
    file: u32,
    enum_name: Option<&'a str>,
    old: &'a str,
) -> Result<Vec<u32>, NoMemory>
    requires { file < length linked.now.files }
    ensures { IfOk result (λ found. HasDefaultsIn linked.now.files file
        (option_map (λ x. x.now) enum_name.entry) old.entry.now found.items) }
{
    match enum_name {
        Some(enum_name) => renamed_defaults_in(alloc, linked, file, enum_name, old),
        None => Ok(Vec::new(alloc)),
    }
}

/// The tokens of a file that the rename changes: the declaring one, where it is of this file, the
/// words of references that stand for the target, and for a value the defaults that mean it.
pub(crate) fn places_in(alloc: Global, scope: &RenameScope, file: u32) -> Result<Vec<u32>, NoMemory>
    requires { file < length scope.now.files }
    ensures { IfOk result (λ found.
        ArePlacesIn scope.now.files scope.now.target file found.items) }
{
    // In most files nothing changes, and nothing of them is looked at.
    if !scope.changed.contains(file) {
        return Ok(Vec::new(alloc));
    }
    let mut places = standing_in(alloc, scope.linked, scope.target, file)?;
    push_own(&mut places, scope.target, file)?;
    let enum_name = scope.enum_name.as_deref();
    let defaults = defaults_in(alloc, scope.linked, file, enum_name, scope.old)?;
    push_all(&mut places, &defaults)?;
    Ok(places)
}
