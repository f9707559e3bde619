//! What is wrong with extensions and custom options, file by file.

ghost use Rattle.std.specs.Prelude.{◌≡◌, ◌++◌, [], List, map, replicate, IfOk, OnOk};
ghost use Rattle.proto_resolved.specs.Scenes.{AreScenes};
ghost use Rattle.proto_desc_extensions.specs.Extensions.{taken_before};
ghost use Rattle.proto_desc_extensions.specs.Listed.{AreNumberFlaws, AreWorkspaceFlaws, HasSeen, Told, again, outside_ranges, told_by};
ghost use Rattle.proto_desc_extensions.specs.OpenTables.{IsOpenTable};

use crate::extends::some_has_extend;
use crate::listed::{ExtensionAt, LinkedFile, extensions};
use crate::open_table::open_table;
use crate::options::{some_is_written, with_options};
use indexmap::{IndexMap, IndexSet};
use proto_ast::Scene;
use proto_base::{FaultKind, NoMemory, Profile};
use proto_custom_options::laws::core_trees_have_no_custom;
use proto_desc_numbers::{Flaw, NumberAt, RangeAt, add_if};
use proto_resolved::Linked;
use std::alloc::Global;

/// An extension by the full name of what it extends, and its number.
#[derive(Clone, Copy, PartialEq, Eq, Hash)]
pub(crate) struct Key<'a> {
    pub extendee: &'a str,
    pub number: i128,
}

fn key_of<'a>(extendee: &'a str, number: NumberAt) -> Key<'a>
    ensures extendee { result.extendee.now ≡ extendee.now }
    ensures number { result.number ≡ number.number }
{
    Key {
        extendee,
        number: number.number,
    }
}

/// Adds a flaw at each number that what it extends does not leave to extensions.
fn add_outside(found: &mut Vec<Flaw>, extensions: &[ExtensionAt]) -> Result<(), NoMemory>
    ensures { OnOk result (found.new.items ≡ found.old.items
        ++ outside_ranges (map told_by extensions.now)) }
{
    for extension in extensions {
        let is_outside = !extension.is_extendable;
        add_if(
            found,
            is_outside,
            FaultKind::NotExtendable,
            extension.number.token,
        )?;
    }
    Ok(())
}

/// Adds a flaw at each number that an earlier extension has of what it extends, and keeps those of
/// these for later.
fn add_again<'a>(
    found: &mut Vec<Flaw>,
    seen: &mut IndexSet<Key<'a>>,
    extensions: &[ExtensionAt<'a>],
) -> Result<(), NoMemory>
    ensures flaws { OnOk result ((before : List Told) → HasSeen seen.old before
        → found.new.items ≡ found.old.items ++ again before (map told_by extensions.now)) }
    ensures seen { OnOk result ((before : List Told) → HasSeen seen.old before
        → HasSeen seen.new (before ++ map told_by extensions.now)) }
{
    for extension in extensions {
        let is_new = seen.insert(key_of(extension.extendee, extension.number))?;
        add_if(
            found,
            !is_new,
            FaultKind::DuplicateExtension,
            extension.number.token,
        )?;
    }
    Ok(())
}

/// The flaws of extensions.
fn flaws_of<'a>(
    alloc: Global,
    seen: &mut IndexSet<Key<'a>>,
    extensions: &[ExtensionAt<'a>],
) -> Result<Vec<Flaw>, NoMemory>
    ensures flaws { IfOk result (λ found. (before : List Told) → HasSeen seen.old before
        → found.items ≡ outside_ranges (map told_by extensions.now)
        ++ again before (map told_by extensions.now)) }
    ensures seen { OnOk result ((before : List Told) → HasSeen seen.old before
        → HasSeen seen.new (before ++ map told_by extensions.now)) }
{
    let mut found = Vec::new(alloc);
    add_outside(&mut found, extensions)?;
    add_again(&mut found, seen, extensions)?;
    Ok(found)
}

/// The same where no extension stands before.
fn own_flaws(alloc: Global, extensions: &[ExtensionAt]) -> Result<Vec<Flaw>, NoMemory>
    ensures { IfOk result (λ found. found.items ≡ outside_ranges (map told_by extensions.now)
        ++ again [] (map told_by extensions.now)) }
{
    let mut seen = IndexSet::new(alloc);
    flaws_of(alloc, &mut seen, extensions)
}

/// The flaws of the extensions of a file of the language, which are kept for later, too.
fn flaws_in<'a>(
    alloc: Global,
    profile: Profile,
    seen: &mut IndexSet<Key<'a>>,
    extensions: &[ExtensionAt<'a>],
) -> Result<Vec<Flaw>, NoMemory>
    ensures flaws { IfOk result (λ found. (before : List Told) → HasSeen seen.old before
        → found.items ≡ outside_ranges (map told_by extensions.now)
        ++ again (taken_before profile before) (map told_by extensions.now)) }
    ensures seen { OnOk result ((before : List Told) → HasSeen seen.old before
        → HasSeen seen.new (before ++ map told_by extensions.now)) }
{
    let found = flaws_of(alloc, seen, extensions)?;
    match profile {
        Profile::Core => Ok(found),
        Profile::AsWritten => own_flaws(alloc, extensions),
    }
}

/// No flaw in each of so many files.
fn no_flaws(alloc: Global, count: usize) -> Result<Vec<Vec<Flaw>>, NoMemory>
    ensures { IfOk result (λ found. map (λ v. v.items) found.items ≡ replicate count []) }
{
    let mut found = Vec::new(alloc);
    for _ in 0..count {
        found.push(Vec::new(alloc))?;
    }
    Ok(found)
}

/// The same, with the ranges that messages leave to extensions.
fn flaws_with(
    alloc: Global,
    linked: &Linked<'_>,
    table: &[IndexMap<u32, Vec<RangeAt>>],
    scenes: &[Scene],
) -> Result<Vec<Vec<Flaw>>, NoMemory>
    requires table { IsOpenTable linked.now.files table.now }
    requires scenes { AreScenes linked.now.files scenes.now }
    ensures { IfOk result (λ found. AreNumberFlaws linked.now.files found.items) }
{
    let files = linked.files();
    let mut found = Vec::new(alloc);
    let mut seen = IndexSet::new(alloc);
    for file in 0..linked.file_count() as u32 {
        let at = LinkedFile {
            linked,
            table,
            file,
        };
        let extensions = extensions(alloc, &at, &scenes[file as usize])?;
        found.push(flaws_in(alloc, files.profile(file), &mut seen, &extensions)?)?;
    }
    Ok(found)
}

/// The flaws of the numbers of extensions.
fn number_flaws(
    alloc: Global,
    linked: &Linked<'_>,
    scenes: &[Scene],
) -> Result<Vec<Vec<Flaw>>, NoMemory>
    requires { AreScenes linked.now.files scenes.now }
    ensures { IfOk result (λ found. AreNumberFlaws linked.now.files found.items) }
{
    let files = linked.files();
    if !some_has_extend(files) {
        return no_flaws(alloc, linked.file_count());
    }
    let table = open_table(alloc, files, scenes)?;
    flaws_with(alloc, linked, &table, scenes)
}

/// For each file, in the order of their paths, what is wrong with it that its workspace decides:
/// the numbers of its extensions, each inside no extension range of the message that it extends, or
/// that of an earlier extension of that message (as written, of one of its file); and its custom
/// options, of which the extension does not extend the options message of the element. The scenes
/// are those of the files. Fails only when out of memory.
pub fn workspace_flaws(
    alloc: Global,
    linked: &Linked<'_>,
    scenes: &[Scene],
) -> Result<Vec<Vec<Flaw>>, NoMemory>
    requires { AreScenes linked.now.files scenes.now }
    ensures { IfOk result (λ found. AreWorkspaceFlaws linked.now.files found.items) }
{
    core_trees_have_no_custom();
    let numbers = number_flaws(alloc, linked, scenes)?;
    if some_is_written(linked.files()) {
        with_options(alloc, linked, &numbers)
    } else {
        Ok(numbers)
    }
}
