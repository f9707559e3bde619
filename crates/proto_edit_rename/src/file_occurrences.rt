//! The tokens that stand for a name, file by file: those that a rename of it changes.

ghost use Rattle.std.specs.Prelude.{◌≡◌, ◌↔◌, ◌<◌, ◌++◌, ℕ, length, IfOk, OnOk, option_to_list};
ghost use Rattle.std.specs.List.{AllPairs, Contains};
ghost use Rattle.proto_files.specs.Faults.{HasNoFault};
ghost use Rattle.proto_names_imports.specs.Links.{LinkFaults};
ghost use Rattle.proto_names.specs.LinkOfFiles.{IsLinkOf};
ghost use Rattle.proto_edit_rename.specs.Occurrences.{AreOccurrencesIn, AreOccurrencesOf, AreOccurrencesOfName};
ghost use Rattle.proto_edit_captures.specs.FoundTargets.{IsTargetOf, IsNoTarget};

use crate::places::{RenameScope, places_in};
use proto_base::NoMemory;
use proto_edit_captures::{NoTarget, RenameTarget, find_target};
use proto_files::Files;
use proto_names::Link;
use proto_resolved::CleanLinked;
use std::alloc::Global;

/// The tokens of a file that stand for a name, of which there is one at least.
#[derive(Drop)]
pub struct FileOccurrences {
    /// The number of the file, from 0.
    pub file: u32,
    /// The indexes of the tokens in that file, from 0, which rise.
    pub tokens: Vec<u32>,
}

/// The tokens in order, each once.
fn in_order(mut tokens: Vec<u32>) -> Vec<u32>
    ensures rising { AllPairs (λ i j. i < j) result.items }
    ensures same { (i : ℕ) → Contains result.items i ↔ Contains tokens.items i }
{
    tokens.sort_unstable();
    tokens.dedup();
    tokens
}

/// The tokens of a file that stand for the target, if there are some.
fn occurrences_in(
    alloc: Global,
    scope: &RenameScope,
    file: u32,
) -> Result<Option<FileOccurrences>, NoMemory>
    requires { file < length scope.now.files }
    ensures { IfOk result (AreOccurrencesIn scope.now.files scope.now.target file) }
{
    let places = places_in(alloc, scope, file)?;
    if places.as_slice().is_empty() {
        return Ok(None);
    }
    let tokens = in_order(places);
    Ok(Some(FileOccurrences { file, tokens }))
}

fn push_found(
    all: &mut Vec<FileOccurrences>,
    found: Option<FileOccurrences>,
) -> Result<(), NoMemory>
    ensures { OnOk result (all.new.items ≡ all.old.items ++ option_to_list found) }
{
    if let Some(found) = found {
        all.push(found)?;
    }
    Ok(())
}

/// Those of all files, in their order.
fn all_occurrences(alloc: Global, scope: &RenameScope) -> Result<Vec<FileOccurrences>, NoMemory>
    ensures { IfOk result (λ found. AreOccurrencesOf scope.now.files scope.now.target
        (length scope.now.files) found.items) }
{
    let mut all = Vec::new(alloc);
    for file in 0..scope.file_count() as u32 {
        let found = occurrences_in(alloc, scope, file)?;
        push_found(&mut all, found)?;
    }
    Ok(all)
}

/// Those of a target.
fn occurrences_of<'a>(
    alloc: Global,
    linked: &'a CleanLinked<'a>,
    target: RenameTarget<'a>,
) -> Result<Vec<FileOccurrences>, NoMemory>
    requires target { IsTargetOf linked.now.files target }
    requires file { target.file < length linked.now.files }
    ensures { IfOk result (λ found. AreOccurrencesOf linked.now.files target.entry
        (length linked.now.files) found.items) }
{
    let scope = RenameScope::new(alloc, linked, target)?;
    all_occurrences(alloc, &scope)
}

/// The answer for a name that no target has.
fn no_occurrences(
    linked: &CleanLinked<'_>,
    name: &str,
    cause: NoTarget,
) -> Result<Option<Vec<FileOccurrences>>, NoMemory>
    requires { IsNoTarget linked.now.files name.now cause }
    ensures { IfOk result (AreOccurrencesOfName linked.now.files name.now) }
{
    linked.files();
    match cause {
        NoTarget::Unknown => Ok(None),
        NoTarget::NotAllowed => Ok(None),
        NoTarget::NoMemory => Err(NoMemory),
    }
}

/// The tokens that stand for a full name, without a leading dot, file by file: those that a rename
/// of it changes. The one that declares it, the words of references, and for a value the defaults
/// that mean it. None where no symbol that may be renamed has the name.
pub fn occurrences(
    alloc: Global,
    files: &Files,
    link: &Link,
    name: &str,
) -> Result<Option<Vec<FileOccurrences>>, NoMemory>
    requires link { IsLinkOf files.now link.now }
    requires linked { HasNoFault (LinkFaults files.now) }
    ensures { IfOk result (AreOccurrencesOfName files.now name.now) }
{
    let linked = CleanLinked::new(files, link);
    match find_target(alloc, &linked, name) {
        Ok(target) => {
            let found = occurrences_of(alloc, &linked, target)?;
            Ok(Some(found))
        }
        Err(cause) => no_occurrences(&linked, name, cause),
    }
}
