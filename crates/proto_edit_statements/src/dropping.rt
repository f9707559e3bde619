//! An import dropped from a file.

ghost use Rattle.std.specs.Prelude.{◌<◌, ℕ, List, length, map, IfOk, IfErr};
ghost use Rattle.proto_edit_entries.specs.Entries.{change_of};
ghost use Rattle.proto_files.specs.Faults.{HasNoFault};
ghost use Rattle.proto_files.specs.FilesRead.{ReadOf, AreRead};
ghost use Rattle.proto_names_imports.specs.Links.{LinkFaults};
ghost use Rattle.proto_names.specs.LinkOfFiles.{IsLinkOf};
ghost use Rattle.proto_edit_rules.specs.DropImport.{IsImportOf};
ghost use Rattle.proto_edit_statements.specs.Edits.{IsDropCase, HasDropChanges, IsDropRefusal};
ghost use Rattle.proto_edit_statements.specs.Steps.{IsNeededAtToken};
ghost use Rattle.proto_edit_rules.specs.Statements.{IsPlaceOf};

use crate::imported::import_named;
use crate::imports::seen_without;
use crate::needing::first_needed;
use crate::only::only;
use crate::paths::Paths;
use crate::splicing::splice_change;
use proto_base::NoMemory;
use proto_edit_entries::{Change, Refusal};
use proto_files::{Files, are_read, offset_of};
use proto_names::{Link, RefId};
use proto_resolved::CleanLinked;
use proto_text::Span;
use proto_tree::Import;
use std::alloc::Global;

/// The refusal for a reference that needs the import, with its place.
fn needed_refusal(alloc: Global, files: &Files, reference: RefId) -> Result<Refusal, NoMemory>
    requires { reference.file < length files.now }
    ensures { IfOk result (IsNeededAtToken files.now reference.file reference.token) }
{
    Ok(Refusal::Needed {
        path: files.path(reference.file).to_string(alloc)?,
        offset: offset_of(files.tokens(reference.file), reference.token),
    })
}

/// Case 15: no reference of any file needs the import.
fn check_needed(alloc: Global, linked: &CleanLinked<'_>, paths: Paths) -> Result<(), Refusal>
    requires file { IsPlaceOf linked.now.files paths.file.now paths.from }
    requires to { IsPlaceOf linked.now.files paths.path.now paths.to }
    requires before { (n : ℕ) → n < 15
        → IsDropCase linked.now.files paths.file.now paths.path.now n → ⊥ }
    ensures free { IfOk result (λ _. (n : ℕ)
        → IsDropCase linked.now.files paths.entry.file.now paths.entry.path.now n → ⊥) }
    ensures err { IfErr result
        (IsDropRefusal linked.now.files paths.entry.file.now paths.entry.path.now) }
{
    let files = linked.files();
    let seen = seen_without(alloc, linked, paths.from, paths.to)?;
    match first_needed(linked, &seen) {
        None => Ok(()),
        Some(reference) => Err(needed_refusal(alloc, files, reference)?),
    }
}

/// What it changes that the statement is taken out.
fn changes_of_drop(
    alloc: Global,
    files: &Files,
    paths: Paths,
    import: Import,
) -> Result<Vec<Change>, Refusal>
    requires file { IsPlaceOf files.now paths.file.now paths.from }
    requires import { (reads : List ReadOf) → AreRead files.now reads
        → IsImportOf files.now reads paths.from paths.path.now import }
    requires free { (n : ℕ) → IsDropCase files.now paths.file.now paths.path.now n → ⊥ }
    ensures ok { IfOk result (λ cs. HasDropChanges files.now paths.entry.file.now
        paths.entry.path.now
        (map change_of cs.items)) }
    ensures err { IfErr result (IsDropRefusal files.now paths.entry.file.now paths.entry.path.now) }
{
    are_read(files);
    let file = paths.from;
    // A text is short.
    files.source(file).as_bytes();
    let tokens = files.tokens(file);
    let span = Span {
        start: tokens[import.keyword as usize].span.start,
        end: tokens[import.semicolon as usize].span.end,
    };
    match splice_change(alloc, files, file, span, "")? {
        Some(change) => Ok(only(alloc, change)?),
        // No file gets longer.
        None => unreachable!(),
    }
}

/// What it changes that a file, by its path, imports another path no longer;
/// or the least case that refuses it.
pub fn drop_import(
    alloc: Global,
    files: &Files,
    link: &Link,
    file: &str,
    path: &str,
) -> Result<Vec<Change>, Refusal>
    requires link { IsLinkOf files.now link.now }
    requires linked { HasNoFault (LinkFaults files.now) }
    ensures ok { IfOk result (λ cs. HasDropChanges files.now file.now path.now
        (map change_of cs.items)) }
    ensures err { IfErr result (IsDropRefusal files.now file.now path.now) }
{
    are_read(files);
    // The paths of a workspace are apart.
    files.len();
    let Some(from) = files.place_of_path(file) else {
        return Err(Refusal::UnknownFile);
    };
    let Some(import) = import_named(files, from, path) else {
        return Err(Refusal::NotImported);
    };
    // A path that is imported is that of a file.
    let Some(to) = files.place_of_path(path) else {
        unreachable!();
    };
    let paths = Paths {
        file,
        path,
        from,
        to,
    };
    check_needed(alloc, &CleanLinked::new(files, link), paths)?;
    changes_of_drop(alloc, files, paths, import)
}
