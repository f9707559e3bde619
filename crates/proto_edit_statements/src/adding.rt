//! An import added to a file.

ghost use Rattle.std.specs.Prelude.{◌≡◌, ◌<◌, ℕ, List, map, is_some, IfOk, IfErr, string_bytes};
ghost use Rattle.proto_edit_entries.specs.Entries.{change_of};
ghost use Rattle.proto_files.specs.Faults.{HasNoFault};
ghost use Rattle.proto_files.specs.FilesRead.{AreRead, ReadOf};
ghost use Rattle.proto_names_imports.specs.Links.{LinkFaults};
ghost use Rattle.proto_names.specs.LinkOfFiles.{IsLinkOf};
ghost use Rattle.proto_edit_statements.specs.Edits.{HasAdditionChanges, IsAdditionCase, IsAdditionRefusal};
ghost use Rattle.proto_edit_rules.specs.Statements.{IsPlaceOf};
ghost use Rattle.proto_edit_rules.specs.AddImport.{added_text};
ghost use Rattle.proto_edit_statements.specs.ImportPlaces.{place_behind};
ghost use Rattle.proto_edit_statements.specs.Spliced.{IsChangeOfAddition};
ghost use Rattle.proto_edit_statements.specs.Steps.{AreImportsOf};

use crate::import_places::end_before_import;
use crate::imported::import_named;
use crate::imports::linked_imports;
use crate::leading::leads;
use crate::only::only;
use crate::paths::Paths;
use crate::seeing::seen_with;
use crate::splicing::splice_change;
use proto_base::NoMemory;
use proto_edit_captures::{captured_refusal, first_overtaken};
use proto_edit_entries::{Change, Refusal};
use proto_edit_statement_laws::laws::additions_are_read;
use proto_files::{Files, are_read};
use proto_names::Link;
use proto_names_imports::import::FileImport;
use proto_resolved::CleanLinked;
use proto_text::Span;
use std::alloc::Global;

/// Case 7: no reference of the file is overtaken. (The cases before it do not concern imports.)
fn check_captured(
    alloc: Global,
    linked: &CleanLinked<'_>,
    imports: &[Vec<FileImport>],
    paths: Paths,
) -> Result<(), Refusal>
    requires imports { AreImportsOf linked.now.files imports.now }
    requires file { IsPlaceOf linked.now.files paths.file.now paths.from }
    requires to { IsPlaceOf linked.now.files paths.path.now paths.to }
    ensures free { IfOk result (λ _. (n : ℕ) → n < 11
        → IsAdditionCase linked.now.files paths.entry.file.now paths.entry.path.now n → ⊥) }
    ensures err { IfErr result
        (IsAdditionRefusal linked.now.files paths.entry.file.now paths.entry.path.now) }
{
    let files = linked.files();
    let seen = seen_with(alloc, imports, paths.from, paths.to)?;
    match first_overtaken(alloc, linked, paths.from, &seen)? {
        None => Ok(()),
        Some(token) => Err(captured_refusal(alloc, files, paths.from, token)?),
    }
}

/// Cases 12 and 14: the file does not import the path, which does not lead to it.
fn check_new(
    alloc: Global,
    files: &Files,
    imports: &[Vec<FileImport>],
    paths: Paths,
) -> Result<(), Refusal>
    requires imports { AreImportsOf files.now imports.now }
    requires file { IsPlaceOf files.now paths.file.now paths.from }
    requires to { IsPlaceOf files.now paths.path.now paths.to }
    requires before { (n : ℕ) → n < 11 → IsAdditionCase files.now paths.file.now paths.path.now n
        → ⊥ }
    ensures free { IfOk result (λ _. (n : ℕ)
        → n < 15 → IsAdditionCase files.now paths.entry.file.now paths.entry.path.now n → ⊥) }
    ensures err { IfErr result
        (IsAdditionRefusal files.now paths.entry.file.now paths.entry.path.now) }
{
    are_read(files);
    if import_named(files, paths.from, paths.path).is_some() {
        return Err(Refusal::AlreadyImported);
    }
    if leads(alloc, imports, paths.to, paths.from)? {
        return Err(Refusal::Cycle);
    }
    Ok(())
}

/// The import as it is put behind a `;`, or before all.
fn text_of(alloc: Global, end: Option<u32>, path: &str) -> Result<String, NoMemory>
    ensures { IfOk result (λ text. string_bytes text ≡ added_text (place_behind end) path.now) }
{
    let mut text = String::new(alloc);
    if end.is_some() {
        text.push_str("\n")?;
    }
    text.push_str("import \"")?;
    text.push_str(path)?;
    text.push_str("\";")?;
    if end.is_none() {
        text.push_str("\n")?;
    }
    Ok(text)
}

/// The change of the file that imports the path; none where it would be too large.
fn change_of_file(alloc: Global, files: &Files, paths: Paths) -> Result<Option<Change>, NoMemory>
    requires { IsPlaceOf files.now paths.file.now paths.from }
    ensures { IfOk result (λ found. (reads : List ReadOf) → AreRead files.now reads
        → IsChangeOfAddition files.now reads paths.entry.from paths.entry.path.now found) }
{
    additions_are_read();
    let file = paths.from;
    // A text is UTF-8.
    files.source(file).as_bytes();
    let end = end_before_import(files.tree(file));
    let at = match end {
        Some(token) => files.tokens(file)[token as usize].span.end,
        None => 0,
    };
    let text = text_of(alloc, end, paths.path)?;
    let span = Span { start: at, end: at };
    splice_change(alloc, files, file, span, text.as_str())
}

/// What the import changes, and case 16.
fn changes_of_addition(alloc: Global, files: &Files, paths: Paths) -> Result<Vec<Change>, Refusal>
    requires file { IsPlaceOf files.now paths.file.now paths.from }
    requires before { (n : ℕ) → n < 15 → IsAdditionCase files.now paths.file.now paths.path.now n
        → ⊥ }
    ensures ok { IfOk result (λ cs. HasAdditionChanges files.now paths.entry.file.now
        paths.entry.path.now
        (map change_of cs.items)) }
    ensures err { IfErr result
        (IsAdditionRefusal files.now paths.entry.file.now paths.entry.path.now) }
{
    are_read(files);
    match change_of_file(alloc, files, paths)? {
        Some(change) => Ok(only(alloc, change)?),
        None => Err(Refusal::TooLarge),
    }
}

/// What it changes that a file, by its path, imports another path as well;
/// or the least case that refuses it.
pub fn add_import(
    alloc: Global,
    files: &Files,
    link: &Link,
    file: &str,
    path: &str,
) -> Result<Vec<Change>, Refusal>
    requires link { IsLinkOf files.now link.now }
    requires linked { HasNoFault (LinkFaults files.now) }
    ensures ok { IfOk result (λ cs. HasAdditionChanges files.now file.now path.now
        (map change_of cs.items)) }
    ensures err { IfErr result (IsAdditionRefusal files.now file.now path.now) }
{
    are_read(files);
    // The paths of a workspace are apart.
    files.len();
    let Some(from) = files.place_of_path(file) else {
        return Err(Refusal::UnknownFile);
    };
    let Some(to) = files.place_of_path(path) else {
        return Err(Refusal::UnknownFile);
    };
    let paths = Paths {
        file,
        path,
        from,
        to,
    };
    let linked = CleanLinked::new(files, link);
    let imports = linked_imports(&linked);
    check_captured(alloc, &linked, imports, paths)?;
    check_new(alloc, files, imports, paths)?;
    changes_of_addition(alloc, files, paths)
}
