//! What is reached by steps along lists of files.

ghost use Rattle.std.specs.Prelude.{◌≡◌, ◌↔◌, ℕ, ◌<◌, ◌++◌, ◌∷◌, [], length, get_or, map, filter, true, false, OnOk, IfOk, slice_set};
ghost use Rattle.std.specs.List.{All, Contains};
ghost use Rattle.proto_names_rules.specs.Cycles.{Leads};
ghost use Rattle.proto_names_imports.specs.Importing.{all_imports};
ghost use Rattle.proto_names_imports.specs.declared.import.FileImport.{FileImport as FileImportOf};
ghost use Rattle.proto_names_imports.specs.Walks.{Walks, IsMarked, Visits};

use crate::import::FileImport;
use proto_base::NoMemory;
use proto_file_sets::FileSet;
use std::alloc::Global;

/// The files that are reached from this one by steps along the lists, itself among them. Fails only
/// when out of memory.
pub fn reached_files(alloc: Global, next: &[Vec<u32>], start: u32) -> Result<FileSet, NoMemory>
    requires start { start < length next.now }
    requires files { All (λ v. All (λ g. g < length next.now) v.items) next.now }
    ensures len { IfOk result (λ seen. length seen ≡ length next.now) }
    ensures exact { IfOk result (λ seen. (g : ℕ)
        → IsMarked seen g ↔ Walks (map (λ v. v.items) next.now) start g) }
{
    let mut seen = FileSet::new(alloc, next.len())?;
    seen.insert(start);
    let mut todo = vec![in alloc; start]?;
    while let Some(file) = todo.pop() {
        visit(&next[file as usize], &mut seen, &mut todo)?;
    }
    Ok(seen)
}

/// Puts the files of a list into the set; those that were not in it wait.
fn visit(next: &[u32], seen: &mut FileSet, todo: &mut Vec<u32>) -> Result<(), NoMemory>
    requires { All (λ g. g < length seen.old) next.now }
    ensures { OnOk result
        (Visits next.now seen.old todo.old.items seen.new todo.new.items) }
{
    for file in next {
        visit_file(*file, seen, todo)?;
    }
    Ok(())
}

/// Puts a file into the set; it waits if it was not in it.
fn visit_file(file: u32, seen: &mut FileSet, todo: &mut Vec<u32>) -> Result<(), NoMemory>
    ensures old { OnOk result (IsMarked seen.old file
        → (seen.new ≡ seen.old) × (todo.new.items ≡ todo.old.items)) }
    ensures new { OnOk result (get_or seen.old file false ≡ false →
        (seen.new ≡ slice_set seen.old file true)
        × (todo.new.items ≡ todo.old.items ++ file ∷ [])) }
{
    if !seen.contains(file) {
        seen.insert(file);
        todo.push(file)?;
    }
    Ok(())
}

/// The files that these imports name, and those to which they lead by imports, public or not. Fails
/// only when out of memory.
pub fn files_led_to(
    alloc: Global,
    imports: &[Vec<FileImport>],
    first: &[FileImport],
) -> Result<FileSet, NoMemory>
    requires within { All (λ v. All (λ i. i.to < length imports.now) v.items) imports.now }
    requires first { All (λ i. i.to < length imports.now) first.now }
    ensures { IfOk result (λ seen. (g : ℕ) → IsMarked seen g
        ↔ ((i : FileImportOf) × Contains first.now i
        × Leads (all_imports 0 (map (λ v. v.items) imports.now)) i.to g)) }
{
    let mut seen = FileSet::new(alloc, imports.len())?;
    let mut todo = Vec::new(alloc);
    visit_imported(first, &mut seen, &mut todo)?;
    while let Some(file) = todo.pop() {
        visit_imported(&imports[file as usize], &mut seen, &mut todo)?;
    }
    Ok(seen)
}

/// Puts the files that these imports name into the set; those that were not in it wait.
pub(crate) fn visit_imported(
    imports: &[FileImport],
    seen: &mut FileSet,
    todo: &mut Vec<u32>,
) -> Result<(), NoMemory>
    requires { All (λ i. i.to < length seen.old) imports.now }
    ensures { OnOk result (Visits (map (λ i. i.to) imports.now)
        seen.old todo.old.items seen.new todo.new.items) }
{
    for import in imports {
        visit_file(import.to, seen, todo)?;
    }
    Ok(())
}

/// The same of the public ones of these imports.
pub(crate) fn visit_public(
    imports: &[FileImport],
    seen: &mut FileSet,
    todo: &mut Vec<u32>,
) -> Result<(), NoMemory>
    requires { All (λ i. i.to < length seen.old) imports.now }
    ensures { OnOk result (Visits (map (λ i. i.to) (filter (λ i. i.is_public) imports.now))
        seen.old todo.old.items seen.new todo.new.items) }
{
    for import in imports {
        if import.is_public {
            visit_file(import.to, seen, todo)?;
        }
    }
    Ok(())
}
