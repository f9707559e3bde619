//! The imports of linked files, and what is seen with one less.

ghost use Rattle.std.specs.Prelude.{◌≡◌, ◌<◌, ℕ, List, length, map, filter, not, ◌==◌, IfOk};
ghost use Rattle.proto_files.specs.FilesRead.{ReadOf, AreRead};
ghost use Rattle.proto_edit_statements.specs.Steps.{AreImportsOf, AreSeenIn};
ghost use Rattle.proto_edit_rules.specs.Statements.{IsPlaceOf};
ghost use Rattle.proto_edit_rules.specs.DropImport.{with_dropped};

use proto_base::NoMemory;
use proto_file_sets::FileSet;
use proto_names_imports::import::FileImport;
use proto_names_imports::sight::all_seen;
use proto_resolved::CleanLinked;
use std::alloc::Global;

/// The imports of each file, by the numbers of the files that they name.
pub(crate) fn linked_imports<'a>(linked: &CleanLinked<'a>) -> &'a [Vec<FileImport>]
    ensures { AreImportsOf linked.now.files result.now }
{
    linked.link().imports()
}

/// These imports without that of one file.
fn others(alloc: Global, own: &[FileImport], to: u32) -> Result<Vec<FileImport>, NoMemory>
    ensures { IfOk result (λ left. left.items ≡ filter (λ i. not (i.to == to)) own.now) }
{
    let mut left = Vec::new(alloc);
    for import in own {
        if import.to != to {
            left.push(*import)?;
        }
    }
    Ok(left)
}

/// What each file sees without the import of one file by another.
pub(crate) fn seen_without(
    alloc: Global,
    linked: &CleanLinked<'_>,
    file: u32,
    to: u32,
) -> Result<Vec<FileSet>, NoMemory>
    requires { file < length linked.now.files }
    ensures { IfOk result (λ seen. (reads : List ReadOf) → AreRead linked.now.files reads
        → (path : List ℕ) → IsPlaceOf linked.now.files path to → AreSeenIn linked.now.files
        (with_dropped linked.now.files reads file path) seen.items) }
{
    // A workspace has few files.
    linked.file_count();
    let all = linked_imports(linked);
    let left = others(alloc, &all[file as usize], to)?;
    let mut imports = copies(alloc, all)?;
    imports[file as usize] = left;
    all_seen(alloc, &imports)
}

/// A copy of the imports of each file.
fn copies(alloc: Global, imports: &[Vec<FileImport>]) -> Result<Vec<Vec<FileImport>>, NoMemory>
    ensures { IfOk result (λ copy. map (λ v. v.items) copy.items
        ≡ map (λ v. v.items) imports.now) }
{
    let mut copy = Vec::with_capacity(alloc, imports.len())?;
    for own in imports {
        copy.push(Vec::from_slice(alloc, own)?)?;
    }
    Ok(copy)
}
