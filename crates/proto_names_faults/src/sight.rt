//! The files that the imports of files name, and what each file sees.

ghost use Rattle.std.specs.Prelude.{◌≡◌, ℕ, ◌<◌, List, [], get_or, length, map, IfOk};
ghost use Rattle.std.specs.List.{All};
ghost use Rattle.proto_files.specs.FilesRead.{AreRead, ReadOf};
ghost use Rattle.proto_files.specs.GivenFiles.{paths_of};
ghost use Rattle.proto_names_imports.specs.ImportSteps.{IsFileIndex};
ghost use Rattle.proto_names_imports.specs.Importing.{all_asked, all_imports, asked_by, import_from};
ghost use Rattle.proto_names_imports.specs.Links.{link_imports, names_of_files};
ghost use Rattle.proto_names_rules.specs.Faults.{imports_of};
ghost use Rattle.proto_names_rules.specs.Marks.{MarksSeen};

use indexmap::IndexMap;
use proto_base::NoMemory;
use proto_file_sets::FileSet;
use proto_files::{Files, all_paths};
use proto_names::all_written;
use proto_names_imports::first_places::{first_places, place_of};
use proto_names_imports::import::{FileImport, WrittenImport};
use proto_names_imports::sight::all_seen;
use std::alloc::Global;

/// For each file, the files that it sees: itself, those that it imports, and what is
/// reached from these by public imports. Fails only when out of memory.
pub(crate) fn all_sight(alloc: Global, files: &Files) -> Result<Vec<FileSet>, NoMemory>
    ensures len { IfOk result (λ seen. length seen.items ≡ length files.now) }
    ensures marks { IfOk result (λ seen. (reads : List ReadOf) → AreRead files.now reads
        → (k : ℕ) → k < length files.now → MarksSeen (names_of_files files.now reads) k
        (get_or seen.items k [])) }
{
    // Its contract says that there are at most 4,096.
    let _count = files.len();
    let imports = imports_of_files(alloc, files)?;
    all_seen(alloc, &imports)
}

/// The imports of each file that name a file.
fn imports_of_files(alloc: Global, files: &Files) -> Result<Vec<Vec<FileImport>>, NoMemory>
    ensures len { IfOk result (λ imports. length imports.items ≡ length files.now) }
    ensures within { IfOk result (λ imports. All
        (λ v. All (λ i. i.to < length files.now) v.items) imports.items) }
    ensures imports { IfOk result (λ imports. (reads : List ReadOf) → AreRead files.now reads
        → all_imports 0 (map (λ v. v.items) imports.items) ≡ link_imports files.now reads) }
{
    let index = file_index(alloc, files)?;
    imports_by_index(alloc, files, &index)
}

/// The same by the places of the paths.
fn imports_by_index(
    alloc: Global,
    files: &Files,
    index: &IndexMap<String, u32>,
) -> Result<Vec<Vec<FileImport>>, NoMemory>
    requires { IsFileIndex index.now (paths_of files.now) }
    ensures len { IfOk result (λ imports. length imports.items ≡ length files.now) }
    ensures within { IfOk result (λ imports. All
        (λ v. All (λ i. i.to < length files.now) v.items) imports.items) }
    ensures imports { IfOk result (λ imports. (reads : List ReadOf) → AreRead files.now reads
        → all_imports 0 (map (λ v. v.items) imports.items) ≡ link_imports files.now reads) }
{
    let written = all_written(alloc, files)?;
    resolved_imports(alloc, index, &written)
}

/// The places of the paths of the files. Fails only when out of memory.
pub(crate) fn file_index(alloc: Global, files: &Files) -> Result<IndexMap<String, u32>, NoMemory>
    ensures { IfOk result (λ index. IsFileIndex index (paths_of files.now)) }
{
    // Its contract says that there are at most 4,096.
    let _count = files.len();
    let paths = all_paths(alloc, files)?;
    first_places(alloc, &paths)
}

/// The imports of each file that name a file, by the places of the paths. Fails only when out of
/// memory.
pub(crate) fn resolved_imports(
    alloc: Global,
    index: &IndexMap<String, u32>,
    files: &[Vec<WrittenImport>],
) -> Result<Vec<Vec<FileImport>>, NoMemory>
    ensures len { IfOk result (λ imports. length imports.items ≡ length files.now) }
    ensures imports { IfOk result (λ imports. (paths : List (List ℕ)) → IsFileIndex index.now paths
        → all_imports 0 (map (λ v. v.items) imports.items)
        ≡ imports_of paths (all_asked 0 (map (λ v. v.items) files.now))) }
{
    let mut imports = Vec::new(alloc);
    for written in files {
        imports.push(resolved_in(alloc, index, written)?)?;
    }
    Ok(imports)
}

/// The imports of one file that name a file.
fn resolved_in(
    alloc: Global,
    index: &IndexMap<String, u32>,
    written: &[WrittenImport],
) -> Result<Vec<FileImport>, NoMemory>
    ensures { IfOk result (λ imports. (paths : List (List ℕ)) → IsFileIndex index.now paths →
        (file : ℕ) → map (import_from file) imports.items
        ≡ imports_of paths (map (asked_by file) written.now)) }
{
    let mut imports = Vec::new(alloc);
    for import in written {
        if let Some(to) = place_of(index, import.path.as_str()) {
            imports.push(FileImport {
                to,
                is_public: import.is_public,
            })?;
        }
    }
    Ok(imports)
}
