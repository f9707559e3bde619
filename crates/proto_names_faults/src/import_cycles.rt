//! The imports that lead back to their files.

ghost use Rattle.std.specs.Prelude.{◌≡◌, ◌↔◌, ◌<◌, ◌≤◌, ◌^◌, ℕ, [], false, get_or, length, map, IfOk};
ghost use Rattle.std.specs.List.{All};
ghost use Rattle.std.specs.Option.{option_map_or};
ghost use Rattle.indexmap.specs.IndexMap.{get_by_text};
ghost use Rattle.proto_names_imports.specs.Importing.{all_imports};
ghost use Rattle.proto_names_imports.specs.Walks.{IsMarked, Walks};
ghost use Rattle.proto_names_faults.specs.Imports.{MarksCycles};

use indexmap::IndexMap;
use proto_base::NoMemory;
use proto_file_sets::FileSet;
use proto_names_imports::first_places::place_of;
use proto_names_imports::import::{FileImport, all_targets};
use proto_names_imports::import_cycles::has_no_cycle;
use proto_names_imports::walk::reached_files;
use std::alloc::Global;

/// For each file, the files that it leads to; no list where no import leads back to its file.
/// Takes time linear in the number of imports where this is so. Fails only when out of
/// memory.
pub(crate) fn leading_marks(
    alloc: Global,
    imports: &[Vec<FileImport>],
) -> Result<Vec<FileSet>, NoMemory>
    requires count { length imports.now ≤ 2 ^ 32 }
    requires within { All (λ v. All (λ i. i.to < length imports.now) v.items) imports.now }
    ensures { IfOk result (λ marks. MarksCycles
        (all_imports 0 (map (λ v. v.items) imports.now)) marks.items) }
{
    if has_no_cycle(alloc, imports)? {
        return Ok(Vec::new(alloc));
    }
    let next = all_targets(alloc, imports)?;
    all_reached(alloc, &next)
}

/// For each file, the files that are reached from it by steps along the lists.
fn all_reached(alloc: Global, next: &[Vec<u32>]) -> Result<Vec<FileSet>, NoMemory>
    requires count { length next.now ≤ 2 ^ 32 }
    requires within { All (λ v. All (λ g. g < length next.now) v.items) next.now }
    ensures { IfOk result (λ marks. (from to : ℕ) → from < length next.now
        → IsMarked (get_or marks.items from []) to
        ↔ Walks (map (λ v. v.items) next.now) from to) }
{
    let mut marks = Vec::new(alloc);
    for file in 0..next.len() {
        marks.push(reached_files(alloc, next, file as u32)?)?;
    }
    Ok(marks)
}

/// Whether the file with a path leads to this one.
pub(crate) fn leads_to(
    index: &IndexMap<String, u32>,
    marks: &[FileSet],
    path: &str,
    file: u32,
) -> bool
    ensures { result ≡ option_map_or
        (λ to. get_or (get_or marks.now to []) file false)
        (get_by_text index.now path.now) false }
{
    match place_of(index, path) {
        Some(to) => is_marked_at(marks, to, file),
        None => false,
    }
}

/// Whether a file is one of those that another leads to.
fn is_marked_at(marks: &[FileSet], from: u32, file: u32) -> bool
    ensures { result ≡ get_or (get_or marks.now from []) file false }
{
    match marks.get(from as usize) {
        Some(own) => own.contains(file),
        None => false,
    }
}
