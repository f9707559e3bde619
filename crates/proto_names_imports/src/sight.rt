//! What each file of a workspace sees.

ghost use Rattle.std.specs.Prelude.{◌≡◌, ◌≢◌, ◌↔◌, ◌⊎◌, ℕ, ◌<◌, ◌≤◌, ◌^◌, false, [], length, get_or, map, filter, slice_set, IfOk, OnOk};
ghost use Rattle.std.specs.List.{All, Contains};
ghost use Rattle.proto_base.specs.Undone.{AreWithin, IsNoted, undone};
ghost use Rattle.proto_names_rules.specs.Names.{Workspace};
ghost use Rattle.proto_names_rules.specs.Marks.{MarksSeen};
ghost use Rattle.proto_names_imports.specs.Importing.{all_imports};
ghost use Rattle.proto_names_imports.specs.Walks.{IsMarked, Walks};

use crate::import::FileImport;
use crate::walk::{visit_imported, visit_public};
use proto_base::{Change, NoMemory, change_at};
use proto_file_sets::FileSet;
use std::alloc::Global;

/// For each file, the files that it sees: itself, those that it imports, and what is reached from
/// these by public imports. Fails only when out of memory.
pub fn all_seen(alloc: Global, imports: &[Vec<FileImport>]) -> Result<Vec<FileSet>, NoMemory>
    requires within { All (λ v. All (λ i. i.to < length imports.now) v.items) imports.now }
    requires count { length imports.now ≤ 2 ^ 32 }
    ensures len { IfOk result (λ seen. length seen.items ≡ length imports.now) }
    ensures exact { IfOk result (λ seen. (w : Workspace)
        → w.files ≡ length imports.now → w.imports ≡ all_imports 0 (map (λ v. v.items) imports.now)
        → (file : ℕ) → file < length imports.now
        → MarksSeen w file (get_or seen.items file [])) }
{
    let mut seen = Vec::with_capacity(alloc, imports.len())?;
    for file in 0..imports.len() {
        seen.push(seen_from(alloc, imports, file as u32, &imports[file])?)?;
    }
    Ok(seen)
}

/// Puts what the files of the set see by these imports in place of what they saw, where it is not
/// the same; the log has then what these saw, each once. What another file sees must be there.
/// Fails only when out of memory; then some may see what they see now, and the log tells which.
pub fn see_again(
    alloc: Global,
    imports: &[Vec<FileImport>],
    stale: &FileSet,
    seen: &mut Vec<FileSet>,
    log: &mut Vec<Change<FileSet>>,
) -> Result<(), NoMemory>
    requires count { length imports.now ≤ 2 ^ 32 }
    requires within { All (λ v. All (λ i. i.to < length imports.now) v.items) imports.now }
    requires paired { length seen.old.items ≡ length imports.now }
    requires sized { length stale.now ≡ length imports.now }
    requires none { log.old.items ≡ [] }
    requires known { (w : Workspace)
        → w.files ≡ length imports.now → w.imports ≡ all_imports 0 (map (λ v. v.items) imports.now)
        → (file : ℕ) → file < length imports.now → get_or stale.now file false ≡ false
        → MarksSeen w file (get_or seen.old.items file []) }
    ensures undone { undone log.new.items seen.new.items ≡ seen.old.items }
    ensures len { length seen.new.items ≡ length imports.now }
    ensures within { AreWithin (length imports.now) log.new.items }
    ensures was { All (λ c. get_or seen.old.items c.place [] ≡ c.was) log.new.items }
    ensures exact { OnOk result ((w : Workspace)
        → w.files ≡ length imports.now → w.imports ≡ all_imports 0 (map (λ v. v.items) imports.now)
        → (file : ℕ) → file < length imports.now
        → MarksSeen w file (get_or seen.new.items file [])) }
    ensures kept { (file : ℕ) → (Contains (map (λ c. c.place) log.new.items) file → ⊥)
        → get_or seen.new.items file [] ≡ get_or seen.old.items file [] }
{
    let files = stale.files(alloc)?;
    for file in &files {
        see_one_again(alloc, imports, *file, seen, log)?;
    }
    Ok(())
}

/// Puts what a file sees by these imports in place of what it saw, where it is not the same, and
/// notes in the log what it saw. Fails only when out of memory; then nothing is changed.
fn see_one_again(
    alloc: Global,
    imports: &[Vec<FileImport>],
    file: u32,
    seen: &mut Vec<FileSet>,
    log: &mut Vec<Change<FileSet>>,
) -> Result<(), NoMemory>
    requires file { file < length imports.now }
    requires within { All (λ v. All (λ i. i.to < length imports.now) v.items) imports.now }
    requires paired { length seen.old.items ≡ length imports.now }
    ensures undone { undone log.new.items seen.new.items ≡ undone log.old.items seen.old.items }
    ensures len { length seen.new.items ≡ length seen.old.items }
    ensures exact { OnOk result ((w : Workspace)
        → w.files ≡ length imports.now → w.imports ≡ all_imports 0 (map (λ v. v.items) imports.now)
        → MarksSeen w file (get_or seen.new.items file [])) }
    ensures others { (other : ℕ) → other ≢ file
        → get_or seen.new.items other [] ≡ get_or seen.old.items other [] }
    ensures noted { ((seen.new.items ≡ seen.old.items) × (log.new.items ≡ log.old.items))
        ⊎ IsNoted log.old.items log.new.items seen.old.items file }
{
    let place = file as usize;
    let now = seen_from(alloc, imports, file, &imports[place])?;
    if seen[place].is_same(&now) {
        return Ok(());
    }
    change_at(seen, log, place, now)?;
    Ok(())
}

/// The files that the public ones of these imports name, in their order. Fails only when out of
/// memory.
pub fn public_targets(alloc: Global, imports: &[FileImport]) -> Result<Vec<u32>, NoMemory>
    ensures { IfOk result (λ files. files.items
        ≡ map (λ i. i.to) (filter (λ i. i.is_public) imports.now)) }
{
    let mut files = Vec::new(alloc);
    for import in imports {
        if import.is_public {
            files.push(import.to)?;
        }
    }
    Ok(files)
}

/// The files that one file sees, where its imports are its own ones given here, and those of each
/// other file are in the list: a walk along its own, and along the public ones of the others. Fails
/// only when out of memory.
pub fn seen_from(
    alloc: Global,
    imports: &[Vec<FileImport>],
    file: u32,
    own: &[FileImport],
) -> Result<FileSet, NoMemory>
    requires file { file < length imports.now }
    requires within { All (λ v. All (λ i. i.to < length imports.now) v.items) imports.now }
    requires own { All (λ i. i.to < length imports.now) own.now }
    ensures len { IfOk result (λ seen. length seen ≡ length imports.now) }
    ensures exact { IfOk result (λ seen. (g : ℕ) → IsMarked seen g ↔ Walks
        (slice_set (map (λ v. map (λ i. i.to) (filter (λ i. i.is_public) v.items)) imports.now)
        file (map (λ i. i.to) own.now)) file g) }
{
    let mut seen = FileSet::new(alloc, imports.len())?;
    seen.insert(file);
    let mut todo = Vec::new(alloc);
    visit_imported(own, &mut seen, &mut todo)?;
    while let Some(next) = todo.pop() {
        visit_public(&imports[next as usize], &mut seen, &mut todo)?;
    }
    Ok(seen)
}
