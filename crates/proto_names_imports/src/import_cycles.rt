//! The first import on a cycle.

ghost use Rattle.std.specs.Prelude.{◌≡◌, ◌⊎◌, ◌↔◌, ℕ, ◌<◌, ◌≤◌, ◌^◌, List, [], ◌∷◌, ◌++◌, length, get_or, map, option_map, false, slice_set, IsTrue, IfOk, OnOk, replicate};
ghost use Rattle.std.specs.List.{All, Contains, list_any};
ghost use Rattle.std.specs.Option.{option_map_or};
ghost use Rattle.indexmap.specs.IndexMap.{get_by_text};
ghost use Rattle.proto_names_rules.specs.Cycles.{IsAcyclic};
ghost use Rattle.proto_names_rules.specs.Faults.{imports_of};
ghost use Rattle.proto_names_imports.specs.Importing.{TokensAreRising, all_asked, all_imports, fault_of};
ghost use Rattle.proto_names_imports.specs.ImportSteps.{AreTurned, AreImporters, IsFileIndex, IsFirst, CycleFault, LeadsToItself, MarkedFault, NoneLeadsBack};

use crate::first_places::place_of;
use crate::import::{BadImport, FileImport, ImportFlaw, WrittenImport, all_targets};
use crate::walk::{files_led_to, reached_files};
use indexmap::IndexMap;
use proto_base::NoMemory;
use proto_file_sets::FileSet;
use std::alloc::Global;

/// The first import on a cycle, where the imports of the files name these files.
pub(crate) fn first_on_cycle(
    alloc: Global,
    index: &IndexMap<String, u32>,
    files: &[Vec<WrittenImport>],
    imports: &[Vec<FileImport>],
) -> Result<Option<BadImport>, NoMemory>
    requires count { length files.now ≤ 2 ^ 32 }
    requires rising { All (λ v. TokensAreRising v.items) files.now }
    requires paired { length imports.now ≡ length files.now }
    requires within { All (λ v. All (λ i. i.to < length files.now) v.items) imports.now }
    ensures { IfOk result (λ o. (paths : List (List ℕ)) → IsFileIndex index.now paths
        → all_imports 0 (map (λ v. v.items) imports.now) ≡ imports_of paths
        (all_asked 0 (map (λ v. v.items) files.now)) → IsFirst
        (CycleFault paths (all_asked 0 (map (λ v. v.items) files.now))) (option_map fault_of o)) }
{
    let next = all_targets(alloc, imports)?;
    let importers = importers_of_each(alloc, &next)?;
    let ranks = ranks(alloc, &next, &importers)?;
    if falls(&next, &ranks) {
        return Ok(None);
    }
    first_back(alloc, index, files, &importers)
}

/// Whether no imported file leads back to the file that imports it. Takes time linear in the number
/// of imports where this is so. Fails only when out of memory.
pub fn has_no_cycle(alloc: Global, imports: &[Vec<FileImport>]) -> Result<bool, NoMemory>
    requires count { length imports.now ≤ 2 ^ 32 }
    requires within { All (λ v. All (λ i. i.to < length imports.now) v.items) imports.now }
    ensures { IfOk result (λ is_so. IsTrue is_so
        ↔ IsAcyclic (all_imports 0 (map (λ v. v.items) imports.now))) }
{
    let next = all_targets(alloc, imports)?;
    let importers = importers_of_each(alloc, &next)?;
    let ranks = ranks(alloc, &next, &importers)?;
    if falls(&next, &ranks) {
        return Ok(true);
    }
    none_leads_back(alloc, &next, &importers)
}

/// Whether none of the files at these places leads by its imports back to itself. Takes time for
/// the files to which these lead alone. Fails only when out of memory.
pub fn none_leads_to_itself(
    alloc: Global,
    imports: &[Vec<FileImport>],
    places: &[u32],
) -> Result<bool, NoMemory>
    requires within { All (λ v. All (λ i. i.to < length imports.now) v.items) imports.now }
    requires places { All (λ place. place < length imports.now) places.now }
    ensures { IfOk result (λ is_so. IsTrue is_so ↔ All (λ place.
        LeadsToItself (all_imports 0 (map (λ v. v.items) imports.now)) place → ⊥) places.now) }
{
    for place in places {
        let led_to = files_led_to(alloc, imports, &imports[*place as usize])?;
        if led_to.contains(*place) {
            return Ok(false);
        }
    }
    Ok(true)
}

/// Whether no file of a list leads back to the file that has the list, by a walk back from each.
fn none_leads_back(
    alloc: Global,
    next: &[Vec<u32>],
    importers: &[Vec<u32>],
) -> Result<bool, NoMemory>
    requires count { length next.now ≤ 2 ^ 32 }
    requires paired { length importers.now ≡ length next.now }
    requires within { All (λ v. All (λ g. g < length importers.now) v.items) importers.now }
    ensures { IfOk result (λ is_so. IsTrue is_so ↔ NoneLeadsBack
        (map (λ v. v.items) next.now) (map (λ v. v.items) importers.now)) }
{
    for file in 0..next.len() {
        let leading = reached_files(alloc, importers, file as u32)?;
        if has_one_in(&next[file], &leading) {
            return Ok(false);
        }
    }
    Ok(true)
}

/// Whether one of these files is in the set.
fn has_one_in(files: &[u32], set: &FileSet) -> bool
    ensures { result ≡ list_any (λ g. get_or set.now g false) files.now }
{
    files.iter().any(|file| set.contains(*file))
}

/// For each file, the files whose lists have it.
fn importers_of_each(alloc: Global, next: &[Vec<u32>]) -> Result<Vec<Vec<u32>>, NoMemory>
    requires count { length next.now ≤ 2 ^ 32 }
    requires within { All (λ v. All (λ g. g < length next.now) v.items) next.now }
    ensures len { IfOk result (λ back. length back.items ≡ length next.now) }
    ensures exact { IfOk result (λ back. AreTurned
        (map (λ v. v.items) next.now) (map (λ v. v.items) back.items)) }
{
    let mut back = empty_lists(alloc, next.len())?;
    for file in 0..next.len() {
        put_in_all(&mut back, &next[file], file as u32)?;
    }
    Ok(back)
}

/// As many lists, all empty.
fn empty_lists(alloc: Global, count: usize) -> Result<Vec<Vec<u32>>, NoMemory>
    ensures { IfOk result (λ lists. map (λ v. v.items) lists.items ≡ replicate count []) }
{
    let mut lists = Vec::new(alloc);
    for _ in 0..count {
        lists.push(Vec::new(alloc))?;
    }
    Ok(lists)
}

/// Puts a file into each of these lists.
fn put_in_all(lists: &mut Vec<Vec<u32>>, places: &[u32], file: u32) -> Result<(), NoMemory>
    requires { All (λ place. place < length lists.old.items) places.now }
    ensures len { OnOk result (length lists.new.items ≡ length lists.old.items) }
    ensures exact { OnOk result ((place one : ℕ) → Contains
        (get_or (map (λ v. v.items) lists.new.items) place []) one ↔
        (Contains (get_or (map (λ v. v.items) lists.old.items) place []) one ⊎
        (Contains places.now place × (one ≡ file)))) }
{
    for place in places {
        put_in(lists, *place, file)?;
    }
    Ok(())
}

/// Puts a file into a list.
fn put_in(lists: &mut Vec<Vec<u32>>, place: u32, file: u32) -> Result<(), NoMemory>
    requires { place < length lists.old.items }
    ensures { OnOk result (map (λ v. v.items) lists.new.items ≡ slice_set
        (map (λ v. v.items) lists.old.items) place
        (get_or (map (λ v. v.items) lists.old.items) place [] ++ file ∷ [])) }
{
    let list = &mut lists[place as usize];
    list.push(file)?;
    Ok(())
}

/// A rank for each file: above those of the files that it imports, where there is no cycle. Takes
/// time linear in the number of imports. (`falls` tells whether the ranks are such, so no more is
/// said of them.)
fn ranks(alloc: Global, next: &[Vec<u32>], importers: &[Vec<u32>]) -> Result<Vec<usize>, NoMemory>
    requires paired { length importers.now ≡ length next.now }
    requires count { length next.now ≤ 2 ^ 32 }
    requires within { All (λ v. All (λ g. g < length next.now) v.items) importers.now }
    ensures { IfOk result (λ ranks. length ranks.items ≡ length next.now) }
{
    let count = next.len();
    let mut ranks = vec![in alloc; count; count]?;
    let mut waiting = lengths(alloc, next)?;
    let mut ready = empty_ones(alloc, next)?;
    for rank in 0..count {
        match ready.pop() {
            None => return Ok(ranks),
            Some(file) => {
                ranks[file as usize] = rank;
                release(&importers[file as usize], &mut waiting, &mut ready)?;
            }
        }
    }
    Ok(ranks)
}

/// How many files each list has.
fn lengths(alloc: Global, next: &[Vec<u32>]) -> Result<Vec<usize>, NoMemory>
    ensures { IfOk result (λ lengths. length lengths.items ≡ length next.now) }
{
    let mut lengths = Vec::new(alloc);
    for list in next {
        lengths.push(list.len())?;
    }
    Ok(lengths)
}

/// The files whose lists are empty.
fn empty_ones(alloc: Global, next: &[Vec<u32>]) -> Result<Vec<u32>, NoMemory>
    requires { length next.now ≤ 2 ^ 32 }
    ensures { IfOk result (λ files. All (λ g. g < length next.now) files.items) }
{
    let mut files = Vec::new(alloc);
    for file in 0..next.len() {
        if next[file].is_empty() {
            files.push(file as u32)?;
        }
    }
    Ok(files)
}

/// Each of these files waits for one import less; those that wait for none are ready.
fn release(files: &[u32], waiting: &mut Vec<usize>, ready: &mut Vec<u32>) -> Result<(), NoMemory>
    requires within { All (λ g. g < length waiting.old.items) files.now }
    requires ready { All (λ g. g < length waiting.old.items) ready.old.items }
    ensures len { OnOk result (length waiting.new.items ≡ length waiting.old.items) }
    ensures ready { OnOk result (All (λ g. g < length waiting.old.items) ready.new.items) }
{
    for file in files {
        let left = waiting[*file as usize].saturating_sub(1);
        waiting[*file as usize] = left;
        if left == 0 {
            ready.push(*file)?;
        }
    }
    Ok(())
}

/// Whether each file has a rank above those of the files in its list.
fn falls(next: &[Vec<u32>], ranks: &[usize]) -> bool
    requires len { length ranks.now ≡ length next.now }
    requires within { All (λ v. All (λ g. g < length next.now) v.items) next.now }
    ensures { IsTrue result → (file target : ℕ) → Contains
        (get_or (map (λ v. v.items) next.now) file []) target
        → get_or ranks.now target 0 < get_or ranks.now file 0 }
{
    for file in 0..next.len() {
        if !are_below(ranks, &next[file], ranks[file]) {
            return false;
        }
    }
    true
}

/// Whether these files have ranks below this one.
fn are_below(ranks: &[usize], files: &[u32], rank: usize) -> bool
    requires { All (λ g. g < length ranks.now) files.now }
    ensures { IsTrue result → All (λ g. get_or ranks.now g 0 < rank) files.now }
{
    for file in files {
        if ranks[*file as usize] >= rank {
            return false;
        }
    }
    true
}

/// The first import on a cycle, by a walk back from each file in turn.
fn first_back(
    alloc: Global,
    index: &IndexMap<String, u32>,
    files: &[Vec<WrittenImport>],
    importers: &[Vec<u32>],
) -> Result<Option<BadImport>, NoMemory>
    requires count { length files.now ≤ 2 ^ 32 }
    requires rising { All (λ v. TokensAreRising v.items) files.now }
    requires paired { length importers.now ≡ length files.now }
    requires within { All (λ v. All (λ g. g < length importers.now) v.items) importers.now }
    ensures { IfOk result (λ o. (paths : List (List ℕ)) → IsFileIndex index.now paths → AreImporters
        (map (λ v. v.items) importers.now)
        (imports_of paths (all_asked 0 (map (λ v. v.items) files.now))) → IsFirst
        (CycleFault paths (all_asked 0 (map (λ v. v.items) files.now))) (option_map fault_of o)) }
{
    for file in 0..files.len() {
        let leading = reached_files(alloc, importers, file as u32)?;
        if let Some(bad) = first_to_one_in(index, file as u32, &files[file], &leading) {
            return Ok(Some(bad));
        }
    }
    Ok(None)
}

/// The first import of a file that names a file of the set.
fn first_to_one_in(
    index: &IndexMap<String, u32>,
    file: u32,
    written: &[WrittenImport],
    set: &FileSet,
) -> Option<BadImport>
    requires { TokensAreRising written.now }
    ensures { (paths : List (List ℕ)) → IsFileIndex index.now paths
        → IsFirst (MarkedFault paths set.now file written.now) (option_map fault_of result) }
{
    for import in written {
        if names_one_in(index, import.path.as_str(), set) {
            return Some(BadImport {
                file,
                token: import.token,
                flaw: ImportFlaw::Cycle,
            });
        }
    }
    None
}

/// Whether the file with a path is in the set.
fn names_one_in(index: &IndexMap<String, u32>, path: &str, set: &FileSet) -> bool
    ensures { result ≡ option_map_or (λ to. get_or set.now to false)
        (get_by_text index.now path.now) false }
{
    match place_of(index, path) {
        Some(to) => set.contains(to),
        None => false,
    }
}
