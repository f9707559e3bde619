//! The files that lead to a file by imports.

ghost use Rattle.std.specs.Prelude.{◌≡◌, ◌⊎◌, ◌↔◌, ℕ, ◌<◌, ◌≤◌, ◌^◌, ◌++◌, ◌∷◌, [], length, get_or, map, replicate, slice_set, IfOk, OnOk};
ghost use Rattle.std.specs.List.{All, Contains};
ghost use Rattle.proto_names_imports.specs.ImportSteps.{AreTurned};
ghost use Rattle.proto_names_imports.specs.Importing.{all_imports};
ghost use Rattle.proto_names_imports.specs.Walks.{IsMarked};
ghost use Rattle.proto_names_rules.specs.Cycles.{Leads};

use proto_base::NoMemory;
use proto_file_sets::FileSet;
use proto_names_imports::import::{FileImport, all_targets};
use proto_names_imports::walk::reached_files;
use std::alloc::Global;

/// As many lists, all empty.
fn empty_lists(alloc: Global, count: usize) -> Result<Vec<Vec<u32>>, NoMemory>
    ensures { IfOk result (λ lists. map (λ v. v.items) lists.items ≡ replicate count []) }
{
    let mut lists = Vec::new(alloc);
    for _ in 0..count {
        lists.push(Vec::new(alloc))?;
    }
    Ok(lists)
}

/// Puts a file into a list.
fn put_in(lists: &mut Vec<Vec<u32>>, place: u32, file: u32) -> Result<(), NoMemory>
    requires { place < length lists.old.items }
    ensures { OnOk result (map (λ v. v.items) lists.new.items ≡ slice_set
        (map (λ v. v.items) lists.old.items) place
        (get_or (map (λ v. v.items) lists.old.items) place [] ++ file ∷ [])) }
{
    let list = &mut lists[place as usize];
    list.push(file)?;
    Ok(())
}

/// Puts a file into each of these lists.
fn put_in_all(lists: &mut Vec<Vec<u32>>, places: &[u32], file: u32) -> Result<(), NoMemory>
    requires { All (λ place. place < length lists.old.items) places.now }
    ensures len { OnOk result (length lists.new.items ≡ length lists.old.items) }
    ensures exact { OnOk result ((place one : ℕ) → Contains
        (get_or (map (λ v. v.items) lists.new.items) place []) one ↔
        (Contains (get_or (map (λ v. v.items) lists.old.items) place []) one ⊎
        (Contains places.now place × (one ≡ file)))) }
{
    for place in places {
        put_in(lists, *place, file)?;
    }
    Ok(())
}

/// For each file, the files whose lists have it.
fn importers(alloc: Global, next: &[Vec<u32>]) -> Result<Vec<Vec<u32>>, NoMemory>
    requires count { length next.now ≤ 2 ^ 32 }
    requires within { All (λ v. All (λ g. g < length next.now) v.items) next.now }
    ensures len { IfOk result (λ back. length back.items ≡ length next.now) }
    ensures exact { IfOk result (λ back. AreTurned
        (map (λ v. v.items) next.now) (map (λ v. v.items) back.items)) }
{
    let mut back = empty_lists(alloc, next.len())?;
    for file in 0..next.len() {
        put_in_all(&mut back, &next[file], file as u32)?;
    }
    Ok(back)
}

/// The file, and those that lead to it by these imports, public or not. Takes time linear in the
/// number of imports. Fails only when out of memory.
pub(crate) fn leading_to(
    alloc: Global,
    imports: &[Vec<FileImport>],
    file: u32,
) -> Result<FileSet, NoMemory>
    requires count { length imports.now ≤ 2 ^ 32 }
    requires within { All (λ v. All (λ i. i.to < length imports.now) v.items) imports.now }
    requires file { file < length imports.now }
    ensures { IfOk result (λ leading. (from : ℕ) → IsMarked leading from
        ↔ Leads (all_imports 0 (map (λ v. v.items) imports.now)) from file) }
{
    let next = all_targets(alloc, imports)?;
    let back = importers(alloc, &next)?;
    reached_files(alloc, &back, file)
}
