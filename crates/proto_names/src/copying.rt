//! Copies of lists.

ghost use Rattle.std.specs.Prelude.{◌≡◌, map, IfOk};

use proto_base::NoMemory;
use proto_file_sets::FileSet;
use proto_names_affected::FileMeanings;
use std::alloc::Global;

/// The same lists in the same order. Fails only when out of memory.
pub(crate) fn copied<T: Copy>(alloc: Global, lists: &[Vec<T>]) -> Result<Vec<Vec<T>>, NoMemory>
    ensures { IfOk result
        (λ copy. map (λ v. v.items) copy.items ≡ map (λ v. v.items) lists.now) }
{
    let mut copy = Vec::with_capacity(alloc, lists.len())?;
    for list in lists {
        let mut own = Vec::with_capacity(alloc, list.len())?;
        own.extend_from_slice(list)?;
        copy.push(own)?;
    }
    Ok(copy)
}

/// The same sets in the same order. Fails only when out of memory.
pub(crate) fn copied_sets(alloc: Global, sets: &[FileSet]) -> Result<Vec<FileSet>, NoMemory>
    ensures { IfOk result (λ copy. copy.items ≡ sets.now) }
{
    let mut copy = Vec::with_capacity(alloc, sets.len())?;
    for set in sets {
        copy.push(set.copy(alloc)?)?;
    }
    Ok(copy)
}

/// The same meanings of the references of each file. Fails only when out of memory.
pub(crate) fn copied_meanings(
    alloc: Global,
    meanings: &[FileMeanings],
) -> Result<Vec<FileMeanings>, NoMemory>
    ensures { IfOk result
        (λ copy. map (λ v. v.items) copy.items ≡ map (λ v. v.items) meanings.now) }
{
    let mut copy = Vec::with_capacity(alloc, meanings.len())?;
    for own in meanings {
        copy.push(own.copy(alloc)?)?;
    }
    Ok(copy)
}
