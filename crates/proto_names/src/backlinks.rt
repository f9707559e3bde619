//! References by the names that they mean.

ghost use Rattle.std.specs.Prelude.{◌≡◌, ℕ, ◌<◌, ◌≤◌, ◌^◌, [], ◌∷◌, ◌++◌, length, get_or, map, slice_set, replicate, IfOk, OnOk};
ghost use Rattle.std.specs.List.{All};
ghost use Rattle.proto_names.specs.Linking.{meant_in_file, all_meant, references_to};

use proto_base::NoMemory;
use proto_names_affected::FileMeanings;
use proto_names_table::{Meant, RefId};
use std::alloc::Global;

/// For each of so many names, the references that mean it, by file and in order.
pub(crate) fn references_by_name(
    alloc: Global,
    count: usize,
    meant: &[FileMeanings],
) -> Result<Vec<Vec<RefId>>, NoMemory>
    requires count { length meant.now ≤ 2 ^ 32 }
    requires within { All (λ v. All (λ m. m.row < count) v.items) meant.now }
    ensures len { IfOk result (λ refs. length refs.items ≡ count) }
    ensures each { IfOk result (λ refs. (row : ℕ) → get_or (map (λ v. v.items) refs.items) row []
        ≡ references_to row (all_meant 0 (map (λ v. v.items) meant.now))) }
{
    let mut references = empty_lists(alloc, count)?;
    for file in 0..meant.len() {
        put_all(&mut references, file as u32, meant[file].as_slice())?;
    }
    Ok(references)
}

/// As many lists, all empty.
fn empty_lists(alloc: Global, count: usize) -> Result<Vec<Vec<RefId>>, NoMemory>
    ensures { IfOk result (λ lists. map (λ v. v.items) lists.items ≡ replicate count []) }
{
    // Names that edits add have their lists behind these: the first of them is to move none.
    let mut lists = Vec::with_capacity(alloc, count.saturating_add(count / 8))?;
    for _ in 0..count {
        lists.push(Vec::new(alloc))?;
    }
    Ok(lists)
}

/// Puts the references of a file behind those of the names that they mean.
fn put_all(references: &mut Vec<Vec<RefId>>, file: u32, meant: &[Meant]) -> Result<(), NoMemory>
    requires { All (λ m. m.row < length references.old.items) meant.now }
    ensures len { OnOk result (length references.new.items ≡ length references.old.items) }
    ensures each { OnOk result ((row : ℕ) → get_or (map (λ v. v.items) references.new.items) row []
        ≡ get_or (map (λ v. v.items) references.old.items) row []
        ++ references_to row (map (meant_in_file file) meant.now)) }
{
    for one in meant {
        let reference = RefId {
            file,
            token: one.token,
        };
        put(references, one.row, reference)?;
    }
    Ok(())
}

/// Puts a reference behind those of a name.
fn put(references: &mut Vec<Vec<RefId>>, row: usize, reference: RefId) -> Result<(), NoMemory>
    requires { row < length references.old.items }
    ensures { OnOk result (map (λ v. v.items) references.new.items ≡ slice_set
        (map (λ v. v.items) references.old.items) row
        (get_or (map (λ v. v.items) references.old.items) row [] ++ reference ∷ [])) }
{
    let list = &mut references[row];
    list.push(reference)?;
    Ok(())
}
