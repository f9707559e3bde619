//! The references to a name, once those of some files are others.

ghost use Rattle.std.specs.Prelude.{◌≡◌, ◌++◌, List, not, IfOk, OnOk};
ghost use Rattle.std.specs.List.{filter};
ghost use Rattle.proto_names_affected.specs.Merged.{is_of_marked_file, ReferencesAreRising, references_before, references_from, merged};

use proto_base::NoMemory;
use proto_file_sets::FileSet;
use proto_names_table::RefId;
use std::alloc::Global;

/// The references to a name: of those that there were the ones of files that are not marked, and
/// those that the marked files have now, by rising files. Fails only when out of memory.
pub fn renewed(
    alloc: Global,
    old: &[RefId],
    marks: &FileSet,
    fresh: &[RefId],
) -> Result<Vec<RefId>, NoMemory>
    ensures merged { IfOk result (λ v. v.items
        ≡ merged (filter (λ r. not (is_of_marked_file marks.now r)) old.now) fresh.now) }
    ensures exact { IfOk result (λ v. (all : List RefId) → ReferencesAreRising all
        → filter (λ r. not (is_of_marked_file marks.now r)) all
        ≡ filter (λ r. not (is_of_marked_file marks.now r)) old.now
        → filter (is_of_marked_file marks.now) all ≡ fresh.now → v.items ≡ all) }
{
    let mut found = Vec::with_capacity(alloc, old.len().saturating_add(fresh.len()))?;
    let mut rest = fresh;
    for reference in old {
        if !marks.contains(reference.file) {
            rest = put_before(&mut found, rest, reference.file)?;
            found.push(*reference)?;
        }
    }
    found.extend_from_slice(rest)?;
    Ok(found)
}

/// Puts those of the references that stand before a file behind others; answers the rest.
fn put_before<'a>(
    found: &mut Vec<RefId>,
    fresh: &'a [RefId],
    file: u32,
) -> Result<&'a [RefId], NoMemory>
    ensures found { OnOk result
        (found.new.items ≡ found.old.items ++ references_before file fresh.now) }
    ensures rest { IfOk result (λ rest. rest.now ≡ references_from file fresh.now) }
{
    let mut rest = fresh;
    while let Some((first, behind)) = rest.split_first() {
        if first.file >= file {
            return Ok(rest);
        }
        found.push(*first)?;
        rest = behind;
    }
    Ok(rest)
}
