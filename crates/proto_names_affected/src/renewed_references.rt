//! The lists of references to each name, once those of some files are others.

ghost use Rattle.std.specs.Prelude.{◌≡◌, ℕ, ◌<◌, ◌≤◌, ◌^◌, max, [], length, get_or, map, take, OnOk};
ghost use Rattle.std.specs.List.{All};
ghost use Rattle.proto_base.specs.Undone.{AreWithin, undone};
ghost use Rattle.proto_names_affected.specs.Gathering.{AreRowsBelow};
ghost use Rattle.proto_names_affected.specs.Marking.{IsMarked, MarksStay};
ghost use Rattle.proto_names_affected.specs.Renewed.{AreGrown, AreReferencesOf, AreRenewed};

use crate::backlinks::renewed;
use crate::file_meanings::FileMeanings;
use crate::gathering::Gathered;
use crate::laws::references_are_parted;
use proto_base::{Change, NoMemory, change_at};
use proto_file_sets::FileSet;
use proto_names_table::{Meant, RefId};
use std::alloc::Global;

/// Renews the lists of references to each name, once those of some files mean what `meant` says,
/// which has the references of all files: `old` has what was changed there. A name to which no
/// changed file refers or referred keeps its list. Fails only when out of memory; then some lists
/// may be renewed, and the log tells which.
pub fn renew_references(
    alloc: Global,
    references: &mut Vec<Vec<RefId>>,
    log: &mut Vec<Change<Vec<RefId>>>,
    old: &[Change<FileMeanings>],
    meant: &[FileMeanings],
) -> Result<(), NoMemory>
    requires count { length meant.now ≤ 2 ^ 32 }
    requires former { All
        (λ c. AreRowsBelow (length references.old.items) c.was.items) old.now }
    requires rows { All (λ v. AreRowsBelow (length references.old.items) v.items) meant.now }
    requires within { AreWithin (length meant.now) old.now }
    requires before { AreReferencesOf (map (λ v. v.items) references.old.items)
        (map (λ v. v.items) (undone old.now meant.now)) }
    ensures undone { undone log.new.items references.new.items
        ≡ undone log.old.items references.old.items }
    ensures len { length references.new.items ≡ length references.old.items }
    ensures within { AreWithin (length references.old.items) log.old.items
        → AreWithin (length references.old.items) log.new.items }
    ensures references { OnOk result (AreReferencesOf (map (λ v. v.items) references.new.items)
        (map (λ v. v.items) meant.now)) }
{
    references_are_parted::<Meant>();
    let mut changed = FileSet::new(alloc, meant.len())?;
    insert_changed(&mut changed, old);
    let mut gathered = Gathered::new(alloc, references.len());
    gathered.add_former_rows(alloc, old)?;
    gathered.add_marked(alloc, &changed, meant)?;
    let rows = gathered.rows.as_slice();
    renew_listed(alloc, references, log, &changed, rows, &gathered.lists)
}

/// Puts the files into the set whose meanings were changed.
fn insert_changed(files: &mut FileSet, old: &[Change<FileMeanings>])
    requires { AreWithin (length files.old) old.now }
    ensures stay { MarksStay files.old files.new }
    ensures changed { All (λ c. IsMarked files.new c.place) old.now }
{
    for change in old {
        files.insert_at(change.place);
    }
}

/// Renews the lists of these rows, given for each row the references of marked files that mean it.
fn renew_listed(
    alloc: Global,
    references: &mut Vec<Vec<RefId>>,
    log: &mut Vec<Change<Vec<RefId>>>,
    marks: &FileSet,
    rows: &[usize],
    lists: &[Vec<RefId>],
) -> Result<(), NoMemory>
    requires within { All (λ row. row < length references.old.items) rows.now }
    requires paired { length lists.now ≡ length rows.now }
    ensures undone { undone log.new.items references.new.items
        ≡ undone log.old.items references.old.items }
    ensures len { length references.new.items ≡ length references.old.items }
    ensures within { AreWithin (length references.old.items) log.old.items
        → AreWithin (length references.old.items) log.new.items }
    ensures renewed { OnOk result (AreRenewed marks.now rows.now (map (λ v. v.items) lists.now)
        (map (λ v. v.items) references.old.items) (map (λ v. v.items) references.new.items)) }
{
    for k in 0..rows.len() {
        let row = rows[k];
        let list = renewed(alloc, &references[row], marks, &lists[k])?;
        change_at(references, log, row, list)?;
    }
    Ok(())
}

/// Adds empty lists, for names that came, until there are so many; where there are more, all stay.
/// Fails only when out of memory; then some may be added. `cut_references` takes them away, also
/// behind the way back of a log (`added_are_cut` of `proto_names_affected`).
pub fn grow_references(
    alloc: Global,
    references: &mut Vec<Vec<RefId>>,
    count: usize,
) -> Result<(), NoMemory>
    ensures grown { AreGrown references.old.items references.new.items }
    ensures same { (row : ℕ) → get_or (map (λ v. v.items) references.new.items) row []
        ≡ get_or (map (λ v. v.items) references.old.items) row [] }
    ensures len { OnOk result
        (length references.new.items ≡ max (length references.old.items) count) }
{
    for _ in references.len()..count {
        references.push(Vec::new(alloc))?;
    }
    Ok(())
}

/// Takes the last lists away, so that at most so many are left. Takes no memory.
pub fn cut_references(references: &mut Vec<Vec<RefId>>, count: usize)
    ensures { references.new.items ≡ take count references.old.items }
{
    references.truncate(count);
}
