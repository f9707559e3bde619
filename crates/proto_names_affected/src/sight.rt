//! The files that have to be re-resolved for what they see, once some are edited.

ghost use Rattle.std.specs.Prelude.{◌≡◌, ℕ, ◌<◌, ◌&&◌, Bool, List, false, not, [], length, get_or, map, IfOk, OnOk};
ghost use Rattle.std.specs.List.{All, list_all};
ghost use Rattle.proto_names_affected.specs.Marking.{IsMarked, MarksStay, begins_so};
ghost use Rattle.proto_names_affected.specs.Sight.{IsGathered, IsNewlySeen, IsSightMarked, is_seen_at};
ghost use Rattle.proto_names_table.specs.Tables.{IsTable};

use crate::file_meanings::FileMeanings;
use crate::marking::begins_so;
use crate::shown_names::{ShownNames, shown_names};
use indexmap::IndexSet;
use proto_base::{Change, NoMemory};
use proto_file_sets::FileSet;
use proto_names_table::Meant;
use proto_names_table::table::Table;
use std::alloc::Global;

/// What a link has of files, which see others than before.
#[derive(Clone, Copy)]
pub struct Sighted<'a> {
    /// The table of their names as they are now.
    pub table: &'a Table,
    /// For each file the rows of its declarations now.
    pub rows: &'a [Vec<usize>],
    /// For each file what its references mean, as they were.
    pub meant: &'a [FileMeanings],
    /// For each file the files that it sees.
    pub sees: &'a [FileSet],
}

/// Puts those of the files into the set that have to be re-resolved for what they see, where each
/// of these saw what is noted here, at its place: those that see no more what one of their
/// references means; and those in which a reference begins with a word that has the key of the
/// last word of a name in a file that one of them newly sees, unless the name stands right below a
/// type's, or the file declares it itself. Fails only when out of memory.
pub fn mark_by_sight(
    alloc: Global,
    marks: &mut FileSet,
    sighted: Sighted,
    saw: &[Change<FileSet>],
) -> Result<(), NoMemory>
    requires table { IsTable sighted.table.now }
    requires files { All (λ c. c.place < length marks.old) saw.now }
    requires rows { length sighted.rows.now ≡ length marks.old }
    requires meant { length sighted.meant.now ≡ length marks.old }
    requires sees { length sighted.sees.now ≡ length marks.old }
    ensures stay { OnOk result (MarksStay marks.old marks.new) }
    ensures marked { OnOk result ((before : List (List Bool))
        → All (λ c. get_or before c.place [] ≡ c.was) saw.now
        → All (λ c. IsSightMarked marks.new sighted.entry.table.now
        (map (λ v. v.items) sighted.entry.rows.now) (map (λ v. v.items) sighted.entry.meant.now)
        before sighted.entry.sees.now c.place) saw.now) }
{
    let seen = newly_seen(alloc, sighted, saw)?;
    let names = shown_names(alloc, sighted.table, sighted.rows, &seen)?;
    for change in saw {
        mark_one(alloc, marks, sighted, &names, change)?;
    }
    Ok(())
}

/// The files that one of these newly sees. Fails only when out of memory.
fn newly_seen(alloc: Global, sighted: Sighted, saw: &[Change<FileSet>]) -> Result<FileSet, NoMemory>
    requires files { All (λ c. c.place < length sighted.rows.now) saw.now }
    requires sees { length sighted.sees.now ≡ length sighted.rows.now }
    ensures { IfOk result (λ marks. All (λ c. (g : ℕ) → g < length sighted.entry.rows.now
        → IsNewlySeen c.was (get_or sighted.entry.sees.now c.place []) g
        → IsMarked marks g) saw.now) }
{
    let mut marks = FileSet::new(alloc, sighted.rows.len())?;
    for change in saw {
        marks.add_new(&sighted.sees[change.place], &change.was);
    }
    Ok(marks)
}

/// Puts a file into the set, if it has to be re-resolved for what it sees; with the names of all
/// files that it newly sees. Fails only when out of memory.
fn mark_one(
    alloc: Global,
    marks: &mut FileSet,
    sighted: Sighted,
    names: &ShownNames,
    saw: &Change<FileSet>,
) -> Result<(), NoMemory>
    requires table { IsTable sighted.table.now }
    requires file { saw.now.place < length marks.old }
    requires rows { length sighted.rows.now ≡ length marks.old }
    requires meant { length sighted.meant.now ≡ length marks.old }
    requires sees { length sighted.sees.now ≡ length marks.old }
    requires within { All (λ row. row < length sighted.table.now.rows.items)
        names.now.packages.keys }
    requires gathered { (g : ℕ)
        → IsNewlySeen saw.now.was (get_or sighted.sees.now saw.now.place []) g
        → All (IsGathered sighted.table.now names.now.packages.keys names.now.keys.keys)
        (get_or (map (λ v. v.items) sighted.rows.now) g []) }
    ensures stay { OnOk result (MarksStay marks.old marks.new) }
    ensures marked { OnOk result ((before : List (List Bool))
        → get_or before saw.now.place [] ≡ saw.now.was
        → IsSightMarked marks.new sighted.entry.table.now
        (map (λ v. v.items) sighted.entry.rows.now) (map (λ v. v.items) sighted.entry.meant.now)
        before sighted.entry.sees.now saw.now.place) }
{
    let Sighted { table, .. } = sighted;
    let place = saw.place;
    let foreign = names.foreign_keys(alloc, table, &sighted.rows[place])?;
    let meant = &sighted.meant[place];
    let is_kept = means_the_same(table, &sighted.sees[place], meant, names.keys(), &foreign);
    mark_unless(marks, place, is_kept);
    Ok(())
}

/// Puts a file into the set, unless it is kept.
#[tactic(auto, using(crate::proofs::Inserted::inserted_stay, crate::proofs::Inserted::inserted_marked))]
fn mark_unless(marks: &mut FileSet, file: usize, is_kept: bool)
    requires { file < length marks.old }
    ensures stay { MarksStay marks.old marks.new }
    ensures marked { is_kept ≡ false → IsMarked marks.new file }
{
    if !is_kept {
        marks.insert_at(file);
    }
}

/// Whether a file sees what its references mean, and none of them begins with a word of one of
/// these keys.
fn means_the_same(
    table: &Table,
    sees: &FileSet,
    meant: &FileMeanings,
    keys: &IndexSet<u32>,
    foreign: &IndexSet<u32>,
) -> bool
    ensures { result ≡ (list_all (λ m. is_seen_at table.now sees.now m.row) meant.now.items
        && (not (begins_so keys.now.keys meant.now.items)
        && not (begins_so foreign.now.keys meant.now.items))) }
{
    sees_all(table, sees, meant.as_slice()) && !begins_so(meant, keys) && !begins_so(meant, foreign)
}

/// Whether a file that sees these sees what its references mean.
fn sees_all(table: &Table, sees: &FileSet, meant: &[Meant]) -> bool
    ensures { result ≡ list_all (λ m. is_seen_at table.now sees.now m.row) meant.now }
{
    meant.iter().all(|m| is_seen_at(table, sees, m.row))
}

/// Whether a file that declares the name of a row is seen.
fn is_seen_at(table: &Table, sees: &FileSet, row: usize) -> bool
    ensures { result ≡ is_seen_at table.now sees.now row }
{
    match table.rows.get(row) {
        Some(own) => own.is_seen(sees),
        None => false,
    }
}
