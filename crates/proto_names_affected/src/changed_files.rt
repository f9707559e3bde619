//! The files that have to be re-resolved once some are edited.

ghost use Rattle.std.specs.Prelude.{◌≡◌, ◌<◌, length, map, IfOk, OnOk};
ghost use Rattle.std.specs.List.{All};
ghost use Rattle.proto_names_affected.specs.ChangedFiles.{AreChangesMarked, IsChangeMarked, kind_rows_of};
ghost use Rattle.proto_names_affected.specs.FirstWords.{AreFirstsOf};
ghost use Rattle.proto_names_affected.specs.Marking.{MarksStay};
ghost use Rattle.proto_names_table.specs.Tables.{IsTable};

use crate::file_meanings::FileMeanings;
use crate::first_words::FirstWords;
use crate::kind_rows::{KindRow, kind_rows, last_word_keys, rows_below_no_type, rows_not_among};
use crate::marking::{mark_beginners, mark_places, mark_users};
use proto_base::NoMemory;
use proto_file_sets::FileSet;
use proto_names_table::RefId;
use proto_names_table::table::Table;
use std::alloc::Global;

/// For each of the files at these places the rows of its declarations, with their kinds. Fails only
/// when out of memory.
pub fn kind_rows_at(
    alloc: Global,
    table: &Table,
    places: &[u32],
    rows: &[Vec<usize>],
) -> Result<Vec<Vec<KindRow>>, NoMemory>
    requires { All (λ place. place < length rows.now) places.now }
    ensures { IfOk result (λ found. map (λ v. v.items) found.items
        ≡ map (kind_rows_of table.now (map (λ v. v.items) rows.now)) places.now) }
{
    let mut found = Vec::with_capacity(alloc, places.len())?;
    for place in places {
        found.push(kind_rows(alloc, table, &rows[*place as usize])?)?;
    }
    Ok(found)
}

/// What a link has of files, some of which are edited.
#[derive(Clone, Copy)]
pub struct Linked<'a> {
    /// The table of their names, with those of the edited files as they are now.
    pub table: &'a Table,
    /// For each row the references to its name, as they were.
    pub references: &'a [Vec<RefId>],
    /// For each file what its references mean, as they were.
    pub meant: &'a [FileMeanings],
    /// Which files may have a reference that begins with a word.
    pub firsts: &'a FirstWords,
}

/// The files that have to be re-resolved: those at these places;
/// those with a reference to a name that one of these declares no more, or with another kind; and
/// those in which a reference begins with a word that has the key of the last word of a name that
/// one of these did not declare, or with another kind, unless the name stands right below a type's:
/// no reference of another file begins there. What each of these declared and declares is given by
/// rows and kinds. Fails only when out of memory.
pub fn marks_of_changes(
    alloc: Global,
    linked: Linked,
    places: &[u32],
    before: &[Vec<KindRow>],
    now: &[Vec<KindRow>],
) -> Result<FileSet, NoMemory>
    requires table { IsTable linked.table.now }
    requires places { All (λ place. place < length linked.meant.now) places.now }
    requires before { length before.now ≡ length places.now }
    requires now { length now.now ≡ length places.now }
    requires within { All (λ v. All (λ p. p.row < length linked.table.now.rows.items) v.items)
        now.now }
    requires references { All (λ v. All (λ r. r.file < length linked.meant.now) v.items)
        linked.references.now }
    requires firsts { AreFirstsOf linked.firsts.now (map (λ v. v.items) linked.meant.now) }
    ensures len { IfOk result (λ marks. length marks ≡ length linked.entry.meant.now) }
    ensures marked { IfOk result (λ marks. AreChangesMarked
        linked.entry.table.now marks places.now
        (map (λ v. v.items) linked.entry.references.now)
        (map (λ v. v.items) linked.entry.meant.now)
        (map (λ v. v.items) before.now) (map (λ v. v.items) now.now)) }
{
    let mut marks = FileSet::new(alloc, linked.meant.len())?;
    mark_places(&mut marks, places);
    for k in 0..places.len() {
        mark_change(alloc, &mut marks, linked, &before[k], &now[k])?;
    }
    Ok(marks)
}

/// Puts the files into the set that have to be re-resolved for what one file declared and declares.
fn mark_change(
    alloc: Global,
    marks: &mut FileSet,
    linked: Linked,
    before: &[KindRow],
    now: &[KindRow],
) -> Result<(), NoMemory>
    requires table { IsTable linked.table.now }
    requires meant { length linked.meant.now ≡ length marks.old }
    requires within { All (λ p. p.row < length linked.table.now.rows.items) now.now }
    requires references { All (λ v. All (λ r. r.file < length marks.old) v.items)
        linked.references.now }
    requires firsts { AreFirstsOf linked.firsts.now (map (λ v. v.items) linked.meant.now) }
    ensures stay { OnOk result (MarksStay marks.old marks.new) }
    ensures marked { OnOk result (IsChangeMarked linked.entry.table.now marks.new
        (map (λ v. v.items) linked.entry.references.now)
        (map (λ v. v.items) linked.entry.meant.now) before.now now.now) }
{
    let gone = rows_not_among(alloc, before, now)?;
    mark_users(marks, linked.references, &gone);
    let came = rows_not_among(alloc, now, before)?;
    let asked = rows_below_no_type(alloc, linked.table, &came)?;
    let keys = last_word_keys(alloc, linked.table, &asked)?;
    mark_beginners(alloc, marks, linked.meant, linked.firsts, &keys)?;
    Ok(())
}
