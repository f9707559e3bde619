//! Puts files that have to be re-resolved into a set.

ghost use Rattle.std.specs.Prelude.{◌≡◌, ℕ, ◌<◌, ◌≤◌, ◌^◌, [], length, get_or, map, OnOk};
ghost use Rattle.std.specs.List.{All};
ghost use Rattle.proto_names_affected.specs.FirstWords.{AreFirstsOf};
ghost use Rattle.proto_names_affected.specs.Marking.{AreBeginnersMarked, ArePlacesMarked, AreReferencesMarked, AreUsersMarked, IsBeginnerMarked, IsMarked, MarksStay, begins_so};

use crate::file_meanings::FileMeanings;
use crate::first_words::FirstWords;
use indexmap::IndexSet;
use proto_base::NoMemory;
use proto_file_sets::FileSet;
use proto_names_table::RefId;
use std::alloc::Global;

/// Puts these files into the set.
pub fn mark_places(marks: &mut FileSet, places: &[u32])
    requires { All (λ place. place < length marks.old) places.now }
    ensures stay { MarksStay marks.old marks.new }
    ensures marked { ArePlacesMarked marks.new places.now }
{
    for place in places {
        marks.insert(*place);
    }
}

/// Puts the files into the set that have references to the names of these rows: those in the lists
/// of the rows. Rows past the lists have none.
pub fn mark_users(marks: &mut FileSet, references: &[Vec<RefId>], rows: &[usize])
    requires { All (λ v. All (λ r. r.file < length marks.old) v.items) references.now }
    ensures stay { MarksStay marks.old marks.new }
    ensures marked { AreUsersMarked
        marks.new (map (λ v. v.items) references.now) rows.now }
{
    for row in rows {
        mark_all(marks, references_of(references, *row));
    }
}

/// The references to the name of a row.
fn references_of(references: &[Vec<RefId>], row: usize) -> &[RefId]
    ensures { result.now ≡ get_or (map (λ v. v.items) references.now) row [] }
{
    match references.get(row) {
        Some(own) => own.as_slice(),
        None => &[],
    }
}

/// Puts the files of these references into the set.
fn mark_all(marks: &mut FileSet, references: &[RefId])
    requires { All (λ r. r.file < length marks.old) references.now }
    ensures stay { MarksStay marks.old marks.new }
    ensures marked { AreReferencesMarked marks.new references.now }
{
    for reference in references {
        marks.insert(reference.file);
    }
}

/// Puts the files into the set that have references which begin with a word of one of these keys,
/// where this tells which files may have such. Fails only when out of memory.
pub fn mark_beginners(
    alloc: Global,
    marks: &mut FileSet,
    meant: &[FileMeanings],
    firsts: &FirstWords,
    keys: &IndexSet<u32>,
) -> Result<(), NoMemory>
    requires count { length meant.now ≡ length marks.old }
    requires firsts { AreFirstsOf firsts.now (map (λ v. v.items) meant.now) }
    ensures stay { OnOk result (MarksStay marks.old marks.new) }
    ensures marked { OnOk result (AreBeginnersMarked
        marks.new (map (λ v. v.items) meant.now) keys.now.keys) }
{
    for key in keys.as_slice() {
        mark_beginners_of(alloc, marks, meant, firsts.files_of(*key), *key)?;
    }
    Ok(())
}

/// Puts those of the files into the set that have references which begin with a word of this key.
/// Fails only when out of memory.
fn mark_beginners_of(
    alloc: Global,
    marks: &mut FileSet,
    meant: &[FileMeanings],
    files: &FileSet,
    key: u32,
) -> Result<(), NoMemory>
    requires count { length meant.now ≡ length marks.old }
    requires files { length files.now ≤ length marks.old }
    requires few { length files.now ≤ 2 ^ 32 }
    ensures stay { OnOk result (MarksStay marks.old marks.new) }
    ensures marked { OnOk result ((file : ℕ) → IsMarked files.now file
        → IsBeginnerMarked marks.new (map (λ v. v.items) meant.now) key file) }
{
    let asked = files.files(alloc)?;
    for file in &asked {
        mark_beginner(marks, meant, *file, key);
    }
    Ok(())
}

/// Puts a file into the set, if one of its references begins with a word of this key.
#[tactic(auto, using(crate::proofs::Inserted::inserted_stay, crate::proofs::Inserted::inserted_marked))]
fn mark_beginner(marks: &mut FileSet, meant: &[FileMeanings], file: u32, key: u32)
    requires count { length meant.now ≡ length marks.old }
    requires file { file < length marks.old }
    ensures stay { MarksStay marks.old marks.new }
    ensures marked { IsBeginnerMarked marks.new (map (λ v. v.items) meant.now) key file }
{
    if meant[file as usize].begins_with(key) {
        marks.insert(file);
    }
}

/// Whether one of the references begins with a word of one of these keys.
pub(crate) fn begins_so(meant: &FileMeanings, keys: &IndexSet<u32>) -> bool
    ensures { result ≡ begins_so keys.now.keys meant.now.items }
{
    keys.as_slice().iter().any(|key| meant.begins_with(*key))
}
