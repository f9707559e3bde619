//! Which files may have a reference that begins with a word.

ghost use Rattle.std.specs.Prelude.{◌≡◌, ◌<◌, ◌≤◌, ◌^◌, length, map, IfOk};
ghost use Rattle.std.specs.List.{All};
ghost use Rattle.proto_base.specs.Undone.{AreWithin, undone};
ghost use Rattle.proto_file_sets.specs.FileSets.{IsIn};
ghost use Rattle.proto_names_affected.specs.FirstWords.{AreFirstsOf, FirstsStay, HasFirsts, first_files};

use crate::file_meanings::{FileMeanings, place_of};
use proto_base::{Change, NoMemory};
use proto_file_sets::FileSet;
use proto_names_table::Meant;
use std::alloc::Global;
use std::marker::Model;

/// Which files may have a reference that begins with a word of a key. Some may have none.
#[derive(Drop)]
pub struct FirstWords {
    /// For each remainder that a key leaves by the length of this, the files.
    sets: Vec<FileSet>,
}

impl Model for FirstWords {
    ghost use Rattle.std.specs.Prelude.{Bool, List};
    ghost use Rattle.proto_names_affected.specs.FirstWords.{AreFirstSets};

    ghost Value = { List (List Bool) };

    ghost view = { λ f. f.sets.items };

    ghost invariant = { λ f. AreFirstSets f.sets.items };
}

impl FirstWords {
    /// The files that have such references, of those that mean these. Fails only when out of memory.
    pub fn of(alloc: Global, meant: &[FileMeanings]) -> Result<FirstWords, NoMemory>
        requires few { length meant.now ≤ 2 ^ 32 }
        ensures { IfOk result (λ firsts. AreFirstsOf firsts (map (λ v. v.items) meant.now)) }
    {
        let mut firsts = FirstWords::new(alloc, meant.len())?;
        for file in 0..meant.len() {
            firsts.add(file, meant[file].as_slice());
        }
        Ok(firsts)
    }

    /// No file yet, of so many. Fails only when out of memory.
    fn new(alloc: Global, file_count: usize) -> Result<FirstWords, NoMemory>
        requires few { file_count ≤ 2 ^ 32 }
        ensures { IfOk result (λ firsts. All (λ set. length set ≡ file_count) firsts) }
    {
        let count = file_count.min(1024);
        let mut sets = Vec::with_capacity(alloc, count + 1)?;
        for _ in 0..count + 1 {
            sets.push(FileSet::new(alloc, file_count)?)?;
        }
        Ok(FirstWords { sets })
    }

    /// The same. Fails only when out of memory.
    pub fn copy(&self, alloc: Global) -> Result<FirstWords, NoMemory>
        ensures { IfOk result (λ copy. copy ≡ self.now) }
    {
        let sets = copied_sets(alloc, &self.sets)?;
        Ok(FirstWords { sets })
    }

    /// Notes the first words of the references that changed files have now. Takes no memory.
    pub fn add_changed(&mut self, changed: &[Change<FileMeanings>], meant: &[FileMeanings])
        requires within { AreWithin (length meant.now) changed.now }
        requires before { AreFirstsOf self.old
            (map (λ v. v.items) (undone changed.now meant.now)) }
        ensures stay { FirstsStay self.old self.new }
        ensures firsts { AreFirstsOf self.new (map (λ v. v.items) meant.now) }
    {
        for change in changed {
            self.add(change.place, meant[change.place].as_slice());
        }
    }

    /// Notes the first words of these references of a file.
    fn add(&mut self, file: usize, meant: &[Meant])
        requires within { All (λ set. file < length set) self.old }
        ensures stay { FirstsStay self.old self.new }
        ensures added { HasFirsts self.new file meant.now }
    {
        for one in meant {
            self.add_key(file, one.first);
        }
    }

    /// Notes that a reference of a file begins with a word of this key.
    fn add_key(&mut self, file: usize, key: u32)
        requires within { All (λ set. file < length set) self.old }
        ensures stay { FirstsStay self.old self.new }
        ensures added { IsIn (first_files self.new key) file }
    {
        let place = place_of(key, self.sets.len());
        self.sets[place].insert_at(file);
    }

    /// The files that may have a reference which begins with a word of this key.
    pub fn files_of(&self, key: u32) -> &FileSet
        ensures files { result.now ≡ first_files self.now key }
        ensures few { length result.now ≤ 2 ^ 32 }
    {
        let place = place_of(key, self.sets.len());
        &self.sets[place]
    }
}

/// The same sets in the same order. Fails only when out of memory.
fn copied_sets(alloc: Global, sets: &[FileSet]) -> Result<Vec<FileSet>, NoMemory>
    ensures { IfOk result (λ copy. copy.items ≡ sets.now) }
{
    let mut copy = Vec::with_capacity(alloc, sets.len())?;
    for set in sets {
        copy.push(set.copy(alloc)?)?;
    }
    Ok(copy)
}
