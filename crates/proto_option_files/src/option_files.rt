//! Which files may have an option with a word.

ghost use Rattle.std.specs.Prelude.{◌≡◌, ℕ, ◌<◌, ◌≤◌, ◌^◌, ◌%◌, List, [], ◌∷◌, true, false, length, get_or, replicate, slice_set, IfOk};
ghost use Rattle.std.specs.List.{All, Contains};
ghost use Rattle.proto_file_sets.specs.FileSets.{IsIn};
ghost use Rattle.proto_files.specs.GivenFiles.{FileOf, file_at};
ghost use Rattle.proto_names_affected.specs.FirstWords.{FirstsStay, first_files};
ghost use Rattle.proto_names_update.specs.Edited.{AreSameBut};
ghost use Rattle.proto_option_files.specs.OptionFiles.{AddsOnly, AreOnlyTheirs, AreOptionFiles, HasFileKeys, HasKeys, OthersStay};

use crate::option_keys::file_keys;
use proto_base::NoMemory;
use proto_file_sets::FileSet;
use proto_files::Files;
use std::alloc::Global;
use std::marker::Model;

/// Which files may have an option with a word of a key (`word_key`). A file among them may have
/// none: keys with one remainder have one set, and what is noted of a file stays as it changes.
#[derive(Drop)]
pub struct OptionFiles {
    /// For each remainder that a key leaves by the length of this, the files.
    sets: Vec<FileSet>,
}

impl Model for OptionFiles {
    ghost use Rattle.std.specs.Prelude.{Bool, List};
    ghost use Rattle.proto_names_affected.specs.FirstWords.{AreFirstSets};

    ghost Value = { List (List Bool) };

    ghost view = { λ o. o.sets.items };

    ghost invariant = { λ o. AreFirstSets o.sets.items };
}

/// The remainder of a key.
fn place_of(key: u32, len: usize) -> usize
    requires { 0 < len }
    ensures within { result < len }
    ensures exact { result ≡ key % len }
{
    key as usize % len
}

impl OptionFiles {
    /// Those of the files. Fails only when out of memory.
    pub fn new(alloc: Global, files: &Files) -> Result<OptionFiles, NoMemory>
        ensures theirs { IfOk result (λ found. AreOptionFiles files.now found) }
        ensures only { IfOk result (λ found. AreOnlyTheirs files.now found) }
    {
        let mut found = OptionFiles::empty(alloc, files.len())?;
        for file in 0..files.len() as u32 {
            let keys = file_keys(alloc, files, file)?;
            found.add_keys(file, &keys);
        }
        Ok(found)
    }

    /// No file yet, of so many. Fails only when out of memory.
    fn empty(alloc: Global, file_count: usize) -> Result<OptionFiles, NoMemory>
        requires few { file_count ≤ 2 ^ 32 }
        ensures { IfOk result (λ found. All (λ set. set ≡ replicate file_count false) found) }
    {
        let count = file_count.min(1024);
        let mut sets = Vec::with_capacity(alloc, count + 1)?;
        for _ in 0..count + 1 {
            sets.push(FileSet::new(alloc, file_count)?)?;
        }
        Ok(OptionFiles { sets })
    }

    /// The same. Fails only when out of memory.
    pub fn copy(&self, alloc: Global) -> Result<OptionFiles, NoMemory>
        ensures { IfOk result (λ copy. copy ≡ self.now) }
    {
        let sets = copied_sets(alloc, &self.sets)?;
        Ok(OptionFiles { sets })
    }

    /// Notes the words that the options of changed files have now. What is noted stays. Where there
    /// is no memory to list the words of a file, it is noted for all words.
    pub fn add_changed(&mut self, alloc: Global, files: &Files, changed: &[u32])
        requires within { All (λ file. file < length files.now) changed.now }
        requires sized { All (λ set. length set ≡ length files.now) self.old }
        ensures theirs { (before : List FileOf) → AreSameBut changed.now before files.now
            → AreOptionFiles before self.old → AreOptionFiles files.now self.new }
        ensures stay { FirstsStay self.old self.new }
        ensures others { OthersStay self.old self.new (Contains changed.now) }
    {
        for file in changed {
            self.add_file(alloc, files, *file);
        }
    }

    /// The same of one file.
    fn add_file(&mut self, alloc: Global, files: &Files, file: u32)
        requires file { file < length files.now }
        requires within { All (λ set. file < length set) self.old }
        ensures stay { FirstsStay self.old self.new }
        ensures added { HasFileKeys (file_at files.now file) self.new file }
        ensures others { OthersStay self.old self.new (λ other. other ≡ file) }
    {
        match file_keys(alloc, files, file) {
            Ok(keys) => self.add_keys(file, &keys),
            Err(_) => self.add_to_all(file),
        }
    }

    /// Notes that a file may have words of any key.
    fn add_to_all(&mut self, file: u32)
        requires within { All (λ set. file < length set) self.old }
        ensures stay { FirstsStay self.old self.new }
        ensures added { (key : ℕ) → IsIn (first_files self.new key) file }
        ensures others { OthersStay self.old self.new (λ other. other ≡ file) }
    {
        insert_in_all(&mut self.sets, file);
    }

    /// Notes that a file has words of these keys.
    fn add_keys(&mut self, file: u32, keys: &[u32])
        requires within { All (λ set. file < length set) self.old }
        ensures stay { FirstsStay self.old self.new }
        ensures added { HasKeys self.new file keys.now }
        ensures only { AddsOnly self.old self.new file keys.now }
    {
        for key in keys {
            self.add_key(file, *key);
        }
    }

    /// The same of one key.
    fn add_key(&mut self, file: u32, key: u32)
        requires within { All (λ set. file < length set) self.old }
        ensures stay { FirstsStay self.old self.new }
        ensures added { IsIn (first_files self.new key) file }
        ensures only { AddsOnly self.old self.new file (key ∷ []) }
    {
        let place = place_of(key, self.sets.len());
        insert_in(&mut self.sets, place, file);
    }

    /// The files that may have an option with a word of this key.
    pub fn files_of(&self, key: u32) -> &FileSet
        ensures { result.now ≡ first_files self.now key }
    {
        let place = place_of(key, self.sets.len());
        &self.sets[place]
    }
}

/// Puts a file into one of these sets.
fn insert_in(sets: &mut Vec<FileSet>, place: usize, file: u32)
    requires { place < length sets.old.items }
    ensures { sets.new.items ≡ slice_set sets.old.items place
        (slice_set (get_or sets.old.items place []) file true) }
{
    sets[place].insert(file);
}

/// Puts a file into each of these sets.
fn insert_in_all(sets: &mut Vec<FileSet>, file: u32)
    requires some { 0 < length sets.old.items }
    requires within { All (λ set. file < length set) sets.old.items }
    ensures stay { FirstsStay sets.old.items sets.new.items }
    ensures added { (key : ℕ) → IsIn (first_files sets.new.items key) file }
    ensures others { OthersStay sets.old.items sets.new.items (λ other. other ≡ file) }
{
    for place in 0..sets.len() {
        insert_in(sets, place, file);
    }
}

/// The same sets in the same order. Fails only when out of memory.
fn copied_sets(alloc: Global, sets: &[FileSet]) -> Result<Vec<FileSet>, NoMemory>
    ensures { IfOk result (λ copy. copy.items ≡ sets.now) }
{
    let mut copy = Vec::with_capacity(alloc, sets.len())?;
    for set in sets {
        copy.push(set.copy(alloc)?)?;
    }
    Ok(copy)
}
