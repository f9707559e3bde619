//! Sets of files by number.
#![tactic(auto)]

ghost use Rattle.std.specs.Prelude.{◌≡◌, ◌↔◌, ℕ, ◌^◌, ◌<◌, ◌≤◌, true, false, length, get_or, slice_set, replicate, IfOk};
ghost use Rattle.proto_file_sets.specs.FileSets.{IsIn, IsInBoth, is_in_or_new, files_in};

mod words;

use crate::words::{
    add_new_bits, are_same, clear_spare, filled, has_bit, have_common, set_bit, set_files,
};
use proto_base::NoMemory;
use std::alloc::Global;
use std::marker::Model;

/// Which files are in a set, by their numbers from 0, of so many files.
#[derive(Drop)]
pub struct FileSet {
    /// Of how many files it is a set.
    file_count: usize,
    /// A bit for each file, 64 a word; those past the last file are 0.
    words: Vec<u64>,
}

impl Model for FileSet {
    ghost use Rattle.std.specs.Prelude.{Bool, List};
    ghost use Rattle.proto_file_sets.specs.Words.{members, AreWords};

    ghost Value = { List Bool };

    ghost view = { λ s. members s.file_count s.words.items };

    ghost invariant = { λ s. AreWords s.file_count s.words.items };
}

impl FileSet {
    /// The empty set, of so many files. Fails only when out of memory.
    pub fn new(alloc: Global, file_count: usize) -> Result<FileSet, NoMemory>
        ensures { IfOk result (λ set. set ≡ replicate file_count false) }
    {
        let words = filled(alloc, 0, file_count)?;
        Ok(FileSet { file_count, words })
    }

    /// The set with all of so many files. Fails only when out of memory.
    pub fn all(alloc: Global, file_count: usize) -> Result<FileSet, NoMemory>
        ensures { IfOk result (λ set. set ≡ replicate file_count true) }
    {
        let mut words = filled(alloc, u64::MAX, file_count)?;
        clear_spare(&mut words, file_count);
        Ok(FileSet { file_count, words })
    }

    /// A set of the same files. Fails only when out of memory.
    pub fn copy(&self, alloc: Global) -> Result<FileSet, NoMemory>
        ensures { IfOk result (λ set. set ≡ self.now) }
    {
        let words = Vec::from_slice(alloc, &self.words)?;
        Ok(FileSet {
            file_count: self.file_count,
            words,
        })
    }

    /// Of how many files it is a set.
    pub fn file_count(&self) -> usize
        ensures { result ≡ length self.now }
    {
        self.file_count
    }

    /// Whether the file with this number is in the set; false for a number past its files.
    pub fn contains(&self, file: u32) -> bool
        ensures { result ≡ get_or self.now file false }
    {
        has_bit(&self.words, file as usize)
    }

    /// Puts the file with this number into the set; one past its files changes nothing.
    pub fn insert(&mut self, file: u32)
        ensures { self.new ≡ slice_set self.old file true }
    {
        self.insert_at(file as usize);
    }

    /// Whether a file is in the set, by its index in a list over all files.
    pub fn contains_at(&self, index: usize) -> bool
        ensures { result ≡ get_or self.now index false }
    {
        has_bit(&self.words, index)
    }

    /// Puts a file into the set, by its index in a list over all files.
    pub fn insert_at(&mut self, index: usize)
        ensures { self.new ≡ slice_set self.old index true }
    {
        if index < self.file_count {
            set_bit(&mut self.words, index);
        }
    }

    /// Puts the files into the set that are in `seen` and not in `before`.
    pub fn add_new(&mut self, seen: &FileSet, before: &FileSet)
        ensures count { length self.new ≡ length self.old }
        ensures files { (file : ℕ) → file < length self.old
            → get_or self.new file false ≡ is_in_or_new self.old seen.now before.now file }
        ensures kept { (file : ℕ) → IsIn self.old file → IsIn self.new file }
    {
        add_new_bits(&mut self.words, &seen.words, &before.words);
        clear_spare(&mut self.words, self.file_count);
    }

    /// Whether both are the same set of as many files.
    pub fn is_same(&self, other: &FileSet) -> bool
        ensures { (result ≡ true) ↔ (self.now ≡ other.now) }
    {
        self.file_count == other.file_count && are_same(&self.words, &other.words)
    }

    /// Whether some file is in both sets.
    pub fn intersects(&self, other: &FileSet) -> bool
        ensures { (result ≡ true) ↔ ((file : ℕ) × IsInBoth self.now other.now file) }
    {
        have_common(&self.words, &other.words)
    }

    /// The files of the set, by their numbers, in order. Fails only when out of memory.
    pub fn files(&self, alloc: Global) -> Result<Vec<u32>, NoMemory>
        requires few { length self.now ≤ 2 ^ 32 }
        ensures { IfOk result (λ files. files.items ≡ files_in self.now) }
    {
        let files = set_files(alloc, &self.words)?;
        Ok(files)
    }
}
