//! The references of marked files, by the rows of the names that they mean.

ghost use Rattle.std.specs.Prelude.{◌≡◌, ◌≤◌, ◌<◌, ◌^◌, [], ◌∷◌, length, get_or, map, nat_eq, if◌then◌else◌, false, IfOk, OnOk};
ghost use Rattle.std.specs.List.{All};
ghost use Rattle.indexmap.specs.IndexSet.{IsUnique};
ghost use Rattle.proto_names_affected.specs.Referred.{meant_row};
ghost use Rattle.proto_names_affected.specs.Gathering.{AreRowsBelow, AreRowsNamed, Gathers, HasGathered, IsSound, marked_meant};

use crate::file_meanings::FileMeanings;
use indexmap::IndexSet;
use proto_base::{Change, NoMemory};
use proto_file_sets::FileSet;
use proto_names_table::{Meant, RefId};
use std::alloc::Global;

/// Rows, each once, and for each a list of references.
#[derive(Drop)]
pub struct Gathered {
    /// How many rows there may be: each is below that.
    pub count: usize,
    /// The rows.
    pub rows: IndexSet<usize>,
    /// For each of them, its references.
    pub lists: Vec<Vec<RefId>>,
}

impl Gathered {
    /// None of so many rows. Takes no memory.
    pub fn new(alloc: Global, count: usize) -> Gathered
        ensures sound { IsSound result }
        ensures count { result.count ≡ count }
        ensures empty { HasGathered result [] }
    {
        Gathered {
            count,
            rows: IndexSet::new(alloc),
            lists: Vec::new(alloc),
        }
    }

    /// The place of a row; where it is new, its list is empty.
    fn place(&mut self, alloc: Global, row: usize) -> Result<usize, NoMemory>
        requires sound { IsSound self.old }
        requires within { row < self.old.count }
        ensures gathers { OnOk result (Gathers self.old self.new []) }
        ensures within { IfOk result (λ k. k < length self.new.lists.items) }
        ensures place { IfOk result (λ k. get_or self.new.rows.keys k 0 ≡ row) }
        ensures unique { OnOk result (IsUnique nat_eq self.new.rows) }
    {
        let (place, is_new) = self.rows.insert_full(row)?;
        if is_new {
            self.lists.push(Vec::new(alloc))?;
        }
        Ok(place)
    }

    /// Puts a reference behind those of a row.
    fn put(&mut self, alloc: Global, row: usize, reference: RefId) -> Result<(), NoMemory>
        requires sound { IsSound self.old }
        requires within { row < self.old.count }
        ensures { OnOk result (Gathers self.old self.new
            (record { reference = reference; row = row } ∷ [])) }
    {
        let place = self.place(alloc, row)?;
        let list = &mut self.lists[place];
        list.push(reference)?;
        Ok(())
    }

    /// Takes in the rows that these references of one file mean, but no reference.
    fn add_rows(&mut self, alloc: Global, meant: &[Meant]) -> Result<(), NoMemory>
        requires sound { IsSound self.old }
        requires within { AreRowsBelow self.old.count meant.now }
        ensures gathers { OnOk result (Gathers self.old self.new []) }
        ensures named { OnOk result (AreRowsNamed self.new.rows.keys meant.now) }
    {
        for one in meant {
            self.place(alloc, one.row)?;
        }
        Ok(())
    }

    /// Takes in the rows that references meant before these changes, but no reference.
    pub fn add_former_rows(
        &mut self,
        alloc: Global,
        old: &[Change<FileMeanings>],
    ) -> Result<(), NoMemory>
        requires sound { IsSound self.old }
        requires within { All (λ c. AreRowsBelow self.old.count c.was.items) old.now }
        ensures gathers { OnOk result (Gathers self.old self.new []) }
        ensures named { OnOk result
            (All (λ c. AreRowsNamed self.new.rows.keys c.was.items) old.now) }
    {
        for change in old {
            self.add_rows(alloc, change.was.as_slice())?;
        }
        Ok(())
    }

    /// Takes in the references of a file.
    fn add_file(&mut self, alloc: Global, file: u32, meant: &[Meant]) -> Result<(), NoMemory>
        requires sound { IsSound self.old }
        requires within { AreRowsBelow self.old.count meant.now }
        ensures { OnOk result (Gathers self.old self.new (map (meant_row file) meant.now)) }
    {
        for one in meant {
            let reference = RefId {
                file,
                token: one.token,
            };
            self.put(alloc, one.row, reference)?;
        }
        Ok(())
    }

    /// Takes in the references of a file, if it is marked.
    fn add_if_marked(
        &mut self,
        alloc: Global,
        marks: &FileSet,
        file: u32,
        meant: &[Meant],
    ) -> Result<(), NoMemory>
        requires sound { IsSound self.old }
        requires within { AreRowsBelow self.old.count meant.now }
        ensures { OnOk result (Gathers self.old self.new
            (if get_or marks.now file false then map (meant_row file) meant.now else [])) }
    {
        if marks.contains(file) {
            self.add_file(alloc, file, meant)
        } else {
            Ok(())
        }
    }

    /// Takes in the references of the marked files, file after file.
    pub fn add_marked(
        &mut self,
        alloc: Global,
        marks: &FileSet,
        meant: &[FileMeanings],
    ) -> Result<(), NoMemory>
        requires sound { IsSound self.old }
        requires within { All (λ v. AreRowsBelow self.old.count v.items) meant.now }
        requires count { length meant.now ≤ 2 ^ 32 }
        ensures { OnOk result (Gathers self.old self.new
            (marked_meant marks.now 0 (map (λ v. v.items) meant.now))) }
    {
        for file in 0..meant.len() {
            self.add_if_marked(alloc, marks, file as u32, meant[file].as_slice())?;
        }
        Ok(())
    }
}
