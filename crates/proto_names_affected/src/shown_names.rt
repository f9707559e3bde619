//! The names that newly seen files declare, as far as a reference's first word might stand for
//! them.

ghost use Rattle.std.specs.Prelude.{◌≡◌, ◌⊎◌, ℕ, ◌<◌, ◌++◌, [], ◌∷◌, true, false, length, get_or, map, IfOk, OnOk};
ghost use Rattle.std.specs.List.{All, Contains};
ghost use Rattle.proto_names_affected.specs.Marking.{IsMarked};
ghost use Rattle.proto_names_affected.specs.Sight.{AreMoreGathered, HasLastWord, IsGathered, is_package_at};
ghost use Rattle.proto_names_table.specs.Tables.{IsTable};

use crate::kind_rows::{is_below_type, last_word, last_word_keys};
use indexmap::IndexSet;
use proto_base::{NoMemory, word_key};
use proto_file_sets::FileSet;
use proto_names_table::table::Table;
use std::alloc::Global;

/// The names of some files, but for those right below a type's.
#[derive(Drop)]
pub(crate) struct ShownNames {
    /// The rows of the packages, each once.
    packages: IndexSet<usize>,
    /// The keys of the last words of the other names.
    keys: IndexSet<u32>,
}

impl ShownNames {
    /// Adds the name of a row. Fails only when out of memory.
    fn add(&mut self, table: &Table, row: usize) -> Result<(), NoMemory>
        requires table { IsTable table.now }
        requires within { All (λ row. row < length table.now.rows.items) self.old.packages.keys }
        ensures more { OnOk result (AreMoreGathered table.now self.old.packages.keys
            self.old.keys.keys self.new.packages.keys self.new.keys.keys) }
        ensures gathered { OnOk result
            (IsGathered table.now self.new.packages.keys self.new.keys.keys row) }
    {
        if is_package_at(table, row) {
            self.packages.insert(row)?;
            return Ok(());
        }
        if has_row(table, row) && !is_below_type(table, row) {
            self.keys.insert(word_key(last_word(table, row)))?;
            return Ok(());
        }
        Ok(())
    }

    /// Adds the names of these rows. Fails only when out of memory.
    fn add_rows(&mut self, table: &Table, rows: &[usize]) -> Result<(), NoMemory>
        requires table { IsTable table.now }
        requires within { All (λ row. row < length table.now.rows.items) self.old.packages.keys }
        ensures more { OnOk result (AreMoreGathered table.now self.old.packages.keys
            self.old.keys.keys self.new.packages.keys self.new.keys.keys) }
        ensures gathered { OnOk result
            (All (IsGathered table.now self.new.packages.keys self.new.keys.keys) rows.now) }
    {
        for row in rows {
            self.add(table, *row)?;
        }
        Ok(())
    }

    /// Adds the names of a file, if it is marked. Fails only when out of memory.
    fn add_if_marked(
        &mut self,
        table: &Table,
        marks: &FileSet,
        file: usize,
        rows: &[usize],
    ) -> Result<(), NoMemory>
        requires table { IsTable table.now }
        requires within { All (λ row. row < length table.now.rows.items) self.old.packages.keys }
        ensures more { OnOk result (AreMoreGathered table.now self.old.packages.keys
            self.old.keys.keys self.new.packages.keys self.new.keys.keys) }
        ensures gathered { OnOk result (IsMarked marks.now file
            → All (IsGathered table.now self.new.packages.keys self.new.keys.keys) rows.now) }
    {
        if marks.contains_at(file) {
            return self.add_rows(table, rows);
        }
        Ok(())
    }

    /// The keys of the last words of the packages that are none of a file's own, which are at the
    /// head of its rows. Fails only when out of memory.
    pub(crate) fn foreign_keys(
        &self,
        alloc: Global,
        table: &Table,
        rows: &[usize],
    ) -> Result<IndexSet<u32>, NoMemory>
        requires table { IsTable table.now }
        requires within { All (λ row. row < length table.now.rows.items) self.now.packages.keys }
        ensures { IfOk result (λ keys. (row : ℕ) → Contains self.now.packages.keys row
            → Contains rows.now row ⊎ HasLastWord table.now keys.keys row) }
    {
        let asked = rows_not_own(alloc, &self.packages, packages_of(table, rows))?;
        last_word_keys(alloc, table, &asked)
    }

    /// The keys of the last words of all names but packages.
    pub(crate) fn keys(&self) -> &IndexSet<u32>
        ensures { result.now ≡ self.now.keys }
    {
        &self.keys
    }
}

/// The names of the marked files, by the rows of each file. Fails only when out of memory.
pub(crate) fn shown_names(
    alloc: Global,
    table: &Table,
    rows: &[Vec<usize>],
    marks: &FileSet,
) -> Result<ShownNames, NoMemory>
    requires table { IsTable table.now }
    ensures within { IfOk result
        (λ names. All (λ row. row < length table.now.rows.items) names.packages.keys) }
    ensures gathered { IfOk result (λ names. (file : ℕ) → IsMarked marks.now file
        → All (IsGathered table.now names.packages.keys names.keys.keys)
        (get_or (map (λ v. v.items) rows.now) file [])) }
{
    let mut names = ShownNames {
        packages: IndexSet::new(alloc),
        keys: IndexSet::new(alloc),
    };
    for file in 0..rows.len() {
        names.add_if_marked(table, marks, file, &rows[file])?;
    }
    Ok(names)
}

/// Whether the name of a row is a package's.
fn is_package_at(table: &Table, row: usize) -> bool
    ensures is { result ≡ is_package_at table.now row }
    ensures within { result ≡ true → row < length table.now.rows.items }
{
    match table.rows.get(row) {
        Some(own) => own.symbol.kind.is_package(),
        None => false,
    }
}

/// Whether the table has a row.
fn has_row(table: &Table, row: usize) -> bool
    ensures within { result ≡ true → row < length table.now.rows.items }
    ensures all { row < length table.now.rows.items → result ≡ true }
{
    row < table.rows.len()
}

/// The rows of packages at the head of these.
fn packages_of<'a>(table: &Table, rows: &'a [usize]) -> &'a [usize]
    ensures { (row : ℕ) → Contains result.now row → Contains rows.now row }
{
    for k in 0..rows.len() {
        if !is_package_at(table, rows[k]) {
            return &rows[..k];
        }
    }
    rows
}

/// Those of the packages that are none of a file's own. Fails only when out of memory.
fn rows_not_own(
    alloc: Global,
    packages: &IndexSet<usize>,
    own: &[usize],
) -> Result<Vec<usize>, NoMemory>
    ensures each { IfOk result (λ rows. (row : ℕ) → Contains packages.now.keys row
        → Contains own.now row ⊎ Contains rows.items row) }
    ensures only { IfOk result (λ rows. All (Contains packages.now.keys) rows.items) }
{
    let mut rows = Vec::new(alloc);
    for row in packages.as_slice() {
        add_foreign(&mut rows, own, *row)?;
    }
    Ok(rows)
}

/// Adds a row, unless it is one of a file's own.
fn add_foreign(rows: &mut Vec<usize>, own: &[usize], row: usize) -> Result<(), NoMemory>
    ensures { OnOk result ((Contains own.now row × (rows.new.items ≡ rows.old.items))
        ⊎ (rows.new.items ≡ rows.old.items ++ row ∷ [])) }
{
    if own.contains(&row) {
        return Ok(());
    }
    rows.push(row)?;
    Ok(())
}
