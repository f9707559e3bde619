//! The names of all files in a table, packages first, or the first name that clashes.

ghost use Rattle.std.specs.Prelude.{◌≡◌, ℕ, ◌<◌, ◌≤◌, ◌^◌, List, [], ◌++◌, length, get_or, map, take, drop, IfOk, IfErr, OnOk};
ghost use Rattle.std.specs.Cow.{cow_str_bytes};
ghost use Rattle.std.specs.List.{All};
ghost use Rattle.proto_names_rules.specs.Faults.{Fault};
ghost use Rattle.proto_names_table.specs.Filling.{AreInFront, ArePackageRows, AreRows, AreRowsOfNames, declaration_of, Holds, IsClashAt, IsKept, IsNameError, IsRowOf, number_above, others_in, packages_in, StopsIn};
ghost use Rattle.proto_names_rules.specs.Forest.{front, under};
ghost use Rattle.proto_names_rules.specs.Joined.{IsPlain};
ghost use Rattle.proto_names_outline.specs.Listing.{needs};
ghost use Rattle.proto_names_table.specs.Resolved.{SymbolIsDeclared, IsIndexOf};
ghost use Rattle.proto_names_table.specs.Spelled.{all_named, AreSpelled, ClashFault, Named, named_in, symbol_named};
ghost use Rattle.proto_names_table.specs.Tables.{AreDeclared, IsTable, names_of};
ghost use Rattle.proto_names_table.specs.declared.filling.NameError.TheVariants.{NoMemory};

use crate::index::Index;
use crate::packages::package_text;
use crate::spelled::Spelled;
use crate::table::{Symbol, Table};
use indexmap::IndexSet;
use proto_names_outline::listing::Above;
use std::alloc::{AllocError, AllocFailed, Global};
use std::mem::replace;

// No `OrNoMemory`: a struct of the two fields of a clash would have no other use.
/// Why names are not declared: the first clash, or out of memory.
#[derive(Drop)]
pub enum NameError {
    /// A full name is taken: the clash that comes first by file and token, by the number of its
    /// file, from 0, and the index of its token among those of the file.
    Clash { file: u32, token: u32 },
    /// A growth was refused; nothing is said of the names.
    NoMemory,
}

impl From<AllocError> for NameError {
    ghost from_gives = { λ _ e. e ≡ NoMemory };

    fn from(_e: AllocError) -> NameError {
        NameError::NoMemory
    }
}

impl From<proto_base::NoMemory> for NameError {
    ghost from_gives = { λ _ e. e ≡ NoMemory };

    fn from(_e: proto_base::NoMemory) -> NameError {
        NameError::NoMemory
    }
}

impl<T: Drop> From<AllocFailed<T>> for NameError {
    ghost from_gives = { λ _ e. e ≡ NoMemory };

    fn from(_e: AllocFailed<T>) -> NameError {
        NameError::NoMemory
    }
}

/// The names of all files in a table, and for each file the row of each of its declarations.
/// Packages are declared before all else, since no other symbol may have the name of one. Where a
/// name is taken, the clash that comes first by file and token is answered.
pub fn declare_all(
    alloc: Global,
    files: &[Vec<Spelled>],
) -> Result<(Table, Vec<Vec<usize>>), NameError>
    requires count { length files.now ≤ 2 ^ 32 }
    requires spelled { All (λ v. AreSpelled v.items) files.now }
    ensures table { IfOk result (λ x. IsTable x.0) }
    ensures index { IfOk result (λ x. IsIndexOf x.0
        (map symbol_named (all_named 0 (map (λ v. v.items) files.now)))) }
    ensures rows { IfOk result (λ x. AreRows x.0
        (map (λ v. v.items) files.now) (map (λ v. v.items) x.1.items)) }
    ensures clean { IfOk result (λ _. (f : Fault)
        → ClashFault (all_named 0 (map (λ v. v.items) files.now)) f → ⊥) }
    ensures fault { IfErr result (IsNameError
        (ClashFault (all_named 0 (map (λ v. v.items) files.now)))) }
{
    let table = empty_table(alloc, files)?;
    let packages = declare_packages(alloc, table, files)?;
    let named = declare_others(alloc, packages.0, files, packages.1)?;
    Ok(named)
}

/// A table of no names, with room for those of these files. Fails only when out of memory.
fn empty_table(alloc: Global, files: &[Vec<Spelled>]) -> Result<Table, NameError>
    ensures table { IfOk result IsTable }
    ensures empty { IfOk result (λ table. table.rows.items ≡ []) }
    ensures fault { IfErr result (λ e. e ≡ NoMemory) }
{
    let mut count: usize = 0;
    for spelled in files {
        count = count.saturating_add(spelled.len());
    }
    Ok(Table {
        rows: Vec::with_capacity(alloc, count)?,
        below: Index {
            words: IndexSet::new(alloc),
            rows: IndexSet::with_capacity(alloc, count)?,
        },
        begun: None,
    })
}

/// Declares the packages of each file in an empty table; answers it and their rows. They do not
/// clash.
fn declare_packages(
    alloc: Global,
    table: Table,
    files: &[Vec<Spelled>],
) -> Result<(Table, Vec<Vec<usize>>), NameError>
    requires count { length files.now ≤ 2 ^ 32 }
    requires spelled { All (λ v. AreSpelled v.items) files.now }
    requires table { IsTable table }
    requires empty { Holds table [] }
    requires declared { AreDeclared table.rows.items }
    ensures table { IfOk result (λ x. IsTable x.0) }
    ensures held { IfOk result (λ x. Holds x.0
        (packages_in (all_named 0 (map (λ v. v.items) files.now)))) }
    ensures rows { IfOk result (λ x. ArePackageRows x.0
        (map (λ v. v.items) files.now) (map (λ v. v.items) x.1.items)) }
    ensures fault { IfErr result (λ e. e ≡ NoMemory) }
{
    let mut names = table;
    let mut rows = Vec::new(alloc);
    for file in 0..files.len() {
        let spelled = &files[file];
        let own = Vec::with_capacity(alloc, spelled.len())?;
        let count = package_count(spelled);
        let text = package_text(alloc, spelled, count)?;
        names.begin_package(text);
        let filled = fill(alloc, names, file as u32, spelled, count, own)?;
        names = filled.0;
        rows.push(filled.1)?;
    }
    Ok((names, rows))
}

/// Declares all that is no package, file after file; answers the table and all rows.
fn declare_others(
    alloc: Global,
    table: Table,
    files: &[Vec<Spelled>],
    packages: Vec<Vec<usize>>,
) -> Result<(Table, Vec<Vec<usize>>), NameError>
    requires count { length files.now ≤ 2 ^ 32 }
    requires spelled { All (λ v. AreSpelled v.items) files.now }
    requires table { IsTable table }
    requires held { Holds table (packages_in (all_named 0 (map (λ v. v.items) files.now))) }
    requires rows { ArePackageRows table (map (λ v. v.items) files.now)
        (map (λ v. v.items) packages.items) }
    ensures table { IfOk result (λ x. IsTable x.0) }
    ensures held { IfOk result (λ x. Holds x.0
        (packages_in (all_named 0 (map (λ v. v.items) files.now))
        ++ others_in (all_named 0 (map (λ v. v.items) files.now)))) }
    ensures rows { IfOk result (λ x. AreRows x.0
        (map (λ v. v.items) files.now) (map (λ v. v.items) x.1.items)) }
    ensures fault { IfErr result (IsNameError
        (ClashFault (all_named 0 (map (λ v. v.items) files.now)))) }
{
    let mut names = table;
    let mut rows = packages;
    for file in 0..files.len() {
        let spelled = &files[file];
        let slot = &mut rows[file];
        let own = replace(slot, Vec::new(alloc));
        let filled = fill(alloc, names, file as u32, spelled, spelled.len(), own)?;
        names = filled.0;
        rows[file] = filled.1;
    }
    Ok((names, rows))
}

/// How many packages stand before all else.
fn package_count(spelled: &[Spelled]) -> usize
    requires { AreSpelled spelled.now }
    ensures { AreInFront result spelled.now }
{
    let mut count = 0;
    while count < spelled.len() && spelled[count].kind.is_package() {
        count += 1;
    }
    count
}

/// Declares a file's entries up to `end` behind those that have rows; answers the table and the
/// rows with theirs. Where it stops, both are dropped: none of what was declared is kept.
fn fill(
    alloc: Global,
    table: Table,
    file: u32,
    spelled: &[Spelled],
    end: usize,
    rows: Vec<usize>,
) -> Result<(Table, Vec<usize>), NameError>
    requires table { IsTable table }
    requires spelled { AreSpelled spelled.now }
    requires end { end ≤ length spelled.now }
    requires start { length rows.items ≤ end }
    requires rows { AreRowsOfNames table (named_in file spelled.now) rows.items }
    ensures table { IfOk result (λ x. IsTable x.0) }
    ensures kept { IfOk result (λ x. IsKept table x.0) }
    ensures count { IfOk result (λ x. length x.1.items ≡ end) }
    ensures rows { IfOk result (λ x. AreRowsOfNames x.0 (named_in file spelled.now) x.1.items) }
    ensures held { IfOk result (λ x. (ds : List Named) → Holds table ds
        → Holds x.0 (ds ++ drop (length rows.items) (take end (named_in file spelled.now)))) }
    ensures fault { IfErr result (λ e. (ds : List Named)
        → Holds table ds → StopsIn ds (named_in file spelled.now) (length rows.items) end e) }
{
    let start = rows.len();
    let mut names = table;
    let mut all = rows;
    for k in start..end {
        let row = declare_one(alloc, &mut names, file, &spelled[k], &all)?;
        all.push(row)?;
    }
    Ok((names, all))
}

/// Declares one entry, given the rows of those before it; answers its row.
fn declare_one(
    alloc: Global,
    table: &mut Table,
    file: u32,
    spelled: &Spelled,
    rows: &[usize],
) -> Result<usize, NameError>
    requires table { IsTable table.old }
    requires ordered { needs spelled.now.above ≤ length rows.now }
    requires plain { IsPlain (cow_str_bytes spelled.now.word) }
    requires within { (k row : ℕ) → k < length rows.now
        → get_or rows.now k row < length table.old.rows.items }
    ensures table { OnOk result (IsTable table.new) }
    ensures row { IfOk result (IsRowOf table.old table.new
        (under (front (names_of table.old) (number_above rows.now spelled.now.above))
        (cow_str_bytes spelled.now.word)) (declaration_of file spelled.now)) }
    ensures index { OnOk result (SymbolIsDeclared table.old table.new
        (under (front (names_of table.old) (number_above rows.now spelled.now.above))
        (cow_str_bytes spelled.now.word)) (declaration_of file spelled.now)) }
    ensures clash { IfErr result (IsClashAt table.old
        (under (front (names_of table.old) (number_above rows.now spelled.now.above))
        (cow_str_bytes spelled.now.word)) (declaration_of file spelled.now)) }
{
    let above = match spelled.above {
        Above::Outermost => 0,
        Above::Below(k) => rows[k] + 1,
    };
    let symbol = Symbol {
        kind: spelled.kind,
        file,
        token: spelled.token,
    };
    match table.declare(alloc, above, spelled.word.as_str(), symbol)? {
        Some(row) => Ok(row),
        None => Err(NameError::Clash {
            file,
            token: spelled.token,
        }),
    }
}
