//! The names of edited files, taken out of a table and put in again.

ghost use Rattle.std.specs.Prelude.{◌≡◌, ◌≢◌, ℕ, ◌<◌, ◌≤◌, true, List, [], ◌∷◌, length, get_or, Some, IfOk, IfSome, OnOk};
ghost use Rattle.std.specs.Cow.{cow_str_bytes};
ghost use Rattle.std.specs.List.{All, Contains};
ghost use Rattle.proto_names_update.specs.Forgetting.{AreForgotten, AreLeft};
ghost use Rattle.proto_names_update.specs.NameLogs.{Fits, IsNoted, undone_table};
ghost use Rattle.proto_names_update.specs.Renewal.{AreDeclaredAgain, IsPackageOf};
ghost use Rattle.proto_names_outline.specs.Listing.{needs};
ghost use Rattle.proto_names_rules.specs.declared.kind.Kind.TheVariants.{Package};
ghost use Rattle.proto_names_rules.specs.Forest.{front, under};
ghost use Rattle.proto_names_rules.specs.Joined.{IsPlain};
ghost use Rattle.proto_names_rules.specs.Names.{Symbol as NamedSymbol};
ghost use Rattle.proto_names_table.specs.Filling.{IsRowOf, declaration_of, number_above};
ghost use Rattle.proto_names_table.specs.Resolved.{IsIndexOf, SymbolIsDeclared};
ghost use Rattle.proto_names_table.specs.Spelled.{AreSpelled};
ghost use Rattle.proto_names_table.specs.Tables.{IsTable, files_of, look, names_of};

use crate::name_log::{NameLog, Standing};
use crate::not_updated::NotUpdated;
use proto_base::NoMemory;
use proto_base::laws::added_are_cut;
use proto_names_outline::listing::Above;
use proto_names_table::spelled::Spelled;
use proto_names_table::table::{Row, Symbol, Table};
use std::alloc::Global;

/// Takes the declaration of each of these rows away that is no package's. Fails only when out
/// of memory; then some of them may be taken, and the log tells which.
pub fn forget_all(table: &mut Table, log: &mut NameLog, rows: &[usize]) -> Result<(), NoMemory>
    requires table { IsTable table.old }
    requires fits { Fits log.old table.old }
    requires within { All (λ row. row < length table.old.rows.items) rows.now }
    ensures table { IsTable table.new }
    ensures fits { Fits log.new table.new }
    ensures undone { undone_table log.new table.new ≡ undone_table log.old table.old }
    ensures rows { OnOk result (AreForgotten rows.now table.old table.new) }
    ensures index { OnOk result ((old rest : List NamedSymbol) → IsIndexOf table.old old
        → AreLeft rows.now table.old old rest → IsIndexOf table.new rest) }
{
    for row in rows {
        forget(table, log, *row)?;
    }
    Ok(())
}

/// Takes the declaration of a row away, unless it is a package's.
fn forget(table: &mut Table, log: &mut NameLog, row: usize) -> Result<(), NoMemory>
    requires table { IsTable table.old }
    requires fits { Fits log.old table.old }
    requires within { row < length table.old.rows.items }
    ensures table { IsTable table.new }
    ensures fits { Fits log.new table.new }
    ensures undone { undone_table log.new table.new ≡ undone_table log.old table.old }
    ensures len { length table.new.rows.items ≡ length table.old.rows.items }
    ensures rows { OnOk result (AreForgotten (row ∷ []) table.old table.new) }
{
    if table.rows[row].symbol.kind.is_package() {
        return Ok(());
    }
    log.note(table, row)?;
    table.forget(row);
    Ok(())
}

/// Declares what a file declares; answers the row of each declaration. The rows of its packages
/// have to be there, with this file among theirs. A rebuild is needed where one is not, and where
/// another name is taken. Where it declares not all, some of it may be declared, and the log tells
/// which.
pub fn declare_all_again(
    alloc: Global,
    table: &mut Table,
    log: &mut NameLog,
    file: u32,
    spelled: &[Spelled],
) -> Result<Vec<usize>, NotUpdated>
    requires table { IsTable table.old }
    requires fits { Fits log.old table.old }
    requires spelled { AreSpelled spelled.now }
    ensures table { IsTable table.new }
    ensures fits { Fits log.new table.new }
    ensures undone { undone_table log.new table.new ≡ undone_table log.old table.old }
    ensures declared { IfOk result
        (λ rows. AreDeclaredAgain table.old table.new file spelled.now rows.items) }
{
    let mut rows = Vec::with_capacity(alloc, spelled.len())?;
    for entry in spelled {
        let declared = declare_again(alloc, table, log, file, entry, &rows)?;
        match declared {
            Some(row) => rows.push(row)?,
            None => return Err(NotUpdated::NeedsRebuild),
        }
    }
    Ok(rows)
}

/// Declares one entry, given the rows of those before it; answers its row.
fn declare_again(
    alloc: Global,
    table: &mut Table,
    log: &mut NameLog,
    file: u32,
    spelled: &Spelled,
    rows: &[usize],
) -> Result<Option<usize>, NoMemory>
    requires table { IsTable table.old }
    requires fits { Fits log.old table.old }
    requires ordered { needs spelled.now.above ≤ length rows.now }
    requires plain { IsPlain (cow_str_bytes spelled.now.word) }
    requires within { (k row : ℕ) → k < length rows.now
        → get_or rows.now k row < length table.old.rows.items }
    ensures table { IsTable table.new }
    ensures fits { Fits log.new table.new }
    ensures undone { undone_table log.new table.new ≡ undone_table log.old table.old }
    ensures row { IfOk result (λ o. IfSome o (IsRowOf table.old table.new
        (under (front (names_of table.old) (number_above rows.now spelled.now.above))
        (cow_str_bytes spelled.now.word)) (declaration_of file spelled.now))) }
    ensures index { IfOk result (λ o. IfSome o (λ _. SymbolIsDeclared table.old table.new
        (under (front (names_of table.old) (number_above rows.now spelled.now.above))
        (cow_str_bytes spelled.now.word)) (declaration_of file spelled.now))) }
{
    let above = match spelled.above {
        Above::Outermost => 0,
        Above::Below(k) => rows[k] + 1,
    };
    let symbol = Symbol {
        kind: spelled.kind,
        file,
        token: spelled.token,
    };
    let word = spelled.word.as_str();
    if spelled.kind.is_package() {
        Ok(package_row(table, above, word, file))
    } else {
        declare_noted(alloc, table, log, above, word, symbol)
    }
}

/// The row of the package with this word right below a name, where the file declares it.
fn package_row(table: &Table, above: usize, word: &str, file: u32) -> Option<usize>
    requires table { IsTable table.now }
    requires within { above ≤ length table.now.rows.items }
    ensures { IfSome result
        (IsPackageOf table.now (under (front (names_of table.now) above) word.now) file) }
{
    let row = table.find(above, word)?;
    if is_package_of(&table.rows[row], file) {
        Some(row)
    } else {
        None
    }
}

/// Whether it is the row of a package that the file declares.
fn is_package_of(row: &Row, file: u32) -> bool
    ensures kind { result ≡ true → row.now.symbol.kind ≡ Package }
    ensures declared { result ≡ true → row.now.is_declared ≡ true }
    ensures file_is { result ≡ true → Contains (files_of row.now) file }
{
    row.is_declared()
        && row.symbol.kind.is_package()
        && (row.symbol.file == file || row.more.contains(&file))
}

/// Declares a symbol that is no package; notes what declared its row last, where it has one.
fn declare_noted(
    alloc: Global,
    table: &mut Table,
    log: &mut NameLog,
    above: usize,
    word: &str,
    symbol: Symbol,
) -> Result<Option<usize>, NoMemory>
    requires table { IsTable table.old }
    requires fits { Fits log.old table.old }
    requires within { above ≤ length table.old.rows.items }
    requires plain { IsPlain word.now }
    requires other { symbol.kind ≢ Package }
    ensures table { IsTable table.new }
    ensures fits { Fits log.new table.new }
    ensures undone { undone_table log.new table.new ≡ undone_table log.old table.old }
    ensures row { IfOk result (λ o. IfSome o
        (IsRowOf table.old table.new (under (front (names_of table.old) above) word.now) symbol)) }
    ensures index { IfOk result (λ o. IfSome o (λ _. SymbolIsDeclared table.old table.new
        (under (front (names_of table.old) above) word.now) symbol)) }
{
    added_are_cut::<Standing>();
    note_below(table, log, above, word)?;
    table.declare(alloc, above, word, symbol)
}

/// Notes what declares the row of this word right below a name, where it has one.
fn note_below(table: &Table, log: &mut NameLog, above: usize, word: &str) -> Result<(), NoMemory>
    requires table { IsTable table.now }
    requires fits { Fits log.old table.now }
    requires within { above ≤ length table.now.rows.items }
    ensures fits { Fits log.new table.now }
    ensures undone { undone_table log.new table.now ≡ undone_table log.old table.now }
    ensures noted { OnOk result ((row : ℕ) → look table.now above word.now ≡ Some row
        → IsNoted log.new table.now row) }
{
    match table.find(above, word) {
        Some(row) => log.note(table, row),
        None => Ok(()),
    }
}
