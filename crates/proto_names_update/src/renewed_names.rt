//! The names of edited files in a table, in place of those that they had.

ghost use Rattle.std.specs.Prelude.{◌≡◌, ℕ, ◌<◌, List, length, get_or, map, true, IfOk, IfSome, OnOk};
ghost use Rattle.std.specs.List.{All, Contains};
ghost use Rattle.proto_files.specs.FilesRead.{AreRead, ReadOf};
ghost use Rattle.proto_names_update.specs.Forgetting.{AreForgotten};
ghost use Rattle.proto_names_update.specs.NameLogs.{Fits, undone_table};
ghost use Rattle.proto_names_update.specs.NamesOfFiles.{WereNames, declared_by};
ghost use Rattle.proto_names_update.specs.RenewedNames.{AreFilesAgain, AreRenewed, IsFileAgain, rows_at};
ghost use Rattle.proto_names_rules.specs.declared.kind.Kind.TheVariants.{Package};
ghost use Rattle.proto_names_table.specs.Spelled.{AreSpelled, named_in};
ghost use Rattle.proto_names_table.specs.Tables.{IsTable};
ghost use Rattle.proto_names_table.specs.declared.table.Row.{Row as RowOf};

use crate::name_log::NameLog;
use crate::not_updated::NotUpdated;
use crate::renewal::{declare_all_again, forget_all};
use proto_base::NoMemory;
use proto_files::{Files, Words, are_read};
use proto_names_outline::file_listing::list_file;
use proto_names_table::last_words::spelled_names;
use proto_names_table::spelled::Spelled;
use proto_names_table::table::Table;
use std::alloc::Global;

/// Puts the names of the files at these places into the table, in place of those that they had
/// there, given the rows of each file's declarations; answers the rows of the files at these
/// places. A rebuild is needed where a file's packages are others than before, where a name is
/// taken, and where a place stands twice. Where it answers no rows, some of the names may be
/// changed, and the log tells which.
pub fn renew_names(
    alloc: Global,
    table: &mut Table,
    log: &mut NameLog,
    files: &Files,
    places: &[u32],
    rows: &[Vec<usize>],
) -> Result<Vec<Vec<usize>>, NotUpdated>
    requires table { IsTable table.old }
    requires fits { Fits log.old table.old }
    requires places { All (λ place. place < length files.now) places.now }
    requires paired { length rows.now ≡ length files.now }
    requires within { All (λ v. All (λ row. row < length table.old.rows.items) v.items) rows.now }
    requires names { WereNames places.now files.now table.old (map (λ v. v.items) rows.now) }
    ensures table { IsTable table.new }
    ensures fits { Fits log.new table.new }
    ensures undone { undone_table log.new table.new ≡ undone_table log.old table.old }
    ensures renewed { IfOk result (λ renewed. AreRenewed places.now files.now
        table.old table.new (map (λ v. v.items) rows.now) (map (λ v. v.items) renewed.items)) }
{
    are_read(files);
    forget_places(table, log, places, rows)?;
    declare_places(alloc, table, log, files, places, rows)
}

/// Takes the declarations of the files at these places away that are no package's. Fails only when
/// out of memory; then some of them may be taken.
fn forget_places(
    table: &mut Table,
    log: &mut NameLog,
    places: &[u32],
    rows: &[Vec<usize>],
) -> Result<(), NoMemory>
    requires table { IsTable table.old }
    requires fits { Fits log.old table.old }
    requires places { All (λ place. place < length rows.now) places.now }
    requires within { All (λ v. All (λ row. row < length table.old.rows.items) v.items) rows.now }
    ensures table { IsTable table.new }
    ensures fits { Fits log.new table.new }
    ensures undone { undone_table log.new table.new ≡ undone_table log.old table.old }
    ensures rows { OnOk result (AreForgotten
        (rows_at (map (λ v. v.items) rows.now) places.now) table.old table.new) }
{
    for place in places {
        forget_all(table, log, &rows[*place as usize])?;
    }
    Ok(())
}

/// Declares what the files at these places declare, given the rows of each file's declarations
/// before; answers theirs. A rebuild is needed where one of the files has a package less or more,
/// and where a name is taken. Where it answers no rows, some may be declared.
fn declare_places(
    alloc: Global,
    table: &mut Table,
    log: &mut NameLog,
    files: &Files,
    places: &[u32],
    rows: &[Vec<usize>],
) -> Result<Vec<Vec<usize>>, NotUpdated>
    requires table { IsTable table.old }
    requires fits { Fits log.old table.old }
    requires places { All (λ place. place < length files.now) places.now }
    requires paired { length rows.now ≡ length files.now }
    requires within { All (λ v. All (λ row. row < length table.old.rows.items) v.items) rows.now }
    ensures table { IsTable table.new }
    ensures fits { Fits log.new table.new }
    ensures undone { undone_table log.new table.new ≡ undone_table log.old table.old }
    ensures declared { IfOk result (λ renewed. (reads : List ReadOf) → AreRead files.now reads
        → AreFilesAgain table.old table.new (declared_by files.now reads) places.now
        (map (λ v. v.items) rows.now) (map (λ v. v.items) renewed.items)) }
{
    are_read(files);
    let mut renewed = Vec::with_capacity(alloc, places.len())?;
    for place in places {
        let before = &rows[*place as usize];
        let own = declare_file(alloc, table, log, files, *place, before)?;
        renewed.push(own)?;
    }
    Ok(renewed)
}

/// Declares what a file declares, given the rows of its declarations before; answers the rows. A
/// rebuild is needed where it has a package less or more, and where a name is taken. Where it
/// answers no rows, some may be declared.
fn declare_file(
    alloc: Global,
    table: &mut Table,
    log: &mut NameLog,
    files: &Files,
    file: u32,
    before: &[usize],
) -> Result<Vec<usize>, NotUpdated>
    requires table { IsTable table.old }
    requires fits { Fits log.old table.old }
    requires file { file < length files.now }
    requires within { All (λ row. row < length table.old.rows.items) before.now }
    ensures table { IsTable table.new }
    ensures fits { Fits log.new table.new }
    ensures undone { undone_table log.new table.new ≡ undone_table log.old table.old }
    ensures declared { IfOk result (λ rows. (reads : List ReadOf) → AreRead files.now reads
        → IsFileAgain table.old table.new (declared_by files.now reads file)
        before.now rows.items) }
{
    let spelled = spelled_file(alloc, files, file)?;
    let rows = declare_all_again(alloc, table, log, file, &spelled)?;
    if_packages_stay(table, before, rows).ok_or(NotUpdated::NeedsRebuild)
}

/// What a file declares, with last words. Fails only when out of memory.
fn spelled_file<'a>(
    alloc: Global,
    files: &'a Files,
    file: u32,
) -> Result<Vec<Spelled<'a>>, NoMemory>
    requires { file < length files.now }
    ensures spelled { IfOk result (λ ss. AreSpelled ss.items) }
    ensures named { IfOk result (λ ss. (reads : List ReadOf) → AreRead files.now reads
        → named_in file ss.items ≡ declared_by files.now reads file) }
{
    are_read(files);
    let listing = list_file(alloc, files.tree(file))?;
    let words = Words::new(files, file);
    spelled_names(alloc, &words, &listing.declared)
}

/// The rows, if each row that was a package's is among them.
fn if_packages_stay(table: &Table, before: &[usize], rows: Vec<usize>) -> Option<Vec<usize>>
    requires { All (λ row. row < length table.now.rows.items) before.now }
    ensures same { IfSome result (λ own. own.items ≡ rows.items) }
    ensures packages { IfSome result (λ own. (row : ℕ) → Contains before.now row
        → ((r : RowOf) → (get_or table.now.rows.items row r).symbol.kind ≡ Package)
        → Contains own.items row) }
{
    if packages_stay(table, before, &rows) {
        Some(rows)
    } else {
        None
    }
}

/// Whether each row that was a package's stands at its place among the rows now.
fn packages_stay(table: &Table, before: &[usize], rows: &[usize]) -> bool
    requires { All (λ row. row < length table.now.rows.items) before.now }
    ensures { result ≡ true → (row : ℕ) → Contains before.now row
        → ((r : RowOf) → (get_or table.now.rows.items row r).symbol.kind ≡ Package)
        → Contains rows.now row }
{
    for k in 0..before.len() {
        let row = before[k];
        if table.rows[row].symbol.kind.is_package() && !stands_at(rows, k, row) {
            return false;
        }
    }
    true
}

/// Whether a row stands at a place.
fn stands_at(rows: &[usize], place: usize, row: usize) -> bool
    ensures { result ≡ true → Contains rows.now row }
{
    place < rows.len() && rows[place] == row
}
