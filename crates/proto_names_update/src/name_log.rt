//! What was changed of a table of names, and the way back.

ghost use Rattle.std.specs.Prelude.{◌≡◌, ◌<◌, length, map, OnOk};
ghost use Rattle.proto_base.specs.Undone.{AreWithin, undone};
ghost use Rattle.proto_names_update.specs.NameLogs.{Fits, IsNoted, rest_of, seen_of, standing_of, undone_table};
ghost use Rattle.proto_names_table.specs.declared.table.Table.{Table as TableOf};
ghost use Rattle.proto_names_table.specs.Tables.{IsTable, IsUnchanged};

use proto_base::{Change, NoMemory};
use proto_names_table::table::{Row, Symbol, Table};
use std::alloc::Global;

/// What declares a name, or declared it last.
#[derive(Clone, Copy)]
pub struct Standing {
    /// Its first declaration.
    pub symbol: Symbol,
    /// Whether a file declares it.
    pub is_declared: bool,
}

/// What was changed of a table of names since the log began.
#[derive(Drop)]
pub struct NameLog {
    /// How many rows the table had.
    rows: usize,
    /// How many words it had.
    words: usize,
    /// For each change, the row and what declared it before.
    changes: Vec<Change<Standing>>,
}

/// What declares the name of a row.
fn row_standing(row: &Row) -> Standing
    ensures { result ≡ standing_of row.now }
{
    Standing {
        symbol: row.symbol,
        is_declared: row.is_declared(),
    }
}

impl NameLog {
    /// A log of no changes of the table. Takes no memory.
    pub fn new(alloc: Global, table: &Table) -> NameLog
        requires { IsTable table.now }
        ensures undone { undone_table result table.now ≡ seen_of table.now }
        ensures fits { Fits result table.now }
    {
        NameLog {
            rows: table.rows.len(),
            words: table.below.words.len(),
            changes: Vec::new(alloc),
        }
    }

    /// Notes what declares a row, which may then be changed. Fails only when out of memory.
    pub(crate) fn note(&mut self, table: &Table, row: usize) -> Result<(), NoMemory>
        requires fits { Fits self.old table.now }
        requires within { row < length table.now.rows.items }
        ensures fits { Fits self.new table.now }
        ensures undone { undone_table self.new table.now ≡ undone_table self.old table.now }
        ensures noted { OnOk result (IsNoted self.new table.now row) }
    {
        let was = row_standing(&table.rows[row]);
        self.changes.push(Change { place: row, was })?;
        Ok(())
    }

    /// Takes the changes back, the last one first: the table is as it was when the log began. Takes
    /// no memory.
    pub fn take_back(mut self, table: &mut Table)
        requires { Fits self table.old }
        ensures seen { seen_of table.new ≡ undone_table self table.old }
        ensures unchanged { (was : TableOf) → undone_table self table.old ≡ seen_of was
            → IsUnchanged was table.new }
        ensures table { (was : TableOf) → undone_table self table.old ≡ seen_of was → IsTable was
            → IsTable table.new }
    {
        put_all_back(table, &mut self.changes);
        table.cut_back(self.rows, self.words);
    }
}

/// Gives each row of the changes what declared it before, the last one first.
fn put_all_back(table: &mut Table, changes: &mut Vec<Change<Standing>>)
    requires { AreWithin (length table.old.rows.items) changes.old.items }
    ensures standings { map standing_of table.new.rows.items
        ≡ undone changes.old.items (map standing_of table.old.rows.items) }
    ensures rests { map rest_of table.new.rows.items ≡ map rest_of table.old.rows.items }
    ensures below { table.new.below ≡ table.old.below }
{
    while let Some(change) = changes.pop() {
        table.put_back(change.place, change.was.symbol, change.was.is_declared);
    }
}
