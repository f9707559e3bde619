//! The names of a file: their rows, their kinds, and the keys of their last words.

ghost use Rattle.std.specs.Prelude.{◌≡◌, ◌⊎◌, ℕ, ◌<◌, ◌++◌, ◌∷◌, true, not, List, [], length, get_or, nat_eq, Some, IfOk, OnOk};
ghost use Rattle.std.specs.List.{All, Contains, filter, filter_map};
ghost use Rattle.std.specs.Option.{option_to_list};
ghost use Rattle.indexmap.specs.IndexMap.{get};
ghost use Rattle.proto_names_affected.specs.KindRows.{AreAmongOr, AreKindsOf, HasLastWords, is_below_type, is_type_number, kind_row};
ghost use Rattle.proto_names_rules.specs.Joined.{joined, ArePlain};
ghost use Rattle.proto_names_table.specs.Tables.{names_of, IsTable};

use indexmap::{IndexMap, IndexSet};
use proto_base::{NoMemory, word_key};
use proto_names_rules::Kind;
use proto_names_table::table::Table;
use std::alloc::Global;

/// The row of a name, and the kind of what declares it.
#[derive(Clone, Copy)]
pub struct KindRow {
    /// The row, from 0.
    pub row: usize,
    /// The kind.
    pub kind: Kind,
}

/// The rows with the kinds of what declares their names, in order. Fails only when out of memory.
pub fn kind_rows(alloc: Global, table: &Table, rows: &[usize]) -> Result<Vec<KindRow>, NoMemory>
    ensures { IfOk result (λ found. found.items ≡ filter_map (kind_row table.now) rows.now) }
{
    let mut found = Vec::new(alloc);
    for row in rows {
        add_kind(&mut found, table, *row)?;
    }
    Ok(found)
}

/// Adds a row with its kind.
fn add_kind(found: &mut Vec<KindRow>, table: &Table, row: usize) -> Result<(), NoMemory>
    ensures { OnOk result (found.new.items
        ≡ found.old.items ++ option_to_list (kind_row table.now row)) }
{
    match kind_row(table, row) {
        Some(own) => {
            found.push(own)?;
            Ok(())
        }
        None => Ok(()),
    }
}

/// A row of the table with its kind.
fn kind_row(table: &Table, row: usize) -> Option<KindRow>
    ensures { result ≡ kind_row table.now row }
{
    let kind = table.rows.get(row)?.symbol.kind;
    Some(KindRow { row, kind })
}

/// The rows of the first list that have not the same kind in the second, in order. Fails only when
/// out of memory.
pub fn rows_not_among(
    alloc: Global,
    one: &[KindRow],
    other: &[KindRow],
) -> Result<Vec<usize>, NoMemory>
    ensures { IfOk result (λ rows. AreAmongOr one.now other.now rows.items) }
{
    let kinds = kinds_by_row(alloc, other)?;
    let mut rows = Vec::new(alloc);
    for pair in one {
        add_missing(&mut rows, &kinds, *pair)?;
    }
    Ok(rows)
}

/// Adds the row of a pair, unless it has the kind there.
fn add_missing(
    rows: &mut Vec<usize>,
    kinds: &IndexMap<usize, Kind>,
    pair: KindRow,
) -> Result<(), NoMemory>
    ensures { OnOk result
        (((get nat_eq kinds.now pair.row ≡ Some pair.kind) × (rows.new.items ≡ rows.old.items))
        ⊎ (rows.new.items ≡ rows.old.items ++ pair.row ∷ [])) }
{
    if has_kind(kinds, pair) {
        return Ok(());
    }
    rows.push(pair.row)?;
    Ok(())
}

/// The kinds by their rows; of a row that stands twice, the last.
fn kinds_by_row(alloc: Global, pairs: &[KindRow]) -> Result<IndexMap<usize, Kind>, NoMemory>
    ensures { IfOk result (AreKindsOf pairs.now) }
{
    let mut kinds = IndexMap::new(alloc);
    for pair in pairs {
        kinds.insert(pair.row, pair.kind)?;
    }
    Ok(kinds)
}

/// Whether the row has the kind there.
fn has_kind(kinds: &IndexMap<usize, Kind>, pair: KindRow) -> bool
    ensures { result ≡ true → get nat_eq kinds.now pair.row ≡ Some pair.kind }
{
    match kinds.get(&pair.row) {
        Some(kind) => *kind == pair.kind,
        None => false,
    }
}

/// Those of the rows whose names do not stand right below a type's, in order. Fails only when out
/// of memory.
pub fn rows_below_no_type(
    alloc: Global,
    table: &Table,
    rows: &[usize],
) -> Result<Vec<usize>, NoMemory>
    ensures { IfOk result (λ found. found.items
        ≡ filter (λ row. not (is_below_type table.now row)) rows.now) }
{
    let mut found = Vec::new(alloc);
    for row in rows {
        if !is_below_type(table, *row) {
            found.push(*row)?;
        }
    }
    Ok(found)
}

/// Whether the name of a row stands right below a type's.
pub(crate) fn is_below_type(table: &Table, row: usize) -> bool
    ensures { result ≡ is_below_type table.now row }
{
    match table.rows.get(row) {
        Some(own) => is_type_number(table, own.above),
        None => false,
    }
}

/// Whether the name with a number is a type's.
fn is_type_number(table: &Table, number: usize) -> bool
    ensures { result ≡ is_type_number table.now number }
{
    if number == 0 {
        return false;
    }
    match table.rows.get(number - 1) {
        Some(own) => own.symbol.kind.is_type(),
        None => false,
    }
}

/// The keys of the last words of the names of these rows. Fails only when out of memory.
pub fn last_word_keys(
    alloc: Global,
    table: &Table,
    rows: &[usize],
) -> Result<IndexSet<u32>, NoMemory>
    requires table { IsTable table.now }
    requires within { All (λ row. row < length table.now.rows.items) rows.now }
    ensures { IfOk result (λ keys. HasLastWords table.now rows.now keys.keys) }
{
    let mut keys = IndexSet::new(alloc);
    for row in rows {
        keys.insert(word_key(last_word(table, *row)))?;
    }
    Ok(keys)
}

/// The last word of the name of a row.
pub(crate) fn last_word(table: &Table, row: usize) -> &str
    requires table { IsTable table.now }
    requires within { row < length table.now.rows.items }
    ensures { (front : List (List ℕ)) (word : List ℕ) → ArePlain (front ++ word ∷ [])
        → get_or (names_of table.now) row [] ≡ joined (front ++ word ∷ []) → result.now ≡ word }
{
    let below = table.below.rows.as_slice()[row];
    table.below.words.as_slice()[below.word].as_str()
}
