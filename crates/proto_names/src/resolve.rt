//! What one reference resolves to in a scope, by its tokens. Takes no memory.

ghost use Rattle.std.specs.Prelude.{◌≡◌, ◌≢◌, ◌<◌, ◌≤◌, ℕ, [], length, get_or, map, option_map, is_some, IfSome, IfNone};
ghost use Rattle.proto_text.specs.Texts.{word_at};
ghost use Rattle.proto_tree.specs.References.{dotted};
ghost use Rattle.proto_names_rules.specs.Joined.{joined, ArePlain};
ghost use Rattle.proto_names_rules.specs.Names.{Reference as NameReference, Workspace, meaning};
ghost use Rattle.proto_names_table.specs.Resolved.{IsAsked, IsIndexOf, IsWantedAt, under_all};
ghost use Rattle.proto_names_rules.specs.Marks.{MarksSeen};
ghost use Rattle.proto_names_table.specs.Tables.{names_of, IsTable};

use crate::scope::scope_number;
use proto_file_sets::FileSet;
use proto_files::Words;
use proto_names_outline::listing::{Above, Use};
use proto_names_rules::Wants;
use proto_names_table::table::{FirstWord, Table};
use proto_tree::{Behind, Reference};

/// The row of what a reference to a type means in a scope, where these files are seen. The scope
/// need not be a name.
pub(crate) fn row_in_scope(
    table: &Table,
    seen: &FileSet,
    words: &Words,
    scope: &str,
    reference: &Reference,
) -> Option<usize>
    requires table { IsTable table.now }
    requires plain { ArePlain (map (word_at words.now) (dotted reference.now.words)) }
    ensures within { IfSome result (λ k. k < length table.now.rows.items) }
    ensures meant { (w : Workspace) (r : NameReference) → IsIndexOf table.now w.symbols
        → MarksSeen w r.file seen.now → ArePlain r.scope → scope.now ≡ joined r.scope
        → r.words ≡ map (word_at words.now) (dotted reference.now.words)
        → r.is_absolute ≡ is_some reference.now.dot → r.wants ≡ Wants.Type
        → option_map (λ k. get_or (names_of table.now) k []) result
        ≡ option_map joined (meaning w r) }
{
    let number = scope_number(table, scope);
    let used = Use {
        scope: Above::Outermost,
        wants: Wants::Type,
        reference,
    };
    resolved_row(table, seen, words, number, &used)
}

/// The row of what a reference resolves to in a scope, which is the number of a name, where these
/// files are seen; none where it resolves to nothing. The scope that `used` has by index is not
/// asked. Takes no memory.
pub fn resolved_row(
    table: &Table,
    seen: &FileSet,
    words: &Words,
    scope: usize,
    used: &Use,
) -> Option<usize>
    requires table { IsTable table.now }
    requires within { scope ≤ length table.now.rows.items }
    requires plain { ArePlain (map (word_at words.now) (dotted used.now.reference.now.words)) }
    ensures within { IfSome result (λ k. k < length table.now.rows.items) }
    ensures meant { (w : Workspace) (r : NameReference) → IsAsked table.now seen.now scope w r
        → r.words ≡ map (word_at words.now) (dotted used.now.reference.now.words)
        → r.is_absolute ≡ is_some used.now.reference.now.dot → r.wants ≡ used.now.wants
        → option_map (λ k. get_or (names_of table.now) k []) result
        ≡ option_map joined (meaning w r) }
{
    let reference = used.reference;
    let text = words.get(reference.words.first);
    match reference.dot {
        Some(_) => {
            let top = table.find(0, text)?;
            visible(table, seen, words, top, used)
        }
        None => {
            let rest = reference.words.rest.as_slice();
            let first = FirstWord {
                text,
                wants: used.wants,
                is_last: rest.is_empty(),
            };
            let start = table.search(scope, first, seen)?;
            visible(table, seen, words, start, used)
        }
    }
}

/// The row of a reference's words but the first, one below another, below the row of the first, if
/// it is seen and is what is wanted.
fn visible(table: &Table, seen: &FileSet, words: &Words, start: usize, used: &Use) -> Option<usize>
    requires table { IsTable table.now }
    requires within { start < length table.now.rows.items }
    requires plain { ArePlain
        (map (λ b. word_at words.now b.item) used.now.reference.now.words.rest) }
    ensures { IsWantedAt table.now seen.now used.now.wants
        (under_all (get_or (names_of table.now) start [])
        (map (λ b. word_at words.now b.item) used.now.reference.now.words.rest)) result }
{
    let rest = used.reference.words.rest.as_slice();
    let row = follow(table, start, words, rest)?;
    let found = &table.rows[row];
    if found.is_visible_as(used.wants, seen) {
        Some(row)
    } else {
        None
    }
}

/// The row of words one below another, below a row.
fn follow(table: &Table, start: usize, words: &Words, rest: &[Behind<u32>]) -> Option<usize>
    requires table { IsTable table.now }
    requires within { start < length table.now.rows.items }
    requires plain { ArePlain (map (λ b. word_at words.now b.item) rest.now) }
    ensures some { IfSome result (λ k. (k < length table.now.rows.items) ×
        (get_or (names_of table.now) k [] ≡ under_all
        (get_or (names_of table.now) start []) (map (λ b. word_at words.now b.item) rest.now))) }
    ensures none { IfNone result ((k : ℕ) → k < length table.now.rows.items → get_or
        (names_of table.now) k [] ≢ under_all (get_or (names_of table.now) start [])
        (map (λ b. word_at words.now b.item) rest.now)) }
{
    let mut row = start;
    for behind in rest {
        row = table.find(row + 1, words.get(behind.item))?;
    }
    Some(row)
}
