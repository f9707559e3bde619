//! What one reference resolves to, and what is wrong with it.

ghost use Rattle.std.specs.Prelude.{◌≡◌, ◌<◌, ◌≤◌, ℕ, List, length, map, option_and_then};
ghost use Rattle.std.specs.List.{All};
ghost use Rattle.proto_text.specs.Texts.{word_at};
ghost use Rattle.proto_tree.specs.References.{dotted};
ghost use Rattle.proto_names_outline.specs.Listing.{needs};
ghost use Rattle.proto_names_rules.specs.Joined.{ArePlain};
ghost use Rattle.proto_names_rules.specs.Names.{Workspace};
ghost use Rattle.proto_names_table.specs.Tables.{IsTable};
ghost use Rattle.proto_names.specs.Referring.{IsReadBy, reference_by};
ghost use Rattle.proto_names_faults.specs.Resolving.{IsKindOf, kind_fault, kind_in, type_fault};

use proto_base::FaultKind;
use proto_files::Words;
use proto_names::{Lookup, resolved_row};
use proto_names_outline::listing::{Above, Use};
use proto_names_rules::{Kind, Wants};
use proto_names_table::table::Table;

/// The kind of what a reference resolves to; none where it resolves to nothing. Takes no memory.
pub(crate) fn resolved_kind(lookup: &Lookup, words: &Words, used: &Use) -> Option<Kind>
    requires table { IsTable lookup.now.table.now }
    requires rows { All (λ r. r < length lookup.now.table.now.rows.items) lookup.now.rows.now }
    requires scope { needs used.now.scope ≤ length lookup.now.rows.now }
    requires plain { ArePlain
        (map (word_at words.now) (dotted used.now.reference.now.words)) }
    ensures { (w : Workspace) (names : List (List (List ℕ)))
        → IsReadBy lookup.now.table.now lookup.now.seen.now lookup.now.rows.now names
        lookup.now.file w
        → IsKindOf w (reference_by lookup.now.file names (word_at words.now) used.now) result }
{
    let scope = match used.scope {
        Above::Outermost => 0,
        Above::Below(k) => lookup.rows[k] + 1,
    };
    let row = resolved_row(lookup.table, lookup.seen, words, scope, used);
    kind_at_row(lookup.table, row)
}

/// The kind of the name with this row.
fn kind_at_row(table: &Table, row: Option<usize>) -> Option<Kind>
    ensures { result ≡ option_and_then (kind_in table.now) row }
{
    let row = row?;
    let found = table.rows.get(row)?;
    Some(found.symbol.kind)
}

/// What is wrong with a reference that resolves to a name of this kind, or to nothing.
pub(crate) fn kind_fault(kind: Option<Kind>, wants: Wants) -> Option<FaultKind>
    ensures { result ≡ kind_fault kind wants }
{
    match kind {
        None => Some(FaultKind::Unresolved),
        Some(kind) => type_fault(kind, wants),
    }
}

/// What is wrong with a reference that resolves to a name of this kind.
fn type_fault(kind: Kind, wants: Wants) -> Option<FaultKind>
    ensures { result ≡ type_fault kind wants }
{
    match (kind, wants) {
        (Kind::Entry, _) => Some(FaultKind::MapEntryRef),
        (Kind::Enum, Wants::Message) => Some(FaultKind::WrongKind),
        _ => None,
    }
}
