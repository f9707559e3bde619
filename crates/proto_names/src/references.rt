//! What the references of a file mean, by the table of names, or the first that is faulty.

ghost use Rattle.std.specs.Prelude.{◌≡◌, ◌<◌, ◌≤◌, ℕ, List, length, map, Some, None, IfOk, IfErr};
ghost use Rattle.std.specs.List.{All};
ghost use Rattle.proto_names_outline.specs.Listing.{needs};
ghost use Rattle.proto_text.specs.Texts.{word_at};
ghost use Rattle.proto_tree.specs.References.{dotted, first_of};
ghost use Rattle.proto_names_rules.specs.Joined.{ArePlain};
ghost use Rattle.proto_names_rules.specs.Names.{Workspace};
ghost use Rattle.proto_names.specs.Referring.{first_token_of_use, reference_by, kind_flaw, row_flaw, AreMeant, IsReadBy, IsReferenceError};
ghost use Rattle.proto_names_table.specs.Tables.{IsTable};

use crate::resolve::resolved_row;
use proto_base::{OrNoMemory, word_key};
use proto_file_sets::FileSet;
use proto_files::Words;
use proto_names_affected::FileMeanings;
use proto_names_outline::listing::{Above, Use};
use proto_names_rules::{Kind, Wants};
use proto_names_table::Meant;
use proto_names_table::table::Table;
use proto_tree::Reference;
use std::alloc::Global;

/// What is wrong with a reference.
#[derive(Clone, Copy)]
pub(crate) enum ReferenceFlaw {
    /// It means nothing.
    Unresolved,
    /// A method's means an enum.
    WrongKind,
    /// It means a map field's generated entry.
    MapEntry,
}

/// A faulty reference: its file, its first token, and what is wrong.
#[derive(Clone, Copy)]
pub(crate) struct BadReference {
    pub(crate) file: u32,
    pub(crate) token: u32,
    pub(crate) flaw: ReferenceFlaw,
}

/// Why the references of a file have no meanings: the first that is faulty, or out of memory.
pub(crate) type ReferenceError = OrNoMemory<BadReference>;

/// By what the references of a file are resolved.
#[derive(Clone, Copy)]
pub struct Lookup<'a> {
    /// The number of the file, from 0.
    pub file: u32,
    /// The names of all files.
    pub table: &'a Table,
    /// The files that this one sees.
    pub seen: &'a FileSet,
    /// The rows of what it declares, its package first.
    pub rows: &'a [usize],
}

/// What the references of a file mean, in order; else the first that is faulty, or out of memory.
/// The scopes are by index among the file's declarations.
pub(crate) fn meanings(
    alloc: Global,
    lookup: &Lookup,
    words: &Words,
    uses: &[Use],
) -> Result<FileMeanings, ReferenceError>
    requires table { IsTable lookup.now.table.now }
    requires rows { All (λ r. r < length lookup.now.table.now.rows.items) lookup.now.rows.now }
    requires scopes { All (λ u. needs u.scope ≤ length lookup.now.rows.now) uses.now }
    requires plain { All
        (λ u. ArePlain (map (word_at words.now) (dotted u.reference.now.words))) uses.now }
    ensures meant { IfOk result (λ ms. (w : Workspace) (names : List (List (List ℕ)))
        → IsReadBy lookup.now.table.now lookup.now.seen.now lookup.now.rows.now names
        lookup.now.file w
        → AreMeant lookup.now.table.now w
        (map (reference_by lookup.now.file names (word_at words.now)) uses.now)
        (map first_token_of_use uses.now) ms.items) }
    ensures fault { IfErr result (λ e. (w : Workspace) (names : List (List (List ℕ)))
        → IsReadBy lookup.now.table.now lookup.now.seen.now lookup.now.rows.now names
        lookup.now.file w
        → IsReferenceError w (reference_by lookup.now.file names (word_at words.now))
        lookup.now.file uses.now e) }
{
    let file = lookup.file;
    let mut meant = FileMeanings::new(alloc, uses.len())?;
    for used in uses {
        let scope = match used.scope {
            Above::Outermost => 0,
            Above::Below(k) => lookup.rows[k] + 1,
        };
        let row = resolved_row(lookup.table, lookup.seen, words, scope, used);
        let token = token_of(used.reference);
        let word = words.get(used.reference.words.first);
        let first = word_key(word);
        match sound_row(lookup.table, row, used.wants) {
            Ok(row) => meant.push(Meant { token, first, row })?,
            Err(flaw) => return Err(ReferenceError::Fault(BadReference { file, token, flaw })),
        }
    }
    Ok(meant)
}

/// The token that a reference begins with.
pub fn token_of(reference: &Reference) -> u32
    ensures { result ≡ first_of reference.now.dot reference.now.words }
{
    match reference.dot {
        Some(dot) => dot,
        None => reference.words.first,
    }
}

/// The row that a reference means, else what is wrong with it.
fn sound_row(table: &Table, row: Option<usize>, wants: Wants) -> Result<usize, ReferenceFlaw>
    ensures row { IfOk result (λ k. (row ≡ Some k) × (row_flaw table.now row wants ≡ None)) }
    ensures flaw { IfErr result (λ flaw. row_flaw table.now row wants ≡ Some flaw) }
{
    let row = row.ok_or(ReferenceFlaw::Unresolved)?;
    let found = table.rows.get(row).ok_or(ReferenceFlaw::Unresolved)?;
    match flaw_of(found.symbol.kind, wants) {
        Some(flaw) => Err(flaw),
        None => Ok(row),
    }
}

/// What is wrong with a reference that means a name of this kind.
fn flaw_of(kind: Kind, wants: Wants) -> Option<ReferenceFlaw>
    ensures { result ≡ kind_flaw kind wants }
{
    match (kind, wants) {
        (Kind::Entry, _) => Some(ReferenceFlaw::MapEntry),
        (Kind::Enum, Wants::Message) => Some(ReferenceFlaw::WrongKind),
        _ => None,
    }
}
