//! What an edit changed, so that it can be undone.

ghost use Rattle.std.specs.Prelude.{◌≡◌, ◌↔◌, ◌+◌, ◌≤◌, IsTrue, All, length, map, sum_by, MatchOption};
ghost use Rattle.std.specs.String.{string_bytes};
ghost use Rattle.proto_base.specs.Texts.{text_limit};
ghost use Rattle.proto_text.specs.Edits.{AreShort};
ghost use Rattle.proto_text.specs.Splicing.{edits};
ghost use Rattle.proto_edit_entries.specs.Entries.{change_of, IsToldApart, HasLengths, IsMeasured, IsChange, BeginsBefore, AreRising, IsEntry};
ghost use Rattle.proto_files.specs.WorkspacePaths.{IsBefore};

use proto_base::MAX_LEN;
use proto_files::is_workspace_path;
use proto_text::{Splice, Splices};
use std::cmp::Ordering;
use std::marker::Model;

/// A changed file: its path, its lengths in bytes before and after, and its splices, whose places
/// count in the old text.
#[derive(Debug, Drop)]
pub struct Change {
    pub path: String,
    pub before: u32,
    pub after: u32,
    pub splices: Splices,
}

// Whether each old text ends within the length.
fn lie_within(splices: &[Splice], len: u32) -> bool
    ensures { IsTrue result ↔ All (λ s. s.at + length (string_bytes s.old) ≤ len) splices.now }
{
    splices
        .iter()
        .all(|s| s.at as usize + s.old.len() <= len as usize)
}

fn have_same_lengths(splices: &[Splice]) -> bool
    ensures { IsTrue result ↔ All
        (λ s. length (string_bytes s.old) ≡ length (string_bytes s.new)) splices.now }
{
    splices.iter().all(|s| s.old.len() == s.new.len())
}

// Whether no text is changed.
fn are_same(splices: &[Splice]) -> bool
    ensures { IsTrue result ↔ All (λ s. string_bytes s.old ≡ string_bytes s.new) splices.now }
{
    splices.iter().all(|s| s.old.as_str() == s.new.as_str())
}

fn old_len(splices: &[Splice]) -> usize
    requires { AreShort 0 0 (edits splices.now) }
    ensures value { result ≡ sum_by (λ s. length (string_bytes s.old)) splices.now }
    ensures bound { result ≤ text_limit }
{
    let mut total = 0;
    for splice in splices {
        total += splice.old.len();
    }
    total
}

fn new_len(splices: &[Splice]) -> usize
    requires { AreShort 0 0 (edits splices.now) }
    ensures value { result ≡ sum_by (λ s. length (string_bytes s.new)) splices.now }
    ensures bound { result ≤ text_limit }
{
    let mut total = 0;
    for splice in splices {
        total += splice.new.len();
    }
    total
}

// Whether no file is both as before and as after the change.
fn is_told_apart(splices: &[Splice]) -> bool
    ensures { IsTrue result ↔ IsToldApart (edits splices.now) }
{
    have_same_lengths(splices) && !are_same(splices)
}

// Whether the splices lie in the old text, and the lengths are those that they make.
fn has_lengths(splices: &[Splice], before: u32, after: u32) -> bool
    requires { AreShort 0 0 (edits splices.now) }
    ensures { IsTrue result ↔ HasLengths (edits splices.now) before after }
{
    let old = old_len(splices);
    let new = new_len(splices);
    lie_within(splices, before) && after as usize + old == before as usize + new
}

// Whether the change's own parts are right, beside its path.
fn is_measured(change: &Change) -> bool
    ensures { IsTrue result ↔ IsMeasured (change_of change.now) }
{
    let splices = change.splices.as_slice();
    let is_short = change.before as usize <= MAX_LEN && change.after as usize <= MAX_LEN;
    if !is_short || splices.is_empty() {
        return false;
    }
    if !has_lengths(splices, change.before, change.after) {
        return false;
    }
    change.before != change.after || is_told_apart(splices)
}

fn is_change(change: &Change) -> bool
    ensures { IsTrue result ↔ IsChange (change_of change.now) }
{
    is_workspace_path(change.path.as_str()) && is_measured(change)
}

fn are_changes(changes: &[Change]) -> bool
    ensures { IsTrue result ↔ All (λ c. IsChange (change_of c)) changes.now }
{
    changes.iter().all(|c| is_change(c))
}

fn is_before(path: &str, next: &str) -> bool
    ensures { IsTrue result ↔ IsBefore path.now next.now }
{
    path.cmp(next) == Ordering::Less
}

fn begins_before(change: &Change, rest: &[Change]) -> bool
    ensures { IsTrue result ↔ BeginsBefore (change_of change.now) (map change_of rest.now) }
{
    match rest {
        [] => true,
        [next, ..] => is_before(change.path.as_str(), next.path.as_str()),
    }
}

// Whether each path is before the next.
fn are_rising(changes: &[Change]) -> bool
    ensures { IsTrue result ↔ AreRising (map change_of changes.now) }
{
    let mut left = changes;
    while let Some((change, rest)) = left.split_first() {
        if !begins_before(change, rest) {
            return false;
        }
        left = rest;
    }
    true
}

fn is_entry(changes: &[Change]) -> bool
    ensures { IsTrue result ↔ IsEntry (map change_of changes.now) }
{
    if changes.is_empty() || !are_rising(changes) {
        return false;
    }
    are_changes(changes)
}

/// What an edit changed, file by file in path order: enough to undo it.
#[derive(Debug, Drop)]
pub struct Entry {
    changes: Vec<Change>,
}

impl Model for Entry {
    ghost use Rattle.std.specs.Prelude.{List, map};
    ghost use Rattle.proto_edit_entries.specs.Entries.{ChangeOf, change_of, IsEntry};

    ghost Value = { List ChangeOf };

    ghost view = { λ e. map change_of e.changes.items };

    ghost invariant = { λ e. IsEntry (map change_of e.changes.items) };
}

impl Entry {
    ghost use Rattle.std.specs.Prelude.{◌≡◌, map, MatchOption};
    ghost use Rattle.proto_edit_entries.specs.Entries.{change_of, IsEntry};

    /// The entry of these changes, exactly where there is one: at least one change, in rising order
    /// of paths, each of a workspace path, whose splices lie in the old text and lead from the
    /// length before to the length after.
    pub fn new(changes: Vec<Change>) -> Option<Entry>
        ensures { MatchOption result
            (IsEntry (map change_of changes.items) → ⊥)
            (λ entry. (entry ≡ map change_of changes.items) × IsEntry entry) }
    {
        if is_entry(changes.as_slice()) {
            Some(Entry { changes })
        } else {
            None
        }
    }

    /// The changes, in order.
    pub fn changes(&self) -> &[Change]
        ensures items { map change_of result.now ≡ self.now }
        ensures entry { IsEntry self.now }
    {
        self.changes.as_slice()
    }
}
