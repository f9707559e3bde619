//! What a journal records.

ghost use Rattle.std.specs.Prelude.{◌↔◌, IsTrue, option_map};
ghost use Rattle.proto_edit_entries.specs.EditsAsked.{asked};
ghost use Rattle.proto_journal_records.specs.Records.{IsNoted};

use proto_edit_entries::{Edit, Entry};
use std::marker::Model;

/// The two versions of a journal's text. The first does not tell the edits of its records.
#[derive(Clone, Copy)]
pub enum Version {
    First,
    Second,
}

/// How far an entry has come.
#[derive(Clone, Copy, Debug, PartialEq, Eq)]
pub enum State {
    /// Its files are being changed.
    Open,
    /// Its files are changed.
    Done,
}

/// An entry of a journal, how far it has come, and the edit that made it, where that is known. Its
/// names are words joined by dots, its new name is a word, its file and its import are paths of a
/// workspace; nothing else ties it to the entry.
#[derive(Drop)]
pub struct Record {
    state: State,
    entry: Entry,
    edit: Option<Edit>,
}

/// A record by its parts, of which its text is made.
#[derive(Clone, Copy)]
pub struct RecordParts<'a> {
    pub state: State,
    pub entry: &'a Entry,
    pub edit: Option<&'a Edit>,
}

impl Model for Record {
    ghost use Rattle.std.specs.Prelude.{option_map};
    ghost use Rattle.proto_edit_entries.specs.EditsAsked.{asked};
    ghost use Rattle.proto_journal_records.specs.Records.{RecordOf, IsNoted};

    ghost Value = { RecordOf };

    ghost view = { λ r. record
        { state = r.state; entry = r.entry; edit = option_map asked r.edit } };

    ghost invariant = { λ r. IsNoted (option_map asked r.edit) };
}

// Whether a record may tell this of its edit.
fn is_noted(edit: Option<&Edit>) -> bool
    ensures { IsTrue result ↔ IsNoted (option_map (λ e. asked e.now) edit.entry) }
{
    match edit {
        Some(edit) => edit.is_notable(),
        None => true,
    }
}

impl Record {
    ghost use Rattle.std.specs.Prelude.{◌≡◌, MatchOption, option_map};
    ghost use Rattle.proto_edit_entries.specs.EditsAsked.{asked};
    ghost use Rattle.proto_journal_records.specs.Records.{IsNoted, record_of};

    /// The record of these, exactly where the edit can be written down, or none is given.
    pub fn new(state: State, entry: Entry, edit: Option<Edit>) -> Option<Record>
        ensures { MatchOption result
            (IsNoted (option_map asked edit) → ⊥)
            (λ r. r ≡ record { state = state; entry = entry; edit = option_map asked edit }) }
    {
        if is_noted(edit.as_ref()) {
            Some(Record { state, entry, edit })
        } else {
            None
        }
    }

    /// How far the entry has come.
    pub fn state(&self) -> State
        ensures { result ≡ self.now.state }
    {
        self.state
    }

    /// What the edit changed.
    pub fn entry(&self) -> &Entry
        ensures { result.now ≡ self.now.entry }
    {
        &self.entry
    }

    /// The edit that made the entry, where it is known.
    pub fn edit(&self) -> Option<&Edit>
        ensures edit { option_map (λ e. asked e.now) result ≡ self.now.edit }
        ensures noted { IsNoted self.now.edit }
    {
        self.edit.as_ref()
    }

    /// All of these.
    pub(crate) fn parts(&self) -> RecordParts<'_>
        ensures parts { record_of result ≡ self.now }
        ensures noted { IsNoted self.now.edit }
    {
        RecordParts {
            state: self.state,
            entry: &self.entry,
            edit: self.edit.as_ref(),
        }
    }

    /// The entry alone.
    pub fn into_entry(self) -> Entry
        ensures { result ≡ self.entry }
    {
        self.entry
    }
}
