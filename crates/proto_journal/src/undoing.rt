//! Undoing the last entry, in the store and in the workspace.

ghost use Rattle.std.specs.Prelude.{◌-◌, ◌^◌, ◌<◌, IfOk};
ghost use Rattle.proto_journal_records.specs.Journals.{IsTold};
ghost use Rattle.proto_journal_records.specs.Known.{CountsJournal};
ghost use Rattle.proto_journal.specs.Undoing.{UndoOutcome};
ghost use Rattle.proto_journal.specs.Written.{Reopens, Shortens};
ghost use Rattle.proto_store.specs.Stores.{HoldsFiles, HoldsJournal};

use crate::reading::{ReadyJournal, journal_again, ready_journal};
use crate::writing::{ChangedFiles, ask_store, write_through};
use proto_base::NoMemory;
use proto_edit::{Entry, Workspace};
use proto_journal_records::laws::{journals_grow_and_shrink, records_have_one_text};
use proto_journal_records::{
    JournalFault, Record, RecordParts, State, Version, with_record, without_last,
};
use proto_store::{Store, StoreFault};
use std::alloc::Global;
use std::mem;

// The journal without its last record.
fn shortened_journal(journal: &[u8]) -> &[u8]
    ensures { Shortens journal.now result.now }
{
    journals_grow_and_shrink();
    without_last(journal)
}

// The journal with its last entry, which was done, open; its version and its edit stay.
fn reopened_journal(
    alloc: Global,
    version: Version,
    journal: &[u8],
    last: &Record,
) -> Result<Vec<u8>, NoMemory>
    requires { IsTold version last.now.edit }
    ensures { IfOk result
        (λ text. Reopens version journal.now last.now.edit last.now.entry text.items) }
{
    let before = shortened_journal(journal);
    // It is a journal: the text of an entry is as long while it is open.
    records_have_one_text();
    journals_grow_and_shrink();
    let parts = RecordParts {
        state: State::Open,
        entry: last.entry(),
        edit: last.edit(),
    };
    with_record(alloc, version, before, &parts)
}

/// Undoes the last entry: marks it in the journal as open, puts its files back to before it, in the
/// order of their paths, takes it off the journal, and puts the workspace in place. The journal
/// keeps its version. All that is written is made before the first write, and the store is asked
/// whether the files may be replaced.
///
/// Refused are, in this order: a journal that is none (`BadJournal`), one whose last entry is open
/// (`OpenEntry`), an empty one (`NothingToUndo`), and an entry that is stale (`Refused`).
/// `NoMemory` may come in place of any answer. After these, store and workspace are as before.
/// `Store` comes exactly where a call of the store failed; then the workspace is as before, and the
/// store is as before, torn between the files before and after the entry, or as after the undo.
pub fn undo_last<S: Store>(
    alloc: Global,
    store: &mut S,
    workspace: &mut Workspace,
) -> Result<Entry, JournalFault>
    requires room { S.failure_count store.old < 2 ^ 64 - 1 }
    requires loaded { HoldsFiles (S.holds store.old) workspace.old }
    ensures outcome { UndoOutcome workspace.old workspace.new
        (S.holds store.old) (S.holds store.new) result }
    ensures count { CountsJournal (S.failure_count store.old) (S.failure_count store.new) result }
{
    let journal = ready_journal(alloc, store)?;
    put_back(alloc, store, journal, workspace)
}

/// Undoes the last entry as `undo_last` does, whatever journal is given: where the store's journal
/// has the same bytes, it is not parsed again.
pub fn undo_last_after<S: Store>(
    alloc: Global,
    store: &mut S,
    known: ReadyJournal,
    workspace: &mut Workspace,
) -> Result<Entry, JournalFault>
    requires room { S.failure_count store.old < 2 ^ 64 - 1 }
    requires loaded { HoldsFiles (S.holds store.old) workspace.old }
    ensures outcome { UndoOutcome workspace.old workspace.new
        (S.holds store.old) (S.holds store.new) result }
    ensures count { CountsJournal (S.failure_count store.old) (S.failure_count store.new) result }
{
    let journal = journal_again(alloc, store, known)?;
    put_back(alloc, store, journal, workspace)
}

// Undoes the last entry of a store with this journal.
fn put_back<S: Store>(
    alloc: Global,
    store: &mut S,
    journal: ReadyJournal,
    workspace: &mut Workspace,
) -> Result<Entry, JournalFault>
    requires room { S.failure_count store.old < 2 ^ 64 - 1 }
    requires journal { HoldsJournal (S.holds store.old) journal }
    requires loaded { HoldsFiles (S.holds store.old) workspace.old }
    ensures outcome { UndoOutcome workspace.old workspace.new
        (S.holds store.old) (S.holds store.new) result }
    ensures count { CountsJournal (S.failure_count store.old) (S.failure_count store.new) result }
{
    let ReadyJournal {
        bytes,
        version,
        last,
    } = journal;
    let undone = match last {
        Some(undone) => undone,
        None => return Err(JournalFault::NothingToUndo),
    };
    let text = bytes.as_slice();
    let first = reopened_journal(alloc, version, text, &undone)?;
    let next = workspace.without_entry(alloc, undone.entry())?;
    let last = shortened_journal(text);
    match ask_store(alloc, store, undone.entry().changes()) {
        Ok(()) => {}
        Err(fault) => {
            next.release();
            return Err(fault);
        }
    }
    let files = ChangedFiles {
        before: workspace.files(),
        after: next.files(),
        changes: undone.entry().changes(),
    };
    match write_through(store, first.as_slice(), &files, last) {
        Ok(()) => {
            mem::replace(workspace, next).release();
            Ok(undone.into_entry())
        }
        Err(StoreFault::Failed) => {
            next.release();
            Err(JournalFault::Store)
        }
    }
}
