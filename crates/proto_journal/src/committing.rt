//! Making an edit, in the store and in the workspace.

ghost use Rattle.std.specs.Prelude.{◌-◌, ◌^◌, ◌<◌, IfErr, IfOk, Some};
ghost use Rattle.proto_edit.specs.Answers.{asked};
ghost use Rattle.proto_edit.specs.Workspaces.{IsMappedStep};
ghost use Rattle.proto_journal.specs.Commits.{CommitOutcome};
ghost use Rattle.proto_journal_records.specs.Known.{CountsJournal};
ghost use Rattle.proto_journal.specs.Written.{AddsTo, IsUnprepared, IsUnwritten};
ghost use Rattle.proto_edit_entries.specs.EditsAsked.{IsNotable};
ghost use Rattle.proto_journal_records.specs.Records.{done, opened};
ghost use Rattle.proto_store.specs.Stores.{HoldsFiles, HoldsJournal};

use crate::reading::{ReadyJournal, journal_again, ready_journal};
use crate::writing::{ChangedFiles, ask_store, write_through};
use proto_base::MAX_JOURNAL_LEN;
use proto_edit::laws::accepted_are_notable;
use proto_edit::{Edit, Entry, Workspace};
use proto_journal_records::laws::{journals_grow_and_shrink, records_have_one_text};
use proto_journal_records::{JournalFault, RecordParts, State, Version, with_record};
use proto_store::{Store, StoreFault};
use std::alloc::Global;
use std::mem;

// All that a commit writes and puts in place.
#[derive(Drop)]
struct Prepared {
    next: Workspace,
    entry: Entry,
    // The journal with the entry, open and done.
    first: Vec<u8>,
    last: Vec<u8>,
}

// The workspace after an edit, and the journal with its entry; its text is given in the second
// version.
fn prepare(
    alloc: Global,
    journal: &[u8],
    workspace: &Workspace,
    edit: &Edit,
) -> Result<Prepared, JournalFault>
    ensures step { IfOk result (λ p. IsMappedStep workspace.now (asked edit.now) p.entry p.next) }
    ensures first { IfOk result (λ p. AddsTo journal.now
        (opened (Some (asked edit.now)) p.entry) p.first.items) }
    ensures last { IfOk result (λ p. AddsTo journal.now
        (done (Some (asked edit.now)) p.entry) p.last.items) }
    ensures err { IfErr result (IsUnprepared workspace.now (asked edit.now) journal.now) }
{
    let (next, entry) = workspace.with_edit(alloc, edit)?;
    // What is accepted can be written down.
    workspace.files().len();
    accepted_are_notable();
    match with_entry(alloc, journal, &entry, edit) {
        Ok((first, last)) => Ok(Prepared {
            next,
            entry,
            first,
            last,
        }),
        Err(fault) => {
            next.release();
            Err(fault)
        }
    }
}

// The journal with an entry and its edit, open and done, in the second version.
fn with_entry(
    alloc: Global,
    journal: &[u8],
    entry: &Entry,
    edit: &Edit,
) -> Result<(Vec<u8>, Vec<u8>), JournalFault>
    requires { IsNotable (asked edit.now) }
    ensures first { IfOk result (λ made. AddsTo journal.now
        (opened (Some (asked edit.now)) entry.now) made.0.items) }
    ensures last { IfOk result (λ made. AddsTo journal.now
        (done (Some (asked edit.now)) entry.now) made.1.items) }
    ensures err { IfErr result (IsUnwritten journal.now (asked edit.now) entry.now) }
{
    let open = RecordParts {
        state: State::Open,
        entry,
        edit: Some(edit),
    };
    let done = RecordParts {
        state: State::Done,
        ..open
    };
    let first = with_record(alloc, Version::Second, journal, &open)?;
    let last = with_record(alloc, Version::Second, journal, &done)?;
    if last.len() > MAX_JOURNAL_LEN {
        return Err(JournalFault::JournalFull);
    }
    // Both are journals: the text of an entry is as long while it is open.
    records_have_one_text();
    journals_grow_and_shrink();
    Ok((first, last))
}

/// Makes an edit: writes it into the journal as open, replaces the changed
/// files in the order of their paths, marks it as done, and puts the
/// workspace in place. The whole journal is written in the second version, the
/// entry with its edit. All that is written is made before the first write, and the store is asked
/// whether the files may be replaced.
///
/// Refused are, in this order: a journal that is none (`BadJournal`), one whose last entry is open
/// (`OpenEntry`), an edit that is not admissible (`Refused`), and an edit with which the journal,
/// in the second version, would pass 16,777,216 bytes (`JournalFull`). `NoMemory` may come in place
/// of any answer. After these, store and workspace are as before. `Store` comes exactly where a
/// call of the store failed; then the workspace is as before, and the store is as before, torn
/// between the files before and after the edit, or as after it.
pub fn commit<S: Store>(
    alloc: Global,
    store: &mut S,
    workspace: &mut Workspace,
    edit: Edit,
) -> Result<Entry, JournalFault>
    requires room { S.failure_count store.old < 2 ^ 64 - 1 }
    requires loaded { HoldsFiles (S.holds store.old) workspace.old }
    ensures outcome { CommitOutcome (asked edit) workspace.old workspace.new
        (S.holds store.old) (S.holds store.new) result }
    ensures count { CountsJournal (S.failure_count store.old) (S.failure_count store.new) result }
{
    let journal = ready_journal(alloc, store)?;
    put_edit(alloc, store, journal, workspace, edit)
}

/// Makes an edit as `commit` does, whatever journal is given: where the store's journal has the
/// same bytes, it is not parsed again.
pub fn commit_after<S: Store>(
    alloc: Global,
    store: &mut S,
    known: ReadyJournal,
    workspace: &mut Workspace,
    edit: Edit,
) -> Result<Entry, JournalFault>
    requires room { S.failure_count store.old < 2 ^ 64 - 1 }
    requires loaded { HoldsFiles (S.holds store.old) workspace.old }
    ensures outcome { CommitOutcome (asked edit) workspace.old workspace.new
        (S.holds store.old) (S.holds store.new) result }
    ensures count { CountsJournal (S.failure_count store.old) (S.failure_count store.new) result }
{
    let journal = journal_again(alloc, store, known)?;
    put_edit(alloc, store, journal, workspace, edit)
}

// Makes an edit in a store with this journal.
fn put_edit<S: Store>(
    alloc: Global,
    store: &mut S,
    journal: ReadyJournal,
    workspace: &mut Workspace,
    edit: Edit,
) -> Result<Entry, JournalFault>
    requires room { S.failure_count store.old < 2 ^ 64 - 1 }
    requires journal { HoldsJournal (S.holds store.old) journal }
    requires loaded { HoldsFiles (S.holds store.old) workspace.old }
    ensures outcome { CommitOutcome (asked edit) workspace.old workspace.new
        (S.holds store.old) (S.holds store.new) result }
    ensures count { CountsJournal (S.failure_count store.old) (S.failure_count store.new) result }
{
    let text = journal.into_second(alloc)?;
    let made = prepare(alloc, text.as_slice(), workspace, &edit)?;
    match ask_store(alloc, store, made.entry.changes()) {
        Ok(()) => {}
        Err(fault) => {
            made.next.release();
            return Err(fault);
        }
    }
    let first = made.first.as_slice();
    let last = made.last.as_slice();
    let files = ChangedFiles {
        before: workspace.files(),
        after: made.next.files(),
        changes: made.entry.changes(),
    };
    match write_through(store, first, &files, last) {
        Ok(()) => {
            mem::replace(workspace, made.next).release();
            Ok(made.entry)
        }
        Err(StoreFault::Failed) => {
            made.next.release();
            Err(JournalFault::Store)
        }
    }
}
