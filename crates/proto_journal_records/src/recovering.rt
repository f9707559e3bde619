//! Recovery of a torn store.

ghost use Rattle.std.specs.Prelude.{◌-◌, ◌^◌, ◌<◌};
ghost use Rattle.proto_journal_records.specs.Known.{CountsJournal};
ghost use Rattle.proto_journal_records.specs.Recovery.{RecoverOutcome};
ghost use Rattle.proto_journal_records.specs.Restoring.{OpenOutcome};

use crate::fault::JournalFault;
use crate::journal::{last_is_open, read_records, without_last};
use crate::laws::journals_grow_and_shrink;
use crate::putting::{ask_store, put_back};
use crate::restoring::old_files;
use proto_edit_entries::Entry;
use proto_store::{Store, StoreFault};
use std::alloc::Global;

// The last entry of a journal, where it is open.
fn open_entry(alloc: Global, journal: &[u8]) -> Result<Option<Entry>, JournalFault>
    ensures { OpenOutcome journal.now result }
{
    let mut records = read_records(alloc, journal)?;
    if !last_is_open(records.as_slice()) {
        return Ok(None);
    }
    match records.pop() {
        Some(last) => Ok(Some(last.into_entry())),
        None => Ok(None),
    }
}

/// Brings a torn store back to before the last entry, which is open: each of its files that is as
/// after it gets the old texts, no other file is replaced, and then the entry is taken off the
/// journal. The answer is true. Where the last entry is not open, or there is none, the answer is
/// false, and nothing changes. All that is written is made before the first write, and the store is
/// asked whether the files may be replaced.
///
/// Refused are a journal that is none (`BadJournal`), and an open entry with a file that is not
/// there, or is neither as before nor as after it (`Refused`, always `Stale`). `NoMemory` may come
/// in place of any answer. After these the store is as before. `Store` comes exactly where a call
/// of the store failed; then the store is as before, or it was torn and is so still, or it is
/// recovered. A later call goes on from there.
pub fn recover<S: Store>(alloc: Global, store: &mut S) -> Result<bool, JournalFault>
    requires { S.failure_count store.old < 2 ^ 64 - 1 }
    ensures outcome { RecoverOutcome (S.holds store.old) (S.holds store.new) result }
    ensures count { CountsJournal (S.failure_count store.old) (S.failure_count store.new) result }
{
    let journal = match store.read_journal() {
        Ok(journal) => journal,
        Err(StoreFault::Failed) => return Err(JournalFault::Store),
    };
    let Some(entry) = open_entry(alloc, journal.as_slice())? else {
        return Ok(false);
    };
    let files = old_files(alloc, store, &entry)?;
    ask_store(alloc, store, files.as_slice())?;
    journals_grow_and_shrink();
    match put_back(store, files.as_slice(), without_last(journal.as_slice())) {
        Ok(()) => Ok(true),
        Err(StoreFault::Failed) => Err(JournalFault::Store),
    }
}
