//! The move of a journal to the second version.

ghost use Rattle.std.specs.Prelude.{◌-◌, ◌^◌, ◌<◌};
ghost use Rattle.proto_journal_records.specs.Known.{CountsJournal};
ghost use Rattle.proto_journal_records.specs.Migration.{MigrateOutcome, SecondOutcome};

use crate::fault::JournalFault;
use crate::journal::{last_is_open, read_journal, second_text};
use crate::laws::journals_grow_and_shrink;
use crate::record::Version;
use proto_base::MAX_JOURNAL_LEN;
use proto_store::{Store, StoreFault};
use std::alloc::Global;

// The text of a journal in the second version, where it is of the first.
fn migrated_text(alloc: Global, journal: &[u8]) -> Result<Option<Vec<u8>>, JournalFault>
    ensures { SecondOutcome journal.now result }
{
    let (version, records) = read_journal(alloc, journal)?;
    if let Version::Second = version {
        return Ok(None);
    }
    if last_is_open(records.as_slice()) {
        return Err(JournalFault::OpenEntry);
    }
    let text = second_text(alloc, records.as_slice())?;
    if text.len() > MAX_JOURNAL_LEN {
        return Err(JournalFault::JournalFull);
    }
    journals_grow_and_shrink();
    Ok(Some(text))
}

/// Replaces a journal of the first version by its text in the second, which tells of no edit, and
/// answers true. On an empty journal, and on one of the second version, nothing changes, and the
/// answer is false. All that is written is made before the write.
///
/// Refused are, in this order: a journal that is none (`BadJournal`), one of the first version
/// whose last entry is open (`OpenEntry`), and one whose text in the second version would pass
/// 16,777,216 bytes (`JournalFull`). `NoMemory` may come in place of any answer. After these the
/// store is as before. `Store` comes exactly where a call of the store failed; then the journal is
/// as before, or is of the second version.
pub fn migrate<S: Store>(alloc: Global, store: &mut S) -> Result<bool, JournalFault>
    requires { S.failure_count store.old < 2 ^ 64 - 1 }
    ensures outcome { MigrateOutcome (S.holds store.old) (S.holds store.new) result }
    ensures count { CountsJournal (S.failure_count store.old) (S.failure_count store.new) result }
{
    let journal = match store.read_journal() {
        Ok(journal) => journal,
        Err(StoreFault::Failed) => return Err(JournalFault::Store),
    };
    let Some(text) = migrated_text(alloc, journal.as_slice())? else {
        return Ok(false);
    };
    match store.replace_journal(text.as_slice()) {
        Ok(()) => Ok(true),
        Err(StoreFault::Failed) => Err(JournalFault::Store),
    }
}
