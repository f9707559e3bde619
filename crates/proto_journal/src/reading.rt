//! What a journal says before it is written.

ghost use Rattle.std.specs.Prelude.{◌≡◌, ◌-◌, ◌^◌, ◌<◌, ℕ, IfOk, Option};
ghost use Rattle.proto_journal_records.specs.Known.{CountsJournal};
ghost use Rattle.proto_journal.specs.Loads.{ReadyOutcome};
ghost use Rattle.proto_store.specs.Stores.{Held, HoldsJournal};

use proto_base::NoMemory;
use proto_journal_records::laws::journals_are_read_in_one_way;
use proto_journal_records::{
    JournalFault, Record, Version, last_is_open, read_journal, read_records, second_text,
};
use proto_store::{Store, StoreFault};
use std::alloc::Global;
use std::marker::Model;

/// The bytes of a journal as they were read, where none of its entries is open.
#[derive(Drop)]
pub struct ReadyJournal {
    pub(crate) bytes: Vec<u8>,
    pub(crate) version: Version,
    // The last record, where there are any.
    pub(crate) last: Option<Record>,
}

impl Model for ReadyJournal {
    ghost use Rattle.proto_base.specs.Texts.{Text};
    ghost use Rattle.proto_journal.specs.Written.{HasLast};

    ghost Value = { Text };

    ghost view = { λ j. j.bytes.items };

    ghost invariant = { λ j. HasLast j.version j.bytes.items j.last };
}

impl ReadyJournal {
    ghost use Rattle.proto_journal.specs.Written.{IsReadyText};

    // Its text in the second version.
    pub(crate) fn into_second(self, alloc: Global) -> Result<Vec<u8>, NoMemory>
        ensures { IfOk result (λ text. (held : Held) → self ≡ held.journal
            → IsReadyText text.items held) }
    {
        let ReadyJournal {
            bytes,
            version,
            last,
        } = self;
        drop(last);
        match version {
            Version::Second => Ok(bytes),
            Version::First => {
                journals_are_read_in_one_way();
                // The bytes are a journal, so that memory alone can be wanting.
                match read_records(alloc, bytes.as_slice()) {
                    Ok(records) => second_text(alloc, records.as_slice()),
                    Err(_fault) => Err(NoMemory),
                }
            }
        }
    }

    /// Drops it. A crate that ends it by this call need not prove how each of its parts is
    /// dropped. No clause: it is gone after it, and nothing is left to speak of.
    pub fn release(self) {}
}

/// Whether edits and undo may begin. `BadJournal` comes where the journal is none, `OpenEntry`
/// where its last entry is open; `Store` at the first call of the store that fails, and `NoMemory`
/// where memory runs out. The store is as before.
pub fn ready<S: Store>(alloc: Global, store: &mut S) -> Result<(), JournalFault>
    requires { S.failure_count store.old < 2 ^ 64 - 1 }
    ensures outcome { ReadyOutcome (S.holds store.old) result }
    ensures same { S.holds store.new ≡ S.holds store.old }
    ensures count { CountsJournal (S.failure_count store.old) (S.failure_count store.new) result }
{
    ready_journal(alloc, store)?;
    Ok(())
}

/// The journal that `ready` reads, with the same failures. Who hands it on to `commit_after` or
/// `undo_last_after` has it parsed once.
pub fn ready_journal<S: Store>(alloc: Global, store: &mut S) -> Result<ReadyJournal, JournalFault>
    requires { S.failure_count store.old < 2 ^ 64 - 1 }
    ensures bytes { IfOk result (HoldsJournal (S.holds store.old)) }
    ensures outcome { ReadyOutcome (S.holds store.old) result }
    ensures same { S.holds store.new ≡ S.holds store.old }
    ensures count { CountsJournal (S.failure_count store.old) (S.failure_count store.new) result }
{
    match store.read_journal() {
        Ok(bytes) => read_ready(alloc, bytes),
        Err(StoreFault::Failed) => Err(JournalFault::Store),
    }
}

// The same where a journal is known: bytes that are equal to its bytes are not parsed again.
pub(crate) fn journal_again<S: Store>(
    alloc: Global,
    store: &mut S,
    known: ReadyJournal,
) -> Result<ReadyJournal, JournalFault>
    requires { S.failure_count store.old < 2 ^ 64 - 1 }
    ensures bytes { IfOk result (HoldsJournal (S.holds store.old)) }
    ensures outcome { ReadyOutcome (S.holds store.old) result }
    ensures same { S.holds store.new ≡ S.holds store.old }
    ensures count { CountsJournal (S.failure_count store.old) (S.failure_count store.new) result }
{
    match store.read_journal() {
        Ok(bytes) => parsed_again(alloc, bytes, known),
        Err(StoreFault::Failed) => Err(JournalFault::Store),
    }
}

// The journal of these bytes, as `read_ready` answers it.
fn parsed_again(
    alloc: Global,
    bytes: Vec<u8>,
    known: ReadyJournal,
) -> Result<ReadyJournal, JournalFault>
    ensures bytes { IfOk result (λ journal. journal ≡ bytes.items) }
    ensures outcome { (held : Option Held) → HoldsJournal held bytes.items
        → ReadyOutcome held result }
    ensures count { (n : ℕ) → CountsJournal n n result }
{
    let is_same = bytes.as_slice() == known.bytes.as_slice();
    if is_same {
        Ok(known)
    } else {
        read_ready(alloc, bytes)
    }
}

// The journal of these bytes, where they are one and no entry of it is open.
fn read_ready(alloc: Global, bytes: Vec<u8>) -> Result<ReadyJournal, JournalFault>
    ensures bytes { IfOk result (λ journal. journal ≡ bytes.items) }
    ensures outcome { (held : Option Held) → HoldsJournal held bytes.items
        → ReadyOutcome held result }
    ensures count { (n : ℕ) → CountsJournal n n result }
{
    let read = read_journal(alloc, bytes.as_slice())?;
    let (version, mut records) = read;
    if last_is_open(records.as_slice()) {
        return Err(JournalFault::OpenEntry);
    }
    let last = records.pop();
    Ok(ReadyJournal {
        bytes,
        version,
        last,
    })
}
