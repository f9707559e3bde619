//! The table of the faults of a journal.

use super::calls::expect_fault;
use proto_base::NoMemory;
use proto_edit_entries::Refusal;
use proto_journal_records::JournalFault;

#[test]
fn numbers_and_names(rt: HostRuntime) {
    expect_fault(&rt, JournalFault::BadJournal, 1, "BadJournal");
    expect_fault(&rt, JournalFault::NothingToUndo, 2, "NothingToUndo");
    expect_fault(&rt, JournalFault::OpenEntry, 3, "OpenEntry");
    expect_fault(&rt, JournalFault::Store, 4, "Store");
    expect_fault(&rt, JournalFault::JournalFull, 5, "JournalFull");
    expect_fault(&rt, JournalFault::NoMemory, 6, "NoMemory");
    expect_fault(&rt, JournalFault::Refused(Refusal::Stale), 0, "Refused");
}

#[test]
fn a_refusal_is_never_of_memory(rt: HostRuntime) {
    expect_fault(&rt, JournalFault::from(Refusal::NoMemory), 6, "NoMemory");
    expect_fault(&rt, JournalFault::from(NoMemory), 6, "NoMemory");
    expect_fault(&rt, JournalFault::from(Refusal::Stale), 0, "Refused");
}
