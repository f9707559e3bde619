//! Journals of stores that go over to the second version.

use super::calls::*;
use crate::calls::{is_held, store_of};
use proto_journal_records::{JournalFault, migrate};
use proto_store::{MemoryStore, Store};
use std::process::Abort;

const FILES: &[(&str, &str)] = &[("a.proto", "A")];

// What the move answers over a store.
fn migrate_store<R: AllocGlobal + Abort>(
    rt: &R,
    store: &mut MemoryStore,
) -> Result<bool, JournalFault> {
    assert!(rt; store.failures() < u64::MAX);
    migrate(rt.alloc(), store)
}

// A store of one file and this journal.
fn store<R: AllocGlobal + Abort>(rt: &R, journal: &str) -> MemoryStore {
    store_of(rt.alloc(), FILES, journal).expect(rt, "memory")
}

// Sees what is answered over this journal, and that the store has the other then.
fn expect_moved<R: AllocGlobal + Abort>(rt: &R, journal: &str, answer: bool, then: &str) {
    let mut store = store(rt, journal);
    let is = migrate_store(rt, &mut store).expect(rt, "an answer");
    expect(
        rt,
        is == answer && is_held(rt, &mut store, FILES, then),
        then,
    );
}

// Sees that the move over this journal is refused, and that the store stays.
fn expect_refused<R: AllocGlobal + Abort>(rt: &R, journal: &str, number: u32, name: &str) {
    let mut store = store(rt, journal);
    match migrate_store(rt, &mut store) {
        Ok(_) => panic!(rt; "{journal}"),
        Err(fault) => expect_fault(rt, fault, number, name),
    }
    expect(rt, is_held(rt, &mut store, FILES, journal), journal);
}

#[test]
fn journals_of_the_first_version_go_over(rt: HostRuntime) {
    expect_moved(&rt, LINE, true, NULL_LINE);
    let two = joined_text(&rt, LINE, LINE);
    let then = joined_text(&rt, NULL_LINE, NULL_LINE);
    expect_moved(&rt, two.as_str(), true, then.as_str());
}

#[test]
fn others_stay(rt: HostRuntime) {
    for journal in ["", SECOND_LINE, NULL_LINE, OPEN_SECOND_LINE] {
        expect_moved(&rt, journal, false, journal);
    }
}

#[test]
fn some_are_refused(rt: HostRuntime) {
    expect_refused(&rt, "x", 1, "BadJournal");
    let mixed = joined_text(&rt, LINE, NULL_LINE);
    expect_refused(&rt, mixed.as_str(), 1, "BadJournal");
    let mixed = joined_text(&rt, NULL_LINE, LINE);
    expect_refused(&rt, mixed.as_str(), 1, "BadJournal");
    expect_refused(&rt, OPEN_LINE, 3, "OpenEntry");
    let open = joined_text(&rt, LINE, OPEN_LINE);
    expect_refused(&rt, open.as_str(), 3, "OpenEntry");
}

// So many copies of the line of the first version, and then this.
fn copies<R: AllocGlobal + Abort>(rt: &R, count: usize, then: &str) -> String {
    let mut journal = String::new(rt.alloc());
    for _ in 0..count {
        journal.push_str(LINE).expect(rt, "memory");
    }
    journal.push_str(then).expect(rt, "memory");
    journal
}

// The text in the second version is counted.
#[test]
fn the_longest(rt: HostRuntime) {
    let longest = copies(&rt, 120_699, "");
    let mut store = store(&rt, longest.as_str());
    assert!(rt; migrate_store(&rt, &mut store).expect(&rt, "an answer"));
    assert!(rt; store.failures() < u64::MAX);
    assert!(rt; store.read_journal().expect(&rt, "a journal").len() == 16_777_161);
}

#[test]
fn one_that_is_too_long(rt: HostRuntime) {
    expect_refused(&rt, copies(&rt, 120_700, "").as_str(), 5, "JournalFull");
}

// An open entry is told before that.
#[test]
fn an_open_one_that_is_too_long(rt: HostRuntime) {
    expect_refused(
        &rt,
        copies(&rt, 120_700, OPEN_LINE).as_str(),
        3,
        "OpenEntry",
    );
}

// The call that fails, whether the new bytes are there then, and what the journal is.
const CUT: &[(u64, bool, &str)] = &[
    (1, false, LINE),
    (1, true, LINE),
    (2, false, LINE),
    (2, true, NULL_LINE),
];

#[test]
fn each_call_fails(rt: HostRuntime) {
    for (call, lands, then) in CUT {
        let mut store = store(&rt, LINE);
        assert!(rt; *call > 0);
        store.fail_at(*call, *lands);
        match migrate_store(&rt, &mut store) {
            Ok(_) => panic!(rt; "{call}"),
            Err(fault) => expect_fault(&rt, fault, 4, "Store"),
        }
        expect(&rt, is_held(&rt, &mut store, FILES, then), then);
        // A later move does the rest.
        migrate_store(&rt, &mut store).expect(&rt, "an answer");
        expect(&rt, is_held(&rt, &mut store, FILES, NULL_LINE), then);
    }
}
