//! The memory store: what it holds after each call, and the call that is to fail.

use crate::calls::{is_held, read, replace, store_of};
use proto_store::{MemoryStore, Store};
use std::process::Abort;

pub(crate) type Files = &'static [(&'static str, &'static str)];

pub(crate) const FILES: Files = &[("a.proto", "A"), ("p/b.proto", "B")];

/// What a test does with a store.
#[derive(Clone, Copy)]
pub(crate) enum Step {
    /// This call from now on is to fail, and if it is a replace, leaves the new bytes or does not.
    FailAt(u64, bool),
    List,
    Read(&'static str),
    ReadJournal,
    Replace(&'static str, &'static str),
    Note(&'static str),
    /// It is asked for the file at a path, and the journal, before a write.
    MayReplace(&'static str),
    /// It holds these files and this journal.
    Held(Files, &'static str),
    /// So many calls have failed.
    Failures(u64),
}

/// Whether the step works.
pub(crate) fn take(rt: &impl Abort, store: &mut MemoryStore, step: Step) -> bool {
    assert!(rt; store.failures() < u64::MAX);
    match step {
        Step::FailAt(call, lands) => {
            assert!(rt; call > 0);
            store.fail_at(call, lands);
            true
        }
        Step::List => store.list().is_ok(),
        Step::Read(path) => read(rt, store, path).is_ok(),
        Step::ReadJournal => store.read_journal().is_ok(),
        Step::Replace(path, text) => replace(rt, store, path, text).is_ok(),
        Step::Note(text) => store.replace_journal(text.as_bytes()).is_ok(),
        Step::MayReplace(path) => store.may_replace(&[path]).is_ok(),
        Step::Held(files, journal) => is_held(rt, store, files, journal),
        Step::Failures(count) => store.failures() == count,
    }
}

// Takes steps, each of which works, or does not.
fn take_all(rt: &impl Abort, store: &mut MemoryStore, steps: &[(Step, bool)]) {
    for (place, (step, works)) in steps.iter().enumerate() {
        assert!(rt; take(rt, store, *step) == *works, "at step {place} from 0");
    }
}

// Takes steps with a store of these files and this journal.
fn expect<R: AllocGlobal + Abort>(rt: &R, files: Files, journal: &str, steps: &[(Step, bool)]) {
    let mut store = store_of(rt.alloc(), files, journal).expect(rt, "a store");
    take_all(rt, &mut store, steps);
}

#[test]
fn keeps_what_was_given_last(rt: HostRuntime) {
    expect(&rt, GIVEN, "J", KEPT);
    expect(&rt, &[], "", NONE_KEPT);
}

const GIVEN: Files = &[("p/b.proto", "b"), ("a.proto", "A"), ("p/b.proto", "B")];

const KEPT: &[(Step, bool)] = &[(Step::Held(FILES, "J"), true), (Step::Failures(0), true)];

const NONE_KEPT: &[(Step, bool)] = &[(Step::Held(&[], ""), true), (Step::Failures(0), true)];

#[test]
fn replaces_one_thing(rt: HostRuntime) {
    expect(&rt, FILES, "J", REPLACES);
}

const LONGER: Files = &[("a.proto", "A"), ("p/b.proto", "longer than before")];

const EMPTIED: Files = &[("a.proto", ""), ("p/b.proto", "longer than before")];

const REPLACES: &[(Step, bool)] = &[
    (Step::Replace("p/b.proto", "longer than before"), true),
    (Step::Held(LONGER, "J"), true),
    (Step::Note("K"), true),
    (Step::Held(LONGER, "K"), true),
    (Step::Replace("a.proto", ""), true),
    (Step::Note(""), true),
    (Step::Held(EMPTIED, ""), true),
    (Step::Failures(0), true),
];

// Calls 1 and 2 replace a file, call 3 replaces the journal, and calls 4 and 5 read a file.
#[test]
fn fails_where_it_is_told_to(rt: HostRuntime) {
    for (call, lands, files, journal) in TOLD {
        let steps = [
            (Step::FailAt(*call, *lands), true),
            (Step::Replace("a.proto", "C"), *call != 2),
            (Step::Note("K"), *call != 3),
            (Step::Read("a.proto"), *call <= 3),
            (Step::Failures(1), true),
            (Step::Held(files, journal), true),
            (Step::Failures(1), true),
        ];
        expect(&rt, FILES, "J", &steps);
    }
}

const CHANGED: Files = &[("a.proto", "C"), ("p/b.proto", "B")];

// The call that is to fail, whether it lands, and what the store holds in the end.
const TOLD: &[(u64, bool, Files, &str)] = &[
    (2, false, FILES, "K"),
    (3, false, CHANGED, "J"),
    (4, false, CHANGED, "K"),
    (5, false, CHANGED, "K"),
    (2, true, CHANGED, "K"),
    (3, true, CHANGED, "K"),
    (4, true, CHANGED, "K"),
    (5, true, CHANGED, "K"),
];

#[test]
fn changes_nothing_at_a_call_that_only_asks(rt: HostRuntime) {
    for lands in [false, true] {
        let steps = [
            (Step::FailAt(1, lands), true),
            (Step::List, false),
            (Step::FailAt(2, lands), true),
            (Step::Read("a.proto"), false),
            (Step::FailAt(1, lands), true),
            (Step::MayReplace("a.proto"), true),
            (Step::ReadJournal, false),
            (Step::FailAt(1, lands), true),
            (Step::Replace("a.proto", "C"), false),
            (Step::Held(FILES, "J"), true),
            (Step::Failures(4), true),
        ];
        expect(&rt, FILES, "J", &steps);
    }
}

#[test]
fn fails_where_it_was_told_to_last(rt: HostRuntime) {
    expect(&rt, FILES, "J", TOLD_TWICE);
}

const TOLD_TWICE: &[(Step, bool)] = &[
    (Step::FailAt(1, true), true),
    (Step::FailAt(2, false), true),
    (Step::Note("K"), true),
    (Step::Note("L"), false),
    (Step::Note("M"), true),
    (Step::Held(FILES, "M"), true),
    (Step::Failures(1), true),
];
