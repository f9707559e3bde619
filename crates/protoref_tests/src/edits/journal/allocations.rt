//! Out of memory: the store and the workspace are then as before, or, where a call of the store ran
//! out, the store is cut. In a run that refuses one allocation this test still passes, whichever it
//! is.

use super::calls::*;
use proto_base::NoMemory;
use proto_journal::MemoryStore;
use std::process::Abort;

// The store before, and as each further write leaves it.
const CUTS: &[Left] = &[(BEFORE, ""), (BEFORE, OPEN), (AFTER, OPEN), (AFTER, DONE)];

// The same over an entry of the first version.
const FIRST_CUTS: &[Left] = &[
    (BEFORE, FIRST_DONE),
    (BEFORE, FIRST_THEN_OPEN),
    (AFTER, FIRST_THEN_OPEN),
    (AFTER, FIRST_THEN_DONE),
];

// Whether the store is left as one of these, asked again where memory is wanting.
fn is_one_of<R: AllocGlobal + Abort>(rt: &R, store: &mut MemoryStore, states: &[Left]) -> bool {
    for &left in states {
        let is_so = match is_left(rt, store, left) {
            Ok(is) => is,
            Err(_) => is_left(rt, store, left).expect(rt, "files"),
        };
        if is_so {
            return true;
        }
    }
    false
}

fn expect_left<R: AllocGlobal + Abort>(
    rt: &R,
    store: &mut MemoryStore,
    (before, made): (Left, Left),
    cuts: &[Left],
) {
    let ((number, name, _), text) = match answer_of_call(rt, store, RENAME) {
        Ok(answer) => answer,
        Err(_) => answer_of_call(rt, store, RENAME).expect(rt, "an answer"),
    };
    let (is_so, wanted) = match (number, name) {
        (0, "done") => (is_one_of(rt, store, &[made]), AFTER),
        // Refused when out of memory.
        (6, _) => (is_one_of(rt, store, &[before]), BEFORE),
        // The store's own growth was refused, which is a call that failed.
        (4, _) => (is_one_of(rt, store, cuts), BEFORE),
        _ => (false, BEFORE),
    };
    assert!(rt; is_so && text == wanted, "after {number} {name}");
    // Nothing is refused any more, so the same call is made.
    if number == 6 {
        assert!(rt;
            answer_of_call(rt, store, RENAME).expect(rt, "an answer") == MADE,
            "again"
        );
    }
}

// Fails only where no memory is there for the store.
fn expect_one<R: AllocGlobal + Abort>(
    rt: &R,
    (before, made): (Left, Left),
    cuts: &[Left],
) -> Result<(), NoMemory> {
    let mut store = store_of(rt.alloc(), before)?;
    expect_left(rt, &mut store, (before, made), cuts);
    Ok(())
}

#[test]
fn one_is_refused(rt: HostRuntime) {
    let ends = ((BEFORE, ""), (AFTER, DONE));
    assert!(rt; expect_one(&rt, ends, CUTS).is_ok() || expect_one(&rt, ends, CUTS).is_ok());
}

#[test]
fn one_is_refused_over_the_first_version(rt: HostRuntime) {
    let ends = ((BEFORE, FIRST_DONE), (AFTER, FIRST_THEN_DONE));
    let is_one = expect_one(&rt, ends, FIRST_CUTS).is_ok();
    assert!(rt; is_one || expect_one(&rt, ends, FIRST_CUTS).is_ok());
}
