//! Out of memory: the call fails, is counted and changes nothing, and the next one works. In a run
//! that refuses one allocation this test still passes, whichever it is.

use crate::calls::store_of;
use crate::memory::{FILES, Step, take};
use proto_base::NoMemory;
use proto_store::{MemoryStore, Store};
use std::process::Abort;

const CHANGED: &[(&str, &str)] = &[("a.proto", "A"), ("p/b.proto", "C")];

// Each step, and what the store still holds where it fails.
const STEPS: &[(Step, Step)] = &[
    (Step::Held(FILES, "J"), Step::Held(FILES, "J")),
    (Step::Replace("p/b.proto", "C"), Step::Held(FILES, "J")),
    (Step::Held(CHANGED, "J"), Step::Held(CHANGED, "J")),
    (Step::Note("K"), Step::Held(CHANGED, "J")),
    (Step::Held(CHANGED, "K"), Step::Held(CHANGED, "K")),
];

// Takes each step, and once more where it fails.
fn take_all<R: Abort>(rt: &R, store: &mut MemoryStore) {
    for (step, before) in STEPS {
        if !take(rt, store, *step) {
            assert!(rt;
                store.failures() == 1 && take(rt, store, *before) && take(rt, store, *step)
            );
        }
    }
    assert!(rt; store.failures() <= 1);
}

// Fails only where no memory is there for the store.
fn expect_changes<R: AllocGlobal + Abort>(rt: &R) -> Result<(), NoMemory> {
    let mut store = store_of(rt.alloc(), FILES, "J")?;
    take_all(rt, &mut store);
    Ok(())
}

#[test]
fn one_is_refused(rt: HostRuntime) {
    assert!(rt; expect_changes(&rt).is_ok() || expect_changes(&rt).is_ok());
}
