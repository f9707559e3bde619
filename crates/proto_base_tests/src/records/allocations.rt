//! Out of memory: the same call again answers as if it had not come. In a run that refuses one
//! allocation this test still passes, whichever it is.

use super::calls::*;
use crate::calls::{is_held, store_of};
use proto_base::NoMemory;
use proto_journal_records::{State, migrate, read_records};
use proto_store::{MemoryStore, Store};
use std::process::Abort;

// The line is read as its record, or memory is wanting.
fn read_line<R: AllocGlobal + Abort>(rt: &R) -> Result<(), NoMemory> {
    match read_records(rt.alloc(), LINE.as_bytes()) {
        Ok(records) => {
            assert!(rt; records.len() == 1);
            expect_first_texts(rt, records.as_slice(), LINE.as_bytes())
        }
        Err(fault) => {
            expect_fault(rt, fault, 6, "NoMemory");
            Err(NoMemory)
        }
    }
}

#[test]
fn one_is_refused(rt: HostRuntime) {
    assert!(rt; read_line(&rt).is_ok() || read_line(&rt).is_ok());
    let first = expect_longer(&rt, "", State::Done, LINE);
    assert!(rt; first.is_ok() || expect_longer(&rt, "", State::Done, LINE).is_ok());
}

// The line of the second version is read as its record, or memory is wanting.
fn read_second<R: AllocGlobal + Abort>(rt: &R) -> Result<(), NoMemory> {
    match read_records(rt.alloc(), SECOND_LINE.as_bytes()) {
        Ok(records) => {
            assert!(rt; records.len() == 1);
            expect_texts(rt, records.as_slice(), SECOND_LINE.as_bytes())
        }
        Err(fault) => {
            expect_fault(rt, fault, 6, "NoMemory");
            Err(NoMemory)
        }
    }
}

#[test]
fn one_is_refused_over_the_second_version(rt: HostRuntime) {
    assert!(rt; read_second(&rt).is_ok() || read_second(&rt).is_ok());
    let first = expect_longer_second(&rt, "", State::Done, SECOND_LINE);
    assert!(rt; first.is_ok() || expect_longer_second(&rt, "", State::Done, SECOND_LINE).is_ok());
}

const FILES: &[(&str, &str)] = &[("a.proto", "A")];

// Whether the journal goes over to the second version. Else memory is wanting: that of the move, or that of the store, whose
// call then fails.
fn is_moved<R: AllocGlobal + Abort>(rt: &R, store: &mut MemoryStore) -> bool {
    assert!(rt; store.failures() < u64::MAX);
    match migrate(rt.alloc(), store) {
        Ok(is) => is,
        Err(fault) => {
            assert!(rt; fault.number() == 4 || fault.number() == 6);
            false
        }
    }
}

// Whether the store has this journal, asked again where memory is wanting.
fn has<R: Abort>(rt: &R, store: &mut MemoryStore, journal: &str) -> bool {
    is_held(rt, store, FILES, journal) || is_held(rt, store, FILES, journal)
}

// Fails only where no memory is there for the store.
fn expect_moved<R: AllocGlobal + Abort>(rt: &R) -> Result<(), NoMemory> {
    let mut store = store_of(rt.alloc(), FILES, LINE)?;
    if !is_moved(rt, &mut store) {
        assert!(rt; has(rt, &mut store, LINE) && is_moved(rt, &mut store));
    }
    assert!(rt; has(rt, &mut store, NULL_LINE));
    Ok(())
}

#[test]
fn one_is_refused_of_a_move(rt: HostRuntime) {
    assert!(rt; expect_moved(&rt).is_ok() || expect_moved(&rt).is_ok());
}
