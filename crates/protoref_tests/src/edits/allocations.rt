//! Out of memory: it changes nothing, and the same call again answers as if it had not come. In a
//! run that refuses one allocation these tests still pass, whichever it is.

use super::calls::{Flat, difference_of, expect_none};
use super::rows::{EMPTY, FIRST_MAP, IMPORT, ONEOF, PLAIN, VALUE, WIDE};
use proto_base::NoMemory;
use std::process::Abort;

// The row's edits and the way back, whatever is refused.
fn expect_in_the_end<R: AllocGlobal + Abort>(rt: &R, rows: &[Flat]) {
    for row in rows {
        match difference_of(rt.alloc(), row) {
            Err(NoMemory) => expect_none(rt, difference_of(rt.alloc(), row)),
            answer => expect_none(rt, answer),
        }
    }
}

// A message that two other files use, a value that is a default, a map field.
#[test]
fn one_is_refused(rt: HostRuntime) {
    expect_in_the_end(&rt, &[WIDE, VALUE, FIRST_MAP]);
}

// A field of a oneof, deleted, and the last one left; an import, added and dropped, with what refuses others between.
#[test]
fn one_is_refused_of_statements(rt: HostRuntime) {
    expect_in_the_end(&rt, &[ONEOF, IMPORT]);
}

// A field outside of a oneof, deleted, and an import into an empty file.
#[test]
fn one_is_refused_of_single_statements(rt: HostRuntime) {
    expect_in_the_end(&rt, &[PLAIN, EMPTY]);
}
