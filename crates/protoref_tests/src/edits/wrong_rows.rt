//! Rows that do not hold: the answer, the file afterwards or the descriptors are others.

use super::calls::{Flat, difference_of};
use std::process::Abort;

const OLD: &str = "a.proto syntax = \"proto3\"; message A { string b_c = 1; }";

const DELETE: &str =
    "delete A.b_c > a.proto 48 60 (31 string b_c = 1; reserved 1; reserved \"b_c\";);";

const AFTER: &str = "a.proto syntax = \"proto3\"; message A { reserved 1; reserved \"b_c\"; }";

const JSON: &str = "\"reservedName\":[\"b_c\"]";

const RIGHT: &Flat = &[OLD, DELETE, AFTER, JSON];

const WRONG: &[Flat] = &[
    [OLD, "delete A.b_c > 16 TooLarge", AFTER, JSON],
    [OLD, DELETE, OLD, JSON],
    [OLD, DELETE, AFTER, "\"reservedName\":[\"d_e\"]"],
];

fn is_told<R: AllocGlobal + Abort>(rt: &R, row: &Flat) -> bool {
    let told = difference_of(rt.alloc(), row).expect(rt, "memory");
    !told.is_empty()
}

#[test]
fn are_told(rt: HostRuntime) {
    assert!(rt; !is_told(&rt, RIGHT));
    for row in WRONG {
        assert!(rt; is_told(&rt, row));
    }
}
