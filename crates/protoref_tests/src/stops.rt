//! Where a run stops: at a failed call of the store, and at a failed write.

use crate::compiling::ROW_JSON;
use crate::stores::{LINE, OLD};
use crate::three_files::{ALL_CHANGED, M_TO_N, NOTHING, expect_at, step};
use crate::turns::Turn::{At, Cut, HalfTold};
use crate::turns::expect_turns;
use std::process::Abort;

#[test]
fn tells_no_log_that_it_cannot_read(rt: HostRuntime) {
    expect_turns(&rt, OLD, LINE, &[Cut("log", 1, false)]);
}

/// What is asked of a file and its journal, and what that prints.
const TOLD: &[(&str, &str)] = &[
    ("compile", ROW_JSON),
    ("lint", "a.proto:1:1: PACKAGE_DEFINED -\n"),
    ("log", "1 done a.proto rename A.b_c d_e\n"),
    ("migrate", "nothing to migrate\n"),
];

#[test]
fn prints_no_more_than_the_output_takes(rt: HostRuntime) {
    for &(asked, text) in TOLD {
        for room in 0..text.len() {
            expect_turns(&rt, OLD, LINE, &[HalfTold(asked, text, room)]);
        }
    }
}

// An edit and its undo stand where the output fails after so many bytes.
#[test]
fn keeps_changes_of_many_files_where_the_output_fails(rt: HostRuntime) {
    for room in 0..ALL_CHANGED.len() {
        let turns = [
            HalfTold(M_TO_N, ALL_CHANGED, room),
            At(step(M_TO_N, 5), LINE),
            HalfTold("undo", ALL_CHANGED, room),
            At(step(M_TO_N, 0), LINE),
        ];
        expect_at(&rt, step(M_TO_N, 0), LINE, &turns);
    }
}

// So does a recovery after so many writes of the edit, which prints this text.
fn expect_recovered<R: AllocGlobal + Abort>(rt: &R, writes: u64, text: &str) {
    for room in 0..text.len() {
        let turns = [HalfTold("recover", text, room), At(step(M_TO_N, 0), LINE)];
        expect_at(rt, step(M_TO_N, writes), LINE, &turns);
    }
}

#[test]
fn keeps_a_recovery_where_the_output_fails(rt: HostRuntime) {
    expect_recovered(&rt, 3, "recovered\n");
    expect_recovered(&rt, 0, NOTHING);
}
