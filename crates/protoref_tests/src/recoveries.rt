//! Each call of the store that fails in an edit, in an undo and in a recovery, and the way back.

use crate::stores::{FIRST_LINE, LINE, NULL_LINE};
use crate::three_files::{
    ALL_CHANGED, FIRST_OPEN, M_TO_N, NOTHING, OPEN, Step, expect_at, first_step, recovered_step,
    step,
};
use crate::turns::Turn::{At, Cut, Done, Problem};
use std::process::Abort;

/// A step, and the older entries then.
type State<'a> = (Step, &'a str);

// What is asked of a store at a step ends at this call, which may land, and leaves it at another step. A recovery brings that
// back to before the rename where the entry is open, and a second one finds nothing to recover. It keeps the older entries.
fn expect_way_back<'a, R: AllocGlobal + Abort>(
    rt: &R,
    (before, older): State<'a>,
    (after, then): State<'a>,
    asked: &'a str,
    (call, lands): (u64, bool),
) {
    let (told, left) = if after.1 == OPEN || after.1 == FIRST_OPEN {
        ("recovered\n", step(M_TO_N, 0))
    } else {
        (NOTHING, after)
    };
    let turns = [
        Cut(asked, call, lands),
        At(after, then),
        Done("recover", told),
        At(left, then),
        Done("recover", NOTHING),
        At(left, then),
    ];
    expect_at(rt, before, older, &turns);
}

// An edit and an undo read the journal, the list, three files and the journal; the five writes are the calls from the seventh on.
fn writes_of(call: u64, lands: bool) -> u64 {
    call.saturating_sub(7)
        .saturating_add(u64::from(call > 6 && lands))
}

fn expect_change_cut<R: AllocGlobal + Abort>(rt: &R, asked: &str, (call, lands): (u64, bool)) {
    let (before, after) = (step(asked, 0), step(asked, writes_of(call, lands)));
    for older in ["", LINE] {
        expect_way_back(rt, (before, older), (after, older), asked, (call, lands));
    }
}

// The same behind an entry of the first version, which the first write of an edit puts into the second, and an undo leaves.
fn expect_cut_behind_first<R: AllocGlobal + Abort>(rt: &R, (call, lands): (u64, bool)) {
    let writes = writes_of(call, lands);
    let then = if writes > 0 { NULL_LINE } else { FIRST_LINE };
    let before = (step(M_TO_N, 0), FIRST_LINE);
    let after = (step(M_TO_N, writes), then);
    expect_way_back(rt, before, after, M_TO_N, (call, lands));
    let before = (first_step(0), FIRST_LINE);
    let after = (first_step(writes), FIRST_LINE);
    expect_way_back(rt, before, after, "undo", (call, lands));
}

#[test]
fn follow_each_failure_of_an_edit_and_an_undo(rt: HostRuntime) {
    for call in 1..12 {
        for &lands in &[false, true] {
            expect_change_cut(&rt, M_TO_N, (call, lands));
            expect_change_cut(&rt, "undo", (call, lands));
            expect_cut_behind_first(&rt, (call, lands));
        }
    }
}

// A recovery reads the journal, the list and three files, replaces each file with the new name and the journal.
fn expect_each_failure<R: AllocGlobal + Abort>(rt: &R, torn: Step, older: &str) {
    let ([a, b, c], _) = torn;
    for call in 1..7 + u64::from(a) + u64::from(b) + u64::from(c) {
        for &lands in &[false, true] {
            let writes = call.saturating_sub(6) + u64::from(call > 5 && lands);
            let after = (recovered_step(torn, writes), older);
            expect_way_back(rt, (torn, older), after, "recover", (call, lands));
        }
    }
}

#[test]
fn follow_each_failure_of_a_recovery(rt: HostRuntime) {
    for writes in 1..5 {
        for &older in &["", LINE, NULL_LINE] {
            expect_each_failure(&rt, step(M_TO_N, writes), older);
            expect_each_failure(&rt, step("undo", writes), older);
        }
        for &older in &["", FIRST_LINE] {
            expect_each_failure(&rt, first_step(writes), older);
        }
    }
}

/// Older entries, those after the rename, and the log then.
const LOGS: &[(&str, &str, &str)] = &[
    ("", "", "1 done a.proto,b.proto,c.proto rename M N\n"),
    (
        LINE,
        LINE,
        "1 done a.proto rename A.b_c d_e\n2 done a.proto,b.proto,c.proto rename M N\n",
    ),
    (
        FIRST_LINE,
        NULL_LINE,
        "1 done a.proto\n2 done a.proto,b.proto,c.proto rename M N\n",
    ),
];

#[test]
fn find_nothing_where_no_call_fails(rt: HostRuntime) {
    for &(older, then, log) in LOGS {
        let turns = [
            Done(M_TO_N, ALL_CHANGED),
            Done("recover", NOTHING),
            At(step(M_TO_N, 5), then),
            Done("log", log),
            Done("undo", ALL_CHANGED),
            Done("recover", NOTHING),
            At(step(M_TO_N, 0), then),
        ];
        expect_at(&rt, step(M_TO_N, 0), older, &turns);
    }
}

// A torn undo tells the edit of its entry.
#[test]
fn are_told_with_their_edit(rt: HostRuntime) {
    let turns = [Done("log", "1 open a.proto,b.proto,c.proto rename M N\n")];
    expect_at(&rt, step("undo", 2), "", &turns);
    let turns = [Done("log", "1 open a.proto,b.proto,c.proto\n")];
    expect_at(&rt, first_step(2), "", &turns);
}

/// So many writes of the edit, and the fault that the schemas have then.
const OPENED: &[(u64, &str)] = &[
    (2, "b.proto:1:50: 14 Unresolved\n"),
    (3, "c.proto:1:50: 14 Unresolved\n"),
];

#[test]
fn come_before_all_other_changes(rt: HostRuntime) {
    for &(writes, fault) in OPENED {
        let torn = step(M_TO_N, writes);
        let turns = [
            Problem(M_TO_N, "journal: 3 OpenEntry\n"),
            Problem("undo", "journal: 3 OpenEntry\n"),
            Done("log", "1 open a.proto,b.proto,c.proto rename M N\n"),
            Problem("compile", fault),
            At(torn, ""),
        ];
        expect_at(&rt, torn, "", &turns);
    }
}
