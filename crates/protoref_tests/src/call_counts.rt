//! How many calls of the store a command makes. A failure that is planned for the call behind the
//! last does not come, and comes with the next call of all.

use crate::pipe::Pipe;
use crate::stores::{FIRST_LINE, FIRST_OPEN, LINE, OLD, OPEN_LINE, RENAME, command_of, store_of};
use crate::three_files::{M_TO_N, files_at, step};
use protoref_commands::{MemoryStore, Store, run};
use std::process::Abort;

fn expect_calls<R: AllocGlobal + Abort>(rt: &R, store: &mut MemoryStore, asked: &str, calls: u64) {
    assert!(rt; calls < u64::MAX);
    store.fail_at(calls + 1, false);
    let mut writer = Pipe {
        taken: Vec::new(rt.alloc()),
        at_once: 4096,
        room: 65536,
        breaks: false,
    };
    assert!(rt; store.failures() == 0);
    let is_told = run(rt.alloc(), command_of(rt, asked), store, &mut writer).is_ok();
    assert!(rt;
        is_told && store.failures() == 0,
        "more than {calls} calls for {asked}"
    );
    let is_next = store.read_journal().is_err();
    assert!(rt; is_next, "fewer than {calls} calls for {asked}");
}

// How many of the five writes of a rename of three files were made, what is asked then, and how many calls that makes: of the
// journal, of the list, of each file that is read, and for a fault of one more to tell the line; and of what is written.
const OF_THREE: &[(u64, &str, u64)] = &[
    (0, "compile", 4),
    (0, "lint", 4),
    (0, "log", 1),
    (0, "recover", 1),
    (0, M_TO_N, 11),
    (0, "rename M 1", 6),
    (0, "rename X N", 6),
    (0, "undo", 6),
    (1, "recover", 6),
    (2, "compile", 5),
    (2, "lint", 5),
    (2, "log", 1),
    (2, "rename N M", 1),
    (2, "undo", 1),
    (2, "recover", 7),
    (3, "recover", 8),
    (4, "recover", 9),
    (5, "compile", 4),
    (5, "recover", 1),
    (5, "undo", 11),
];

#[test]
fn makes_no_call_more_over_three_files(rt: HostRuntime) {
    for (writes, asked, calls) in OF_THREE {
        let begun = step(M_TO_N, *writes);
        let files = files_at(&rt, begun);
        let mut store = store_of(&rt, files.as_str(), begun.1);
        expect_calls(&rt, &mut store, asked, *calls);
    }
}

// A file that is not as an entry says.
const OTHER: &str = "a.proto syntax = \"proto3\"; message A { string x_y = 1; }";

// A file with a fault.
const FAULTY: &str = "a.proto syntax = \"proto3\"; message A { C b_c = 1; }";

// Files, a journal, what is asked, and how many calls that makes.
const REFUSED: &[(&str, &str, &str, u64)] = &[
    (OLD, "none\n", RENAME, 1),
    (OLD, "none\n", "undo", 1),
    (OLD, "none\n", "log", 1),
    (OLD, "none\n", "recover", 1),
    (OLD, "none\n", "migrate", 1),
    (OLD, FIRST_OPEN, "migrate", 1),
    (OLD, OPEN_LINE, RENAME, 1),
    (OLD, LINE, "undo", 4),
    (OTHER, OPEN_LINE, "recover", 3),
    (FAULTY, "", RENAME, 4),
    (FAULTY, "", "compile", 3),
];

#[test]
fn makes_no_call_more_where_it_refuses(rt: HostRuntime) {
    for (files, journal, asked, calls) in REFUSED {
        let mut store = store_of(&rt, files, journal);
        expect_calls(&rt, &mut store, asked, *calls);
    }
}

// A journal that may be moved to the second version, and how many calls that makes.
const MOVED: &[(&str, u64)] = &[("", 1), (LINE, 1), (OPEN_LINE, 1), (FIRST_LINE, 2)];

#[test]
fn makes_no_call_more_where_it_moves_a_journal(rt: HostRuntime) {
    for (journal, calls) in MOVED {
        let mut store = store_of(&rt, OLD, journal);
        expect_calls(&rt, &mut store, "migrate", *calls);
    }
}
