//! Where a run of `compile` stops, and what its output takes. What it prints are rows of `protoref_rows`.

use crate::calls::{WIDE, expect, expect_end, given_files};
use protoref_commands::{Command, MemoryStore, RunFault, Status, StoreFault, fault_line};

const ROW: &str = "a.proto syntax = \"proto3\"; message A { string b_c = 1; }";

pub(crate) const ROW_JSON: &str =
    "{\"file\":[{\"messageType\":[{\"field\":[{\"jsonName\":\"bC\",\"label\":\"LABEL_OPTIONAL\",\"name\":\"b_c\",\"number\":1,\"type\":\"TYPE_STRING\"}],\"name\":\"A\"}],\"name\":\"a.proto\",\"syntax\":\"proto3\"}]}\n";

const RANGE: &str = "a.proto syntax = \"proto3\"; message A { string b = 19000; }";

const RANGE_LINE: &str = "a.proto:1:43: 17 NumberRange\n";

/// Files, the call of the store that fails, and what is printed of the files where none does.
const FAILED: &[(&str, u64, &str, Status)] = &[
    (ROW, 1, ROW_JSON, Status::Done),
    (ROW, 2, ROW_JSON, Status::Done),
    (RANGE, 1, RANGE_LINE, Status::Problem),
    (RANGE, 2, RANGE_LINE, Status::Problem),
    (RANGE, 3, RANGE_LINE, Status::Problem),
];

// The run ends with the failure of this call of the store, and another goes on as if nothing had been.
#[test]
fn stops_where_the_store_fails(rt: HostRuntime) {
    for &(files, call, text, status) in FAILED {
        let journal = Vec::new(rt.alloc());
        let made = MemoryStore::new(rt.alloc(), given_files(&rt, files), journal);
        let mut store = made.expect(&rt, "memory");
        assert!(rt; call > 0);
        store.fail_at(call, false);
        let failed = (Err(RunFault::Store), "", 0);
        expect_end(&rt, &mut store, Command::Compile, WIDE, failed, 1);
        let end = (Ok(status), text, text.len());
        expect_end(&rt, &mut store, Command::Compile, WIDE, end, 1);
    }
}

#[test]
fn writes_what_the_output_takes_at_once(rt: HostRuntime) {
    for &at_once in &[1, 7, 4096] {
        let room = (at_once, ROW_JSON.len(), false);
        let end = (Ok(Status::Done), ROW_JSON, ROW_JSON.len());
        expect(&rt, given_files(&rt, ROW), Command::Compile, room, end);
    }
}

#[test]
fn names_its_faults(rt: HostRuntime) {
    for (fault, line, name) in &[
        (RunFault::Store, "protoref: store failed", "Store"),
        (RunFault::NoMemory, "protoref: no memory", "NoMemory"),
        (RunFault::Output, "protoref: output failed", "Output"),
    ] {
        assert!(rt; fault_line(fault) == *line);
        assert!(rt; fault.number() == 0 && fault.name() == *name);
    }
    assert!(rt; StoreFault::Failed.number() == 0 && StoreFault::Failed.name() == "Failed");
    assert!(rt; Status::Done.code() == 0 && Status::Problem.code() == 1);
}
