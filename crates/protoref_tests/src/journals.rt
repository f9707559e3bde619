//! Journals that are cut: each beginning of a line is no journal. Others are rows of `protoref_rows`.

use crate::stores::{FIRST_LINE, LINE, NEW, NO_JOURNAL};
use crate::turns::expect_kept;
use std::process::Abort;

// Of the line of a rename each beginning but the empty one is no journal.
fn expect_none_where_cut<R: AllocGlobal + Abort>(rt: &R, line: &str) {
    let mut cut = String::new(rt.alloc());
    for next in line.chars() {
        if !cut.is_empty() {
            expect_kept(rt, NEW, cut.as_str(), "undo", NO_JOURNAL);
        }
        cut.push(next).expect(rt, "memory");
    }
}

#[test]
fn are_none_where_they_are_cut(rt: HostRuntime) {
    expect_none_where_cut(&rt, FIRST_LINE);
    expect_none_where_cut(&rt, LINE);
}
