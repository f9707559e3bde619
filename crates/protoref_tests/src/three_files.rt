//! Three files that one rename changes, and the steps of that rename, of its undo and of its recovery.

use crate::stores::joined_text;
use crate::turns::{Turn, expect_turns};
use std::process::Abort;

/// The rename of `M` to `N`.
pub(crate) const M_TO_N: &str = "rename M N";

/// What that rename and its undo print.
pub(crate) const ALL_CHANGED: &str = "changed a.proto\nchanged b.proto\nchanged c.proto\n";

/// What a recovery prints where the last entry is not open.
pub(crate) const NOTHING: &str = "nothing to recover\n";

/// The journal of that rename.
const DONE: &str =
    "{\"edit\":{\"kind\":\"rename\",\"name\":\"M\",\"to\":\"N\"},\"files\":[{\"after\":31,\"before\":31,\"path\":\"a.proto\",\"splices\":[{\"at\":27,\"new\":\"N\",\"old\":\"M\"}]},{\"after\":59,\"before\":59,\"path\":\"b.proto\",\"splices\":[{\"at\":49,\"new\":\"N\",\"old\":\"M\"}]},{\"after\":59,\"before\":59,\"path\":\"c.proto\",\"splices\":[{\"at\":49,\"new\":\"N\",\"old\":\"M\"}]}],\"state\":\"done\",\"version\":2}\n";

/// The same with the entry open.
pub(crate) const OPEN: &str =
    "{\"edit\":{\"kind\":\"rename\",\"name\":\"M\",\"to\":\"N\"},\"files\":[{\"after\":31,\"before\":31,\"path\":\"a.proto\",\"splices\":[{\"at\":27,\"new\":\"N\",\"old\":\"M\"}]},{\"after\":59,\"before\":59,\"path\":\"b.proto\",\"splices\":[{\"at\":49,\"new\":\"N\",\"old\":\"M\"}]},{\"after\":59,\"before\":59,\"path\":\"c.proto\",\"splices\":[{\"at\":49,\"new\":\"N\",\"old\":\"M\"}]}],\"state\":\"open\",\"version\":2}\n";

/// The journal of that rename in the first version.
const FIRST_DONE: &str =
    "{\"files\":[{\"after\":31,\"before\":31,\"path\":\"a.proto\",\"splices\":[{\"at\":27,\"new\":\"N\",\"old\":\"M\"}]},{\"after\":59,\"before\":59,\"path\":\"b.proto\",\"splices\":[{\"at\":49,\"new\":\"N\",\"old\":\"M\"}]},{\"after\":59,\"before\":59,\"path\":\"c.proto\",\"splices\":[{\"at\":49,\"new\":\"N\",\"old\":\"M\"}]}],\"state\":\"done\",\"version\":1}\n";

/// The same with the entry open.
pub(crate) const FIRST_OPEN: &str =
    "{\"files\":[{\"after\":31,\"before\":31,\"path\":\"a.proto\",\"splices\":[{\"at\":27,\"new\":\"N\",\"old\":\"M\"}]},{\"after\":59,\"before\":59,\"path\":\"b.proto\",\"splices\":[{\"at\":49,\"new\":\"N\",\"old\":\"M\"}]},{\"after\":59,\"before\":59,\"path\":\"c.proto\",\"splices\":[{\"at\":49,\"new\":\"N\",\"old\":\"M\"}]}],\"state\":\"open\",\"version\":1}\n";

/// Which of the three files have the new name, and what the journal has behind its older entries.
pub(crate) type Step = ([bool; 3], &'static str);

/// After so many of the five writes of the rename: the entry open, a file, a file, a file, the entry done. Those of its undo
/// put the files back, and take the entry off.
pub(crate) fn step(asked: &str, writes: u64) -> Step {
    let is_undo = asked == "undo";
    let renamed = [
        (writes > 1) != is_undo,
        (writes > 2) != is_undo,
        (writes > 3) != is_undo,
    ];
    if writes > 0 && writes < 5 {
        (renamed, OPEN)
    } else if (writes == 5) != is_undo {
        (renamed, DONE)
    } else {
        (renamed, "")
    }
}

/// After so many of the five writes of its undo, in a journal of the first version.
pub(crate) fn first_step(writes: u64) -> Step {
    let (renamed, last) = step("undo", writes);
    if last == DONE {
        (renamed, FIRST_DONE)
    } else if last == OPEN {
        (renamed, FIRST_OPEN)
    } else {
        (renamed, last)
    }
}

/// After so many writes of a recovery: each file with the new name put back, then the entry taken off.
pub(crate) fn recovered_step(([a, b, c], last): Step, writes: u64) -> Step {
    let after_a = u64::from(a);
    let after_b = after_a + u64::from(b);
    let after_c = after_b + u64::from(c);
    let renamed = [
        a && writes == 0,
        b && writes <= after_a,
        c && writes <= after_b,
    ];
    (renamed, if writes > after_c { "" } else { last })
}

/// The three files at this step.
pub(crate) fn files_at<R: AllocGlobal + Abort>(rt: &R, ([a, b, c], _): Step) -> String {
    let a = if a { "N" } else { "M" };
    let b = if b { "N" } else { "M" };
    let c = if c { "N" } else { "M" };
    format!(in rt.alloc();
        "a.proto syntax = \"proto3\"; message {a} {{}} | b.proto syntax = \"proto3\"; import \"a.proto\"; message B {{ {b} m = 1; }} | c.proto syntax = \"proto3\"; import \"a.proto\"; message C {{ {c} m = 1; }}"
    ).expect(rt, "memory")
}

/// The turns hold over a store at this step, with these older entries.
pub(crate) fn expect_at<R: AllocGlobal + Abort>(rt: &R, step: Step, older: &str, turns: &[Turn]) {
    let (files, journal) = (files_at(rt, step), joined_text(rt, older, step.1));
    expect_turns(rt, files.as_str(), journal.as_str(), turns);
}
