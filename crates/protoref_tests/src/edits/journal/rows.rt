//! A rename is committed and undone, byte for byte.

use super::calls::*;

const NOTHING: Answer = ((2, "NothingToUndo", 0), BEFORE);

const UNKNOWN: Answer = ((0, "UnknownTarget", 1), BEFORE);

// The line of the rename twice.
const TWICE: &str =
    "{\"edit\":{\"kind\":\"rename\",\"name\":\"A.b_c\",\"to\":\"d_e\"},\"files\":[{\"after\":48,\"before\":48,\"path\":\"a.proto\",\"splices\":[{\"at\":38,\"new\":\"d_e\",\"old\":\"b_c\"}]}],\"state\":\"done\",\"version\":2}\n{\"edit\":{\"kind\":\"rename\",\"name\":\"A.b_c\",\"to\":\"d_e\"},\"files\":[{\"after\":48,\"before\":48,\"path\":\"a.proto\",\"splices\":[{\"at\":38,\"new\":\"d_e\",\"old\":\"b_c\"}]}],\"state\":\"done\",\"version\":2}\n";

// A rename and the way back.
const BACK: &[Turn] = &[
    (RENAME, MADE, (AFTER, DONE)),
    (UNDO, TAKEN_BACK, (BEFORE, "")),
    (UNDO, NOTHING, (BEFORE, "")),
];

const REFUSED: &[Turn] = &[(("A.q", NEVER, false), UNKNOWN, (BEFORE, ""))];

// Older entries stay.
const OLDER: &[Turn] = &[
    (RENAME, MADE, (AFTER, TWICE)),
    (UNDO, TAKEN_BACK, (BEFORE, DONE)),
];

// An entry of the first version is written in the second by a commit, and stays as it is in an undo.
const FIRST: &[Turn] = &[
    (RENAME, MADE, (AFTER, FIRST_THEN_DONE)),
    (UNDO, TAKEN_BACK, (BEFORE, NULL_DONE)),
];

const FIRST_BACK: &[Turn] = &[
    (UNDO, TAKEN_BACK, (BEFORE, "")),
    (RENAME, MADE, (AFTER, DONE)),
];

#[test]
fn renames_are_committed_and_undone(rt: HostRuntime) {
    expect_row(&rt, (BEFORE, ""), READY, BACK);
    expect_row(&rt, (BEFORE, ""), READY, REFUSED);
    expect_row(&rt, (BEFORE, DONE), READY, OLDER);
    expect_row(&rt, (BEFORE, FIRST_DONE), READY, FIRST);
    expect_row(&rt, (AFTER, FIRST_DONE), READY, FIRST_BACK);
}
