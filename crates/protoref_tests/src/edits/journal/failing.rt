//! Each store call of a commit and of an undo fails in turn, with old and with new bytes; there is no fifth call.

use super::calls::*;

const FAILED: Said = (4, "Store", 0);

// The commit fails, and the workspace is as before.
const CUT: Answer = (FAILED, BEFORE);

// The calls are: read the journal, replace it, replace the file, replace the journal.
const COMMITS: &[Turn] = &[
    (("A.b_c", 1, false), CUT, (BEFORE, "")),
    (("A.b_c", 1, true), CUT, (BEFORE, "")),
    (("A.b_c", 2, false), CUT, (BEFORE, "")),
    (("A.b_c", 2, true), CUT, (BEFORE, OPEN)),
    (("A.b_c", 3, false), CUT, (BEFORE, OPEN)),
    (("A.b_c", 3, true), CUT, (AFTER, OPEN)),
    (("A.b_c", 4, false), CUT, (AFTER, OPEN)),
    (("A.b_c", 4, true), CUT, (AFTER, DONE)),
    (("A.b_c", 5, false), MADE, (AFTER, DONE)),
];

// The undo fails, and the workspace is as before.
const UNDO_CUT: Answer = (FAILED, AFTER);

const UNDOS: &[Turn] = &[
    (("", 1, false), UNDO_CUT, (AFTER, DONE)),
    (("", 1, true), UNDO_CUT, (AFTER, DONE)),
    (("", 2, false), UNDO_CUT, (AFTER, DONE)),
    (("", 2, true), UNDO_CUT, (AFTER, OPEN)),
    (("", 3, false), UNDO_CUT, (AFTER, OPEN)),
    (("", 3, true), UNDO_CUT, (BEFORE, OPEN)),
    (("", 4, false), UNDO_CUT, (BEFORE, OPEN)),
    (("", 4, true), UNDO_CUT, (BEFORE, "")),
    (("", 5, false), TAKEN_BACK, (BEFORE, "")),
];

// The same over an entry of the first version: the first write puts it into the second.
const FIRST_COMMITS: &[Turn] = &[
    (("A.b_c", 1, true), CUT, (BEFORE, FIRST_DONE)),
    (("A.b_c", 2, false), CUT, (BEFORE, FIRST_DONE)),
    (("A.b_c", 2, true), CUT, (BEFORE, FIRST_THEN_OPEN)),
    (("A.b_c", 3, false), CUT, (BEFORE, FIRST_THEN_OPEN)),
    (("A.b_c", 3, true), CUT, (AFTER, FIRST_THEN_OPEN)),
    (("A.b_c", 4, false), CUT, (AFTER, FIRST_THEN_OPEN)),
    (("A.b_c", 4, true), CUT, (AFTER, FIRST_THEN_DONE)),
    (("A.b_c", 5, false), MADE, (AFTER, FIRST_THEN_DONE)),
];

// An undo keeps the first version.
const FIRST_UNDOS: &[Turn] = &[
    (("", 2, true), UNDO_CUT, (AFTER, FIRST_OPEN)),
    (("", 3, true), UNDO_CUT, (BEFORE, FIRST_OPEN)),
    (("", 4, false), UNDO_CUT, (BEFORE, FIRST_OPEN)),
    (("", 4, true), UNDO_CUT, (BEFORE, "")),
];

#[test]
fn commits_are_cut(rt: HostRuntime) {
    for turn in COMMITS {
        expect_row(&rt, (BEFORE, ""), READY, &[*turn]);
    }
    for turn in FIRST_COMMITS {
        expect_row(&rt, (BEFORE, FIRST_DONE), READY, &[*turn]);
    }
}

#[test]
fn undos_are_cut(rt: HostRuntime) {
    for turn in UNDOS {
        expect_row(&rt, (AFTER, DONE), READY, &[*turn]);
    }
    for turn in FIRST_UNDOS {
        expect_row(&rt, (AFTER, FIRST_DONE), READY, &[*turn]);
    }
}
