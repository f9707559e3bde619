//! Damaged and open journals, and files that do not fit the last entry.

use super::calls::*;

/// A journal, and what `ready` answers, a commit of an edit that is not admissible, and an undo.
type Answered = (&'static str, Said, Said, Said);

const BAD: Said = (1, "BadJournal", 0);

const NOT_DONE: Said = (3, "OpenEntry", 0);

const REFUSED: Said = (0, "UnknownTarget", 1);

// A line of the first version and one of the second.
const MIXED: &str =
    "{\"files\":[{\"after\":48,\"before\":48,\"path\":\"a.proto\",\"splices\":[{\"at\":38,\"new\":\"d_e\",\"old\":\"b_c\"}]}],\"state\":\"done\",\"version\":1}\n{\"edit\":{\"kind\":\"rename\",\"name\":\"A.b_c\",\"to\":\"d_e\"},\"files\":[{\"after\":48,\"before\":48,\"path\":\"a.proto\",\"splices\":[{\"at\":38,\"new\":\"d_e\",\"old\":\"b_c\"}]}],\"state\":\"done\",\"version\":2}\n";

// The other way round.
const MIXED_AGAIN: &str =
    "{\"edit\":null,\"files\":[{\"after\":48,\"before\":48,\"path\":\"a.proto\",\"splices\":[{\"at\":38,\"new\":\"d_e\",\"old\":\"b_c\"}]}],\"state\":\"done\",\"version\":2}\n{\"files\":[{\"after\":48,\"before\":48,\"path\":\"a.proto\",\"splices\":[{\"at\":38,\"new\":\"d_e\",\"old\":\"b_c\"}]}],\"state\":\"done\",\"version\":1}\n";

const JOURNALS: &[Answered] = &[
    ("", READY, REFUSED, (2, "NothingToUndo", 0)),
    ("x", BAD, BAD, BAD),
    ("\n", BAD, BAD, BAD),
    (OPEN, NOT_DONE, NOT_DONE, NOT_DONE),
    (DONE, READY, REFUSED, (0, "Stale", 17)),
    (FIRST_OPEN, NOT_DONE, NOT_DONE, NOT_DONE),
    (FIRST_DONE, READY, REFUSED, (0, "Stale", 17)),
    (MIXED, BAD, BAD, BAD),
    (MIXED_AGAIN, BAD, BAD, BAD),
];

#[test]
fn journals_are_asked_first(rt: HostRuntime) {
    for (journal, ready, on_commit, on_undo) in JOURNALS {
        let left = (BEFORE, *journal);
        let turns = [
            (("A.q", NEVER, false), (*on_commit, BEFORE), left),
            (UNDO, (*on_undo, BEFORE), left),
        ];
        expect_row(&rt, left, *ready, &turns);
    }
}
