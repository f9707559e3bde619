//! The limit of a file. `tools/acceptance/largest_inputs` has that of a journal.

use crate::stores::{CHANGED, OLD, RENAME, joined_text};
use crate::turns::Turn::{Done, Holds, Problem};
use crate::turns::expect_turns;

// The file, with spaces behind it up to 1,048,576 bytes, may get a name of the same length, and no longer one.
#[test]
fn keeps_the_limit_of_a_file(rt: HostRuntime) {
    let spaces = " ".repeat(rt.alloc(), 1_048_528).expect(&rt, "memory");
    let files = joined_text(&rt, OLD, spaces.as_str());
    assert!(rt; files.len() == "a.proto ".len() + 1_048_576);
    let turns = [
        Problem("rename A.b_c d_ef", "refused: 16 TooLarge\n"),
        Holds(files.as_str(), ""),
        Done(RENAME, CHANGED),
    ];
    expect_turns(&rt, files.as_str(), "", &turns);
}
