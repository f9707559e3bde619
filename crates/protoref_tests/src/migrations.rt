//! The move of a journal of the first version to the second, where it fails. Others are rows of `protoref_rows`.

use crate::stores::{FIRST_LINE, NEW, NULL_LINE};
use crate::turns::Turn::{Cut, Done, HalfTold, Holds};
use crate::turns::expect_turns;

const MIGRATED: &str = "migrated\n";

const STAYS: &str = "nothing to migrate\n";

/// A call that fails, whether its bytes land, and the journal then.
const CUTS: &[(u64, bool, &str)] = &[
    (1, false, FIRST_LINE),
    (1, true, FIRST_LINE),
    (2, false, FIRST_LINE),
    (2, true, NULL_LINE),
];

#[test]
fn are_of_one_version_wherever_the_move_is_cut(rt: HostRuntime) {
    for &(call, lands, then) in CUTS {
        let told = if then == NULL_LINE { STAYS } else { MIGRATED };
        let turns = [
            Cut("migrate", call, lands),
            Holds(NEW, then),
            Done("migrate", told),
            Holds(NEW, NULL_LINE),
        ];
        expect_turns(&rt, NEW, FIRST_LINE, &turns);
    }
}

#[test]
fn stay_moved_where_the_output_fails(rt: HostRuntime) {
    for room in 0..MIGRATED.len() {
        let turns = [HalfTold("migrate", MIGRATED, room), Holds(NEW, NULL_LINE)];
        expect_turns(&rt, NEW, FIRST_LINE, &turns);
    }
}
