//! What holds of commits, undos and torn stores, for
//! whoever builds on them. None of these does anything.

ghost use Rattle.proto_journal.specs.Laws.{CommitsAreOne, CutCommitsComeBack, CutUndosComeBack, TornUndoIsTorn, UndosAreOne};
ghost use Rattle.proto_journal_records.specs.RecoveryLaws.{TornBetweenIsTorn};

use proto_edit::laws::answers_are_one as edits_are_one;
use proto_journal_records::laws::{journals_are_read_in_one_way, journals_grow_and_shrink};
use proto_journal_records::recovery_laws::{recoveries_are_one, torn_stores_come_back};

/// Where no call of a store fails and memory is there, the store and the workspace decide what a
/// commit or an undo answers, and what it leaves.
pub fn answers_are_one()
    ensures commits { CommitsAreOne }
    ensures undos { UndosAreOne }
{
    journals_are_read_in_one_way();
    edits_are_one();
}

/// Where a commit or an undo leaves a store torn, each
/// file of the entry is as before or as after it.
pub fn torn_stores()
    ensures made { TornBetweenIsTorn }
    ensures undone { TornUndoIsTorn }
{}

/// A commit or an undo that was cut off, and then recovered, is made wholly or not at all.
pub fn cut_calls_come_back()
    ensures commits { CutCommitsComeBack }
    ensures undos { CutUndosComeBack }
{
    recoveries_are_one();
    torn_stores_come_back();
    journals_grow_and_shrink();
}
