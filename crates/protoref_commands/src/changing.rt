//! Edits and undo.

ghost use Rattle.std.specs.Prelude.{◌-◌, ◌^◌, ◌<◌};
ghost use Rattle.proto_journal.specs.Answers.{asked};
ghost use Rattle.proto_journal.specs.Commits.{CommitOutcome};
ghost use Rattle.proto_journal.specs.Undoing.{UndoOutcome};
ghost use Rattle.protoref_output.specs.Ends.{CountsStore};
ghost use Rattle.proto_store.specs.Stores.{HoldsFiles};
ghost use Rattle.protoref_commands.specs.Changes.{AnswersEdit, AnswersUndo};
ghost use Rattle.protoref_commands.specs.Told.{TellsOf};

use crate::beginning::{Beginning, begin};
use crate::telling::outcome_answer;
use proto_journal::{Edit, ReadyJournal, Store, Workspace, commit_after, undo_last_after};
use protoref_output::{Answer, RunFault};
use std::alloc::Global;

/// Makes an edit in a store. A journal that is none or whose last entry is open is told of first,
/// then the least fault of the files, and then what the commit answers: the changed files, why the
/// edit is refused, or that the journal is full. It ends with `Store` at the first call of the
/// store that fails, which leaves the store as before or as a commit that was cut, and with
/// `NoMemory` where memory runs out, which leaves the store as before.
pub fn edit_answer<S: Store>(alloc: Global, edit: Edit, store: &mut S) -> Result<Answer, RunFault>
    requires { S.failure_count store.old < 2 ^ 64 - 1 }
    ensures outcome { AnswersEdit (asked edit) (S.holds store.old) (S.holds store.new) result }
    ensures count { CountsStore (S.failure_count store.old) (S.failure_count store.new) result }
{
    let beginning = begin(alloc, store)?;
    match beginning {
        Beginning::Over(workspace, journal) => {
            answer_of_commit(alloc, edit, store, workspace, journal)
        }
        Beginning::Never(answer) => Ok(answer),
    }
}

// The answer of an edit of the store's files.
fn answer_of_commit<S: Store>(
    alloc: Global,
    edit: Edit,
    store: &mut S,
    mut workspace: Workspace,
    journal: ReadyJournal,
) -> Result<Answer, RunFault>
    requires room { S.failure_count store.old < 2 ^ 64 - 1 }
    requires loaded { HoldsFiles (S.holds store.old) workspace }
    ensures told { TellsOf (CommitOutcome (asked edit)) workspace
        (S.holds store.old) (S.holds store.new) result }
    ensures count { CountsStore (S.failure_count store.old) (S.failure_count store.new) result }
{
    let outcome = commit_after(alloc, store, journal, &mut workspace, edit);
    let answer = outcome_answer(alloc, workspace.files(), outcome);
    workspace.release();
    answer
}

/// Undoes the last entry of a store's journal. A journal that is none or whose last entry is open
/// is told of first, then the least fault of the files, and then what the undo answers: the changed
/// files, that there is nothing to undo, or that the entry is stale. It ends with `Store` at the
/// first call of the store that fails, which leaves the store as before or as an undo that was cut,
/// and with `NoMemory` where memory runs out, which leaves the store as before.
pub fn undo_answer<S: Store>(alloc: Global, store: &mut S) -> Result<Answer, RunFault>
    requires { S.failure_count store.old < 2 ^ 64 - 1 }
    ensures outcome { AnswersUndo (S.holds store.old) (S.holds store.new) result }
    ensures count { CountsStore (S.failure_count store.old) (S.failure_count store.new) result }
{
    let beginning = begin(alloc, store)?;
    match beginning {
        Beginning::Over(workspace, journal) => answer_of_undo(alloc, store, workspace, journal),
        Beginning::Never(answer) => Ok(answer),
    }
}

// The answer of an undo over the store's files.
fn answer_of_undo<S: Store>(
    alloc: Global,
    store: &mut S,
    mut workspace: Workspace,
    journal: ReadyJournal,
) -> Result<Answer, RunFault>
    requires room { S.failure_count store.old < 2 ^ 64 - 1 }
    requires loaded { HoldsFiles (S.holds store.old) workspace }
    ensures told { TellsOf UndoOutcome workspace (S.holds store.old) (S.holds store.new) result }
    ensures count { CountsStore (S.failure_count store.old) (S.failure_count store.new) result }
{
    let outcome = undo_last_after(alloc, store, journal, &mut workspace);
    let answer = outcome_answer(alloc, workspace.files(), outcome);
    workspace.release();
    answer
}
