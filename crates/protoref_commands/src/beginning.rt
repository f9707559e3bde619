//! What comes before a change: the journal is asked, and then the files are loaded.

ghost use Rattle.std.specs.Prelude.{◌≡◌, ◌-◌, ◌^◌, ◌<◌, IfOk, IsErrOf};
ghost use Rattle.proto_journal_records.specs.ReadJournals.{IsReady};
ghost use Rattle.proto_journal_records.specs.Known.{Over};
ghost use Rattle.protoref_output.specs.Ends.{CountsStore};
ghost use Rattle.protoref_commands.specs.Changes.{Begins};

use crate::telling::journal_answer;
use proto_journal::{LoadFault, ReadyJournal, Store, Workspace, load, ready_journal};
use protoref_output::{Answer, RunFault, fault_answer};
use std::alloc::Global;

// The workspace over which a change may begin and the journal as it was read, or the answer that
// tells why none may.
#[derive(Drop)]
pub(crate) enum Beginning {
    Over(Workspace, ReadyJournal),
    Never(Answer),
}

pub(crate) fn begin<S: Store>(alloc: Global, store: &mut S) -> Result<Beginning, RunFault>
    requires { S.failure_count store.old < 2 ^ 64 - 1 }
    ensures begins { IfOk result (Begins (S.holds store.old)) }
    ensures unwritten { IsErrOf result RunFault.Output → ⊥ }
    ensures same { S.holds store.new ≡ S.holds store.old }
    ensures count { CountsStore (S.failure_count store.old) (S.failure_count store.new) result }
{
    match ready_journal(alloc, store) {
        Ok(journal) => load_beginning(alloc, store, journal),
        Err(fault) => {
            let answer = journal_answer(alloc, &fault)?;
            Ok(Beginning::Never(answer))
        }
    }
}

// The same of a store whose journal lets a change begin.
fn load_beginning<S: Store>(
    alloc: Global,
    store: &mut S,
    journal: ReadyJournal,
) -> Result<Beginning, RunFault>
    requires room { S.failure_count store.old < 2 ^ 64 - 1 }
    requires ready { Over (S.holds store.old) IsReady }
    ensures begins { IfOk result (Begins (S.holds store.old)) }
    ensures unwritten { IsErrOf result RunFault.Output → ⊥ }
    ensures same { S.holds store.new ≡ S.holds store.old }
    ensures count { CountsStore (S.failure_count store.old) (S.failure_count store.new) result }
{
    match load(alloc, store) {
        Ok(workspace) => Ok(Beginning::Over(workspace, journal)),
        Err(LoadFault::Schema(fault)) => {
            journal.release();
            let answer = fault_answer(alloc, store, &fault)?;
            Ok(Beginning::Never(answer))
        }
        Err(LoadFault::Store) => {
            journal.release();
            Err(RunFault::Store)
        }
        Err(LoadFault::NoMemory) => {
            journal.release();
            Err(RunFault::NoMemory)
        }
    }
}
