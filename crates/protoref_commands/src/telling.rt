//! What is told of the outcome of a change.

ghost use Rattle.std.specs.Prelude.{[], Err, IsErrOf};
ghost use Rattle.protoref_commands.specs.Told.{CountsAlike, IsNoRefusal, TellsOutcome};

use proto_files::Files;
use proto_journal::{Entry, JournalFault};
use protoref_output::{Answer, RunFault, Status, journal_line, refusal_line};
use std::alloc::Global;

// The answer that tells of an outcome over these files. Of an entry it takes no memory.
pub(crate) fn outcome_answer(
    alloc: Global,
    files: &Files,
    outcome: Result<Entry, JournalFault>,
) -> Result<Answer, RunFault>
    ensures told { TellsOutcome files.now outcome result }
    ensures count { CountsAlike outcome result }
{
    match outcome {
        Ok(entry) => Ok(Answer::Changed(entry)),
        Err(fault) => fault_answer(alloc, files, &fault),
    }
}

fn fault_answer(alloc: Global, files: &Files, fault: &JournalFault) -> Result<Answer, RunFault>
    ensures told { TellsOutcome files.now (Err fault.now) result }
    ensures count { CountsAlike (Err fault.now) result }
{
    match fault {
        JournalFault::Refused(refusal) => {
            let text = refusal_line(alloc, refusal, files)?;
            Ok(Answer::Text(text, Status::Problem))
        }
        _ => journal_answer(alloc, fault),
    }
}

// The answer that tells of a fault of the journal alone.
pub(crate) fn journal_answer(alloc: Global, fault: &JournalFault) -> Result<Answer, RunFault>
    ensures told { IsNoRefusal fault.now → TellsOutcome [] (Err fault.now) result }
    ensures unwritten { IsErrOf result RunFault.Output → ⊥ }
    ensures count { CountsAlike (Err fault.now) result }
{
    match fault {
        JournalFault::Store => Err(RunFault::Store),
        JournalFault::NoMemory => Err(RunFault::NoMemory),
        _ => {
            let text = journal_line(alloc, fault)?;
            Ok(Answer::Text(text, Status::Problem))
        }
    }
}
