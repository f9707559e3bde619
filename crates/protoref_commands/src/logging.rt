//! The log.

ghost use Rattle.std.specs.Prelude.{◌-◌, ◌^◌, ◌<◌};
ghost use Rattle.protoref_output.specs.Ends.{CountsStore};
ghost use Rattle.protoref_commands.specs.Logs.{AnswersLog, TellsLog};

use crate::telling::journal_answer;
use proto_journal::{Store, read_records};
use protoref_output::{Answer, RunFault, Status, lines_of_records};
use std::alloc::Global;

/// Tells of the entries of a store's journal, or that it is none. It ends with `Store` where the
/// call of the store fails, and with `NoMemory` where memory runs out. The store is as before.
pub fn log_answer<S: Store>(alloc: Global, store: &mut S) -> Result<Answer, RunFault>
    requires { S.failure_count store.old < 2 ^ 64 - 1 }
    ensures outcome { AnswersLog (S.holds store.old) (S.holds store.new) result }
    ensures count { CountsStore (S.failure_count store.old) (S.failure_count store.new) result }
{
    let journal = store.read_journal()?;
    log_of(alloc, journal.as_slice())
}

fn log_of(alloc: Global, journal: &[u8]) -> Result<Answer, RunFault>
    ensures { TellsLog journal.now result }
{
    match read_records(alloc, journal) {
        Ok(records) => {
            let text = lines_of_records(alloc, records.as_slice())?;
            Ok(Answer::Text(text, Status::Done))
        }
        Err(fault) => journal_answer(alloc, &fault),
    }
}
