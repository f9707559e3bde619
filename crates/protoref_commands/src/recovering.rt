//! Recovery.

ghost use Rattle.std.specs.Prelude.{◌-◌, ◌^◌, ◌<◌, Err};
ghost use Rattle.protoref_output.specs.Ends.{CountsStore};
ghost use Rattle.protoref_output.specs.RecoveryLines.{plain_refused_line};
ghost use Rattle.protoref_commands.specs.Recoveries.{AnswersRecovery};
ghost use Rattle.protoref_commands.specs.Told.{CountsAlike, IsFaultTold};

use crate::telling::journal_answer;
use proto_journal::{JournalFault, Store, recover};
use protoref_output::{Answer, RunFault, Status, plain_refusal_line};
use std::alloc::Global;

/// Brings a torn store back to before its last entry, which is open. It tells whether it did, or
/// that nothing was to recover, since no entry is open; or why it can't: the journal is none, or a
/// file of the entry is neither as before nor as after it. The files are not asked for faults. It
/// ends with `Store` at the first call of the store that fails, which leaves the store as before,
/// torn or recovered, and with `NoMemory` where memory runs out, which leaves the store as before.
pub fn recover_answer<S: Store>(alloc: Global, store: &mut S) -> Result<Answer, RunFault>
    requires { S.failure_count store.old < 2 ^ 64 - 1 }
    ensures outcome { AnswersRecovery (S.holds store.old) (S.holds store.new) result }
    ensures count { CountsStore (S.failure_count store.old) (S.failure_count store.new) result }
{
    match recover(alloc, store) {
        Ok(recovered) => Ok(Answer::Recovery(recovered)),
        Err(fault) => plain_answer(alloc, &fault),
    }
}

// The answer that tells of a fault, of which a refusal has no place.
pub(crate) fn plain_answer(alloc: Global, fault: &JournalFault) -> Result<Answer, RunFault>
    ensures told { IsFaultTold plain_refused_line fault.now result }
    ensures count { CountsAlike (Err fault.now) result }
{
    match fault {
        JournalFault::Refused(refusal) => {
            let text = plain_refusal_line(alloc, refusal)?;
            Ok(Answer::Text(text, Status::Problem))
        }
        _ => journal_answer(alloc, fault),
    }
}
