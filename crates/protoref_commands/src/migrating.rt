//! The move of a journal to the second version.

ghost use Rattle.std.specs.Prelude.{◌-◌, ◌^◌, ◌<◌};
ghost use Rattle.protoref_output.specs.Ends.{CountsStore};
ghost use Rattle.protoref_commands.specs.Migrations.{AnswersMigration};

use crate::recovering::plain_answer;
use proto_journal::{Store, migrate};
use protoref_output::{Answer, RunFault};
use std::alloc::Global;

/// Moves a journal of the first version to the second. It tells whether it did, or that nothing was
/// to migrate, since the journal is empty or of the second version; or why it can't: the journal is
/// none, its last entry is open, or its text would be too long. The files are not asked for. It
/// ends with `Store` at the first call of the store that fails, which leaves the journal in one of
/// both texts, and with `NoMemory` where memory runs out, which leaves the store as before.
pub fn migrate_answer<S: Store>(alloc: Global, store: &mut S) -> Result<Answer, RunFault>
    requires { S.failure_count store.old < 2 ^ 64 - 1 }
    ensures outcome { AnswersMigration (S.holds store.old) (S.holds store.new) result }
    ensures count { CountsStore (S.failure_count store.old) (S.failure_count store.new) result }
{
    match migrate(alloc, store) {
        Ok(migrated) => Ok(Answer::Migration(migrated)),
        Err(fault) => plain_answer(alloc, &fault),
    }
}
