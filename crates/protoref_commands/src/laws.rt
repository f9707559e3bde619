//! What holds of runs, for whoever builds on them. It does nothing.

ghost use Rattle.protoref_commands.specs.Laws.{RunsAreOne};

use proto_journal::laws::answers_are_one;
use proto_journal_records::laws::journals_are_read_in_one_way;
use proto_journal_records::recovery_laws::{migrations_are_one, recoveries_are_one};

/// Over a store whose files and journal are known, runs of commands that ask the same, where they
/// end well, write one text, end with one status, and leave one store.
pub fn runs_are_one()
    ensures { RunsAreOne }
{
    answers_are_one();
    journals_are_read_in_one_way();
    recoveries_are_one();
    migrations_are_one();
}
