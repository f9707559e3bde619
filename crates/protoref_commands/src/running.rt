//! Running a command over a store.

ghost use Rattle.std.specs.Prelude.{◌-◌, ◌^◌, ◌<◌};
ghost use Rattle.protoref_output.specs.Ends.{CountsStore};
ghost use Rattle.protoref_commands.specs.Commands.{Answers, Ran};

use crate::answer::{descriptors_answer, findings_answer};
use crate::changing::{edit_answer, undo_answer};
use crate::command::Command;
use crate::kept::Retained;
use crate::logging::log_answer;
use crate::migrating::migrate_answer;
use crate::opening::{faulty, open_checked, open_printed};
use crate::recovering::recover_answer;
use proto_desc::PrintedSchema;
use proto_files::are_read;
use proto_journal::LoadFault;
use proto_lint::RuleSet;
use proto_store::Store;
use protoref_output::{Answer, RunFault, Status, write_answer};
use std::alloc::Global;
use std::io::Write;

/// Runs a command over a store, and writes what it prints. It ends with `Store` at the first call
/// of the store that fails, with `NoMemory` where memory runs out, and with `Output` where a write
/// fails or takes no byte. An edit, an undo, a recovery and a move of the journal are made before
/// anything is written of them: after `Output` they stand. After `Store` the store is as before, or
/// it is as an edit, an undo, a recovery or a move that was cut leaves it; after `NoMemory` it is
/// as before.
pub fn run<S: Store, W: Write>(
    alloc: Global,
    command: Command,
    store: &mut S,
    writer: &mut W,
) -> Result<Status, RunFault>
    requires { S.failure_count store.old < 2 ^ 64 - 1 }
    ensures ran { Ran command (S.holds store.old)
        (S.holds store.new) (W.contents writer.old) (W.contents writer.new) result }
    ensures count { CountsStore (S.failure_count store.old) (S.failure_count store.new) result }
{
    let mut kept = Retained::new();
    let ended = run_keeping(alloc, command, store, writer, &mut kept);
    kept.release();
    ended
}

/// Runs a command as `run` does, and leaves in `kept` what it still holds then, so that a program that
/// ends need not free it piece by piece.
pub fn run_keeping<S: Store, W: Write>(
    alloc: Global,
    command: Command,
    store: &mut S,
    writer: &mut W,
    kept: &mut Retained,
) -> Result<Status, RunFault>
    requires { S.failure_count store.old < 2 ^ 64 - 1 }
    ensures ran { Ran command (S.holds store.old)
        (S.holds store.new) (W.contents writer.old) (W.contents writer.new) result }
    ensures count { CountsStore (S.failure_count store.old) (S.failure_count store.new) result }
{
    let answer = answer_of(alloc, command, store, kept)?;
    let status = write_answer(writer, &answer)?;
    Ok(status)
}

fn answer_of<S: Store>(
    alloc: Global,
    command: Command,
    store: &mut S,
    kept: &mut Retained,
) -> Result<Answer, RunFault>
    requires { S.failure_count store.old < 2 ^ 64 - 1 }
    ensures outcome { Answers command (S.holds store.old) (S.holds store.new) result }
    ensures count { CountsStore (S.failure_count store.old) (S.failure_count store.new) result }
{
    match command {
        Command::Compile => compile_answer(alloc, store, kept),
        Command::Lint(rules) => lint_answer(alloc, rules, store, kept),
        Command::Edit(edit) => edit_answer(alloc, edit, store),
        Command::Undo => undo_answer(alloc, store),
        Command::Log => log_answer(alloc, store),
        Command::Recover => recover_answer(alloc, store),
        Command::Migrate => migrate_answer(alloc, store),
    }
}

fn compile_answer<S: Store>(
    alloc: Global,
    store: &mut S,
    kept: &mut Retained,
) -> Result<Answer, RunFault>
    requires { S.failure_count store.old < 2 ^ 64 - 1 }
    ensures outcome { Answers Command.Compile (S.holds store.old) (S.holds store.new) result }
    ensures count { CountsStore (S.failure_count store.old) (S.failure_count store.new) result }
{
    match open_printed(alloc, store) {
        Ok(PrintedSchema { files, text }) => {
            are_read(&files);
            kept.keep(files);
            descriptors_answer(text)
        }
        Err(LoadFault::Schema(fault)) => faulty(alloc, store, &fault),
        Err(LoadFault::Store) => Err(RunFault::Store),
        Err(LoadFault::NoMemory) => Err(RunFault::NoMemory),
    }
}

// No descriptor is made for what lint finds.
fn lint_answer<S: Store>(
    alloc: Global,
    rules: RuleSet,
    store: &mut S,
    kept: &mut Retained,
) -> Result<Answer, RunFault>
    requires { S.failure_count store.old < 2 ^ 64 - 1 }
    ensures outcome { Answers (Command.Lint rules) (S.holds store.old) (S.holds store.new) result }
    ensures count { CountsStore (S.failure_count store.old) (S.failure_count store.new) result }
{
    match open_checked(alloc, store) {
        Ok(schema) => {
            let answer = findings_answer(alloc, &schema, &rules);
            kept.keep_checked(schema);
            answer
        }
        Err(LoadFault::Schema(fault)) => faulty(alloc, store, &fault),
        Err(LoadFault::Store) => Err(RunFault::Store),
        Err(LoadFault::NoMemory) => Err(RunFault::NoMemory),
    }
}
