//! Roots that name no folder.

use crate::calls::{WIDE, expect_end};
use protoref_commands::{Command, FolderStore, RuleSet, RunFault};
use std::process::Abort;
use std::rt::{Clock, Files};

// The command ends with the failure of the store, which the program makes status 2 of, and prints nothing.
fn expect_nowhere<R: Files + Clock + AllocGlobal + Abort>(rt: &R, command: Command) {
    let mut store = FolderStore::new(rt, "");
    let end = (Err(RunFault::Store), "", 0);
    expect_end(rt, &mut store, command, WIDE, end, 1);
}

#[test]
fn fails_where_the_root_is_the_empty_word(rt: HostRuntime) {
    expect_nowhere(&rt, Command::Compile);
    expect_nowhere(&rt, Command::Lint(RuleSet::all()));
    expect_nowhere(&rt, Command::Undo);
    expect_nowhere(&rt, Command::Log);
    expect_nowhere(&rt, Command::Recover);
    expect_nowhere(&rt, Command::Migrate);
}
