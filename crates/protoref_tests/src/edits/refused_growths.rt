//! The link of a workspace where memory is refused while an edit or its undo is made: it is as it was, and the same call again is
//! answered as if it had not come. In a run that refuses one allocation this test still passes, whichever it is. Tokens are counted
//! in the texts.

use super::calls::{step, texts};
use super::link_texts::text_of_link;
use proto_base::{NoMemory, SchemaFault};
use proto_edit::{Entry, Refusal, Workspace};
use protoref_test_cases::{edit_of, open};
use std::process::Abort;

const FILES: &str =
    "a.proto message M {}|b.proto import \"a.proto\"; message A { optional M m = 1; }";

const BEFORE: &str = "a.proto: M 0:1,1:7;b.proto: A 1:4 A.m 1:8 7=M;";

const AFTER: &str = "a.proto: N 0:1,1:7;b.proto: A 1:4 A.m 1:8 7=N;";

fn expect_link<R: AllocGlobal + Abort>(
    rt: &R,
    workspace: &Workspace,
    wanted: &str,
) -> Result<(), NoMemory> {
    let found = text_of_link(rt.alloc(), workspace)?;
    let found = found.as_str();
    assert!(rt; found == wanted, "{found}, not {wanted}");
    Ok(())
}

fn rename<R: AllocGlobal + Abort>(rt: &R, workspace: &mut Workspace) -> Result<Entry, Refusal> {
    let edit = edit_of(rt.alloc(), step("rename M N"))?;
    workspace.apply(rt.alloc(), edit)
}

// Made once more in the link as it was, where memory refused it.
fn apply<R: AllocGlobal + Abort>(rt: &R, workspace: &mut Workspace) -> Result<Entry, Refusal> {
    match rename(rt, workspace) {
        Err(Refusal::NoMemory) => {
            expect_link(rt, workspace, BEFORE)?;
            rename(rt, workspace)
        }
        answer => answer,
    }
}

// The same of its undo.
fn undo<R: AllocGlobal + Abort>(
    rt: &R,
    workspace: &mut Workspace,
    entry: &Entry,
) -> Result<(), Refusal> {
    match workspace.undo(rt.alloc(), entry) {
        Err(Refusal::NoMemory) => {
            expect_link(rt, workspace, AFTER)?;
            workspace.undo(rt.alloc(), entry)
        }
        answer => answer,
    }
}

fn go_there_and_back<R: AllocGlobal + Abort>(
    rt: &R,
    workspace: &mut Workspace,
) -> Result<(), Refusal> {
    expect_link(rt, workspace, BEFORE)?;
    let entry = apply(rt, workspace)?;
    expect_link(rt, workspace, AFTER)?;
    undo(rt, workspace, &entry)?;
    Ok(expect_link(rt, workspace, BEFORE)?)
}

// This alone owns the workspace. Tells whether memory was there.
fn has_memory<R: AllocGlobal + Abort>(rt: &R) -> Result<bool, SchemaFault> {
    let files = texts(rt.alloc(), FILES)?;
    let mut workspace = open(rt.alloc(), files.as_slice())?;
    let answer = go_there_and_back(rt, &mut workspace);
    workspace.release();
    let name = match &answer {
        Ok(()) => return Ok(true),
        Err(Refusal::NoMemory) => return Ok(false),
        Err(refusal) => refusal.name(),
    };
    assert!(rt; false, "{name}");
    Ok(false)
}

// Where memory is refused for what is compared, once more.
#[test]
fn one_is_refused(rt: HostRuntime) {
    assert!(rt; matches!(has_memory(&rt), Ok(true)) || matches!(has_memory(&rt), Ok(true)));
}
