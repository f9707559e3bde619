//! Commits and undos after a journal was read, which the store still has or no longer has.

ghost use Rattle.std.specs.Prelude.{◌≡◌, ◌-◌, ◌^◌, ◌<◌};

use super::calls::*;
use proto_base::NoMemory;
use proto_journal::*;
use std::alloc::Global;
use std::process::Abort;

/// The journal that is read; the store as the call comes; what is renamed, or none for an undo; the
/// answer, and how the store is then left.
type Row = (&'static str, Left, &'static str, Answer, Left);

const NOT_DONE: Said = (3, "OpenEntry", 0);

const NOTHING: Said = (2, "NothingToUndo", 0);

const BAD: Said = (1, "BadJournal", 0);

const ROWS: &[Row] = &[
    // The same journal still.
    ("", (BEFORE, ""), "A.b_c", MADE, (AFTER, DONE)),
    (
        FIRST_DONE,
        (BEFORE, FIRST_DONE),
        "A.b_c",
        MADE,
        (AFTER, FIRST_THEN_DONE),
    ),
    (DONE, (AFTER, DONE), "", TAKEN_BACK, (BEFORE, "")),
    (
        FIRST_DONE,
        (AFTER, FIRST_DONE),
        "",
        TAKEN_BACK,
        (BEFORE, ""),
    ),
    ("", (BEFORE, ""), "", (NOTHING, BEFORE), (BEFORE, "")),
    // Another one, which counts.
    (DONE, (BEFORE, ""), "A.b_c", MADE, (AFTER, DONE)),
    (
        "",
        (BEFORE, FIRST_DONE),
        "A.b_c",
        MADE,
        (AFTER, FIRST_THEN_DONE),
    ),
    ("", (AFTER, DONE), "", TAKEN_BACK, (BEFORE, "")),
    (DONE, (AFTER, ""), "", (NOTHING, AFTER), (AFTER, "")),
    // As long as the one that was read.
    (
        DONE,
        (BEFORE, OPEN),
        "A.b_c",
        (NOT_DONE, BEFORE),
        (BEFORE, OPEN),
    ),
    (DONE, (AFTER, OPEN), "", (NOT_DONE, AFTER), (AFTER, OPEN)),
    ("", (BEFORE, "x"), "A.b_c", (BAD, BEFORE), (BEFORE, "x")),
    (DONE, (AFTER, "x"), "", (BAD, AFTER), (AFTER, "x")),
];

// Commits a rename of this name, or undoes the last entry where there is none.
fn commit_or_undo_after(
    alloc: Global,
    store: &mut MemoryStore,
    known: ReadyJournal,
    workspace: &mut Workspace,
    name: &str,
) -> Result<Said, NoMemory>
    requires room { store.old.failures < 2 ^ 64 - 1 }
    requires loaded { workspace.old ≡ store.old.held.files }
{
    if name.is_empty() {
        return Ok(said_of(undo_last_after(alloc, store, known, workspace)));
    }
    let name = String::from_str(alloc, name)?;
    let to = String::from_str(alloc, "d_e")?;
    let edit = Edit::Rename { name, to };
    Ok(said_of(commit_after(alloc, store, known, workspace, edit)))
}

fn expect_after<R: AllocGlobal + Abort>(rt: &R, (read, there, name, answer, left): Row) {
    let mut before = store_of(rt.alloc(), (BEFORE, read)).expect(rt, "memory");
    assert!(rt; before.failures() < u64::MAX);
    let known = ready_journal(rt.alloc(), &mut before).expect(rt, "a journal");
    let mut store = store_of(rt.alloc(), there).expect(rt, "memory");
    assert!(rt; store.failures() < u64::MAX);
    let mut workspace = load(rt.alloc(), &mut store).expect(rt, "files");
    assert!(rt; store.failures() < u64::MAX);
    let said = commit_or_undo_after(rt.alloc(), &mut store, known, &mut workspace, name);
    let text = text_of(&workspace);
    workspace.release();
    let said = said.expect(rt, "memory");
    let is_left = is_left(rt, &mut store, left).expect(rt, "files");
    assert!(rt;
        said == answer.0 && text == answer.1 && is_left,
        "{name}, {}, {}: {is_left}",
        said.1,
        said.0
    );
}

#[test]
fn known_journals_answer_as_unknown_ones(rt: HostRuntime) {
    for row in ROWS {
        expect_after(&rt, *row);
    }
}
