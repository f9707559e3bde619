//! Each public call once, with what tests say of its answer.

ghost use Rattle.std.specs.Prelude.{◌≡◌, ◌-◌, ◌^◌, ◌<◌};

use proto_base::NoMemory;
use proto_journal::*;
use std::alloc::Global;
use std::process::Abort;

pub(crate) const BEFORE: &str = "syntax = \"proto3\"; message A { string b_c = 1; }";

pub(crate) const AFTER: &str = "syntax = \"proto3\"; message A { string d_e = 1; }";

/// The journal of the rename.
pub(crate) const DONE: &str =
    "{\"edit\":{\"kind\":\"rename\",\"name\":\"A.b_c\",\"to\":\"d_e\"},\"files\":[{\"after\":48,\"before\":48,\"path\":\"a.proto\",\"splices\":[{\"at\":38,\"new\":\"d_e\",\"old\":\"b_c\"}]}],\"state\":\"done\",\"version\":2}\n";

/// The same with the entry open.
pub(crate) const OPEN: &str =
    "{\"edit\":{\"kind\":\"rename\",\"name\":\"A.b_c\",\"to\":\"d_e\"},\"files\":[{\"after\":48,\"before\":48,\"path\":\"a.proto\",\"splices\":[{\"at\":38,\"new\":\"d_e\",\"old\":\"b_c\"}]}],\"state\":\"open\",\"version\":2}\n";

/// The journal of the rename in the first version.
pub(crate) const FIRST_DONE: &str =
    "{\"files\":[{\"after\":48,\"before\":48,\"path\":\"a.proto\",\"splices\":[{\"at\":38,\"new\":\"d_e\",\"old\":\"b_c\"}]}],\"state\":\"done\",\"version\":1}\n";

/// The same with the entry open.
pub(crate) const FIRST_OPEN: &str =
    "{\"files\":[{\"after\":48,\"before\":48,\"path\":\"a.proto\",\"splices\":[{\"at\":38,\"new\":\"d_e\",\"old\":\"b_c\"}]}],\"state\":\"open\",\"version\":1}\n";

/// What becomes of the line of the first version in the second.
pub(crate) const NULL_DONE: &str =
    "{\"edit\":null,\"files\":[{\"after\":48,\"before\":48,\"path\":\"a.proto\",\"splices\":[{\"at\":38,\"new\":\"d_e\",\"old\":\"b_c\"}]}],\"state\":\"done\",\"version\":2}\n";

/// The rename behind an entry of the first version, which is of the second then.
pub(crate) const FIRST_THEN_DONE: &str =
    "{\"edit\":null,\"files\":[{\"after\":48,\"before\":48,\"path\":\"a.proto\",\"splices\":[{\"at\":38,\"new\":\"d_e\",\"old\":\"b_c\"}]}],\"state\":\"done\",\"version\":2}\n{\"edit\":{\"kind\":\"rename\",\"name\":\"A.b_c\",\"to\":\"d_e\"},\"files\":[{\"after\":48,\"before\":48,\"path\":\"a.proto\",\"splices\":[{\"at\":38,\"new\":\"d_e\",\"old\":\"b_c\"}]}],\"state\":\"done\",\"version\":2}\n";

/// The same with the entry open.
pub(crate) const FIRST_THEN_OPEN: &str =
    "{\"edit\":null,\"files\":[{\"after\":48,\"before\":48,\"path\":\"a.proto\",\"splices\":[{\"at\":38,\"new\":\"d_e\",\"old\":\"b_c\"}]}],\"state\":\"done\",\"version\":2}\n{\"edit\":{\"kind\":\"rename\",\"name\":\"A.b_c\",\"to\":\"d_e\"},\"files\":[{\"after\":48,\"before\":48,\"path\":\"a.proto\",\"splices\":[{\"at\":38,\"new\":\"d_e\",\"old\":\"b_c\"}]}],\"state\":\"open\",\"version\":2}\n";

/// A fault's number and name, or 0 and `done`; and the number of a refusal, or 0.
pub(crate) type Said = (u32, &'static str, u32);

/// The name that becomes `d_e`, or none for an undo; and the failure that is to come: the number of the store's call, and
/// whether the new bytes land.
pub(crate) type Call = (&'static str, u64, bool);

/// What a call answers, and which of the two texts the workspace then has.
pub(crate) type Answer = (Said, &'static str);

/// The text and the journal of a store.
pub(crate) type Left = (&'static str, &'static str);

/// A call that is answered so, and how the store is then left.
pub(crate) type Turn = (Call, Answer, Left);

/// The number of a call that does not come.
pub(crate) const NEVER: u64 = u64::MAX;

pub(crate) const RENAME: Call = ("A.b_c", NEVER, false);

pub(crate) const UNDO: Call = ("", NEVER, false);

pub(crate) const READY: Said = (0, "done", 0);

pub(crate) const MADE: Answer = ((0, "done", 0), AFTER);

pub(crate) const TAKEN_BACK: Answer = ((0, "done", 0), BEFORE);

/// A fault as `Said` has it.
pub(crate) fn said_of<T: Drop>(answer: Result<T, JournalFault>) -> Said {
    match answer {
        Ok(_) => (0, "done", 0),
        Err(JournalFault::Refused(refusal)) => (0, refusal.name(), refusal.number()),
        Err(fault) => (fault.number(), fault.name(), 0),
    }
}

/// A store of `a.proto` with this text, and of this journal.
pub(crate) fn store_of(
    alloc: Global,
    (text, journal): (&str, &str),
) -> Result<MemoryStore, NoMemory> {
    let mut files = Vec::new(alloc);
    let path = String::from_str(alloc, "a.proto")?;
    files.push((path, text.as_bytes().to_vec(alloc)?))?;
    MemoryStore::new(alloc, files, journal.as_bytes().to_vec(alloc)?)
}

/// Which of the two texts the workspace has, or none.
pub(crate) fn text_of(workspace: &Workspace) -> &'static str {
    let files = workspace.files();
    if files.len() != 1 {
        return "";
    }
    let bytes = files.source(0).as_bytes();
    if bytes == BEFORE.as_bytes() {
        BEFORE
    } else if bytes == AFTER.as_bytes() {
        AFTER
    } else {
        ""
    }
}

// Commits a rename of this name, or undoes the last entry where there is none.
fn commit_or_undo(
    alloc: Global,
    store: &mut MemoryStore,
    workspace: &mut Workspace,
    name: &str,
) -> Result<Said, NoMemory>
    requires room { store.old.failures < 2 ^ 64 - 1 }
    requires loaded { workspace.old ≡ store.old.held.files }
{
    if name.is_empty() {
        return Ok(said_of(undo_last(alloc, store, workspace)));
    }
    let name = String::from_str(alloc, name)?;
    let to = String::from_str(alloc, "d_e")?;
    let edit = Edit::Rename { name, to };
    Ok(said_of(commit(alloc, store, workspace, edit)))
}

/// Commits a rename, or undoes the last entry, over a workspace that is loaded from the store.
pub(crate) fn answer_of_call<R: AllocGlobal + Abort>(
    rt: &R,
    store: &mut MemoryStore,
    (name, number, lands): Call,
) -> Result<Answer, LoadFault> {
    assert!(rt; store.failures() < u64::MAX && number > 0);
    let mut workspace = load(rt.alloc(), store)?;
    store.fail_at(number, lands);
    let answer = commit_or_undo(rt.alloc(), store, &mut workspace, name);
    let text = text_of(&workspace);
    workspace.release();
    match answer {
        Ok(said) => Ok((said, text)),
        Err(NoMemory) => Err(LoadFault::NoMemory),
    }
}

/// Whether the store has `a.proto` with this text alone, and this journal.
pub(crate) fn is_left<R: AllocGlobal + Abort>(
    rt: &R,
    store: &mut MemoryStore,
    (text, journal): (&str, &str),
) -> Result<bool, ReadingFault> {
    assert!(rt; store.failures() < u64::MAX);
    let held = store.read_journal()?;
    assert!(rt; store.failures() < u64::MAX);
    let files = all_files(rt.alloc(), store)?;
    Ok(match files.as_slice() {
        [(path, bytes)] => {
            path.as_str() == "a.proto"
                && bytes.as_slice() == text.as_bytes()
                && held.as_slice() == journal.as_bytes()
        }
        _ => false,
    })
}

fn expect_turn<R: AllocGlobal + Abort>(
    rt: &R,
    store: &mut MemoryStore,
    (call, answer, left): Turn,
) -> Result<(), LoadFault> {
    let (name, number, lands) = call;
    let is_answer = answer_of_call(rt, store, call)? == answer;
    // A failure that did not come is not to come now.
    store.fail_at(NEVER, false);
    let is_left = is_left(rt, store, left)?;
    assert!(rt;
        is_answer && is_left,
        "{name}, call {number}, {lands}: {is_answer}, {is_left}"
    );
    Ok(())
}

// What `ready` answers, and then the calls, one behind the other.
fn expect_turns<R: AllocGlobal + Abort>(
    rt: &R,
    store: &mut MemoryStore,
    is_ready: Said,
    turns: &[Turn],
) {
    assert!(rt; store.failures() < u64::MAX);
    assert!(rt; said_of(ready(rt.alloc(), store)) == is_ready, "ready");
    for turn in turns {
        expect_turn(rt, store, *turn).expect(rt, "files");
    }
}

/// The same over a store of its own.
pub(crate) fn expect_row<R: AllocGlobal + Abort>(
    rt: &R,
    left: Left,
    is_ready: Said,
    turns: &[Turn],
) {
    let mut store = store_of(rt.alloc(), left).expect(rt, "memory");
    expect_turns(rt, &mut store, is_ready, turns);
}
