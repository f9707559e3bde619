//! How many files an edit, its undo and a refusal parse. Places are counted in the texts.

use super::calls::{Flat, step, texts};
use super::rows::{FIELD, VALUE, WIDE};
use proto_edit::{Entry, Refusal, Steps, Workspace, to_json};
use protoref_test_cases::{are_texts, edit_of, is_said, open};
use std::process::Abort;

// The files are these, and the descriptors those of a workspace that is opened from them.
fn expect_opened<R: AllocGlobal + Abort>(rt: &R, workspace: &Workspace, written: &'static str) {
    let files = texts(rt.alloc(), written).expect(rt, "memory");
    assert!(rt; are_texts(workspace, files.as_slice()));
    let opened = open(rt.alloc(), files.as_slice()).expect(rt, "a workspace");
    let wanted = to_json(rt.alloc(), opened.descriptors()).expect(rt, "memory");
    opened.release();
    let found = to_json(rt.alloc(), workspace.descriptors()).expect(rt, "memory");
    assert!(rt; found == wanted);
}

// What the edit is answered, and how many files it has parsed.
fn apply<R: AllocGlobal + Abort>(
    rt: &R,
    workspace: &mut Workspace,
    asked: &'static str,
) -> (Result<Entry, Refusal>, u64) {
    let edit = edit_of(rt.alloc(), step(asked)).expect(rt, "memory");
    let mut steps = Steps::new();
    let answer = workspace.apply_counted(rt.alloc(), edit, &mut steps);
    (answer, steps.count())
}

fn undo<R: AllocGlobal + Abort>(
    rt: &R,
    workspace: &mut Workspace,
    entry: &Entry,
) -> (Result<(), Refusal>, u64) {
    let mut steps = Steps::new();
    let answer = workspace.undo_counted(rt.alloc(), entry, &mut steps);
    (answer, steps.count())
}

// The edit parses so many files, and its undo as many.
fn expect_counted<R: AllocGlobal + Abort>(rt: &R, row: &'static Flat, count: u64) {
    let [given, asked, left, _] = *row;
    let files = texts(rt.alloc(), given).expect(rt, "memory");
    let mut workspace = open(rt.alloc(), files.as_slice()).expect(rt, "a workspace");
    let (answer, parsed) = apply(rt, &mut workspace, asked);
    let entry = answer.expect(rt, "an entry");
    assert!(rt; parsed == count);
    expect_opened(rt, &workspace, left);
    let (answer, parsed) = undo(rt, &mut workspace, &entry);
    answer.expect(rt, "the way back");
    assert!(rt; parsed == count);
    expect_opened(rt, &workspace, given);
    workspace.release();
}

#[test]
fn are_of_changed_files(rt: HostRuntime) {
    // A message that two other files use, a field, and a value that is a default.
    expect_counted(&rt, &WIDE, 3);
    expect_counted(&rt, &FIELD, 1);
    expect_counted(&rt, &VALUE, 1);
}

/// Edits that are refused, with their number and name.
const REFUSED: &[(&str, u32, &str)] = &[
    ("rename M M", 5, "SameName"),
    ("rename X N", 1, "UnknownTarget"),
    ("rename M message", 4, "KeywordName"),
    ("drop b.proto a.proto", 15, "Needed"),
];

// A refused edit has parsed at most 4,096 files, and nothing is changed.
#[test]
fn are_bounded_where_an_edit_is_refused(rt: HostRuntime) {
    let [given, _, _, _] = WIDE;
    let files = texts(rt.alloc(), given).expect(&rt, "memory");
    let mut workspace = open(rt.alloc(), files.as_slice()).expect(&rt, "a workspace");
    for (asked, number, name) in REFUSED {
        let (answer, parsed) = apply(&rt, &mut workspace, asked);
        assert!(rt; is_said(answer, (*number, *name)) && parsed <= 4096);
    }
    expect_opened(&rt, &workspace, given);
    workspace.release();
}

// So has a stale undo.
#[test]
fn are_bounded_where_an_undo_is_stale(rt: HostRuntime) {
    let [given, asked, _, _] = WIDE;
    let files = texts(rt.alloc(), given).expect(&rt, "memory");
    let mut workspace = open(rt.alloc(), files.as_slice()).expect(&rt, "a workspace");
    let entry = apply(&rt, &mut workspace, asked).0.expect(&rt, "an entry");
    undo(&rt, &mut workspace, &entry)
        .0
        .expect(&rt, "the way back");
    let (answer, parsed) = undo(&rt, &mut workspace, &entry);
    assert!(rt; is_said(answer, (17, "Stale")) && parsed <= 4096);
    expect_opened(&rt, &workspace, given);
    workspace.release();
}

// A copy is edited, and the first one stays.
#[test]
fn leave_a_copied_workspace(rt: HostRuntime) {
    let [given, asked, left, _] = WIDE;
    let files = texts(rt.alloc(), given).expect(&rt, "memory");
    let workspace = open(rt.alloc(), files.as_slice()).expect(&rt, "a workspace");
    let mut copy = workspace.copy(rt.alloc()).expect(&rt, "memory");
    let (answer, parsed) = apply(&rt, &mut copy, asked);
    assert!(rt; is_said(answer, (0, "done")) && parsed == 3);
    expect_opened(&rt, &copy, left);
    expect_opened(&rt, &workspace, given);
    copy.release();
    workspace.release();
}
