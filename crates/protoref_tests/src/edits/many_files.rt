//! Edits over two hundred files: a message that all of them use has another name and its old one again, an import of the
//! lowest file is needed, and fifty edits in a list.

use proto_edit::{Edit, Entry, Refusal, Steps, Workspace};
use protoref_test_cases::{are_texts, open};
use std::process::Abort;

/// The numbers of the files that use the message of the first; their paths have them.
const FIRST: u32 = 100;

const END: u32 = 299;

/// How many of them have their field renamed.
const RENAMED: u32 = 50;

/// Paths and texts.
type Files = Vec<(String, String)>;

fn add_user<R: AllocGlobal + Abort>(
    rt: &R,
    files: &mut Files,
    number: u32,
    message: &str,
    field: &str,
) {
    let path = format!(in rt.alloc(); "u{number}.proto").expect(rt, "memory");
    let text = format!(in rt.alloc();
        "syntax = \"proto3\"; package u{number}; import \"lowest.proto\"; message U {{ p.{message} {field} = 1; }}"
    ).expect(rt, "memory");
    files.push((path, text)).expect(rt, "memory");
}

// The files, with this name of the message. So many of the others have a field with the new name.
fn files<R: AllocGlobal + Abort>(rt: &R, message: &str, renamed: u32) -> Files {
    let mut files = Vec::new(rt.alloc());
    let path = String::from_str(rt.alloc(), "lowest.proto").expect(rt, "memory");
    let text = format!(in rt.alloc();
        "syntax = \"proto3\"; package p; message {message} {{ string text = 1; }}"
    ).expect(rt, "memory");
    files.push((path, text)).expect(rt, "memory");
    for number in FIRST..END {
        let field = if number - FIRST < renamed {
            "new_name"
        } else {
            "used"
        };
        add_user(rt, &mut files, number, message, field);
    }
    files
}

fn borrowed<'a, R: AllocGlobal + Abort>(rt: &R, files: &'a Files) -> Vec<(&'a str, &'a str)> {
    let mut texts = Vec::new(rt.alloc());
    for (path, text) in files {
        texts
            .push((path.as_str(), text.as_str()))
            .expect(rt, "memory");
    }
    texts
}

// The workspace has the files with this name of the message, and so many new names of fields.
fn expect_files<R: AllocGlobal + Abort>(
    rt: &R,
    workspace: &Workspace,
    message: &str,
    renamed: u32,
) {
    let files = files(rt, message, renamed);
    let texts = borrowed(rt, &files);
    assert!(rt;
        are_texts(workspace, texts.as_slice()),
        "{message}, {renamed}"
    );
}

fn open_files<R: AllocGlobal + Abort>(rt: &R) -> Workspace {
    let files = files(rt, "Used", 0);
    let texts = borrowed(rt, &files);
    open(rt.alloc(), texts.as_slice()).expect(rt, "a workspace")
}

fn text<R: AllocGlobal + Abort>(rt: &R, text: &str) -> String {
    String::from_str(rt.alloc(), text).expect(rt, "memory")
}

// The message has another name in all files.
fn rename_message<R: AllocGlobal + Abort>(rt: &R, workspace: &mut Workspace) -> Entry {
    let mut steps = Steps::new();
    let edit = Edit::Rename {
        name: text(rt, "p.Used"),
        to: text(rt, "Message"),
    };
    let entry = workspace
        .apply_counted(rt.alloc(), edit, &mut steps)
        .expect(rt, "an entry");
    assert!(rt; steps.count() == 200 && entry.changes().len() == 200);
    entry
}

#[test]
fn have_a_message_of_another_name(rt: HostRuntime) {
    let mut workspace = open_files(&rt);
    let entry = rename_message(&rt, &mut workspace);
    expect_files(&rt, &workspace, "Message", 0);
    workspace
        .undo(rt.alloc(), &entry)
        .expect(&rt, "the way back");
    expect_files(&rt, &workspace, "Used", 0);
    workspace.release();
}

#[test]
fn need_the_lowest_file(rt: HostRuntime) {
    let mut workspace = open_files(&rt);
    let edit = Edit::DropImport {
        file: text(&rt, "u200.proto"),
        path: text(&rt, "lowest.proto"),
    };
    let answer = workspace.apply(rt.alloc(), edit);
    let is_needed = match &answer {
        Err(Refusal::Needed { path, offset }) => path.as_str() == "u200.proto" && *offset == 68,
        _ => false,
    };
    assert!(rt; is_needed, "another answer");
    expect_files(&rt, &workspace, "Used", 0);
    workspace.release();
}

// The renames of the first fields.
fn edits<R: AllocGlobal + Abort>(rt: &R) -> Vec<Edit> {
    let mut edits = Vec::new(rt.alloc());
    for number in FIRST..FIRST + RENAMED {
        let name = format!(in rt.alloc(); "u{number}.U.used").expect(rt, "memory");
        let to = text(rt, "new_name");
        edits.push(Edit::Rename { name, to }).expect(rt, "memory");
    }
    edits
}

fn entries<R: AllocGlobal + Abort>(rt: &R, answers: Vec<Result<Entry, Refusal>>) -> Vec<Entry> {
    let mut entries = Vec::new(rt.alloc());
    for answer in answers {
        entries
            .push(answer.expect(rt, "an entry"))
            .expect(rt, "memory");
    }
    entries
}

#[test]
fn have_fifty_edits_in_a_list(rt: HostRuntime) {
    let workspace = open_files(&rt);
    let edits = edits(&rt);
    let (edited, answers) = workspace
        .apply_all(rt.alloc(), edits.as_slice())
        .expect(&rt, "memory");
    expect_files(&rt, &workspace, "Used", 0);
    workspace.release();
    expect_files(&rt, &edited, "Used", RENAMED);
    let entries = entries(&rt, answers);
    assert!(rt; entries.len() == 50);
    let back = edited
        .undo_all(rt.alloc(), entries.as_slice())
        .expect(&rt, "the way back");
    edited.release();
    expect_files(&rt, &back, "Used", 0);
    back.release();
}
