//! What an edit would change, asked of a workspace that stays as it is, and other texts in place of those of files. Places are
//! counted in the texts.

use super::calls::{step, texts};
use super::link_texts::text_of_link;
use proto_base::{NoMemory, SchemaFault};
use proto_edit::{Entry, Refusal, Workspace};
use protoref_test_cases::{are_texts, edit_of, open};
use std::alloc::Global;
use std::fmt::Write;
use std::process::Abort;

const FILES: &str =
    "a.proto message M {}|b.proto import \"a.proto\"; message A { optional M m = 1; }";

const LINK: &str = "a.proto: M 0:1,1:7;b.proto: A 1:4 A.m 1:8 7=M;";

/// An edit, and its answer: of each file that would change its path, its bytes before and after, and each splice as
/// `offset old>new`; or the number and the name of a refusal.
const ASKED: &[(&str, &str)] = &[
    (
        "rename M Money",
        "a.proto 12 16 8 M>Money;b.proto 49 53 39 M>Money;",
    ),
    ("rename A.m n", "b.proto 49 49 41 m>n;"),
    ("rename M A", "6 Collision"),
    ("rename Q N", "1 UnknownTarget"),
    ("drop b.proto a.proto", "15 Needed"),
];

fn text_of_entry(alloc: Global, entry: &Entry) -> Result<String, NoMemory> {
    let mut text = String::new(alloc);
    for change in entry.changes() {
        write!(text, "{} {} {}", change.path, change.before, change.after)?;
        for splice in change.splices.as_slice() {
            write!(text, " {} {}>{}", splice.at, splice.old, splice.new)?;
        }
        text.push(';')?;
    }
    Ok(text)
}

fn text_of_answer(alloc: Global, answer: Result<Entry, Refusal>) -> Result<String, NoMemory> {
    match answer {
        Ok(entry) => text_of_entry(alloc, &entry),
        Err(refusal) => {
            let mut text = String::new(alloc);
            write!(text, "{} {}", refusal.number(), refusal.name())?;
            Ok(text)
        }
    }
}

fn expect_answer<R: AllocGlobal + Abort>(
    rt: &R,
    workspace: &Workspace,
    (asked, wanted): (&'static str, &str),
) {
    let edit = edit_of(rt.alloc(), step(asked)).expect(rt, "memory");
    let answer = workspace.answer(rt.alloc(), &edit);
    let found = text_of_answer(rt.alloc(), answer).expect(rt, "memory");
    let found = found.as_str();
    assert!(rt; found == wanted, "{asked}: {found}, not {wanted}");
}

// The files of a workspace, and what its link says of them.
fn expect_files<R: AllocGlobal + Abort>(
    rt: &R,
    workspace: &Workspace,
    files: &'static str,
    link: &str,
) {
    let files = texts(rt.alloc(), files).expect(rt, "memory");
    assert!(rt; are_texts(workspace, files.as_slice()));
    let found = text_of_link(rt.alloc(), workspace).expect(rt, "memory");
    let found = found.as_str();
    assert!(rt; found == link, "{found}, not {link}");
}

#[test]
fn say_what_an_edit_would_change(rt: HostRuntime) {
    let files = texts(rt.alloc(), FILES).expect(&rt, "memory");
    let workspace = open(rt.alloc(), files.as_slice()).expect(&rt, "a workspace");
    for row in ASKED {
        expect_answer(&rt, &workspace, *row);
    }
    expect_files(&rt, &workspace, FILES, LINK);
    workspace.release();
}

// ---- other texts

/// The files that are wanted, of which one text or both are others; the path, offset and number of their fault, or nothing; and
/// the link afterwards.
const REPLACED: &[(&str, &str, &str)] = &[
    (
        "a.proto message N {}|b.proto import \"a.proto\"; message B { optional N n = 1; }",
        "",
        "a.proto: N 0:1,1:7;b.proto: B 1:4 B.n 1:8 7=N;",
    ),
    (
        "a.proto message N {}|b.proto import \"a.proto\"; message A { optional M m = 1; }",
        "b.proto 39 14",
        LINK,
    ),
    (
        "a.proto message M {|b.proto import \"a.proto\"; message A { optional M m = 1; }",
        "a.proto 11 8",
        LINK,
    ),
];

fn text_of_fault(alloc: Global, answer: Result<(), SchemaFault>) -> Result<String, NoMemory> {
    let mut text = String::new(alloc);
    match answer {
        Ok(()) => {}
        Err(SchemaFault::Schema(fault)) => {
            write!(text, "{} {} {}", fault.path, fault.offset, fault.number())?;
        }
        Err(SchemaFault::NoMemory) => text.push_str("no memory")?,
    }
    Ok(text)
}

// Gives both files the texts of these.
fn replace<R: AllocGlobal + Abort>(
    rt: &R,
    workspace: &mut Workspace,
    wanted: &'static str,
) -> Result<String, NoMemory> {
    let mut new = Vec::new(rt.alloc());
    for (_path, text) in &texts(rt.alloc(), wanted)? {
        new.push(text.as_bytes().to_vec(rt.alloc())?)?;
    }
    assert!(rt; new.len() == 2);
    assert!(rt; workspace.files().len() == 2);
    let answer = workspace.replace(rt.alloc(), &[0, 1], new);
    text_of_fault(rt.alloc(), answer)
}

fn expect_replaced<R: AllocGlobal + Abort>(
    rt: &R,
    (wanted, fault, link): (&'static str, &str, &str),
) {
    let files = texts(rt.alloc(), FILES).expect(rt, "memory");
    let mut workspace = open(rt.alloc(), files.as_slice()).expect(rt, "a workspace");
    let found = replace(rt, &mut workspace, wanted).expect(rt, "memory");
    let found = found.as_str();
    assert!(rt; found == fault, "{found}, not {fault}");
    let left = if fault.is_empty() { wanted } else { FILES };
    expect_files(rt, &workspace, left, link);
    workspace.release();
}

#[test]
fn other_texts_are_files_or_faults(rt: HostRuntime) {
    for row in REPLACED {
        expect_replaced(&rt, *row);
    }
}
