//! Files that are copied, and files of which one gets another text.

use crate::expect::source_of;
use crate::files::{Given, given_files, put_file, read};
use proto_base::SchemaFault;
use proto_files::{Files, Paths};
use proto_text::lex_as;
use proto_tree::parse_as;
use std::alloc::Global;
use std::process::Abort;

// Whether the file at a place is the same in both.
fn is_same_file(files: &Files, copy: &Files, place: u32) -> bool {
    if place as usize >= files.len() || place as usize >= copy.len() {
        return false;
    }
    files.path(place) == copy.path(place)
        && files.source(place).as_bytes() == copy.source(place).as_bytes()
        && files.tokens(place) == copy.tokens(place)
}

fn are_same(files: &Files, copy: &Files) -> bool {
    for place in 0..files.len() as u32 {
        if !is_same_file(files, copy, place) {
            return false;
        }
    }
    files.len() == copy.len()
}

// Whether the copy is the same; where memory is refused once, that of the next call.
fn is_copied<R: AllocGlobal + Abort>(rt: &R, files: &Files) -> bool {
    let copy = match files.copy(rt.alloc()) {
        Ok(copy) => copy,
        Err(_) => files.copy(rt.alloc()).expect(rt, "memory"),
    };
    let is_so = are_same(files, &copy);
    copy.release();
    is_so
}

// So many files, each with a message.
fn many<R: AllocGlobal + Abort>(rt: &R, count: u32) -> Given {
    let mut files = Vec::new(rt.alloc());
    for number in 0..count {
        let path = format!(in rt.alloc(); "f{number}.proto").expect(rt, "memory");
        put_file(rt, &mut files, path.as_str(), b"message M {}", 1);
    }
    files
}

const TEXTS: &[&str] = &[
    "",
    "a.proto:",
    "b.proto:syntax = \"proto3\"; message A { string b_c = 1; }|a.proto:message M {}|c/d.proto: ",
];

#[test]
fn copies_are_the_same(rt: HostRuntime) {
    for texts in TEXTS {
        let files = read(&rt, None, given_files(&rt, texts)).expect(&rt, "files");
        let is_so = is_copied(&rt, &files);
        files.release();
        assert!(rt; is_so, "{texts}");
    }
}

#[test]
fn many_are_copied(rt: HostRuntime) {
    let files = read(&rt, None, many(&rt, 4096)).expect(&rt, "files");
    let is_so = files.len() == 4096 && is_copied(&rt, &files);
    files.release();
    assert!(rt; is_so);
}

// Whether of two files the one at place 1 has the text, and so many tokens.
fn has_text(files: &Files, text: &str, count: usize) -> bool {
    files.len() == 2
        && files.source(1).as_bytes() == text.as_bytes()
        && files.tokens(1).len() == count
}

// Whether of two files the one at place 1 gets a text in place of another.
fn is_set<R: AllocGlobal + Abort>(rt: &R, files: &mut Files, old: &str, new: &str) -> bool {
    if files.len() != 2 {
        return false;
    }
    let source = source_of(rt, new);
    let profile = files.profile(1);
    let tokens = lex_as(rt.alloc(), &source, profile).expect(rt, "tokens");
    let tree = parse_as(rt.alloc(), &source, &tokens, profile).expect(rt, "a tree");
    let count = tokens.len();
    let (source, _tokens, tree) = files.set(1, source, tokens, tree);
    tree.release();
    source.as_bytes() == old.as_bytes() && has_text(files, new, count)
}

const OLD: &str = "message N {}";

const NEW: &str = "message N { optional M m = 1; }";

#[test]
fn one_gets_another_text(rt: HostRuntime) {
    let texts = "a.proto:message M {}|b.proto:message N {}";
    let mut files = read(&rt, None, given_files(&rt, texts)).expect(&rt, "files");
    let before = files.copy(rt.alloc()).expect(&rt, "memory");
    let is_other = is_set(&rt, &mut files, OLD, NEW)
        && is_same_file(&files, &before, 0)
        && !is_same_file(&files, &before, 1);
    let is_back = is_set(&rt, &mut files, NEW, OLD) && are_same(&files, &before);
    files.release();
    before.release();
    assert!(rt; is_other && is_back);
}

// Two files, unless memory is refused.
fn two_files(alloc: Global) -> Result<Files, SchemaFault> {
    let mut given = Vec::new(alloc);
    for (path, text) in [
        ("b.proto", "message M {}"),
        ("a.proto", "import 'b.proto';"),
    ] {
        let path = String::from_str(alloc, path)?;
        given.push((path, Vec::from_slice(alloc, text.as_bytes())?))?;
    }
    Files::read(alloc, Paths::new(alloc, given)?)
}

// Fails only where no memory is there for the files.
fn expect_copy<R: AllocGlobal + Abort>(rt: &R) -> Result<(), SchemaFault> {
    let files = two_files(rt.alloc())?;
    let is_so = is_copied(rt, &files);
    files.release();
    assert!(rt; is_so);
    Ok(())
}

/// In a run that refuses one allocation this test still passes, whichever it is.
#[test]
fn one_is_refused(rt: HostRuntime) {
    assert!(rt; expect_copy(&rt).is_ok() || expect_copy(&rt).is_ok());
}
