//! The tokens that stand for a name, file by file, which a rename of it changes. Places are counted in the texts.

use super::calls::{open_as_written, texts};
use proto_base::NoMemory;
use proto_edit::{Files, Workspace};
use proto_edit_rename::{FileOccurrences, occurrences};
use protoref_test_cases::open;
use std::alloc::Global;
use std::fmt::Write;
use std::process::Abort;

/// Files that are written as one text, `|` between them: the path of each, a space, and its text; a name; and the tokens
/// that stand for it, each as `path:offset word`, joined by commas.
type Row = (&'static str, &'static str, &'static str);

const ROWS: &[Row] = &[
    // In each file that uses it: by its own word, behind a package, and behind a dot.
    (
        "a.proto syntax = \"proto3\"; package p; message M { message N {} M m = 1; }|b.proto syntax = \"proto3\"; package p; import \"a.proto\"; message U { M a = 1; p.M.N b = 2; .p.M c = 3; N n = 4; } message N {}|c.proto syntax = \"proto3\"; message M { M m = 1; }",
        "p.M",
        "a.proto:38 M,a.proto:55 M,b.proto:60 M,b.proto:71 M,b.proto:85 M",
    ),
    // Of a name below, the last word alone.
    (
        "a.proto syntax = \"proto3\"; package p; message M { message N {} N n = 1; M.N o = 2; }|b.proto syntax = \"proto3\"; import \"a.proto\"; message N { N n = 1; map<int32, p.M.N> m = 2; }",
        "p.M.N",
        "a.proto:50 N,a.proto:55 N,a.proto:66 N,b.proto:73 N",
    ),
    // A value and the defaults that mean it.
    (
        "a.proto package p; enum E { A = 0; B = 1; }|b.proto import \"a.proto\"; message M { optional p.E e = 1 [default = B]; optional p.E f = 2 [default = A]; optional string B = 3 [default = \"B\"]; } enum B { C = 0; }",
        "p.B",
        "a.proto:27 B,b.proto:60 B",
    ),
    // An enum, and what refers to it.
    (
        "a.proto package p; enum E { A = 0; }|b.proto import \"a.proto\"; message M { optional p.E e = 1 [default = A]; repeated .p.E f = 2; }",
        "p.E",
        "a.proto:16 E,b.proto:41 E,b.proto:76 E",
    ),
    // A field, a field of a oneof, and a map field, each where it is declared.
    (
        "a.proto syntax = \"proto3\"; message M { string f = 1; oneof o { string g = 2; } map<string, M> m = 3; }",
        "M.f",
        "a.proto:38 f",
    ),
    (
        "a.proto syntax = \"proto3\"; message M { string f = 1; oneof o { string g = 2; } map<string, M> m = 3; }",
        "M.g",
        "a.proto:62 g",
    ),
    (
        "a.proto syntax = \"proto3\"; message M { string f = 1; oneof o { string g = 2; } map<string, M> m = 3; }",
        "M.m",
        "a.proto:86 m",
    ),
    // A service and a method.
    (
        "a.proto syntax = \"proto3\"; message M {} service S { rpc R (M) returns (stream M); }",
        "S",
        "a.proto:40 S",
    ),
    (
        "a.proto syntax = \"proto3\"; message M {} service S { rpc R (M) returns (stream M); }",
        "S.R",
        "a.proto:48 R",
    ),
    // A message as a method's type and as what is extended.
    (
        "a.proto message M { extensions 100 to 199; } service S { rpc R (M) returns (stream .M); } extend M { optional M x = 100; }",
        "M",
        "a.proto:8 M,a.proto:56 M,a.proto:76 M,a.proto:89 M,a.proto:102 M",
    ),
    // An extension.
    (
        "a.proto package p; message M { extensions 100 to 199; } extend M { optional M x = 100; }",
        "p.x",
        "a.proto:70 x",
    ),
];

/// Files as written, with extensions that options name.
const OPTIONS: &str =
    "a.proto syntax = \"proto3\"; package p; import \"d.proto\"; message M { extend google.protobuf.FieldOptions { N x = 1000; } N n = 1 [(x).x = { }]; message N { N x = 1 [(p.M.x) = { x { } }]; } }|b.proto import \"a.proto\"; import \"d.proto\"; extend google.protobuf.OneofOptions { optional p.M.N x = 1000; } message M { oneof o { option (x) = { }; int32 y = 1; } optional int32 z = 2 [(.p.M.x) = { }]; }|d.proto package google.protobuf; message FieldOptions { extensions 1000 to 1001; } message OneofOptions { extensions 1000; }";

/// Names of `OPTIONS`, and the tokens that stand for them: in names of options, and not in their paths and values.
const OF_OPTIONS: &[(&str, &str)] = &[
    (
        "p.M.x",
        "a.proto:100 x,a.proto:122 x,a.proto:161 x,b.proto:184 x",
    ),
    ("x", "b.proto:89 x,b.proto:131 x"),
    (
        "p.M",
        "a.proto:56 M,a.proto:159 M,b.proto:85 M,b.proto:182 M",
    ),
    ("p.M.N.x", "a.proto:149 x"),
];

const OTHERS: &str =
    "a.proto syntax = \"proto3\"; package p.q; message M { string f = 1; oneof o { string g = 2; } map<string, M> m = 3; }";

/// Names of `OTHERS` that may not be renamed, or that nothing has.
const NONE: &[&str] = &[
    "p",
    "p.q",
    "p.q.M.o",
    "p.q.M.MEntry",
    "p.q.M.MEntry.key",
    "p.q.X",
    "M",
    ".p.q.M",
    "p.q.M.",
    "",
];

// One token, as `path:offset word`.
fn tell_token(out: &mut String, files: &Files, file: u32, token: u32) -> Result<(), NoMemory> {
    if file as usize >= files.len() {
        out.push_str("no file")?;
        return Ok(());
    }
    let path = files.path(file);
    let text = files.source(file).as_bytes();
    match files.tokens(file).get(token as usize) {
        Some(token) => {
            let start = token.span.start as usize;
            let end = token.span.end as usize;
            let word = text
                .get(start..end)
                .and_then(|word| str::from_utf8(word).ok());
            write!(out, "{path}:{start} {}", word.unwrap_or("no word"))?;
        }
        None => out.push_str("no token")?,
    }
    Ok(())
}

fn tell_file(out: &mut String, files: &Files, found: &FileOccurrences) -> Result<(), NoMemory> {
    for token in &found.tokens {
        if !out.is_empty() {
            out.push(',')?;
        }
        tell_token(out, files, found.file, *token)?;
    }
    Ok(())
}

// The tokens that stand for the name; `none` where nothing is answered.
fn told(alloc: Global, workspace: &Workspace, name: &str) -> Result<String, NoMemory> {
    let files = workspace.files();
    let mut out = String::new(alloc);
    match occurrences(alloc, files, workspace.link(), name)? {
        Some(found) => {
            for of_file in &found {
                tell_file(&mut out, files, of_file)?;
            }
        }
        None => out.push_str("none")?,
    }
    Ok(out)
}

// So it is told of the name.
fn expect_told<R: AllocGlobal + Abort>(rt: &R, written: &'static str, name: &str, wanted: &str) {
    let files = texts(rt.alloc(), written).expect(rt, "memory");
    let workspace = open(rt.alloc(), files.as_slice()).expect(rt, "a workspace");
    let found = told(rt.alloc(), &workspace, name).expect(rt, "memory");
    workspace.release();
    assert!(rt; found.as_str() == wanted, "{name}: {found}, not {wanted}");
}

#[test]
fn are_those_that_stand_for_the_name(rt: HostRuntime) {
    for (files, name, wanted) in ROWS {
        expect_told(&rt, files, name, wanted);
    }
}

#[test]
fn are_in_names_of_options(rt: HostRuntime) {
    let workspace = open_as_written(rt.alloc(), OPTIONS).expect(&rt, "a workspace");
    for (name, wanted) in OF_OPTIONS {
        let found = told(rt.alloc(), &workspace, *name).expect(&rt, "memory");
        assert!(rt; found.as_str() == *wanted, "{name}: {found}, not {wanted}");
    }
    workspace.release();
}

#[test]
fn are_none_of_what_has_no_name_that_may_change(rt: HostRuntime) {
    for name in NONE {
        expect_told(&rt, OTHERS, name, "none");
    }
}
