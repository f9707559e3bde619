//! The word at an offset, and the name that stands at a token. Places are counted in the texts.

use super::calls::{open_as_written, texts};
use proto_base::{NoMemory, SchemaFault};
use proto_edit::{Files, Workspace};
use proto_names_at::{name_at, word_at};
use protoref_test_cases::open;
use std::alloc::Global;
use std::fmt::Write;
use std::process::Abort;

/// Files that are written as one text, `|` between them: the path of each, a space, and its text; and each token at which a
/// name stands, as `path:offset word=name`, joined by commas. At no other token one does.
type Row = (&'static str, &'static str);

const ROWS: &[Row] = &[
    // Declarations: of a map field, whose entry stands at its token, it is the field. A package, a oneof, a scalar type, a
    // keyword and a dot have none.
    (
        "a.proto syntax = \"proto3\"; package p; message M { message N {} string f = 1; oneof o { M g = 2; } map<string, N> m = 3; }",
        "a.proto:38 M=p.M,a.proto:50 N=p.M.N,a.proto:62 f=p.M.f,a.proto:79 M=p.M,a.proto:81 g=p.M.g,a.proto:102 N=p.M.N,a.proto:105 m=p.M.m",
    ),
    // The words of references: the last for what is meant, each before it for the name before, and a package for none.
    (
        "a.proto syntax = \"proto3\"; package p.q; message M { message N {} }|b.proto syntax = \"proto3\"; package p; import \"a.proto\"; message U { q.M.N a = 1; .p.q.M.N b = 2; p.q.M c = 3; }",
        "a.proto:40 M=p.q.M,a.proto:52 N=p.q.M.N,b.proto:56 U=p.U,b.proto:62 M=p.q.M,b.proto:64 N=p.q.M.N,b.proto:66 a=p.U.a,b.proto:78 M=p.q.M,b.proto:80 N=p.q.M.N,b.proto:82 b=p.U.b,b.proto:93 M=p.q.M,b.proto:95 c=p.U.c",
    ),
    // Defaults that mean a value, of a field and of an extension, and those that are a text or a truth.
    (
        "a.proto package p; enum E { A = 0; B = 1; } enum F { C = 0; }|b.proto import \"a.proto\"; message M { optional p.E e = 1 [default = B]; optional string B = 2 [default = \"B\"]; optional bool t = 3 [default = true]; extensions 100 to 199; } extend M { optional p.E x = 100 [default = A]; }",
        "a.proto:16 E=p.E,a.proto:20 A=p.A,a.proto:27 B=p.B,a.proto:41 F=p.F,a.proto:45 C=p.C,b.proto:26 M=M,b.proto:41 E=p.E,b.proto:43 e=M.e,b.proto:60 B=p.B,b.proto:80 B=M.B,b.proto:117 t=M.t,b.proto:173 M=M,b.proto:188 E=p.E,b.proto:190 x=x,b.proto:209 A=p.A",
    ),
    // A service, its method, and what the method takes and gives.
    (
        "a.proto syntax = \"proto3\"; message M {} service S { rpc R (M) returns (stream .M); }",
        "a.proto:27 M=M,a.proto:40 S=S,a.proto:48 R=S.R,a.proto:51 M=M,a.proto:71 M=M",
    ),
];

/// The same of files as written: in the name of a custom option an extension and what stands in front of it, and in its path
/// and its value nothing.
const WRITTEN: Row = (
    "a.proto syntax = \"proto3\"; package p; import \"d.proto\"; message M { extend google.protobuf.FieldOptions { M x = 1000; } M m = 1 [(x).m = { m: { } }]; M n = 2 [(M.x) = { n { } }]; oneof o { M k = 3 [json_name = \"k\", (.p.M.x).m.n = { k { } }]; } }|d.proto package google.protobuf; message FieldOptions { extensions 1000; }",
    "a.proto:56 M=p.M,a.proto:83 FieldOptions=google.protobuf.FieldOptions,a.proto:98 M=p.M,a.proto:100 x=p.M.x,a.proto:112 M=p.M,a.proto:114 m=p.M.m,a.proto:122 x=p.M.x,a.proto:142 M=p.M,a.proto:144 n=p.M.n,a.proto:152 M=p.M,a.proto:154 x=p.M.x,a.proto:181 M=p.M,a.proto:183 k=p.M.k,a.proto:211 M=p.M,a.proto:213 x=p.M.x,d.proto:33 FieldOptions=google.protobuf.FieldOptions",
);

/// A text of one file, and an offset in it with the word there; `none` where no word is.
const TEXT: &str = "a.proto syntax = \"proto3\";package a.b; // c\nmessage  M{} ";

const OFFSETS: &[(usize, &str)] = &[
    (0, "syntax"),
    (5, "syntax"),
    // Right behind a word, where none begins.
    (6, "syntax"),
    // Punctuation and a string are no words.
    (7, "none"),
    (8, "none"),
    (9, "none"),
    (17, "none"),
    // Where punctuation ends and a word begins.
    (18, "package"),
    (25, "package"),
    // Right before punctuation, and right behind it.
    (26, "a"),
    (27, "a"),
    (28, "b"),
    (29, "b"),
    // In white space and in a comment.
    (30, "none"),
    (31, "none"),
    (34, "none"),
    (36, "message"),
    (43, "message"),
    (44, "none"),
    (45, "M"),
    (46, "M"),
    (47, "none"),
    (48, "none"),
    // At the end of the text, and past it.
    (49, "none"),
    (50, "none"),
    (4294967296, "none"),
];

/// More than the tokens of a file in these rows.
const MOST: u32 = 120;

// The word of a token of a file.
fn word<'a>(files: &'a Files, file: u32, token: u32) -> (usize, &'a str) {
    if file as usize >= files.len() {
        return (0, "no file");
    }
    let text = files.source(file).as_bytes();
    match files.tokens(file).get(token as usize) {
        Some(token) => {
            let start = token.span.start as usize;
            let word = text
                .get(start..token.span.end as usize)
                .and_then(|word| str::from_utf8(word).ok());
            (start, word.unwrap_or("no word"))
        }
        None => (0, "no token"),
    }
}

fn name_there(
    alloc: Global,
    workspace: &Workspace,
    file: u32,
    token: u32,
) -> Result<Option<String>, NoMemory> {
    let files = workspace.files();
    name_at(alloc, files, workspace.link(), file, token)
}

// The name at a token, if there is one.
fn tell_name(
    alloc: Global,
    out: &mut String,
    workspace: &Workspace,
    file: u32,
    token: u32,
) -> Result<(), NoMemory> {
    let Some(name) = name_there(alloc, workspace, file, token)? else {
        return Ok(());
    };
    if !out.is_empty() {
        out.push(',')?;
    }
    let files = workspace.files();
    let path = if (file as usize) < files.len() {
        files.path(file)
    } else {
        "no file"
    };
    let (start, word) = word(files, file, token);
    write!(out, "{path}:{start} {word}={name}")?;
    Ok(())
}

// Those of all tokens of three files, and of some that are not there.
fn told(alloc: Global, workspace: &Workspace) -> Result<String, NoMemory> {
    let mut out = String::new(alloc);
    for file in 0..3 {
        tell_file(alloc, &mut out, workspace, file)?;
    }
    Ok(out)
}

fn tell_file(
    alloc: Global,
    out: &mut String,
    workspace: &Workspace,
    file: u32,
) -> Result<(), NoMemory> {
    for token in 0..MOST {
        tell_name(alloc, out, workspace, file, token)?;
    }
    Ok(())
}

fn told_of(alloc: Global, written: &'static str) -> Result<String, SchemaFault> {
    let files = texts(alloc, written)?;
    let workspace = open(alloc, files.as_slice())?;
    let found = told(alloc, &workspace);
    workspace.release();
    Ok(found?)
}

fn told_as_written(alloc: Global, written: &'static str) -> Result<String, SchemaFault> {
    let workspace = open_as_written(alloc, written)?;
    let found = told(alloc, &workspace);
    workspace.release();
    Ok(found?)
}

// The same once more, where memory was refused. In a run that refuses one allocation the rows still hold, whichever it is.
fn told_in_the_end(alloc: Global, written: &'static str) -> Result<String, SchemaFault> {
    match told_of(alloc, written) {
        Err(SchemaFault::NoMemory) => told_of(alloc, written),
        answer => answer,
    }
}

fn expect_told<R: AllocGlobal + Abort>(rt: &R, row: &Row) {
    let (written, wanted) = *row;
    let found = told_in_the_end(rt.alloc(), written).expect(rt, "a workspace");
    assert!(rt; found.as_str() == wanted, "{found}, not {wanted}");
}

fn text_at<'a>(files: &'a Files, file: u32, offset: usize) -> &'a str {
    match word_at(files, file, offset) {
        Some(token) => word(files, file, token).1,
        None => "none",
    }
}

#[test]
fn is_the_name_that_stands_there(rt: HostRuntime) {
    for row in ROWS {
        expect_told(&rt, row);
    }
}

#[test]
fn is_an_extension_in_the_name_of_an_option(rt: HostRuntime) {
    let (written, wanted) = WRITTEN;
    let found = match told_as_written(rt.alloc(), written) {
        Err(SchemaFault::NoMemory) => told_as_written(rt.alloc(), written),
        answer => answer,
    };
    let found = found.expect(&rt, "a workspace");
    assert!(rt; found.as_str() == wanted, "{found}, not {wanted}");
}

#[test]
fn is_the_word_at_the_offset(rt: HostRuntime) {
    let files = texts(rt.alloc(), TEXT).expect(&rt, "memory");
    let workspace = open(rt.alloc(), files.as_slice()).expect(&rt, "a workspace");
    for (offset, wanted) in OFFSETS {
        let found = text_at(workspace.files(), 0, *offset);
        assert!(rt; found == *wanted, "{offset}: {found}, not {wanted}");
    }
    assert!(rt; text_at(workspace.files(), 1, 0) == "none");
    workspace.release();
}
