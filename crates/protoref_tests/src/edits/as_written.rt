//! Edits of files as written: what each answers, and the workspace after some of them. The answers
//! are those of the model in `tools/oracle/model`.

use super::calls::{open_as_written, step};
use proto_base::{Profile, SchemaFault};
use proto_edit::{Change, Entry, Files, NoMemory, Refusal, Workspace, to_json};
use protoref_test_cases::edit_of;
use std::alloc::Global;
use std::fmt::Write;
use std::process::Abort;

/// Files as texts, an edit of them, and what it answers: a refusal's number, name and place, or
/// each splice as its path, its offset, the old text and the new one, with a `;` behind it.
type Row = [&'static str; 3];

/// A message, and an option in another file.
const FAR: &str =
    "a.proto message M { optional int32 m = 1; }|b.proto package google.protobuf; message FileOptions { extensions 1000; } extend FileOptions { optional int32 x = 1000; } option (x) = 1;";

/// A field with an option that another field may capture.
const BESIDE: &str =
    "a.proto package google.protobuf; message FieldOptions { extensions 1000; } extend FieldOptions { optional int32 x = 1000; } message A { optional int32 f = 1 [(x) = 1]; oneof o { int32 m = 2; int32 n = 3; } }";

/// A message with an option whose extension another file declares.
const USING: &str =
    "a.proto package google.protobuf; message MessageOptions { extensions 1000; } extend MessageOptions { optional int32 x = 1000; }|b.proto import \"a.proto\"; message M { option (google.protobuf.x) = 1; }";

/// An option whose value is filled from types of two files, and a file that the extension's file
/// does not lead to.
const FILLED: &str =
    "a.proto package p; import \"t.proto\"; message A { option (x).t = { a: 1 u { b: 2 e: V } }; optional string f = 1 [(y) = \"f a\"]; }|b.proto package p; import \"x.proto\"; message B { optional int32 b = 1; optional int32 c = 2; }|t.proto import public \"x.proto\"; import \"d.proto\"; package p; extend google.protobuf.FieldOptions { optional string y = 1000; }|x.proto import \"d.proto\"; import weak \"u.proto\"; package p; extend google.protobuf.MessageOptions { optional S x = 1000; } message S { optional T t = 1; } message T { optional int32 a = 1; optional U u = 2; reserved \"r\"; }|u.proto package p; message U { optional int32 b = 1; optional E e = 2; oneof o { int32 c = 3; int32 g = 4; } } enum E { V = 0; W = 1; }|d.proto package google.protobuf; message MessageOptions { extensions 1000 to max; } message FieldOptions { extensions 1000 to max; }";

/// Values with comments, strings and a word of the grammar, and an option with a path.
const WORDS: &str =
    "a.proto package p; import \"d.proto\"; extend google.protobuf.MessageOptions { optional T x = 1000; } message T { optional string a = 1; optional bool ok = 2; } message A { option (x) = { /* b */ a: \"c\" // d\n ok: true }; optional int32 f = 1; } message B { option (x).ok = false; } message C { optional int32 g = 1; }|d.proto package google.protobuf; message MessageOptions { extensions 1000 to max; } message FieldOptions { extensions 1000 to max; }";

/// An options message and a message beside it, without a custom option.
const OPTIONS: &str =
    "a.proto package google.protobuf; message FieldOptions { optional bool deprecated = 3; enum E { V = 0; } } message F { optional int32 a = 1; }";

const ROWS: &[Row] = &[
    // Without a custom option the answers are those of the core language.
    [
        "a.proto option ruby_package = \"M\"; message M { optional string m = 1 [ctype = CORD]; }",
        "rename M N",
        "a.proto 35 M N;",
    ],
    [
        "a.proto syntax = \"proto3\"; import \"b.proto\"; extend google.protobuf.FieldOptions { int32 b_c = 1; int32 d = 2; }|b.proto package google.protobuf; message FieldOptions { extensions 1 to 9; }",
        "rename d bC",
        "a.proto 96 d bC;",
    ],
    [
        "a.proto syntax = \"proto3\"; message M { int32 b_c = 1; int32 d = 2; }",
        "rename M.d bC",
        "9 JsonClash",
    ],
    [
        "a.proto message M { extensions 1; } extend M { optional int32 x = 1; }|b.proto import \"a.proto\"; extend M { optional int32 y = 1; }",
        "rename M N",
        "a.proto 8 M N;a.proto 35 M N;b.proto 25 M N;",
    ],
    // Files with options are edited, and their names are rewritten.
    [FAR, "rename M N", "a.proto 8 M N;"],
    [FAR, "rename M.m y", "a.proto 27 m y;"],
    [
        FAR,
        "delete M.m",
        "a.proto 12 optional int32 m = 1; reserved 1; reserved \"m\";;",
    ],
    [
        FAR,
        "add b.proto a.proto",
        "b.proto 24  \nimport \"a.proto\";;",
    ],
    [FAR, "rename N M", "1 UnknownTarget"],
    [
        FAR,
        "rename google.protobuf.x y",
        "b.proto 102 x y;b.proto 122 x y;",
    ],
    [
        USING,
        "rename google.protobuf.x y",
        "a.proto 108 x y;b.proto 54 x y;",
    ],
    [FILLED, "rename p.x z", "a.proto 49 x z;x.proto 103 x z;"],
    [FILLED, "rename p.T Z", "x.proto 136 T Z;x.proto 155 T Z;"],
    [
        FILLED,
        "drop b.proto x.proto",
        "b.proto 11 import \"x.proto\"; ;",
    ],
    // What would change the meaning of an option's name is refused.
    [
        BESIDE,
        "rename google.protobuf.A.m x",
        "7 Captured a.proto 151",
    ],
    [BESIDE, "rename google.protobuf.A.m y", "a.proto 176 m y;"],
    [USING, "drop b.proto a.proto", "15 Needed b.proto 38"],
    [FILLED, "drop t.proto x.proto", "15 Needed a.proto 49"],
    // A word of a value or a path may be a field or a value of the extension's file, or of one that
    // this leads to, by a weak import too.
    [FILLED, "rename p.S.t z", "19 OptionValue a.proto 52"],
    [FILLED, "rename p.T.a z", "19 OptionValue a.proto 58"],
    [FILLED, "delete p.T.a", "19 OptionValue a.proto 58"],
    [FILLED, "rename p.U.b z", "19 OptionValue a.proto 67"],
    [FILLED, "rename p.V z", "19 OptionValue a.proto 75"],
    [
        FILLED,
        "delete p.U.c",
        "u.proto 73 int32 c = 3; int32 g = 4; }  int32 g = 4; } reserved 3; reserved \"c\";;",
    ],
    [FILLED, "rename p.W z", "u.proto 119 W z;"],
    // It may not be one of the file with the option alone, nor of one that leads to the extension.
    [FILLED, "rename p.A.f a", "a.proto 98 f a;"],
    [FILLED, "rename p.B.c a", "b.proto 78 c a;"],
    [
        FILLED,
        "delete p.B.b",
        "b.proto 41 optional int32 b = 1; reserved 1; reserved \"b\";;",
    ],
    // A new name may be such a word too, but not what stands in comments or strings, nor the
    // extension's name.
    [WORDS, "rename p.A.f true", "19 OptionValue a.proto 203"],
    [WORDS, "rename p.C.g false", "19 OptionValue a.proto 263"],
    [WORDS, "rename p.A.f ok", "19 OptionValue a.proto 199"],
    [WORDS, "delete p.T.ok", "19 OptionValue a.proto 199"],
    [WORDS, "rename p.A.f b", "a.proto 226 f b;"],
    [WORDS, "rename p.A.f c", "a.proto 226 f c;"],
    [WORDS, "rename p.A.f d", "a.proto 226 f d;"],
    [WORDS, "rename p.A.f x", "a.proto 226 f x;"],
    [WORDS, "rename p.A.f option", "a.proto 226 f option;"],
    // What is in an options message, or around it, has its name, and nothing else may have it.
    [
        OPTIONS,
        "rename google.protobuf.FieldOptions F1",
        "20 FixedName",
    ],
    [
        OPTIONS,
        "rename google.protobuf.FieldOptions.deprecated d",
        "20 FixedName",
    ],
    [
        OPTIONS,
        "delete google.protobuf.FieldOptions.deprecated",
        "20 FixedName",
    ],
    [
        OPTIONS,
        "rename google.protobuf.FieldOptions.V W",
        "20 FixedName",
    ],
    [
        OPTIONS,
        "rename google.protobuf.F MethodOptions",
        "20 FixedName",
    ],
    [
        OPTIONS,
        "rename google.protobuf.F Options",
        "a.proto 106 F Options;",
    ],
    [
        OPTIONS,
        "rename google.protobuf.F.a FieldOptions",
        "a.proto 125 a FieldOptions;",
    ],
    [
        OPTIONS,
        "delete google.protobuf.F.a",
        "a.proto 110 optional int32 a = 1; reserved 1; reserved \"a\";;",
    ],
    [FAR, "rename google.protobuf.FileOptions F", "20 FixedName"],
    [
        "a.proto package google; message protobuf { message OneofOptions {} }",
        "rename google.protobuf p",
        "20 FixedName",
    ],
    [
        "a.proto message F { message G {} }",
        "rename F google",
        "20 FixedName",
    ],
    [
        "a.proto message F { message G {} }",
        "rename F Google",
        "a.proto 8 F Google;",
    ],
];

fn tell_refusal(out: &mut String, refusal: &Refusal) -> Result<(), NoMemory> {
    let (number, name) = (refusal.number(), refusal.name());
    write!(out, "{number} {name}")?;
    if let Refusal::Captured { path, offset }
    | Refusal::Needed { path, offset }
    | Refusal::OptionValue { path, offset } = refusal
    {
        write!(out, " {path} {offset}")?;
    }
    Ok(())
}

fn tell_change(out: &mut String, change: &Change) -> Result<(), NoMemory> {
    let path = change.path.as_str();
    for splice in change.splices.as_slice() {
        let (at, old, new) = (splice.at, splice.old.as_str(), splice.new.as_str());
        write!(out, "{path} {at} {old} {new};")?;
    }
    Ok(())
}

fn tell_changes(out: &mut String, changes: &[Change]) -> Result<(), NoMemory> {
    for change in changes {
        tell_change(out, change)?;
    }
    Ok(())
}

fn told(alloc: Global, answer: &Result<Entry, Refusal>) -> Result<String, NoMemory> {
    let mut out = String::new(alloc);
    match answer {
        Ok(entry) => tell_changes(&mut out, entry.changes())?,
        Err(refusal) => tell_refusal(&mut out, refusal)?,
    }
    Ok(out)
}

fn answered(alloc: Global, workspace: &Workspace, asked: &'static str) -> Result<String, NoMemory> {
    let edit = edit_of(alloc, step(asked))?;
    told(alloc, &workspace.answer(alloc, &edit))
}

fn expect_told<R: AllocGlobal + Abort>(
    rt: &R,
    workspace: &Workspace,
    asked: &'static str,
    wanted: &str,
) {
    let found = answered(rt.alloc(), workspace, asked).expect(rt, "memory");
    assert!(rt; found.as_str() == wanted, "{asked}: {found}, not {wanted}");
}

#[test]
fn are_answered(rt: HostRuntime) {
    for [files, asked, wanted] in ROWS {
        let workspace = open_as_written(rt.alloc(), *files).expect(&rt, "a workspace");
        expect_told(&rt, &workspace, *asked, *wanted);
        workspace.release();
    }
}

/// The texts of `USING` after the rename of its extension, and what its descriptors have then.
const RENAMED: &str =
    "a.proto package google.protobuf; message MessageOptions { extensions 1000; } extend MessageOptions { optional int32 yz = 1000; }|b.proto import \"a.proto\"; message M { option (google.protobuf.yz) = 1; }";

const EXTENSION: &str =
    "\"extension\":[{\"extendee\":\".google.protobuf.MessageOptions\",\"label\":\"LABEL_OPTIONAL\",\"name\":\"yz\",\"number\":1000,\"type\":\"TYPE_INT32\"}]";

// The files as one text, each as its path and its text.
fn joined(alloc: Global, files: &Files) -> Result<String, NoMemory> {
    let mut out = String::new(alloc);
    for file in files {
        if !out.is_empty() {
            out.push('|')?;
        }
        let text = str::from_utf8(file.source.as_bytes()).unwrap_or("no text");
        write!(out, "{} {text}", file.path.as_str())?;
    }
    Ok(out)
}

fn expect_texts<R: AllocGlobal + Abort>(rt: &R, workspace: &Workspace, wanted: &str) {
    let found = joined(rt.alloc(), workspace.files()).expect(rt, "memory");
    assert!(rt; found.as_str() == wanted, "{found}, not {wanted}");
}

// The rename of an extension rewrites the names of its options, and its undo leads back.
#[test]
fn rewrite_names_of_options(rt: HostRuntime) {
    let mut workspace = open_as_written(rt.alloc(), USING).expect(&rt, "a workspace");
    let edit = edit_of(rt.alloc(), step("rename google.protobuf.x yz")).expect(&rt, "memory");
    let entry = workspace.apply(rt.alloc(), edit).expect(&rt, "an entry");
    expect_texts(&rt, &workspace, RENAMED);
    let json = to_json(rt.alloc(), workspace.descriptors()).expect(&rt, "memory");
    assert!(rt; json.as_str().contains(EXTENSION), "{json}");
    workspace
        .undo(rt.alloc(), &entry)
        .expect(&rt, "the way back");
    expect_texts(&rt, &workspace, USING);
    workspace.release();
}

/// An option whose value has the name of a field.
const VALUE: &str =
    "a.proto package google.protobuf; message FileOptions { extensions 1000; } extend FileOptions { optional V x = 1000; } message V { optional int32 a = 1; optional int32 b = 2; } option (x) = { a: 1 };";

const SEEN: &[Row] = &[
    [
        VALUE,
        "rename google.protobuf.V.a c",
        "19 OptionValue a.proto 183",
    ],
    [VALUE, "rename google.protobuf.V.b c", "a.proto 159 b c;"],
    [
        VALUE,
        "delete google.protobuf.V.b",
        "a.proto 144 optional int32 b = 2; reserved 2; reserved \"b\";;",
    ],
    [
        VALUE,
        "rename google.protobuf.FileOptions F",
        "20 FixedName",
    ],
];

fn told_of(alloc: Global, files: &'static str, asked: &'static str) -> Result<String, SchemaFault> {
    let workspace = open_as_written(alloc, files)?;
    let found = answered(alloc, &workspace, asked);
    workspace.release();
    Ok(found?)
}

fn is_without_memory(found: &Result<String, SchemaFault>) -> bool {
    match found {
        Ok(told) => told.as_str() == "18 NoMemory",
        Err(SchemaFault::NoMemory) => true,
        Err(_) => false,
    }
}

// In a run that refuses one allocation the same call answers again as if it had not come, whichever
// it is.
#[test]
fn one_is_refused(rt: HostRuntime) {
    for [files, asked, wanted] in SEEN {
        let first = told_of(rt.alloc(), *files, *asked);
        let found = if is_without_memory(&first) {
            told_of(rt.alloc(), *files, *asked)
        } else {
            first
        };
        let found = found.expect(&rt, "a workspace");
        assert!(rt; found.as_str() == *wanted, "{asked}: {found}, not {wanted}");
    }
}

/// How many messages with an option stand before the last one.
const MANY: u32 = 2000;

// A file with as many options, and the offset of the last one's first word.
fn many_options<R: AllocGlobal + Abort>(rt: &R) -> (String, usize) {
    let mut text = String::from_str(
        rt.alloc(),
        "package google.protobuf; message MessageOptions { extensions 1000; } extend MessageOptions { optional V x = 1000; } message V { optional int32 a = 1; optional int32 b = 2; optional int32 c = 3; } ",
    )
    .expect(rt, "memory");
    for number in 0..MANY {
        let one = format!(in rt.alloc();
            "message M{number} {{ option (x) = {{ a: {number} }}; }} "
        ).expect(rt, "memory");
        text.push_str(&one).expect(rt, "memory");
    }
    text.push_str("message L { option (x) = { ")
        .expect(rt, "memory");
    let offset = text.len();
    text.push_str("b: 1 }; }").expect(rt, "memory");
    (text, offset)
}

// The last of many options has the word of one field, and none that of the other.
#[test]
fn are_answered_beside_many_options(rt: HostRuntime) {
    let (text, offset) = many_options(&rt);
    let mut files = Vec::new(rt.alloc());
    let path = String::from_str(rt.alloc(), "a.proto").expect(&rt, "memory");
    let text = Vec::from_slice(rt.alloc(), text.as_bytes()).expect(&rt, "memory");
    files.push((path, text)).expect(&rt, "memory");
    let workspace = Workspace::open_as(rt.alloc(), files, Profile::AsWritten).expect(
        &rt,
        "a workspace",
    );
    let wanted = format!(in rt.alloc(); "19 OptionValue a.proto {offset}").expect(&rt, "memory");
    expect_told(
        &rt,
        &workspace,
        "rename google.protobuf.V.b z",
        wanted.as_str(),
    );
    expect_told(
        &rt,
        &workspace,
        "delete google.protobuf.V.b",
        wanted.as_str(),
    );
    expect_told(
        &rt,
        &workspace,
        "rename google.protobuf.V.c z",
        "a.proto 187 c z;",
    );
    workspace.release();
}
