//! Stores of the language as written: what the program prints of them.

use crate::calls::{WIDE, expect_end, given_files};
use crate::stores::{CHANGED, OLD, RENAME, command_of};
use protoref_commands::{Command, MemoryStore, Rule, RuleSet, Status};
use std::process::Abort;

/// Files, what is asked of them, what is printed, and whether all is well.
type Row = (&'static str, &'static str, &'static str, bool);

/// Files with custom options and their extensions; the first word of a value begins at the offset
/// 63 of its file.
const CUSTOM: &str =
    "a.proto syntax = \"proto3\"; package p; import \"d.proto\"; option (x) = { a: 1 }; message A { int32 f = 1 [(p.y).a = 2]; } extend google.protobuf.FileOptions { V x = 1000; } extend google.protobuf.FieldOptions { V y = 1000; } message V { int32 a = 1; } | d.proto syntax = \"proto2\"; package google.protobuf; message FileOptions { extensions 1000; } message FieldOptions { extensions 1000; }";

/// Two files, the second of which has one.
const SECOND: &str =
    "a.proto syntax = \"proto3\"; message A { int32 f = 1; } | b.proto syntax = \"proto2\"; package google.protobuf; message FileOptions { extensions 1000; } extend FileOptions { optional int32 x = 1000; } option (x) = 1;";

/// A file with an option whose extension the second file declares.
const USING: &str =
    "a.proto syntax = \"proto3\"; import \"b.proto\"; option (google.protobuf.x) = 1; | b.proto syntax = \"proto2\"; package google.protobuf; message FileOptions { extensions 1000; } extend FileOptions { optional int32 x = 1000; }";

/// A message with an option that a field may capture.
const BESIDE: &str =
    "a.proto syntax = \"proto2\"; package google.protobuf; message FieldOptions { extensions 1000; } extend FieldOptions { optional int32 x = 1000; } message A { optional int32 f = 1 [(x) = 1]; optional M m = 2; } message M { }";

const ROWS: &[Row] = &[
    // Custom options are not printed.
    (
        CUSTOM,
        "compile",
        "{\"file\":[{\"dependency\":[\"d.proto\"],\"extension\":[{\"extendee\":\".google.protobuf.FileOptions\",\"label\":\"LABEL_OPTIONAL\",\"name\":\"x\",\"number\":1000,\"type\":\"TYPE_MESSAGE\",\"typeName\":\".p.V\"},{\"extendee\":\".google.protobuf.FieldOptions\",\"label\":\"LABEL_OPTIONAL\",\"name\":\"y\",\"number\":1000,\"type\":\"TYPE_MESSAGE\",\"typeName\":\".p.V\"}],\"messageType\":[{\"field\":[{\"jsonName\":\"f\",\"label\":\"LABEL_OPTIONAL\",\"name\":\"f\",\"number\":1,\"type\":\"TYPE_INT32\"}],\"name\":\"A\"},{\"field\":[{\"jsonName\":\"a\",\"label\":\"LABEL_OPTIONAL\",\"name\":\"a\",\"number\":1,\"type\":\"TYPE_INT32\"}],\"name\":\"V\"}],\"name\":\"a.proto\",\"package\":\"p\",\"syntax\":\"proto3\"},{\"messageType\":[{\"extensionRange\":[{\"end\":1001,\"start\":1000}],\"name\":\"FileOptions\"},{\"extensionRange\":[{\"end\":1001,\"start\":1000}],\"name\":\"FieldOptions\"}],\"name\":\"d.proto\",\"package\":\"google.protobuf\"}]}\n",
        true,
    ),
    (
        "a.proto syntax = \"proto3\"; option (x) = { [p.x]: 1 };",
        "compile",
        "a.proto:1:20: 8 Syntax\n",
        false,
    ),
    // Their names are looked up.
    (
        "a.proto syntax = \"proto3\"; package p; option (x) = { a: 1 };",
        "compile",
        "a.proto:1:39: 14 Unresolved\n",
        false,
    ),
    (
        "a.proto syntax = \"proto3\"; package p; message x { } message M { oneof o { option (x) = 1; int32 a = 1; } }",
        "compile",
        "a.proto:1:75: 14 Unresolved\n",
        false,
    ),
    // An option is one of its element, and in proto3 options messages alone are extended.
    (
        "a.proto syntax = \"proto3\"; import \"d.proto\"; message M { int32 a = 1 [(google.protobuf.x) = 1]; } | d.proto syntax = \"proto2\"; package google.protobuf; message FileOptions { extensions 1000; } extend FileOptions { optional int32 x = 1000; }",
        "compile",
        "a.proto:1:64: 39 NotAnOption\n",
        false,
    ),
    (
        "a.proto syntax = \"proto3\"; import \"d.proto\"; extend M { int32 y = 1; } | d.proto syntax = \"proto2\"; message M { extensions 1; }",
        "compile",
        "a.proto:1:38: 31 NotInProto3\n",
        false,
    ),
    // Files with them are edited, and one that the value of an option may see is refused.
    (CUSTOM, "rename p.A B", "changed a.proto\n", true),
    (CUSTOM, "rename p.x z", "changed a.proto\n", true),
    (CUSTOM, "rename p.B C", "refused: 1 UnknownTarget\n", false),
    (CUSTOM, "delete-field p.A.f", "changed a.proto\n", true),
    (
        CUSTOM,
        "rename p.V.a b",
        "refused: 19 OptionValue a.proto:1:64\n",
        false,
    ),
    (
        CUSTOM,
        "rename p.A.f a",
        "refused: 19 OptionValue a.proto:1:64\n",
        false,
    ),
    (
        CUSTOM,
        "rename google.protobuf.FieldOptions F",
        "refused: 20 FixedName\n",
        false,
    ),
    (
        SECOND,
        "add-import a.proto b.proto",
        "changed a.proto\n",
        true,
    ),
    (
        SECOND,
        "add-import a.proto a.proto",
        "refused: 14 Cycle\n",
        false,
    ),
    (
        "a.proto syntax = \"proto3\"; import \"b.proto\"; message A { int32 f = 1; } | b.proto syntax = \"proto2\"; package google.protobuf; message FileOptions { extensions 1000; } extend FileOptions { optional int32 x = 1000; } option (x) = 1;",
        "drop-import a.proto b.proto",
        "changed a.proto\n",
        true,
    ),
    (
        BESIDE,
        "rename google.protobuf.A.m y",
        "changed a.proto\n",
        true,
    ),
    // So is one by which an option's name would mean something else, or nothing.
    (
        BESIDE,
        "rename google.protobuf.A.m x",
        "refused: 7 Captured a.proto:1:171\n",
        false,
    ),
    (
        USING,
        "drop-import a.proto b.proto",
        "refused: 15 Needed a.proto:1:46\n",
        false,
    ),
    // Without a custom option the answers are those of the core language.
    (OLD, RENAME, CHANGED, true),
];

fn store_of<R: AllocGlobal + Abort>(rt: &R, files: &str) -> MemoryStore {
    let journal = Vec::new(rt.alloc());
    MemoryStore::as_written(rt.alloc(), given_files(rt, files), journal).expect(rt, "memory")
}

fn expect_row<R: AllocGlobal + Abort>(rt: &R, (files, asked, text, is_well): Row) {
    let mut store = store_of(rt, files);
    let status = if is_well {
        Status::Done
    } else {
        Status::Problem
    };
    let end = (Ok(status), text, text.len());
    expect_end(rt, &mut store, command_of(rt, asked), WIDE, end, 0);
}

#[test]
fn prints_what_is_so_as_written(rt: HostRuntime) {
    for row in ROWS {
        expect_row(&rt, *row);
    }
}

// One after another, each of which is done.
fn expect_done<R: AllocGlobal + Abort>(rt: &R, files: &str, rows: &[(&str, &str)]) {
    let mut store = store_of(rt, files);
    for (asked, text) in rows {
        let end = (Ok(Status::Done), *text, text.len());
        expect_end(rt, &mut store, command_of(rt, asked), WIDE, end, 0);
    }
}

// An edit of files as written is logged and undone.
#[test]
fn undoes_an_edit_as_written(rt: HostRuntime) {
    let logged = "1 done a.proto rename A.b_c d_e\n";
    let rows = &[(RENAME, CHANGED), ("log", logged), ("undo", CHANGED)];
    expect_done(&rt, OLD, rows);
}

// So is that of an extension, by which the names of its options change.
#[test]
fn undoes_the_rename_of_an_extension(rt: HostRuntime) {
    let logged = "1 done a.proto rename p.x z\n";
    let rows = &[
        ("rename p.x z", CHANGED),
        ("log", logged),
        ("rename p.z w", CHANGED),
        ("undo", CHANGED),
        ("undo", CHANGED),
        ("rename p.x v", CHANGED),
    ];
    expect_done(&rt, CUSTOM, rows);
}

/// Files, and what the rule of unused imports finds in them.
const IMPORTS: &[(&str, &str, Status)] = &[
    (
        "a.proto syntax = \"proto3\"; import \"b.proto\"; | b.proto syntax = \"proto3\";",
        "a.proto:1:20: IMPORT_USED b.proto\n",
        Status::Problem,
    ),
    // An option's name uses the one, and nothing the other.
    (USING, "", Status::Done),
    (
        "a.proto syntax = \"proto3\"; import \"b.proto\"; import \"c.proto\"; option (google.protobuf.x) = 1; | b.proto syntax = \"proto2\"; package google.protobuf; message FileOptions { extensions 1000; } extend FileOptions { optional int32 x = 1000; } | c.proto syntax = \"proto3\";",
        "a.proto:1:38: IMPORT_USED c.proto\n",
        Status::Problem,
    ),
];

#[test]
fn finds_no_import_unused_that_an_option_uses(rt: HostRuntime) {
    for &(files, text, status) in IMPORTS {
        let mut store = store_of(&rt, files);
        let mut rules = RuleSet::none();
        rules.insert(Rule::ImportUsed);
        let end = (Ok(status), text, text.len());
        expect_end(&rt, &mut store, Command::Lint(rules), WIDE, end, 0);
    }
}
