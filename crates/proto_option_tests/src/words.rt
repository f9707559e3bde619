//! The first word of a custom option that may be a name. `^` stands before it; protoc reads these words as fields of the option's type, or values.

use crate::calls::{Row, expect_words};

// ---- which words

const WORDS: &[Row] = &[
    // A word of a path.
    (
        r#"a.proto import "o.proto"; message M { optional int32 x = 1; } extend google.protobuf.FieldOptions { optional M m = 1000; } message A { optional int32 y = 1 [(m).^x = 1]; }|o.proto package google.protobuf; message FieldOptions { extensions 1000 to max; }"#,
        0,
        "x",
        None,
    ),
    // The second word of a path.
    (
        r#"a.proto import "o.proto"; message N { optional int32 x = 1; } message M { optional N n = 1; } extend google.protobuf.FieldOptions { optional M m = 1000; } message A { optional int32 y = 1 [(m).n.^x = 1]; }|o.proto package google.protobuf; message FieldOptions { extensions 1000 to max; }"#,
        0,
        "x",
        None,
    ),
    // A value.
    (
        r#"a.proto import "o.proto"; enum E { V = 0; W = 1; } extend google.protobuf.FieldOptions { optional E e = 1000; } message A { optional int32 y = 1 [(e) = ^W]; }|o.proto package google.protobuf; message FieldOptions { extensions 1000 to max; }"#,
        0,
        "W",
        None,
    ),
    // A word between braces.
    (
        r#"a.proto import "o.proto"; message M { optional int32 x = 1; optional int32 y = 2; } extend google.protobuf.FieldOptions { optional M m = 1000; } message A { optional int32 z = 1 [(m) = { y: 2 ^x: 1 }]; }|o.proto package google.protobuf; message FieldOptions { extensions 1000 to max; }"#,
        0,
        "x",
        None,
    ),
    // The new word alone, and whichever comes first.
    (
        r#"a.proto import "o.proto"; message M { optional int32 x = 1; } extend google.protobuf.FieldOptions { optional M m = 1000; } message A { optional int32 y = 1 [(m).^x = 1]; }|o.proto package google.protobuf; message FieldOptions { extensions 1000 to max; }"#,
        0,
        "y",
        Some("x"),
    ),
    (
        r#"a.proto import "o.proto"; message M { optional int32 x = 1; optional int32 w = 2; } extend google.protobuf.FieldOptions { optional M m = 1000; } message A { optional int32 y = 1 [(m).^w = 1, (m).x = 2]; }|o.proto package google.protobuf; message FieldOptions { extensions 1000 to max; }"#,
        0,
        "x",
        Some("w"),
    ),
    // The first of two by token.
    (
        r#"a.proto import "o.proto"; message M { optional int32 w = 1; optional int32 x = 2; } extend google.protobuf.FieldOptions { optional M m = 1000; } message A { optional int32 y = 1 [(m).w = 1, (m).^x = 2]; optional int32 z = 2 [(m).x = 3]; }|o.proto package google.protobuf; message FieldOptions { extensions 1000 to max; }"#,
        0,
        "x",
        None,
    ),
    // Options of a file, of a message and of a value.
    (
        r#"a.proto import "o.proto"; option (m).^x = 1; message M { optional int32 x = 1; } extend google.protobuf.FileOptions { optional M m = 1000; }|o.proto package google.protobuf; message FileOptions { extensions 1000 to max; }"#,
        0,
        "x",
        None,
    ),
    (
        r#"a.proto import "o.proto"; message M { option (m).^x = 1; optional int32 x = 1; } extend google.protobuf.MessageOptions { optional M m = 1000; }|o.proto package google.protobuf; message MessageOptions { extensions 1000 to max; }"#,
        0,
        "x",
        None,
    ),
    (
        r#"a.proto import "o.proto"; message M { optional int32 x = 1; } enum E { V = 0 [(m).^x = 1]; } extend google.protobuf.EnumValueOptions { optional M m = 1000; }|o.proto package google.protobuf; message EnumValueOptions { extensions 1000 to max; }"#,
        0,
        "x",
        None,
    ),
];

#[test]
fn words_are_found(rt: HostRuntime) {
    expect_words(&rt, WORDS);
}

// ---- what is no such word

const OTHERS: &[Row] = &[
    // A name that no option has.
    (
        r#"a.proto import "o.proto"; message M { optional int32 x = 1; } extend google.protobuf.FieldOptions { optional M m = 1000; } message A { optional int32 y = 1 [(m).x = 1]; }|o.proto package google.protobuf; message FieldOptions { extensions 1000 to max; }"#,
        0,
        "y",
        Some("z"),
    ),
    // The name of an option.
    (
        r#"a.proto import "o.proto"; extend google.protobuf.FieldOptions { optional int32 x = 1000; } message A { optional int32 y = 1 [(x) = 1]; }|o.proto package google.protobuf; message FieldOptions { extensions 1000 to max; }"#,
        0,
        "x",
        None,
    ),
    // A text.
    (
        r#"a.proto import "o.proto"; extend google.protobuf.FieldOptions { optional string s = 1000; } message A { optional int32 y = 1 [(s) = "x"]; }|o.proto package google.protobuf; message FieldOptions { extensions 1000 to max; }"#,
        0,
        "x",
        None,
    ),
    // An option that is not a custom one.
    (
        "a.proto message A { optional int32 y = 1 [deprecated = true]; }",
        0,
        "deprecated",
        Some("true"),
    ),
];

#[test]
fn other_words_are_passed_over(rt: HostRuntime) {
    expect_words(&rt, OTHERS);
}

// ---- of which files

const FILES: &[Row] = &[
    // The first by file: the extension stands in the file of the name, and another file has an option.
    (
        r#"b.proto import "c.proto"; message B { optional int32 y = 1 [(m).^x = 1]; }|c.proto import "o.proto"; message M { optional int32 x = 1; } extend google.protobuf.FieldOptions { optional M m = 1000; } message A { optional int32 y = 1 [(m).x = 1]; }|o.proto package google.protobuf; message FieldOptions { extensions 1000 to max; }"#,
        1,
        "x",
        None,
    ),
    // The extension stands in a file that imports that of the name.
    (
        r#"a.proto import "d.proto"; message B { optional int32 y = 1 [(m).^x = 1]; }|d.proto import "o.proto"; import "t.proto"; extend google.protobuf.FieldOptions { optional M m = 1000; }|o.proto package google.protobuf; message FieldOptions { extensions 1000 to max; }|t.proto message M { optional int32 x = 1; }"#,
        3,
        "x",
        None,
    ),
    // In one that leads to it by two imports.
    (
        r#"a.proto import "d.proto"; message B { optional int32 y = 1 [(m).^x = 1]; }|d.proto import "o.proto"; import "s.proto"; extend google.protobuf.FieldOptions { optional N m = 1000; }|o.proto package google.protobuf; message FieldOptions { extensions 1000 to max; }|s.proto import "t.proto"; message N { optional M x = 1; }|t.proto message M { optional int32 x = 1; }"#,
        4,
        "x",
        None,
    ),
    // In one that does not lead to it.
    (
        r#"a.proto import "o.proto"; message M { optional int32 x = 1; } extend google.protobuf.FieldOptions { optional M m = 1000; } message A { optional int32 y = 1 [(m).x = 1]; }|o.proto package google.protobuf; message FieldOptions { extensions 1000 to max; }|z.proto message Z { optional int32 x = 1; }"#,
        2,
        "x",
        None,
    ),
    // In one that the file of the name imports.
    (
        r#"a.proto import "o.proto"; message M { optional int32 x = 1; } extend google.protobuf.FieldOptions { optional M m = 1000; } message A { optional int32 y = 1 [(m).x = 1]; }|o.proto package google.protobuf; message FieldOptions { extensions 1000 to max; }|z.proto import "a.proto"; message Z { optional int32 x = 1; }"#,
        2,
        "x",
        None,
    ),
];

#[test]
fn files_count_that_lead_to_the_name(rt: HostRuntime) {
    expect_words(&rt, FILES);
}
