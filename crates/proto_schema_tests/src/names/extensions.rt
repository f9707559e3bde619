//! Extensions as names, and what the references of extend blocks mean.

use super::calls::{Answer, Ask, expect_answers, expect_told};

const CLASHES: &[Answer] = &[
    // Beside what is declared there, wherever what is extended stands.
    (
        "a.proto message M {} extend M { optional int32 M = 1; }",
        "a.proto:39: 13 DuplicateName",
    ),
    (
        "a.proto message M { extend M { optional int32 M = 1; } }",
        "links",
    ),
    (
        "a.proto message M {} extend M { optional int32 x = 1; repeated int32 x = 2; }",
        "a.proto:61: 13 DuplicateName",
    ),
    (
        "a.proto message M { optional int32 x = 1; extend M { optional int32 x = 2; } }",
        "a.proto:60: 13 DuplicateName",
    ),
    (
        "a.proto message M { extend M { optional int32 x = 2; } oneof x { int32 y = 1; } }",
        "a.proto:53: 13 DuplicateName",
    ),
    (
        "a.proto message M { map<int32,int32> x = 1; extend M { optional int32 XEntry = 2; } }",
        "a.proto:62: 13 DuplicateName",
    ),
    (
        "a.proto message M {} extend M { optional int32 V = 1; } enum E { V = 0; }",
        "a.proto:57: 13 DuplicateName",
    ),
    (
        "a.proto package p; message M { optional int32 x = 1; } message P { extend M { optional int32 x = 2; } } extend M { optional int32 x = 2; }",
        "links",
    ),
    // Of two files, and a package.
    (
        r#"a.proto message M {} extend M { optional int32 x = 1; }|b.proto import "a.proto"; extend M { optional int32 x = 2; }"#,
        "b.proto:44: 13 DuplicateName",
    ),
    (
        "a.proto package p; message M {} extend M { optional int32 q = 1; }|b.proto package p.q;",
        "a.proto:50: 13 DuplicateName",
    ),
    (
        "a.proto package p; message M { extend M { optional int32 q = 1; } }|b.proto package p.q;",
        "links",
    ),
];

#[test]
fn extensions_that_clash(rt: HostRuntime) {
    expect_answers(&rt, CLASHES);
}

const MEANINGS: &[Answer] = &[
    // What is extended is a message that is seen, also of a block that is empty.
    (
        "a.proto extend M { }|b.proto message M {}",
        "a.proto:7: 14 Unresolved",
    ),
    (
        r#"a.proto import "b.proto"; extend M { }|b.proto import public "c.proto";|c.proto message M {}"#,
        "links",
    ),
    (
        "a.proto enum E { V = 0; } extend E { optional int32 x = 1; }",
        "a.proto:25: 15 WrongKind",
    ),
    (
        "a.proto message M { map<string,int32> foo = 1; extend FooEntry { } }",
        "a.proto:46: 16 MapEntryRef",
    ),
    (
        "a.proto service S {} extend S { }",
        "a.proto:20: 14 Unresolved",
    ),
    (
        "a.proto package p; extend p { }",
        "a.proto:18: 14 Unresolved",
    ),
    (
        "a.proto message M { optional int32 x = 1; extend x { } }",
        "a.proto:41: 14 Unresolved",
    ),
    // It and the types are looked for from the message around the block, else from the package, else from nothing.
    (
        "a.proto message M { message N {} extend M { optional N x = 1; } }",
        "links",
    ),
    (
        "a.proto message M { message N {} } extend M { optional N x = 1; }",
        "a.proto:47: 14 Unresolved",
    ),
    (
        "a.proto package p.q; message M { message N {} } extend M { optional M.N x = 1; optional q.M y = 2; optional p.q.M z = 3; }",
        "links",
    ),
    (
        "a.proto package p; message M {} extend .M { }",
        "a.proto:31: 14 Unresolved",
    ),
    (
        "a.proto extend.M { optional.M x = 1; } message M {}",
        "links",
    ),
    (
        "a.proto message A { message M {} } message P { message A {} extend A.M { } }",
        "a.proto:59: 14 Unresolved",
    ),
    // Fields, oneofs, extensions and values hide nothing.
    (
        "a.proto message M {} message P { optional int32 M = 1; extend M { optional M x = 1; } }",
        "links",
    ),
    (
        "a.proto message M {} message P { oneof M { int32 n = 1; } extend M { optional M x = 1; } }",
        "links",
    ),
    (
        "a.proto message M {} message P { extend M { optional M M = 1; } optional M n = 1; }",
        "links",
    ),
    (
        "a.proto message M {} message P { enum E { M = 0; } extend M { optional M x = 1; } }",
        "links",
    ),
];

#[test]
fn what_references_of_extend_blocks_mean(rt: HostRuntime) {
    expect_answers(&rt, MEANINGS);
}

const SCHEMA: &str =
    "a.proto package p; message M { extend M { optional M x = 1; } } extend p . M { repeated .p.M y = 2; optional int32 z = 3; } message P { extend M { } }";

#[test]
fn extensions_by_name_and_their_references(rt: HostRuntime) {
    expect_told(
        &rt,
        SCHEMA,
        &[
            (Ask::Name, "p.M.x", "p.M.x extension a.proto:45"),
            (Ask::Name, "p.y", "p.y extension a.proto:85"),
            (Ask::Name, "p.z", "p.z extension a.proto:107"),
            (Ask::Name, "p.M.y", "unknown"),
            (Ask::Name, "p.x", "unknown"),
            (
                Ask::References,
                "p.M",
                "a.proto:30,a.proto:43,a.proto:63,a.proto:80,a.proto:135",
            ),
            (Ask::References, "p.M.x", ""),
            (Ask::References, "p.y", ""),
            (Ask::References, "p", ""),
            (
                Ask::MeantIn(0),
                "",
                "a.proto:30 p.M,a.proto:43 p.M,a.proto:63 p.M,a.proto:80 p.M,a.proto:135 p.M",
            ),
        ],
    );
}
