//! What references mean, and those that mean nothing.

use super::calls::{Answer, Ask, expect_answers, expect_told};

const ROWS: &[Answer] = &[
    // The longest scope decides, beside files of the packages `b` and `a.b`.
    (
        r#"a.proto syntax = "proto3"; package a; import "b.proto"; message A { b.X f = 1; }|b.proto syntax = "proto3"; package b; message X {}|c.proto syntax = "proto3"; package a.b;"#,
        "links",
    ),
    (
        r#"a.proto syntax = "proto3"; package a; import "b.proto"; message A { message b {} b.X f = 1; }|b.proto syntax = "proto3"; package b; message X {}|c.proto syntax = "proto3"; package a.b;"#,
        "a.proto:73: 14 Unresolved",
    ),
    (
        r#"a.proto syntax = "proto3"; package a; import "b.proto"; import "c.proto"; message A { b.X f = 1; }|b.proto syntax = "proto3"; package b; message X {}|c.proto syntax = "proto3"; package a.b;"#,
        "a.proto:78: 14 Unresolved",
    ),
    (
        r#"a.proto syntax = "proto3"; package a; import "b.proto"; import "c.proto"; message A { .b.X f = 1; }|b.proto syntax = "proto3"; package b; message X {}|c.proto syntax = "proto3"; package a.b;"#,
        "links",
    ),
    // Through public imports.
    (
        r#"a.proto syntax = "proto3"; import "b.proto"; message A { C c = 1; }|b.proto syntax = "proto3"; import public "c.proto";|c.proto syntax = "proto3"; message C {}|d.proto "#,
        "links",
    ),
    (
        r#"a.proto syntax = "proto3"; import "b.proto"; message A { C c = 1; }|b.proto syntax = "proto3"; import public "c.proto";|c.proto import public "d.proto";|d.proto syntax = "proto3"; message C {}"#,
        "links",
    ),
    (
        r#"a.proto syntax = "proto3"; import "b.proto"; message A { C c = 1; }|b.proto import "c.proto";|c.proto syntax = "proto3"; message C {}|d.proto "#,
        "a.proto:49: 14 Unresolved",
    ),
    (
        r#"a.proto syntax = "proto3"; import "b.proto"; message A { C c = 1; }|b.proto syntax = "proto3"; import public "c.proto";|c.proto import "d.proto";|d.proto syntax = "proto3"; message C {}"#,
        "a.proto:49: 14 Unresolved",
    ),
    (
        r#"a.proto syntax = "proto3"; import "b.proto"; message A { C c = 1; }|b.proto |c.proto syntax = "proto3"; message C {}|d.proto "#,
        "a.proto:49: 14 Unresolved",
    ),
    // What fits decides.
    // of one word
    (
        "a.proto message A {} message M { optional int32 A = 1; optional A x = 2; }",
        "links",
    ),
    (
        "a.proto message A {} message M { enum E { A = 0; } optional A x = 2; }",
        "links",
    ),
    (
        "a.proto message A {} message M { oneof A { int32 n = 1; } optional A x = 2; }",
        "links",
    ),
    (
        "a.proto package p; message M { optional p x = 1; }",
        "a.proto:32: 14 Unresolved",
    ),
    (
        "a.proto package p; message p { optional p x = 1; }",
        "links",
    ),
    (
        "a.proto service S { rpc M (M) returns (.M); } message M {}",
        "links",
    ),
    // of more words
    (
        "a.proto message A { message B {} } message M { optional int32 A = 1; optional A.B x = 2; }",
        "links",
    ),
    (
        "a.proto message A { message B {} } message M { message A {} optional A.B x = 2; }",
        "a.proto:61: 14 Unresolved",
    ),
    (
        "a.proto message A { message B {} } message M { enum A { V = 0; } optional A.B x = 2; }",
        "a.proto:66: 14 Unresolved",
    ),
    (
        "a.proto package p; message p { optional p.p x = 1; }",
        "a.proto:32: 14 Unresolved",
    ),
    (
        "a.proto package p; message p { optional .p.p x = 1; }",
        "links",
    ),
    (
        "a.proto package p; message M { optional .M x = 1; }",
        "a.proto:32: 14 Unresolved",
    ),
];

#[test]
fn what_references_mean(rt: HostRuntime) {
    expect_answers(&rt, ROWS);
}

const FIELD: &str =
    "a.proto package p; message foo {} message A { optional string foo = 1; optional foo x = 2; }";

#[test]
fn a_field_does_not_fit(rt: HostRuntime) {
    expect_told(
        &rt,
        FIELD,
        &[
            (Ask::References, "p.foo", "a.proto:72"),
            (Ask::References, "p.A.foo", ""),
            (Ask::References, "p.A", ""),
            (Ask::References, "p", ""),
            (Ask::References, "foo", "unknown"),
        ],
    );
}

const TEXTS: &str =
    r#"b.proto message M { optional M x = 1; message N { optional .M y = 1; } oneof o { M z = 2; } }|c.proto import "b.proto"; service S { rpc R (.M) returns (stream M.N); } message T { map<string,M> m = 1; }|a.proto import "b.proto"; message A { repeated M . N n = 1; repeated . M m = 2; }"#;

#[test]
fn references_by_file_and_place(rt: HostRuntime) {
    expect_told(
        &rt,
        TEXTS,
        &[
            (
                Ask::References,
                "M",
                "a.proto:61,b.proto:21,b.proto:51,b.proto:73,c.proto:37,c.proto:88",
            ),
            (Ask::References, "M.N", "a.proto:39,c.proto:57"),
            (Ask::References, "M.o", ""),
            (Ask::MeantIn(0), "", "a.proto:39 M.N,a.proto:61 M"),
            (
                Ask::MeantIn(1),
                "",
                "b.proto:21 M,b.proto:51 M,b.proto:73 M",
            ),
            (
                Ask::MeantIn(2),
                "",
                "c.proto:37 M,c.proto:57 M.N,c.proto:88 M",
            ),
            (Ask::MeantIn(3), "", ""),
            // The first tokens of the references of `a.proto`, and other tokens.
            (Ask::Meant(0, 7), "", "M.N"),
            (Ask::Meant(0, 15), "", "M"),
            (Ask::Meant(0, 6), "", "nothing"),
            (Ask::Meant(0, 9), "", "nothing"),
            (Ask::Meant(0, 16), "", "nothing"),
            (Ask::Meant(3, 7), "", "nothing"),
            (Ask::Meant(4_294_967_295, 4_294_967_295), "", "nothing"),
        ],
    );
}
