//! Names that are declared twice, or that a package has.

use super::calls::{Answer, expect_answers};

const ROWS: &[Answer] = &[
    // Names of one file.
    (
        "a.proto enum E { V = 0; } enum F { V = 0; }",
        "a.proto:27: 13 DuplicateName",
    ),
    (
        "a.proto message M { enum E { V = 0; } } enum F { V = 0; }",
        "links",
    ),
    (
        "a.proto message M { message x {} optional int32 x = 1; }",
        "a.proto:40: 13 DuplicateName",
    ),
    (
        "a.proto message M { oneof a { int32 a = 1; } }",
        "a.proto:28: 13 DuplicateName",
    ),
    (
        "a.proto message M { map<int32,int32> foo = 1; message FooEntry {} }",
        "a.proto:46: 13 DuplicateName",
    ),
    (
        "a.proto message M { message FooEntry {} map<int32,int32> foo = 1; }",
        "a.proto:49: 13 DuplicateName",
    ),
    (
        "a.proto message M { map<int32,int32> foo_bar = 1; map<int32,int32> fooBar = 2; }",
        "a.proto:59: 13 DuplicateName",
    ),
    (
        "a.proto message M {} service S { rpc R (M) returns (M); rpc R (M) returns (M); }",
        "a.proto:52: 13 DuplicateName",
    ),
    ("a.proto package p; message p { message p {} }", "links"),
    // Names of two files.
    (
        "b.proto  message A {}|a.proto message A {}",
        "b.proto:9: 13 DuplicateName",
    ),
    (
        "b.proto package p.q;|a.proto message p {}",
        "a.proto:8: 13 DuplicateName",
    ),
    (
        "b.proto message p {}|a.proto package p.q;",
        "b.proto:8: 13 DuplicateName",
    ),
    (
        "b.proto package p.q;|a.proto package p; message q {}",
        "a.proto:19: 13 DuplicateName",
    ),
    (
        "b.proto package q; message A {}|a.proto package p; message A {}",
        "links",
    ),
    (
        "b.proto package p; message B {}|a.proto package p; message A {}",
        "links",
    ),
    (
        "b.proto package p; message B {} message A {}|a.proto package p; message A {}",
        "b.proto:32: 13 DuplicateName",
    ),
    (
        "b.proto package p.q; message A {}|a.proto package p; message q { message A {} }",
        "a.proto:19: 13 DuplicateName",
    ),
    // Names come behind imports, and before references.
    (
        "a.proto message A { optional B b = 1; }|b.proto message A {}",
        "b.proto:8: 13 DuplicateName",
    ),
    (
        r#"a.proto message A {} message A {}|b.proto import "c.proto";"#,
        "b.proto:7: 10 UnknownImport",
    ),
    (
        r#"a.proto import "b.proto";|b.proto import "a.proto"; import "c.proto";"#,
        "a.proto:7: 12 ImportCycle",
    ),
];

#[test]
fn names_that_clash(rt: HostRuntime) {
    expect_answers(&rt, ROWS);
}
