//! Files that do not link: the least fault of imports, names and references.

use super::calls::{Answer, expect_answers};

const ROWS: &[Answer] = &[
    // Imports of one file.
    ("a.proto ", "links"),
    (r#"a.proto import "a.proto";"#, "a.proto:7: 12 ImportCycle"),
    (
        r#"a.proto import "x.proto";"#,
        "a.proto:7: 10 UnknownImport",
    ),
    // Imports of two files.
    (r#"a.proto import "b.proto";|b.proto "#, "links"),
    (
        r#"a.proto import "b.proto";|b.proto import "a.proto";"#,
        "a.proto:7: 12 ImportCycle",
    ),
    (
        r#"a.proto import "b.proto"; import "b.proto";|b.proto "#,
        "a.proto:25: 11 DoubleImport",
    ),
    // Imports of four files.
    (
        r#"a.proto import "b.proto"; import "d.proto"; |b.proto import "c.proto"; |c.proto import "d.proto"; |d.proto "#,
        "links",
    ),
    (
        r#"a.proto import "b.proto"; import "x.proto"; |b.proto |c.proto |d.proto "#,
        "a.proto:25: 10 UnknownImport",
    ),
    (
        r#"a.proto import "x.proto"; import "x.proto"; |b.proto |c.proto |d.proto "#,
        "a.proto:7: 10 UnknownImport",
    ),
    (
        r#"a.proto import "b.proto"; import "c.proto"; import "b.proto"; |b.proto |c.proto |d.proto "#,
        "a.proto:43: 11 DoubleImport",
    ),
    (
        r#"a.proto import "b.proto"; |b.proto import "c.proto"; |c.proto import "b.proto"; import "d.proto"; |d.proto "#,
        "b.proto:7: 12 ImportCycle",
    ),
    (
        r#"a.proto import "d.proto"; import "b.proto"; |b.proto import "c.proto"; |c.proto import "b.proto"; import "d.proto"; |d.proto import "x.proto"; "#,
        "b.proto:7: 12 ImportCycle",
    ),
    (
        r#"a.proto import "b.proto"; |b.proto import "c.proto"; import "c.proto"; |c.proto import "b.proto"; |d.proto "#,
        "b.proto:7: 12 ImportCycle",
    ),
    (
        r#"a.proto import "b.proto"; import "x.proto"; |b.proto import "c.proto"; |c.proto import "b.proto"; |d.proto "#,
        "a.proto:25: 10 UnknownImport",
    ),
    // Text before grammar.
    ("a.proto message|b.proto 1x", "b.proto:0: 7 BadNumber"),
    // References that mean no message.
    (
        "a.proto enum E { V = 0; } service S { rpc R (E) returns (E); }",
        "a.proto:37: 15 WrongKind",
    ),
    (
        "a.proto message M { map<string,int32> foo = 1; optional FooEntry x = 2; }",
        "a.proto:48: 16 MapEntryRef",
    ),
];

#[test]
fn files_that_do_not_link(rt: HostRuntime) {
    expect_answers(&rt, ROWS);
}
