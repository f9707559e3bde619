//! What a link says of names.

use super::calls::{Ask, Told, expect_told, given_files, read};
use proto_names::{Link, SymbolId};
use std::process::Abort;

const SCHEMA: &str =
    r#"a.proto syntax = "proto3"; package p.q; message M { message N {} map<string,N> n_to = 1; oneof o { int32 a = 2; } enum E { V = 0; } } service S { rpc R (M) returns (M.N); } enum F { W = 0; }"#;

const NAMES: &[Told] = &[
    (Ask::Name, "p", "p package nowhere"),
    (Ask::Name, "p.q", "p.q package nowhere"),
    (Ask::Name, "p.q.M", "p.q.M message a.proto:40"),
    (Ask::Name, "p.q.M.N", "p.q.M.N message a.proto:52"),
    (Ask::Name, "p.q.M.n_to", "p.q.M.n_to field a.proto:71"),
    (
        Ask::Name,
        "p.q.M.NToEntry",
        "p.q.M.NToEntry entry a.proto:71",
    ),
    (
        Ask::Name,
        "p.q.M.NToEntry.key",
        "p.q.M.NToEntry.key entry field a.proto:71",
    ),
    (
        Ask::Name,
        "p.q.M.NToEntry.value",
        "p.q.M.NToEntry.value entry field a.proto:71",
    ),
    (Ask::Name, "p.q.M.o", "p.q.M.o oneof a.proto:87"),
    (Ask::Name, "p.q.M.a", "p.q.M.a field a.proto:97"),
    (Ask::Name, "p.q.M.E", "p.q.M.E enum a.proto:111"),
    (Ask::Name, "p.q.M.V", "p.q.M.V value a.proto:115"),
    (Ask::Name, "p.q.S", "p.q.S service a.proto:134"),
    (Ask::Name, "p.q.S.R", "p.q.S.R method a.proto:142"),
    (Ask::Name, "p.q.F", "p.q.F enum a.proto:170"),
    (Ask::Name, "p.q.W", "p.q.W value a.proto:174"),
    (Ask::Name, "", "unknown"),
    (Ask::Name, ".", "unknown"),
    (Ask::Name, ".p", "unknown"),
    (Ask::Name, "p.", "unknown"),
    (Ask::Name, "p.q.", "unknown"),
    (Ask::Name, "p..q", "unknown"),
    (Ask::Name, ".p.q.M", "unknown"),
    (Ask::Name, "q", "unknown"),
    (Ask::Name, "M", "unknown"),
    (Ask::Name, "p.q.M.E.V", "unknown"),
    (Ask::Name, "p.q.F.W", "unknown"),
    (Ask::Name, "p.q.M.o.a", "unknown"),
    (Ask::Name, "p.q.M.nTo", "unknown"),
    (Ask::Name, "p.q.m", "unknown"),
    (Ask::Name, "p.q.M.N.", "unknown"),
    (Ask::Name, "p.q.S.R.M", "unknown"),
    (Ask::Name, "int32", "unknown"),
    (Ask::Name, "p q", "unknown"),
    (Ask::Name, "\u{e9}", "unknown"),
];

#[test]
fn names_of_a_schema(rt: HostRuntime) {
    expect_told(&rt, SCHEMA, NAMES);
}

// The last name of the schema, in its link.
fn last_name<R: AllocGlobal + Abort>(rt: &R) -> SymbolId {
    let files = read(rt, given_files(rt, SCHEMA)).expect(rt, "files");
    let link = Link::new(rt.alloc(), &files).expect(rt, "a link");
    let id = link.symbol("p.q.W").expect(rt, "a name");
    link.release();
    files.release();
    id
}

#[test]
fn names_of_another_link(rt: HostRuntime) {
    let id = last_name(&rt);
    let rows: [Told; 2] = [
        (Ask::Other(id), "", "no name no kind nowhere"),
        (Ask::OtherReferences(id), "", ""),
    ];
    expect_told(&rt, "a.proto message M {}", &rows);
}

const MAPS: &str =
    "a.proto message M { map<int32,int32> _1 = 1; map<int32,int32> FooEntry = 2; map<int32,int32> a__bC_ = 3; map<int32,int32> _ = 4; }";

#[test]
fn names_of_maps(rt: HostRuntime) {
    expect_told(
        &rt,
        MAPS,
        &[
            (Ask::Name, "M.1Entry", "M.1Entry entry a.proto:29"),
            (Ask::Name, "M.FooEntry", "M.FooEntry field a.proto:54"),
            (
                Ask::Name,
                "M.FooEntryEntry",
                "M.FooEntryEntry entry a.proto:54",
            ),
            (Ask::Name, "M.ABCEntry", "M.ABCEntry entry a.proto:85"),
            (Ask::Name, "M.Entry", "M.Entry entry a.proto:114"),
            (
                Ask::Name,
                "M.Entry.value",
                "M.Entry.value entry field a.proto:114",
            ),
        ],
    );
}

const PACKAGES: &str =
    "b.proto package p; message B {}|a.proto package p.q.r; message A {}|a/c.proto message C {}";

#[test]
fn packages_of_many_files(rt: HostRuntime) {
    expect_told(
        &rt,
        PACKAGES,
        &[
            (Ask::Name, "p", "p package nowhere"),
            (Ask::Name, "p.q", "p.q package nowhere"),
            (Ask::Name, "p.q.r", "p.q.r package nowhere"),
            (Ask::Name, "p.q.r.A", "p.q.r.A message a.proto:23"),
            (Ask::Name, "p.B", "p.B message b.proto:19"),
            (Ask::Name, "C", "C message a/c.proto:8"),
            (Ask::Name, "p.q.A", "unknown"),
        ],
    );
}

#[test]
fn names_that_files_declare(rt: HostRuntime) {
    expect_told(
        &rt,
        "a.proto package p.q; message M { int32 b = 2; message N {} int32 a = 1; } enum E { V = 0; }|b.proto|c.proto package p; service S { rpc R (T) returns (T); } message T {}",
        &[
            (
                Ask::DeclaredIn(0),
                "",
                "p,p.q,p.q.M,p.q.M.b,p.q.M.N,p.q.M.a,p.q.E,p.q.V",
            ),
            (Ask::DeclaredIn(1), "", ""),
            (Ask::DeclaredIn(2), "", "p,p.S,p.S.R,p.T"),
            (Ask::DeclaredIn(3), "", ""),
        ],
    );
}

#[test]
fn packages_that_begin_alike(rt: HostRuntime) {
    expect_told(
        &rt,
        "a.proto package p.qu.r;|b.proto package p.q.r; message A {}|c.proto package p.q.s.t;",
        &[
            (Ask::DeclaredIn(0), "", "p,p.qu,p.qu.r"),
            (Ask::DeclaredIn(1), "", "p,p.q,p.q.r,p.q.r.A"),
            (Ask::DeclaredIn(2), "", "p,p.q,p.q.s,p.q.s.t"),
            (Ask::Name, "p.qu", "p.qu package nowhere"),
            (Ask::Name, "p.q", "p.q package nowhere"),
            (Ask::Name, "p.q.s", "p.q.s package nowhere"),
            (Ask::Name, "p.q.r.A", "p.q.r.A message b.proto:23"),
        ],
    );
}
