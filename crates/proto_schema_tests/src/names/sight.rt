//! Which files see which names.

use super::calls::{Ask, Told, expect_told};

// In the order of their paths, which is that of their numbers.
const TEXTS: &str =
    r#"a.proto import "b.proto"; message A { optional int32 x = 1; }|b.proto import public "c.proto"; import "e.proto"; package p; message B {}|c.proto import public "d.proto"; package p.c; message C {}|d.proto package p.d.d; message D { optional int32 x = 1; }|e.proto package e.f; message E {} enum N { V = 0; }"#;

const ROWS: &[Told] = &[
    (Ask::Seen(0), "A", "seen"),
    (Ask::Seen(0), "A.x", "seen"),
    (Ask::Seen(0), "p", "seen"),
    (Ask::Seen(0), "p.B", "seen"),
    (Ask::Seen(0), "p.c", "seen"),
    (Ask::Seen(0), "p.c.C", "seen"),
    (Ask::Seen(0), "p.d", "seen"),
    (Ask::Seen(0), "p.d.d", "seen"),
    (Ask::Seen(0), "p.d.d.D", "seen"),
    (Ask::Seen(0), "p.d.d.D.x", "seen"),
    (Ask::Seen(1), "p.d.d.D", "seen"),
    (Ask::Seen(1), "e", "seen"),
    (Ask::Seen(1), "e.f", "seen"),
    (Ask::Seen(1), "e.f.E", "seen"),
    (Ask::Seen(1), "e.f.V", "seen"),
    (Ask::Seen(2), "p.d.d.D", "seen"),
    (Ask::Seen(3), "p", "seen"),
    (Ask::Seen(3), "p.d", "seen"),
    (Ask::Seen(4), "e", "seen"),
    (Ask::Seen(0), "e", "not seen"),
    (Ask::Seen(0), "e.f", "not seen"),
    (Ask::Seen(0), "e.f.E", "not seen"),
    (Ask::Seen(0), "e.f.V", "not seen"),
    (Ask::Seen(0), "", "not seen"),
    (Ask::Seen(0), "x", "not seen"),
    (Ask::Seen(0), ".A", "not seen"),
    (Ask::Seen(0), "p.", "not seen"),
    (Ask::Seen(1), "A", "not seen"),
    (Ask::Seen(2), "p.B", "not seen"),
    (Ask::Seen(2), "e.f", "not seen"),
    (Ask::Seen(3), "p.c", "not seen"),
    (Ask::Seen(3), "p.c.C", "not seen"),
    (Ask::Seen(4), "p", "not seen"),
    (Ask::Seen(4), "p.B", "not seen"),
    (Ask::Seen(4), "e.f.N.V", "not seen"),
    (Ask::Seen(5), "A", "not seen"),
    (Ask::Seen(4_294_967_295), "A", "not seen"),
    (Ask::Seen(5), "p", "not seen"),
];

#[test]
fn seen_names(rt: HostRuntime) {
    expect_told(&rt, TEXTS, ROWS);
}
