//! The files that `Workspace::open` holds. Its descriptors and its faults are rows of `protoref_rows`.

use super::calls::texts;
use protoref_test_cases::{are_texts, open};

// Files as texts.
const PACKAGES: &str =
    "c.proto syntax = \"proto3\"; package a.b;|a.proto syntax = \"proto3\"; package a; import \"b.proto\"; message A { b.X f = 1; }|b.proto syntax = \"proto3\"; package b; message X {}";

const SORTED: &str =
    "a.proto syntax = \"proto3\"; package a; import \"b.proto\"; message A { b.X f = 1; }|b.proto syntax = \"proto3\"; package b; message X {}|c.proto syntax = \"proto3\"; package a.b;";

#[test]
fn sorts_the_files_by_their_paths(rt: HostRuntime) {
    let files = texts(rt.alloc(), PACKAGES).expect(&rt, "memory");
    let sorted = texts(rt.alloc(), SORTED).expect(&rt, "memory");
    let workspace = open(rt.alloc(), files.as_slice()).expect(&rt, "a workspace");
    assert!(rt; are_texts(&workspace, sorted.as_slice()));
    workspace.release();
}
