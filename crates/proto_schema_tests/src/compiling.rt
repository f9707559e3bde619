//! Files that import one another, and as many as there may be.

use crate::calls::{Given, add, expect, expect_answers, expect_ends};
use std::process::Abort;

const PUBLIC: &[(&str, &str)] = &[
    (
        "a.proto syntax = \"proto3\"; import \"b.proto\"; message A { C c = 1; }|b.proto syntax = \"proto3\"; import public \"c.proto\";|c.proto syntax = \"proto3\"; message C {}",
        "{\"file\":[{\"dependency\":[\"b.proto\"],\"messageType\":[{\"field\":[{\"jsonName\":\"c\",\"label\":\"LABEL_OPTIONAL\",\"name\":\"c\",\"number\":1,\"type\":\"TYPE_MESSAGE\",\"typeName\":\".C\"}],\"name\":\"A\"}],\"name\":\"a.proto\",\"syntax\":\"proto3\"},{\"dependency\":[\"c.proto\"],\"name\":\"b.proto\",\"publicDependency\":[0],\"syntax\":\"proto3\"},{\"messageType\":[{\"name\":\"C\"}],\"name\":\"c.proto\",\"syntax\":\"proto3\"}]}",
    ),
    (
        "a.proto syntax = \"proto3\"; import \"b.proto\"; message A { C c = 1; }|b.proto syntax = \"proto3\"; import public \"c.proto\";|c.proto syntax = \"proto3\"; import public \"d.proto\";|d.proto syntax = \"proto3\"; message C {}",
        "{\"file\":[{\"dependency\":[\"b.proto\"],\"messageType\":[{\"field\":[{\"jsonName\":\"c\",\"label\":\"LABEL_OPTIONAL\",\"name\":\"c\",\"number\":1,\"type\":\"TYPE_MESSAGE\",\"typeName\":\".C\"}],\"name\":\"A\"}],\"name\":\"a.proto\",\"syntax\":\"proto3\"},{\"dependency\":[\"c.proto\"],\"name\":\"b.proto\",\"publicDependency\":[0],\"syntax\":\"proto3\"},{\"dependency\":[\"d.proto\"],\"name\":\"c.proto\",\"publicDependency\":[0],\"syntax\":\"proto3\"},{\"messageType\":[{\"name\":\"C\"}],\"name\":\"d.proto\",\"syntax\":\"proto3\"}]}",
    ),
];

#[test]
fn public_imports_are_followed(rt: HostRuntime) {
    expect_answers(&rt, PUBLIC);
}

// So many empty files.
fn empty_files<R: AllocGlobal + Abort>(rt: &R, count: usize) -> Given {
    let mut files = Vec::new(rt.alloc());
    for i in 0..count {
        let path = format!(in rt.alloc(); "f{i:04}.proto").expect(rt, "memory");
        add(rt.alloc(), &mut files, path.as_str(), &[]).expect(rt, "memory");
    }
    files
}

// The files are empty: their descriptors are names alone.
#[test]
fn as_many_files_as_there_may_be(rt: HostRuntime) {
    expect_ends(
        &rt,
        empty_files(&rt, 4096),
        "{\"file\":[{\"name\":\"f0000.proto\"},",
        ",{\"name\":\"f4095.proto\"}]}",
    );
    expect(
        &rt,
        empty_files(&rt, 4097),
        "f4096.proto:0: 35 TooManyFiles",
    );
}
