//! All faults of a workspace of the phases of paths, texts, the grammar and checks: what is listed, counted by hand.

use crate::calls::*;
use proto_all_faults::{faults, faults_as};
use proto_base::{Fault, NoMemory, Profile};
use std::alloc::Global;
use std::fmt::Write;
use std::process::Abort;

// The faults, each as `path:offset: number;`.
fn faults_text(alloc: Global, listed: &[Fault]) -> Result<String, NoMemory> {
    let mut text = String::new(alloc);
    for fault in listed {
        let (path, offset, number) = (fault.path.as_str(), fault.offset, fault.number());
        write!(text, "{path}:{offset}: {number};")?;
    }
    Ok(text)
}

fn listed(alloc: Global, given: &Given) -> Result<String, NoMemory> {
    faults_text(alloc, &faults(alloc, given)?)
}

fn listed_of(alloc: Global, texts: &str) -> Result<String, NoMemory> {
    listed(alloc, &given_files(alloc, texts)?)
}

fn listed_as(alloc: Global, texts: &str, profile: Profile) -> Result<String, NoMemory> {
    let given = given_files(alloc, texts)?;
    faults_text(alloc, &faults_as(alloc, &given, profile)?)
}

fn expect_listed<R: AllocGlobal + Abort>(rt: &R, rows: &[(&str, &str)]) {
    for (texts, wanted) in rows {
        let found = listed_of(rt.alloc(), texts).expect(rt, "memory");
        expect_text(rt, found.as_str(), wanted);
    }
}

const PATHS: &[(&str, &str)] = &[
    // Texts are not looked at.
    (
        "b+c.proto |B.txt $|a.proto $",
        "B.txt:0: 33;b+c.proto:0: 33;",
    ),
    (
        "b.proto |a.proto |b.proto |a.proto |c.proto |b.proto ",
        "a.proto:0: 34;b.proto:0: 34;",
    ),
    (
        "a/../b.proto |a/../b.proto ",
        "a/../b.proto:0: 33;a/../b.proto:0: 34;",
    ),
];

const TEXTS: &[(&str, &str)] = &[
    // The grammar of other files is not looked at, and each file has one fault.
    (
        "d.proto 08 $|a.proto message|c.proto /* $|b.proto message A {} $",
        "b.proto:13: 3;c.proto:0: 4;d.proto:0: 7;",
    ),
    ("a.proto '\\q' /*|b.proto \"", "a.proto:0: 6;b.proto:0: 5;"),
];

const GRAMMAR: &[(&str, &str)] = &[
    (
        "c.proto message A {|b.proto import \"x.proto\";|a.proto message A { } }",
        "a.proto:14: 8;c.proto:11: 8;",
    ),
    (
        "a.proto ; {{{{{{{{{{{{{{{{{{{{{{{{{{{{{{{{{{{{|b.proto message",
        "a.proto:34: 9;b.proto:0: 8;",
    ),
];

const CHECKS: &[(&str, &str)] = &[
    ("a.proto message A {}|b.proto import \"a.proto\";", ""),
    (
        "b.proto message M { optional int32 a = 0; }|a.proto message A { optional int32 a = 0; optional int32 b = 0; }",
        "a.proto:31: 17;a.proto:53: 17;a.proto:53: 18;b.proto:31: 17;",
    ),
    // An option that is wrong for two reasons is listed once.
    (
        "a.proto message A { option foo = 1; option foo = 2; }",
        "a.proto:19: 27;a.proto:35: 27;",
    ),
    // What a file has alone and what its workspace decides stand at one number.
    (
        "a.proto message A { extensions 100 to 199; }|b.proto import \"a.proto\"; extend A { optional int32 x = 0; optional int32 y = 0; }",
        "b.proto:48: 17;b.proto:48: 36;b.proto:70: 17;b.proto:70: 36;b.proto:70: 37;",
    ),
];

#[test]
fn all_faults_are_listed(rt: HostRuntime) {
    expect_listed(&rt, PATHS);
    expect_listed(&rt, TEXTS);
    expect_listed(&rt, GRAMMAR);
    expect_listed(&rt, CHECKS);
}

/// Texts, what is listed of them in the core language, and what is listed as written.
const LANGUAGES: &[(&str, &str, &str)] = &[
    (
        "a.proto option (x) = { a: 1 };",
        "a.proto:16: 3;",
        "a.proto:8: 14;",
    ),
    // Names of custom options stand in order with other references.
    (
        "b.proto import \"a.proto\"; message M { optional N n = 1 [(x) = 1, (.y) = 2]; oneof o { option (M.n) = 3; } }|a.proto enum E { V = 0 [(V) = 1]; }",
        "a.proto:9: 8;b.proto:30: 8;",
        "a.proto:17: 14;b.proto:39: 14;b.proto:49: 14;b.proto:58: 14;b.proto:86: 14;",
    ),
    (
        "b.proto option (x) = { # };|a.proto option (x) = { a: 1 };",
        "a.proto:16: 3;b.proto:15: 3;",
        "b.proto:15: 3;",
    ),
    (
        "c.proto option () = 1;|b.proto option (x) = 1;|a.proto message M { option (x) = ; }",
        "a.proto:12: 8;b.proto:0: 8;c.proto:0: 8;",
        "a.proto:12: 8;c.proto:0: 8;",
    ),
    // In a oneof only custom options may stand.
    (
        "a.proto message M { oneof o { option deprecated = true; } }",
        "a.proto:22: 8;",
        "a.proto:22: 8;",
    ),
    // Custom options may be set again.
    (
        "a.proto package google.protobuf; message FileOptions { extensions 1000; } extend FileOptions { optional int32 x = 1000; } option (x) = 1; option foo = 1; option (x) = 2; option foo = 2;",
        "a.proto:114: 8;",
        "a.proto:137: 27;a.proto:169: 27;",
    ),
    // Those of elements, of blocks in proto3 and of numbers stand in order.
    (
        "c.proto import \"d.proto\"; extend google.protobuf.FileOptions { optional int32 y = 1001; optional int32 z = 1000 [(z) = 1]; } message M { option (z) = 1; option (y) = 2; }|b.proto syntax = \"proto3\"; import \"c.proto\"; extend M { int32 w = 1; } service S { rpc R (M) returns (M) { option (w) = 1; option (z) = 2; } } option (y) = 1; option (z) = 2;|d.proto package google.protobuf; message FileOptions { extensions 1000; }",
        "b.proto:99: 8;c.proto:80: 8;",
        "b.proto:37: 31;b.proto:58: 36;b.proto:107: 39;b.proto:123: 39;c.proto:74: 36;c.proto:106: 39;c.proto:137: 39;c.proto:153: 39;",
    ),
];

fn expect_as<R: AllocGlobal + Abort>(rt: &R, texts: &str, profile: Profile, wanted: &str) {
    let found = listed_as(rt.alloc(), texts, profile).expect(rt, "memory");
    expect_text(rt, found.as_str(), wanted);
}

#[test]
fn faults_of_both_languages_are_listed(rt: HostRuntime) {
    for (texts, core, written) in LANGUAGES {
        expect_as(&rt, texts, Profile::Core, core);
        expect_as(&rt, texts, Profile::AsWritten, written);
    }
}

// So many files, the first of which is given twice.
fn many_files(alloc: Global, count: usize) -> Result<Given, NoMemory> {
    let mut files = Vec::new(alloc);
    add(alloc, &mut files, "f0000.proto", b"")?;
    for place in 0..count {
        let path = format!(in alloc; "f{place:04}.proto")?;
        add(alloc, &mut files, path.as_str(), b"")?;
    }
    Ok(files)
}

#[test]
fn too_many_files_are_listed(rt: HostRuntime) {
    let files = many_files(rt.alloc(), 4096).expect(&rt, "memory");
    let found = listed(rt.alloc(), &files).expect(&rt, "memory");
    expect_text(&rt, found.as_str(), "f0000.proto:0: 34;f4095.proto:0: 35;");
}

// Texts of each phase, with what is listed of them.
const ONE_OF_EACH: &[(&str, &str)] = &[
    ("b+.proto |a+.proto ", "a+.proto:0: 33;b+.proto:0: 33;"),
    ("b.proto $|a.proto $", "a.proto:0: 3;b.proto:0: 3;"),
    ("b.proto a|a.proto a", "a.proto:0: 8;b.proto:0: 8;"),
    (
        "b.proto enum B {}|a.proto enum A {}",
        "a.proto:5: 22;b.proto:5: 22;",
    ),
];

// The faults are listed at the second call if there is no memory for the first.
#[test]
fn one_is_refused_as_faults_are_listed(rt: HostRuntime) {
    for (texts, wanted) in ONE_OF_EACH {
        let found = match listed_of(rt.alloc(), texts) {
            Err(NoMemory) => listed_of(rt.alloc(), texts),
            found => found,
        };
        expect_text(&rt, found.expect(&rt, "memory").as_str(), wanted);
    }
}
