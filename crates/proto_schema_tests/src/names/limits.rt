//! Many files, and long paths.

use super::calls::{Ask, Told, expect, expect_linked};
use crate::calls::{Given, add};
use std::process::Abort;

// Empty files, `f0.proto` and so on.
fn empty_files<R: AllocGlobal + Abort>(rt: &R, count: u32) -> Given {
    let mut files = Vec::new(rt.alloc());
    for file in 0..count {
        let path = format!(in rt.alloc(); "f{file}.proto").expect(rt, "memory");
        add(rt.alloc(), &mut files, path.as_str(), &[]).expect(rt, "memory");
    }
    files
}

#[test]
fn many_files(rt: HostRuntime) {
    expect(&rt, empty_files(&rt, 4096), "links");
    // The last by the bytes of the paths is the one too many.
    expect(&rt, empty_files(&rt, 4097), "f999.proto:0: 35 TooManyFiles");
}

// A path with so many letters before its end.
fn path_of<R: AllocGlobal + Abort>(rt: &R, letters: usize) -> String {
    let mut path = "a".repeat(rt.alloc(), letters).expect(rt, "memory");
    path.push_str(".proto").expect(rt, "memory");
    path
}

fn expect_path<R: AllocGlobal + Abort>(rt: &R, path: &str, said: &str) {
    let mut files = Vec::new(rt.alloc());
    add(rt.alloc(), &mut files, path, &[]).expect(rt, "memory");
    expect(rt, files, said);
}

#[test]
fn long_paths(rt: HostRuntime) {
    let longest = path_of(&rt, 249);
    assert!(rt; longest.len() == 255);
    expect_path(&rt, longest.as_str(), "links");
    let longer = path_of(&rt, 250);
    let path = longer.as_str();
    let said = format!(in rt.alloc(); "{path}:0: 33 BadPath").expect(&rt, "memory");
    expect_path(&rt, path, said.as_str());
}

// A file with this number, which imports so, and declares a message.
fn add_link<R: AllocGlobal + Abort>(rt: &R, files: &mut Given, file: u32, import: &str) {
    let path = format!(in rt.alloc(); "f{file}.proto").expect(rt, "memory");
    let text = format!(in rt.alloc(); "{import} message M{file} {{}}").expect(rt, "memory");
    add(rt.alloc(), files, path.as_str(), text.as_str().as_bytes()).expect(rt, "memory");
}

// 4,000 files, `f1001.proto` and so on, each of which imports the next, and declares a message. The last imports so.
fn chain<R: AllocGlobal + Abort>(rt: &R, how: &str, last: &str) -> Given {
    let mut files = Vec::new(rt.alloc());
    for file in 1001..5000_u32 {
        let next = file.wrapping_add(1);
        let import = format!(in rt.alloc(); "import {how}\"f{next}.proto\";").expect(rt, "memory");
        add_link(rt, &mut files, file, import.as_str());
    }
    add_link(rt, &mut files, 5000, last);
    files
}

const CHAIN: &[Told] = &[
    (Ask::Seen(0), "M1002", "seen"),
    (Ask::Seen(0), "M1003", "not seen"),
    (Ask::Seen(3999), "M5000", "seen"),
];

#[test]
fn a_long_chain(rt: HostRuntime) {
    expect_linked(&rt, chain(&rt, "", ""), CHAIN);
}

const PUBLIC_CHAIN: &[Told] = &[
    (Ask::Seen(0), "M5000", "seen"),
    (Ask::Seen(3999), "M4999", "not seen"),
];

#[test]
fn a_long_public_chain(rt: HostRuntime) {
    expect_linked(&rt, chain(&rt, "public ", ""), PUBLIC_CHAIN);
}

#[test]
fn a_long_cycle(rt: HostRuntime) {
    let to_first = chain(&rt, "", "import \"f1001.proto\";");
    expect(&rt, to_first, "f1001.proto:7: 12 ImportCycle");
    let to_last_but_one = chain(&rt, "", "import \"f4999.proto\";");
    expect(&rt, to_last_but_one, "f4999.proto:7: 12 ImportCycle");
}
