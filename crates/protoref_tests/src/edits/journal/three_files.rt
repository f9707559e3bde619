//! A rename of three files: each store call of its commit fails in turn, and a recovery leads back.

use super::calls::said_of;
use proto_base::NoMemory;
use proto_journal::*;
use std::alloc::Global;
use std::process::Abort;

/// The path of each file, its text, and that after the rename of `M` to `N`.
const FILES: &[(&str, &str, &str)] = &[
    (
        "a.proto",
        "syntax = \"proto3\"; message M {}",
        "syntax = \"proto3\"; message N {}",
    ),
    (
        "b.proto",
        "syntax = \"proto3\"; import \"a.proto\"; message B { M m = 1; }",
        "syntax = \"proto3\"; import \"a.proto\"; message B { N m = 1; }",
    ),
    (
        "c.proto",
        "syntax = \"proto3\"; import \"a.proto\"; message C { M m = 1; }",
        "syntax = \"proto3\"; import \"a.proto\"; message C { N m = 1; }",
    ),
];

const OPEN: &str =
    "{\"edit\":{\"kind\":\"rename\",\"name\":\"M\",\"to\":\"N\"},\"files\":[{\"after\":31,\"before\":31,\"path\":\"a.proto\",\"splices\":[{\"at\":27,\"new\":\"N\",\"old\":\"M\"}]},{\"after\":59,\"before\":59,\"path\":\"b.proto\",\"splices\":[{\"at\":49,\"new\":\"N\",\"old\":\"M\"}]},{\"after\":59,\"before\":59,\"path\":\"c.proto\",\"splices\":[{\"at\":49,\"new\":\"N\",\"old\":\"M\"}]}],\"state\":\"open\",\"version\":2}\n";

const DONE: &str =
    "{\"edit\":{\"kind\":\"rename\",\"name\":\"M\",\"to\":\"N\"},\"files\":[{\"after\":31,\"before\":31,\"path\":\"a.proto\",\"splices\":[{\"at\":27,\"new\":\"N\",\"old\":\"M\"}]},{\"after\":59,\"before\":59,\"path\":\"b.proto\",\"splices\":[{\"at\":49,\"new\":\"N\",\"old\":\"M\"}]},{\"after\":59,\"before\":59,\"path\":\"c.proto\",\"splices\":[{\"at\":49,\"new\":\"N\",\"old\":\"M\"}]}],\"state\":\"done\",\"version\":2}\n";

/// An older entry of the first version, and what becomes of it in the second.
const FIRST: &str =
    "{\"files\":[{\"after\":48,\"before\":48,\"path\":\"a.proto\",\"splices\":[{\"at\":38,\"new\":\"d_e\",\"old\":\"b_c\"}]}],\"state\":\"done\",\"version\":1}\n";

const MOVED: &str =
    "{\"edit\":null,\"files\":[{\"after\":48,\"before\":48,\"path\":\"a.proto\",\"splices\":[{\"at\":38,\"new\":\"d_e\",\"old\":\"b_c\"}]}],\"state\":\"done\",\"version\":2}\n";

/// How many files are renamed in a store, and its journal behind the older entry.
type Left = (usize, &'static str);

const BEFORE: Left = (0, "");

/// The store's call that fails, whether its new bytes land, and how the store is then left.
const CUTS: &[(u64, bool, Left)] = &[
    (1, false, BEFORE),
    (1, true, BEFORE),
    (2, false, BEFORE),
    (2, true, (0, OPEN)),
    (3, false, (0, OPEN)),
    (3, true, (1, OPEN)),
    (4, false, (1, OPEN)),
    (4, true, (2, OPEN)),
    (5, false, (2, OPEN)),
    (5, true, (3, OPEN)),
    (6, false, (3, OPEN)),
    (6, true, (3, DONE)),
];

// The files, of which so many are renamed.
fn files_of(alloc: Global, renamed: usize) -> Result<Vec<(String, Vec<u8>)>, NoMemory> {
    let mut files = Vec::new(alloc);
    for (place, (path, old, new)) in FILES.iter().enumerate() {
        let text = if place < renamed { *new } else { *old };
        files.push((
            String::from_str(alloc, path)?,
            text.as_bytes().to_vec(alloc)?,
        ))?;
    }
    Ok(files)
}

// Whether the workspace has the files with none renamed.
fn is_before(workspace: &Workspace) -> bool {
    let files = workspace.files();
    for (place, (path, old, _)) in FILES.iter().enumerate() {
        if place >= files.len()
            || files.path(place as u32) != *path
            || files.source(place as u32).as_bytes() != old.as_bytes()
        {
            return false;
        }
    }
    files.len() == FILES.len()
}

// The commit answers that this call of the store failed, and the workspace is as before.
fn expect_cut<R: AllocGlobal + Abort>(rt: &R, store: &mut MemoryStore, call: u64, lands: bool) {
    assert!(rt; store.failures() < u64::MAX && call > 0);
    let mut workspace = load(rt.alloc(), store).expect(rt, "files");
    store.fail_at(call, lands);
    let edit = Edit::Rename {
        name: String::from_str(rt.alloc(), "M").expect(rt, "memory"),
        to: String::from_str(rt.alloc(), "N").expect(rt, "memory"),
    };
    let (number, name, _) = said_of(commit(rt.alloc(), store, &mut workspace, edit));
    let is_kept = is_before(&workspace);
    workspace.release();
    assert!(rt;
        number == 4 && name == "Store" && is_kept,
        "call {call}, {lands}: {number} {name}"
    );
}

// The recovery answers this, and leaves the store so.
fn expect_recovered<R: AllocGlobal + Abort>(
    rt: &R,
    store: &mut MemoryStore,
    is_led_back: bool,
    older: &str,
    left: Left,
) {
    assert!(rt; store.failures() < u64::MAX);
    let is_so = match recover(rt.alloc(), store) {
        Ok(is) => is == is_led_back,
        Err(_) => false,
    };
    assert!(rt; is_so, "recovered: {is_led_back}");
    expect_left(rt, store, older, left);
}

fn expect_left<R: AllocGlobal + Abort>(
    rt: &R,
    store: &mut MemoryStore,
    older: &str,
    (renamed, last): Left,
) {
    assert!(rt; store.failures() < u64::MAX);
    let held = store.read_journal().expect(rt, "a journal");
    let journal = format!(in rt.alloc(); "{older}{last}").expect(rt, "memory");
    assert!(rt; held.as_slice() == journal.as_bytes(), "not {journal}");
    assert!(rt; store.failures() < u64::MAX);
    let files = all_files(rt.alloc(), store).expect(rt, "files");
    let wanted = files_of(rt.alloc(), renamed).expect(rt, "memory");
    assert!(rt; files == wanted, "not {renamed} files");
}

// The commit is cut behind an older entry, which a write of the journal leaves as another.
fn expect_way_back<R: AllocGlobal + Abort>(
    rt: &R,
    (older, moved): (&str, &str),
    (call, lands, left): (u64, bool, Left),
) {
    let files = files_of(rt.alloc(), 0).expect(rt, "memory");
    let journal = older.as_bytes().to_vec(rt.alloc()).expect(rt, "memory");
    let mut store = MemoryStore::new(rt.alloc(), files, journal).expect(rt, "memory");
    expect_cut(rt, &mut store, call, lands);
    let (_, last) = left;
    let then = if last.is_empty() { older } else { moved };
    expect_left(rt, &mut store, then, left);
    let is_torn = last == OPEN;
    let after = if is_torn { BEFORE } else { left };
    expect_recovered(rt, &mut store, is_torn, then, after);
    expect_recovered(rt, &mut store, false, then, after);
}

#[test]
fn come_back_wherever_a_commit_is_cut(rt: HostRuntime) {
    for cut in CUTS {
        expect_way_back(&rt, ("", ""), *cut);
    }
}

// The older entry stays, in the second version from the first write on.
#[test]
fn come_back_behind_an_entry_of_the_first_version(rt: HostRuntime) {
    for cut in CUTS {
        expect_way_back(&rt, (FIRST, MOVED), *cut);
    }
}
