//! Lists that are changed and taken back, and references once those of some files are others, with
//! lists worked out by hand.

use crate::expect::expect;
use proto_base::{NoMemory, change_at, roll_back};
use proto_file_sets::FileSet;
use proto_names_affected::renewed;
use proto_names_table::RefId;
use std::process::Abort;

/// A list, two changes of it by place and letter, and the list after them.
const CHANGED: &[(&str, usize, u8, usize, u8, &str)] = &[
    ("abc", 0, b'x', 2, b'y', "xby"),
    ("abc", 2, b'x', 1, b'y', "ayx"),
    // One place twice: it is the first change that has what stood there at first.
    ("abc", 1, b'x', 1, b'y', "ayc"),
    ("abc", 1, b'x', 1, b'b', "abc"),
    ("a", 0, b'a', 0, b'x', "x"),
];

fn leads_back<R: AllocGlobal + Abort>(
    rt: &R,
    before: &str,
    first: (usize, u8),
    second: (usize, u8),
    after: &str,
) -> bool {
    let mut items = Vec::from_slice(rt.alloc(), before.as_bytes()).expect(rt, "memory");
    let mut log = Vec::new(rt.alloc());
    assert!(rt; first.0 < items.len() && second.0 < items.len());
    change_at(&mut items, &mut log, first.0, first.1).expect(rt, "memory");
    change_at(&mut items, &mut log, second.0, second.1).expect(rt, "memory");
    let is_changed = items.as_slice() == after.as_bytes();
    roll_back(&mut items, &mut log);
    is_changed && items.as_slice() == before.as_bytes() && log.is_empty()
}

#[test]
fn changes_are_taken_back(rt: HostRuntime) {
    for (before, place, letter, other, further, after) in CHANGED {
        let leads = leads_back(&rt, before, (*place, *letter), (*other, *further), after);
        expect(&rt, leads, after);
    }
}

const fn at(file: u32, token: u32) -> RefId {
    RefId { file, token }
}

/// The set of the files for which a value is true.
fn set_of<R: AllocGlobal + Abort>(rt: &R, members: &[bool]) -> FileSet {
    let mut set = FileSet::new(rt.alloc(), members.len()).expect(rt, "memory");
    for index in 0..members.len() {
        if members[index] {
            set.insert_at(index);
        }
    }
    set
}

fn are_renewed<R: AllocGlobal + Abort>(
    rt: &R,
    old: &[RefId],
    changed: &[bool],
    fresh: &[RefId],
    all: &[RefId],
) -> bool {
    let changed = set_of(rt, changed);
    let found = renewed(rt.alloc(), old, &changed, fresh).expect(rt, "memory");
    found.as_slice() == all
}

/// References, whether each file is changed, the references that these have now, and all of them
/// then.
const RENEWED: &[(&[RefId], &[bool], &[RefId], &[RefId], &str)] = &[
    (OLD, CHANGED_FILES, FRESH, BETWEEN, "between"),
    (OLD, CHANGED_FILES, &[], UNCHANGED, "gone"),
    (&[], CHANGED_FILES, FRESH, FRESH, "come"),
    (OLD, &[], &[], OLD, "unchanged"),
    (OLD, ALL_CHANGED, LAST, LAST, "all changed"),
];

const CHANGED_FILES: &[bool] = &[false, true, true, false];

const ALL_CHANGED: &[bool] = &[true, true, false, false, true, true];

const OLD: &[RefId] = &[
    RefId { file: 0, token: 3 },
    RefId { file: 1, token: 5 },
    RefId { file: 1, token: 9 },
    RefId { file: 4, token: 2 },
];

const FRESH: &[RefId] = &[
    RefId { file: 1, token: 4 },
    RefId { file: 2, token: 0 },
    RefId { file: 2, token: 8 },
];

const BETWEEN: &[RefId] = &[
    RefId { file: 0, token: 3 },
    RefId { file: 1, token: 4 },
    RefId { file: 2, token: 0 },
    RefId { file: 2, token: 8 },
    RefId { file: 4, token: 2 },
];

// The old ones of files that are not changed.
const UNCHANGED: &[RefId] = &[RefId { file: 0, token: 3 }, RefId { file: 4, token: 2 }];

const LAST: &[RefId] = &[RefId { file: 3, token: 1 }, RefId { file: 5, token: 0 }];

#[test]
fn references_are_renewed(rt: HostRuntime) {
    for (old, changed, fresh, all, row) in RENEWED {
        expect(&rt, are_renewed(&rt, old, changed, fresh, all), row);
    }
}

// A list of so many zeros, of which each is made one and taken back.
fn are_all_taken_back<R: AllocGlobal + Abort>(rt: &R, count: usize) -> bool {
    let mut items = Vec::from_slice(rt.alloc(), [0u8; 4096].as_slice()).expect(rt, "memory");
    let mut log = Vec::new(rt.alloc());
    for place in 0..count {
        assert!(rt; place < items.len());
        change_at(&mut items, &mut log, place, 1).expect(rt, "memory");
    }
    let is_changed = items.as_slice() == [1u8; 4096].as_slice() && log.len() == count;
    roll_back(&mut items, &mut log);
    is_changed && items.as_slice() == [0u8; 4096].as_slice() && log.is_empty()
}

#[test]
fn many_changes_are_taken_back(rt: HostRuntime) {
    expect(&rt, are_all_taken_back(&rt, 4096), "4,096 changes");
}

// A reference of each of so many files, the even ones of which are changed and have theirs one token further.
fn are_many_renewed<R: AllocGlobal + Abort>(rt: &R, count: u32) -> bool {
    let mut old = Vec::new(rt.alloc());
    let mut changed = Vec::new(rt.alloc());
    let mut fresh = Vec::new(rt.alloc());
    let mut all = Vec::new(rt.alloc());
    for file in 0..count {
        let is_even = file % 2 == 0;
        old.push(at(file, 1)).expect(rt, "memory");
        changed.push(is_even).expect(rt, "memory");
        if is_even {
            fresh.push(at(file, 2)).expect(rt, "memory");
        }
        let token = if is_even { 2 } else { 1 };
        all.push(at(file, token)).expect(rt, "memory");
    }
    are_renewed(rt, &old, &changed, &fresh, &all)
}

#[test]
fn references_of_many_files_are_renewed(rt: HostRuntime) {
    expect(&rt, are_many_renewed(&rt, 4096), "4,096 files");
}

// Fails only where memory is refused; the list and its log have not changed then.
fn expect_change<R: AllocGlobal + Abort>(rt: &R) -> Result<(), NoMemory> {
    let mut items = Vec::from_slice(rt.alloc(), "ab".as_bytes())?;
    let mut log = Vec::new(rt.alloc());
    assert!(rt; items.len() == 2);
    let answer = change_at(&mut items, &mut log, 1, b'x');
    let (list, count) = if answer.is_ok() { ("ax", 1) } else { ("ab", 0) };
    assert!(rt; items.as_slice() == list.as_bytes() && log.len() == count);
    answer
}

// Fails only where memory is refused.
fn expect_renewed<R: AllocGlobal + Abort>(rt: &R) -> Result<(), NoMemory> {
    let changed = FileSet::all(rt.alloc(), 1)?;
    let found = renewed(rt.alloc(), &[at(0, 1)], &changed, &[at(0, 2), at(0, 3)])?;
    assert!(rt; found.as_slice() == [at(0, 2), at(0, 3)].as_slice());
    Ok(())
}

/// In a run that refuses one allocation this test still passes, whichever it is.
#[test]
fn one_is_refused(rt: HostRuntime) {
    assert!(rt; expect_change(&rt).is_ok() || expect_change(&rt).is_ok());
    assert!(rt; expect_renewed(&rt).is_ok() || expect_renewed(&rt).is_ok());
}
