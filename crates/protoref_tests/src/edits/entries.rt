//! Entries that are made by hand.

use super::calls::texts;
use super::rows::{DONE, ONE};
use proto_journal::{Change, Entry};
use proto_text::{Splice, Splices};
use protoref_test_cases::{Said, Step, are_texts, edit_of, is_said, open};
use std::process::Abort;

/// A change: the path of a file, its lengths before and after, and where its one splice stands, with the old and the new text.
type Made = (&'static str, u32, u32, u32, &'static str, &'static str);

fn add_change<R: AllocGlobal + Abort>(rt: &R, changes: &mut Vec<Change>, made: Made) {
    let (path, before, after, at, old, new) = made;
    let old = String::from_str(rt.alloc(), old).expect(rt, "memory");
    let new = String::from_str(rt.alloc(), new).expect(rt, "memory");
    let mut splices = Vec::new(rt.alloc());
    splices.push(Splice { at, old, new }).expect(rt, "memory");
    changes
        .push(Change {
            path: String::from_str(rt.alloc(), path).expect(rt, "memory"),
            before,
            after,
            splices: Splices::new(splices).expect(rt, "splices"),
        })
        .expect(rt, "memory");
}

fn entry_of<R: AllocGlobal + Abort>(rt: &R, made: &[Made]) -> Option<Entry> {
    let mut changes = Vec::new(rt.alloc());
    for change in made {
        add_change(rt, &mut changes, *change);
    }
    Entry::new(changes)
}

/// A change, and whether it is an entry.
const MADE: &[(Made, bool)] = &[
    (("a.proto", 48, 48, 38, "b_c", "d_e"), true),
    (("a.proto", 48, 46, 38, "d_e", "f"), true),
    (("a.proto", 41, 41, 38, "b_c", "d_e"), true),
    (("a.proto", 40, 40, 38, "b_c", "d_e"), false),
    (("a.proto", 48, 49, 38, "b_c", "d_e"), false),
    (("a.proto", 48, 48, 38, "b_c", "b_c"), false),
    (("a.txt", 48, 48, 38, "b_c", "d_e"), false),
];

#[test]
fn have_rules(rt: HostRuntime) {
    assert!(rt; entry_of(&rt, &[]).is_none());
    for (made, is_entry) in MADE {
        assert!(rt; entry_of(&rt, &[*made]).is_some() == *is_entry);
    }
}

// ---- a workspace beside its edit

const STEP: Step<'static> = ("rename", "A.b_c", "d_e", "");

const STALE: Said<'static> = (17, "Stale");

// The entry leads from the edited workspace back to the first one, which it does not fit.
#[test]
fn leave_a_workspace_beside_its_edit(rt: HostRuntime) {
    let workspace = open(rt.alloc(), ONE).expect(&rt, "a workspace");
    let edit = edit_of(rt.alloc(), STEP).expect(&rt, "memory");
    let (edited, entry) = workspace
        .with_edit(rt.alloc(), &edit)
        .expect(&rt, "an entry");
    assert!(rt; are_texts(&workspace, ONE) && are_texts(&edited, DONE));
    let again = edited
        .without_entry(rt.alloc(), &entry)
        .expect(&rt, "the way back");
    assert!(rt; are_texts(&again, ONE));
    again.release();
    let answer = match workspace.without_entry(rt.alloc(), &entry) {
        Ok(other) => {
            other.release();
            Ok(())
        }
        Err(refusal) => Err(refusal),
    };
    assert!(rt; is_said(answer, STALE));
    assert!(rt; are_texts(&workspace, ONE) && are_texts(&edited, DONE));
    edited.release();
    workspace.release();
}

// ---- the way back

/// Files as texts, of how many the entry from `M` to `N` speaks, what its undoing answers, and other files afterwards.
type Back = (&'static str, usize, Said<'static>, &'static str);

const UNDONE: Said<'static> = (0, "done");

// One file more stays as it is; where one is absent or not as it was left, or `M` would be there twice or not be found, nothing
// changes.
const BACK: &[Back] = &[
    (
        "a.proto syntax = \"proto3\"; message N {}|b.proto syntax = \"proto3\"; import \"a.proto\"; message B { N m = 1; }",
        2,
        UNDONE,
        "a.proto syntax = \"proto3\"; message M {}|b.proto syntax = \"proto3\"; import \"a.proto\"; message B { M m = 1; }",
    ),
    (
        "0.proto package z;|a.proto syntax = \"proto3\"; message N {}|b.proto syntax = \"proto3\"; import \"a.proto\"; message B { N m = 1; }",
        2,
        UNDONE,
        "0.proto package z;|a.proto syntax = \"proto3\"; message M {}|b.proto syntax = \"proto3\"; import \"a.proto\"; message B { M m = 1; }",
    ),
    (
        "a.proto syntax = \"proto3\"; message M {}|b.proto syntax = \"proto3\"; import \"a.proto\"; message B { M m = 1; }",
        2,
        STALE,
        "",
    ),
    ("a.proto syntax = \"proto3\"; message N {}", 2, STALE, ""),
    (
        "a.proto syntax = \"proto3\"; message N {}|b.proto syntax = \"proto3\"; import \"a.proto\"; message B { N m = 1; }",
        1,
        STALE,
        "",
    ),
    (
        "a.proto syntax = \"proto3\"; message N {}|b.proto syntax = \"proto3\"; import \"a.proto\"; message B { N m = 1; }|c.proto syntax = \"proto3\"; import \"a.proto\"; message C { M m = 1; } message M {}",
        2,
        STALE,
        "",
    ),
];

const CHANGE: &[Made] = &[("a.proto", 31, 31, 27, "M", "N")];

const CHANGES: &[Made] = &[
    ("a.proto", 31, 31, 27, "M", "N"),
    ("b.proto", 59, 59, 49, "M", "N"),
];

fn expect_back<R: AllocGlobal + Abort>(rt: &R, (files, count, answer, after): Back) {
    let after = if after.is_empty() { files } else { after };
    let after = texts(rt.alloc(), after).expect(rt, "memory");
    let files = texts(rt.alloc(), files).expect(rt, "memory");
    let mut workspace = open(rt.alloc(), files.as_slice()).expect(rt, "a workspace");
    let changes = if count > 1 { CHANGES } else { CHANGE };
    let entry = entry_of(rt, changes).expect(rt, "an entry");
    assert!(rt; is_said(workspace.undo(rt.alloc(), &entry), answer));
    assert!(rt; are_texts(&workspace, after.as_slice()));
    workspace.release();
}

#[test]
fn are_undone_in_any_files(rt: HostRuntime) {
    for back in BACK {
        expect_back(&rt, *back);
    }
}
