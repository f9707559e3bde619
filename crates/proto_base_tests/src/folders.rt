//! The folder store over folders that are there.

use crate::calls::is_held;
use crate::steps::{Ask, Change, Holds, LAST, Made, Seen, Step, in_new_folder, root_of, take_all};
use proto_store::{FolderStore, Store};
use std::process::Abort;
use std::rt::{Clock, Files};

const SCHEMA: &str = "p/a.proto";

const WRITTEN: &[Step] = &[
    ("", Holds::Made(Made::EmptyFolder)),
    ("p", Holds::Made(Made::Folder)),
    (SCHEMA, Holds::Made(Made::Text("syntax = \"proto3\";"))),
];

const GONE: &[(&str, &str)] = &[(SCHEMA, "syntax = \"proto3\";")];

#[test]
fn fails_once_its_folder_is_gone(rt: HostRuntime) {
    let root = root_of(&rt, &rt, "gone");
    expect_gone(&rt, &rt, root.as_str());
}

// The store of this folder holds what is written there, and fails once that is gone.
fn expect_gone(abort: &impl Abort, rt: &HostRuntime, root: &str) {
    let mut store = FolderStore::new(rt, root);
    take_all(abort, rt, root, WRITTEN);
    expect_held(abort, &mut store);
    take_all(abort, rt, root, LAST);
    expect_failures(abort, &mut store);
}

fn expect_held(abort: &impl Abort, store: &mut FolderStore<'_, HostRuntime>) {
    assert!(abort; is_held(abort, store, GONE, "") && store.failures() == 0);
}

fn expect_failures<R: Files + Clock + AllocGlobal>(
    rt: &impl Abort,
    store: &mut FolderStore<'_, R>,
) {
    assert!(rt; store.failures() < u64::MAX);
    let lists = store.list().is_ok();
    assert!(rt; store.failures() < u64::MAX);
    let reads = store.read(SCHEMA).is_ok();
    assert!(rt; !lists && !reads && store.failures() == 2);
}

#[test]
fn replaces_files(rt: HostRuntime) {
    for bits in [0o600, 0o644, 0o755, 0o660] {
        let mode = [(SCHEMA, Holds::Made(Made::Mode(bits)))];
        let kept = [(SCHEMA, Holds::Seen(Seen::Mode(0o777, bits)))];
        in_new_folder(&rt, &rt, "files", &[&mode, REPLACED, &kept, NOT_MADE]);
    }
}

const REPLACED: &[Step] = &[
    (
        "",
        Holds::Changed(Change::Replace(SCHEMA, "longer than before")),
    ),
    (SCHEMA, Holds::Seen(Seen::Text("longer than before"))),
    ("", Holds::Changed(Change::Replace(SCHEMA, ""))),
    (SCHEMA, Holds::Seen(Seen::Text(""))),
    ("p/.protoref-new", Holds::Seen(Seen::Nothing)),
];

// What is not there is not made.
const NOT_MADE: &[Step] = &[
    ("", Holds::Failed(Change::Replace("p/b.proto", "B"))),
    ("p/b.proto", Holds::Seen(Seen::Nothing)),
    ("p/.protoref-new", Holds::Seen(Seen::Nothing)),
];

#[test]
fn clears_what_was_left(rt: HostRuntime) {
    in_new_folder(&rt, &rt, "left", &[LEFT, LEFT_LINK]);
    // The second time nothing is left to remove.
    in_new_folder(&rt, &rt, "leftovers", &[LEFTOVERS, CLEARED, CLEARED]);
    in_new_folder(&rt, &rt, "unclear", &[UNCLEAR]);
}

// What is in the way stays until it is cleared.
const LEFT: &[Step] = &[
    (
        "p/.protoref-new",
        Holds::Made(Made::Text("of an earlier run")),
    ),
    ("", Holds::Failed(Change::Replace(SCHEMA, "B"))),
    (SCHEMA, Holds::Seen(Seen::Text("A"))),
    (
        "p/.protoref-new",
        Holds::Seen(Seen::Text("of an earlier run")),
    ),
    ("", Holds::Changed(Change::Clear)),
    ("", Holds::Changed(Change::Replace(SCHEMA, "B"))),
    (SCHEMA, Holds::Seen(Seen::Text("B"))),
];

// A link that stands there goes, and what it leads to stays.
const LEFT_LINK: &[Step] = &[
    ("p/other.txt", Holds::Made(Made::Text("other"))),
    ("p/.protoref-new", Holds::Made(Made::Link("p/other.txt"))),
    ("", Holds::Failed(Change::Replace(SCHEMA, "C"))),
    ("", Holds::Changed(Change::Clear)),
    ("", Holds::Changed(Change::Replace(SCHEMA, "C"))),
    (SCHEMA, Holds::Seen(Seen::Text("C"))),
    ("p/other.txt", Holds::Seen(Seen::Text("other"))),
    ("p/.protoref-new", Holds::Seen(Seen::Nothing)),
];

const LEFTOVERS: &[Step] = &[
    ("p/q", Holds::Made(Made::Folder)),
    ("s", Holds::Made(Made::Folder)),
    ("d/.protoref-new", Holds::Made(Made::Folder)),
    (".git", Holds::Made(Made::Folder)),
    ("linked", Holds::Made(Made::Link(".git"))),
    ("s/.protoref-new", Holds::Made(Made::Link(SCHEMA))),
    ("p/.protoref-new", Holds::Made(Made::Text("cut off"))),
    ("p/q/.protoref-new", Holds::Made(Made::Text("cut off"))),
    (".git/.protoref-new", Holds::Made(Made::Text("cut off"))),
    ("p/protoref-new", Holds::Made(Made::Text("cut off"))),
    ("p/.protoref-newer", Holds::Made(Made::Text("cut off"))),
    ("p/.protoref-new2", Holds::Made(Made::Text("cut off"))),
    ("s/.protoref-new2", Holds::Made(Made::Text("cut off"))),
    ("", Holds::Changed(Change::Note("J"))),
    (".protoref-new", Holds::Made(Made::Text("cut off"))),
    ("", Holds::Asked(Ask::OnePath(SCHEMA))),
];

const CLEARED: &[Step] = &[
    ("", Holds::Changed(Change::Clear)),
    (".protoref-new", Holds::Seen(Seen::Nothing)),
    ("p/.protoref-new", Holds::Seen(Seen::Nothing)),
    ("p/.protoref-new2", Holds::Seen(Seen::Nothing)),
    ("s/.protoref-new2", Holds::Seen(Seen::Nothing)),
    ("p/q/.protoref-new", Holds::Seen(Seen::Nothing)),
    ("s/.protoref-new", Holds::Seen(Seen::Nothing)),
    ("d/.protoref-new", Holds::Seen(Seen::Something)),
    (".git/.protoref-new", Holds::Seen(Seen::Text("cut off"))),
    ("p/protoref-new", Holds::Seen(Seen::Text("cut off"))),
    ("p/.protoref-newer", Holds::Seen(Seen::Text("cut off"))),
    (SCHEMA, Holds::Seen(Seen::Text("A"))),
    (".protoref-journal", Holds::Seen(Seen::Text("J"))),
    ("", Holds::Asked(Ask::OnePath(SCHEMA))),
];

// No folder is there that could be cleared.
const UNCLEAR: &[Step] = &[
    ("gone", Holds::Asked(Ask::NoFolder)),
    (SCHEMA, Holds::Asked(Ask::NoFolder)),
    ("", Holds::AskedNowhere(Ask::NoFolder)),
    (SCHEMA, Holds::Seen(Seen::Text("A"))),
];

#[test]
fn follows_no_link(rt: HostRuntime) {
    in_new_folder(&rt, &rt, "links", &[LINKS]);
}

const LINKS: &[Step] = &[
    ("link.proto", Holds::Made(Made::Link(SCHEMA))),
    ("linked", Holds::Made(Made::Link("p"))),
    ("", Holds::Asked(Ask::NoFile("link.proto"))),
    ("", Holds::Asked(Ask::NoFile("linked/a.proto"))),
    ("", Holds::Asked(Ask::NoFile("p/a.proto/b.proto"))),
    ("", Holds::Asked(Ask::NoFile("p"))),
    ("", Holds::Asked(Ask::NoFile("p/../p/a.proto"))),
    ("", Holds::Asked(Ask::NoFile("p//a.proto"))),
    ("", Holds::Asked(Ask::NoFile("/p/a.proto"))),
    ("", Holds::Asked(Ask::NoFile(""))),
    (SCHEMA, Holds::Seen(Seen::Text("A"))),
    // The root itself may be a link.
    ("linked", Holds::Asked(Ask::File("a.proto", "A"))),
];

#[test]
fn keeps_a_journal_that_is_a_file(rt: HostRuntime) {
    in_new_folder(&rt, &rt, "journal", &[JOURNALS]);
    in_new_folder(&rt, &rt, "no-journal", &[NO_JOURNAL]);
    in_new_folder(&rt, &rt, "long", &[LONG]);
}

const JOURNALS: &[Step] = &[
    ("", Holds::Asked(Ask::Journal(""))),
    ("", Holds::Changed(Change::Note("one\n"))),
    ("", Holds::Asked(Ask::Journal("one\n"))),
    (".protoref-journal", Holds::Seen(Seen::Mode(0o133, 0))),
    (".protoref-journal", Holds::Made(Made::Mode(0o600))),
    ("", Holds::Changed(Change::Note("two\n"))),
    (".protoref-journal", Holds::Seen(Seen::Text("two\n"))),
    (".protoref-journal", Holds::Seen(Seen::Mode(0o777, 0o600))),
    ("", Holds::Asked(Ask::OnePath(SCHEMA))),
    (".protoref-new", Holds::Seen(Seen::Nothing)),
];

// The journal is no file.
const NO_JOURNAL: &[Step] = &[
    (".protoref-journal", Holds::Made(Made::Link(SCHEMA))),
    ("", Holds::Asked(Ask::NoJournal)),
    (SCHEMA, Holds::Seen(Seen::Text("A"))),
    ("p/.protoref-journal", Holds::Made(Made::Folder)),
    ("p", Holds::Asked(Ask::NoJournal)),
    ("gone", Holds::Asked(Ask::NoJournal)),
    (SCHEMA, Holds::Asked(Ask::NoJournal)),
    ("", Holds::AskedNowhere(Ask::NoJournal)),
];

// A journal that is too long.
const LONG: &[Step] = &[
    (".protoref-journal", Holds::Made(Made::Length(16_777_216))),
    ("", Holds::Asked(Ask::JournalLength(16_777_216))),
    (".protoref-journal", Holds::Made(Made::Length(16_777_217))),
    ("", Holds::Asked(Ask::JournalLength(16_777_217))),
    (".protoref-journal", Holds::Made(Made::Length(20_000_000))),
    ("", Holds::Asked(Ask::JournalLength(16_777_217))),
];
