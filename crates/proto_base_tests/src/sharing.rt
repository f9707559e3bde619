//! The folder store where others write its folder too.

use crate::steps::{Ask, Change, Holds, LAST, Made, Seen, Step, in_new_folder, root_of, take_all};
use proto_store::{FolderStore, Store};
use std::process::Abort;
use std::thread;
use std::time::Duration;

const SCHEMA: &str = "p/a.proto";

const JOURNAL: &str = ".protoref-journal";

const BEGUN: &[Step] = &[
    ("", Holds::Made(Made::EmptyFolder)),
    ("p", Holds::Made(Made::Folder)),
    (SCHEMA, Holds::Made(Made::Text("A"))),
];

#[test]
fn locks_its_folder(rt: HostRuntime) {
    let root = root_of(&rt, &rt, "locked");
    take_all(&rt, &rt, root.as_str(), BEGUN);
    let mut first = FolderStore::new(&rt, root.as_str());
    expect_locked(&rt, &mut first, true);
    // Who has it keeps it.
    expect_locked(&rt, &mut first, true);
    let mut second = FolderStore::new(&rt, root.as_str());
    expect_locked(&rt, &mut second, false);
    drop(first);
    expect_locked(&rt, &mut second, true);
    // Nothing was written for it.
    take_all(&rt, &rt, root.as_str(), ALONE);
    take_all(&rt, &rt, root.as_str(), LAST);
}

const ALONE: &[Step] = &[(JOURNAL, Holds::Seen(Seen::Nothing))];

#[test]
fn locks_no_folder_that_is_none(rt: HostRuntime) {
    let root = root_of(&rt, &rt, "unlocked");
    expect_locked(&rt, &mut FolderStore::new(&rt, root.as_str()), false);
    expect_locked(&rt, &mut FolderStore::new(&rt, ""), false);
}

fn expect_locked(abort: &impl Abort, store: &mut FolderStore<'_, HostRuntime>, is_locked: bool) {
    let before = store.failures();
    assert!(abort; before < u64::MAX);
    let is_held = store.lock().is_ok();
    let is_counted = store.failures() > before;
    assert!(abort;
        is_held == is_locked && is_counted != is_locked,
        "not {is_locked}"
    );
}

/// What a store does before somebody else writes its folder.
#[derive(Clone, Copy)]
struct First {
    locks: bool,
    lists: bool,
    /// So that what is then changed has another time than the file.
    waits: bool,
}

const READS: First = First {
    locks: false,
    lists: false,
    waits: false,
};

/// Which of the file and the journal the store then writes.
#[derive(Clone, Copy)]
enum Written {
    NotBoth,
    These(bool, bool),
}

/// What a store does first, what somebody else does, what the store then writes, and what stands
/// there in the end.
type Row = (First, &'static [Step], Written, &'static [Step]);

fn expect_rows(abort: &impl Abort, rt: &HostRuntime, name: &str, rows: &[Row]) {
    let root = root_of(abort, rt, name);
    for (place, row) in rows.iter().enumerate() {
        expect_row(abort, rt, root.as_str(), place, *row);
    }
}

fn expect_row(
    abort: &impl Abort,
    rt: &HostRuntime,
    root: &str,
    place: usize,
    (first, meant, written, kept): Row,
) {
    take_all(abort, rt, root, BEGUN);
    let is_so = is_written(written, write_after(abort, rt, root, first, meant));
    assert!(abort; is_so, "at row {place} from 0");
    take_all(abort, rt, root, kept);
    take_all(abort, rt, root, SECONDS);
    take_all(abort, rt, root, LAST);
}

fn is_written(wanted: Written, (file, journal): (bool, bool)) -> bool {
    match wanted {
        Written::NotBoth => !file || !journal,
        Written::These(is_file, is_journal) => file == is_file && journal == is_journal,
    }
}

// Whether the file and the journal could be written by a store that had read them before these
// steps.
fn write_after(
    abort: &impl Abort,
    rt: &HostRuntime,
    root: &str,
    first: First,
    meant: &[Step],
) -> (bool, bool) {
    let mut store = FolderStore::new(rt, root);
    begin(abort, rt, &mut store, first);
    take_all(abort, rt, root, meant);
    write_both(abort, &mut store)
}

fn begin(
    abort: &impl Abort,
    rt: &HostRuntime,
    store: &mut FolderStore<'_, HostRuntime>,
    first: First,
) {
    if first.locks {
        expect_locked(abort, store, true);
    }
    expect_read(abort, store);
    if first.lists {
        expect_list(abort, store);
    }
    if first.waits {
        thread::sleep(rt, Duration::from_millis(30));
    }
}

fn expect_list(abort: &impl Abort, store: &mut FolderStore<'_, HostRuntime>) {
    assert!(abort; store.failures() < u64::MAX);
    let lists = store.list().is_ok();
    assert!(abort; lists);
}

#[test]
fn keeps_what_another_has_written_since(rt: HostRuntime) {
    expect_rows(&rt, &rt, "meddled", MEDDLED);
}

const MEDDLED: &[Row] = &[
    // In place.
    (
        READS,
        &[(SCHEMA, Holds::Made(Made::Text("by hand")))],
        Written::NotBoth,
        &[
            (SCHEMA, Holds::Seen(Seen::Text("by hand"))),
            (JOURNAL, Holds::Seen(Seen::Text("J"))),
        ],
    ),
    // By another file that is moved there, with as many bytes.
    (
        READS,
        &[
            ("p/b", Holds::Made(Made::Text("B"))),
            (SCHEMA, Holds::Made(Made::Moved("p/b"))),
        ],
        Written::NotBoth,
        &[(SCHEMA, Holds::Seen(Seen::Text("B")))],
    ),
    // By none.
    (
        READS,
        &[(SCHEMA, Holds::Made(Made::NoFile))],
        Written::NotBoth,
        &[(SCHEMA, Holds::Seen(Seen::Nothing))],
    ),
    // A second file of another run.
    (
        READS,
        &[("p/.protoref-new", Holds::Made(Made::Text("another's")))],
        Written::NotBoth,
        &[
            (SCHEMA, Holds::Seen(Seen::Text("A"))),
            ("p/.protoref-new", Holds::Seen(Seen::Text("another's"))),
            ("p/.protoref-new", Holds::Made(Made::NoFile)),
        ],
    ),
    // A journal where none was.
    (
        READS,
        &[(JOURNAL, Holds::Made(Made::Text("another's")))],
        Written::NotBoth,
        &[
            (SCHEMA, Holds::Seen(Seen::Text("C"))),
            (JOURNAL, Holds::Seen(Seen::Text("another's"))),
        ],
    ),
];

// Who asks before the first write is told of all that, and nothing is written for it.
#[test]
fn tells_what_is_in_the_way(rt: HostRuntime) {
    let root = root_of(&rt, &rt, "ahead");
    expect_way(&rt, &rt, root.as_str(), &[], true);
    for (_, meant, _, _) in MEDDLED {
        expect_way(&rt, &rt, root.as_str(), meant, false);
    }
}

fn expect_way(abort: &impl Abort, rt: &HostRuntime, root: &str, meant: &[Step], is_clear: bool) {
    take_all(abort, rt, root, BEGUN);
    let mut store = FolderStore::new(rt, root);
    expect_read(abort, &mut store);
    take_all(abort, rt, root, meant);
    expect_told(abort, &mut store, is_clear);
    take_all(abort, rt, root, LAST);
}

fn expect_told(abort: &impl Abort, store: &mut FolderStore<'_, HostRuntime>, is_clear: bool) {
    assert!(abort; store.failures() < u64::MAX);
    let may_replace = store.may_replace(&[SCHEMA]).is_ok();
    let failures = if is_clear { 0 } else { 1 };
    assert!(abort; may_replace == is_clear && store.failures() == failures);
}

const SECONDS: &[Step] = &[
    (".protoref-new", Holds::Seen(Seen::Nothing)),
    ("p/.protoref-new", Holds::Seen(Seen::Nothing)),
];

fn expect_read(abort: &impl Abort, store: &mut FolderStore<'_, HostRuntime>) {
    assert!(abort; store.failures() < u64::MAX);
    let reads = store.read(SCHEMA).is_ok();
    assert!(abort; store.failures() < u64::MAX);
    let reads_journal = store.read_journal().is_ok();
    assert!(abort; reads && reads_journal);
}

// Whether the file and the journal could be written.
fn write_both(abort: &impl Abort, store: &mut FolderStore<'_, HostRuntime>) -> (bool, bool) {
    assert!(abort; store.failures() < u64::MAX);
    let file = store.replace(SCHEMA, b"C").is_ok();
    assert!(abort; store.failures() < u64::MAX);
    let journal = store.replace_journal(b"J").is_ok();
    (file, journal)
}

// A file whose mode another has changed is the one that was read, for a store that has locked its
// folder first; any other store keeps no digest of it.
#[test]
fn knows_a_file_whose_bytes_stay(rt: HostRuntime) {
    expect_rows(&rt, &rt, "same", SAME);
}

const SAME: &[Row] = &[
    (
        First {
            locks: true,
            lists: false,
            waits: true,
        },
        &[(SCHEMA, GROUPS)],
        Written::These(true, true),
        &[
            (SCHEMA, Holds::Seen(Seen::Text("C"))),
            (SCHEMA, Holds::Seen(Seen::Mode(0o777, 0o660))),
        ],
    ),
    (
        First {
            locks: false,
            lists: false,
            waits: true,
        },
        &[(SCHEMA, GROUPS)],
        Written::These(false, true),
        &[
            (SCHEMA, Holds::Seen(Seen::Text("A"))),
            (SCHEMA, Holds::Seen(Seen::Mode(0o777, 0o660))),
        ],
    ),
];

const GROUPS: Holds = Holds::Made(Made::Mode(0o660));

// A list is of one time: where another file is listed by the first write, that fails.
#[test]
fn writes_to_no_other_list(rt: HostRuntime) {
    expect_rows(&rt, &rt, "listed", LISTED);
}

const LISTED: &[Row] = &[
    (
        LISTS,
        &[("p/b.proto", Holds::Made(Made::Text("B")))],
        Written::These(false, false),
        &[],
    ),
    (
        LISTS,
        &[("p/b.txt", Holds::Made(Made::Text("B")))],
        Written::These(true, true),
        &[],
    ),
];

const LISTS: First = First {
    locks: false,
    lists: true,
    waits: false,
};

#[test]
fn writes_again_what_it_has_written(rt: HostRuntime) {
    let root = root_of(&rt, &rt, "again");
    take_all(&rt, &rt, root.as_str(), BEGUN);
    let mut store = FolderStore::new(&rt, root.as_str());
    expect_read(&rt, &mut store);
    for _ in 0..3 {
        let written = write_both(&rt, &mut store);
        assert!(&rt; written == (true, true));
    }
    take_all(&rt, &rt, root.as_str(), SECONDS);
    take_all(&rt, &rt, root.as_str(), LAST);
}

#[test]
fn opens_a_journal_to_nobody_else(rt: HostRuntime) {
    in_new_folder(&rt, &rt, "open", &[SECRET]);
}

// A schema that its owner and a group may read, and one that the owner and all others may.
const SECRET: &[Step] = &[
    (SCHEMA, Holds::Made(Made::Mode(0o640))),
    ("p/b.proto", Holds::Made(Made::Text("B"))),
    ("p/b.proto", Holds::Made(Made::Mode(0o604))),
    ("", Holds::Changed(Change::NoteListed("J"))),
    (JOURNAL, Holds::Seen(Seen::Mode(0o777, 0o600))),
];

#[test]
fn replaces_no_file_that_is_read_only(rt: HostRuntime) {
    in_new_folder(&rt, &rt, "read-only", &[READ_ONLY]);
}

const READ_ONLY: &[Step] = &[
    (SCHEMA, Holds::Made(Made::Mode(0o444))),
    ("", Holds::Failed(Change::Replace(SCHEMA, "B"))),
    (SCHEMA, Holds::Seen(Seen::Text("A"))),
    (SCHEMA, Holds::Seen(Seen::Mode(0o777, 0o444))),
    ("p/.protoref-new", Holds::Seen(Seen::Nothing)),
];

#[test]
fn reads_one_byte_too_many(rt: HostRuntime) {
    in_new_folder(&rt, &rt, "sparse", &[SPARSE]);
}

const SPARSE: &[Step] = &[
    (SCHEMA, Holds::Made(Made::Length(1_048_576))),
    ("", Holds::Asked(Ask::FileLength(SCHEMA, 1_048_576))),
    (SCHEMA, Holds::Made(Made::Length(1_073_741_824))),
    ("", Holds::Asked(Ask::FileLength(SCHEMA, 1_048_577))),
    ("", Holds::Asked(Ask::OnePath(SCHEMA))),
];
