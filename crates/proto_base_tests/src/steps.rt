//! What tests do in folders of their own, which they write in tables.

use crate::calls::is_text;
use proto_store::{FolderStore, Store, StoreFault};
use std::fs::Permissions;
use std::os::unix::fs::{PermissionsExt, symlink};
use std::process::Abort;
use std::{env, fs, io, process};

/// A path below the root of the test's folder, and what has to hold there. The empty path is the root itself.
pub(crate) type Step = (&'static str, Holds);

/// What has to hold at a path.
#[derive(Clone, Copy)]
pub(crate) enum Holds {
    /// The test itself puts this there.
    Made(Made),
    /// This is there.
    Seen(Seen),
    /// The store of that folder does this.
    Changed(Change),
    /// The store of that folder is to do this, and fails.
    Failed(Change),
    /// The store of that folder answers this.
    Asked(Ask),
    /// The store whose root is the empty word answers this.
    AskedNowhere(Ask),
}

/// What a test puts at a path.
#[derive(Clone, Copy)]
pub(crate) enum Made {
    /// A folder, and those above it.
    Folder,
    /// An empty folder, whatever was there.
    EmptyFolder,
    /// No folder, in place of the one that is there.
    NoFolder,
    /// A file of this text.
    Text(&'static str),
    /// No file, in place of the one that is there.
    NoFile,
    /// The file of another path below the root, which goes there.
    Moved(&'static str),
    /// A symbolic link to another path below the root.
    Link(&'static str),
    /// An empty file, made as long as this.
    Length(u64),
    /// This mode, for the file that is there.
    Mode(u32),
}

/// What is at a path.
#[derive(Clone, Copy)]
pub(crate) enum Seen {
    Nothing,
    Something,
    /// A file of this text.
    Text(&'static str),
    /// A file of whose mode these bits are as the second number says.
    Mode(u32, u32),
}

/// What a store changes.
#[derive(Clone, Copy)]
pub(crate) enum Change {
    /// The file at a path gets this text.
    Replace(&'static str, &'static str),
    /// The journal gets this text.
    Note(&'static str),
    /// The same, once the store has listed its files.
    NoteListed(&'static str),
    /// What was left goes.
    Clear,
}

/// What a store answers.
#[derive(Clone, Copy)]
pub(crate) enum Ask {
    /// The file at a path has this text.
    File(&'static str, &'static str),
    /// The file at a path is read as so many bytes.
    FileLength(&'static str, usize),
    /// There is no file to be read or replaced at a path.
    NoFile(&'static str),
    /// The journal has this text.
    Journal(&'static str),
    /// The journal has so many bytes.
    JournalLength(usize),
    /// There is no journal to be read or replaced.
    NoJournal,
    /// There is no folder where what was left could be cleared.
    NoFolder,
    /// This path is all that is listed.
    OnePath(&'static str),
}

const FIRST: &[Step] = &[
    ("", Holds::Made(Made::EmptyFolder)),
    ("p", Holds::Made(Made::Folder)),
    ("p/a.proto", Holds::Made(Made::Text("A"))),
];

/// The folder of the test goes.
pub(crate) const LAST: &[Step] = &[("", Holds::Made(Made::NoFolder))];

/// The path of the folder of a test.
pub(crate) fn root_of(abort: &impl Abort, rt: &HostRuntime, name: &str) -> String {
    let temporary = env::temp_dir(rt).expect(abort, "a folder for temporary files");
    let id = process::id(rt.process());
    format!(in rt.alloc(); "{}/protoref-{name}-{id}", temporary.as_str()).expect(abort, "memory")
}

/// Takes the steps of these tables in a new folder, with a file `p/a.proto` of one letter.
pub(crate) fn in_new_folder(abort: &impl Abort, rt: &HostRuntime, name: &str, tables: &[&[Step]]) {
    let root = root_of(abort, rt, name);
    take_all(abort, rt, root.as_str(), FIRST);
    for steps in tables {
        take_all(abort, rt, root.as_str(), steps);
    }
    take_all(abort, rt, root.as_str(), LAST);
}

/// Takes these steps.
pub(crate) fn take_all(abort: &impl Abort, rt: &HostRuntime, root: &str, steps: &[Step]) {
    for (place, (path, holds)) in steps.iter().enumerate() {
        let full_path = below(rt, root, path).expect(abort, "memory");
        let is_so = is_so(rt, root, full_path.as_str(), *holds);
        assert!(abort; is_so, "at step {place} from 0, at '{path}' below '{root}'");
    }
}

fn below(rt: &HostRuntime, root: &str, path: &str) -> io::Result<String> {
    let mut full_path = String::from_str(rt.alloc(), root)?;
    if !path.is_empty() {
        full_path.push('/')?;
        full_path.push_str(path)?;
    }
    Ok(full_path)
}

fn is_so(rt: &HostRuntime, root: &str, path: &str, holds: Holds) -> bool {
    match holds {
        Holds::Made(made) => make(rt, root, path, made).is_ok(),
        Holds::Seen(seen) => is_seen(rt, path, seen),
        Holds::Changed(change) => make_change(rt, path, change).is_ok(),
        Holds::Failed(change) => make_change(rt, path, change).is_err(),
        Holds::Asked(ask) => is_answered(rt, path, ask),
        Holds::AskedNowhere(ask) => is_answered(rt, "", ask),
    }
}

fn make(rt: &HostRuntime, root: &str, path: &str, made: Made) -> io::Result<()> {
    match made {
        Made::Folder => fs::create_dir_all(rt, path),
        Made::EmptyFolder => make_empty(rt, path),
        Made::NoFolder => fs::remove_dir_all(rt, path),
        Made::Text(text) => fs::write(rt, path, text),
        Made::NoFile => fs::remove_file(rt, path),
        Made::Moved(from) => bring(rt, root, from, path, false),
        Made::Link(to) => bring(rt, root, to, path, true),
        Made::Length(length) => make_as_long(rt, path, length),
        Made::Mode(bits) => fs::set_permissions(rt, path, Permissions::from_mode(bits)),
    }
}

fn make_empty(rt: &HostRuntime, path: &str) -> io::Result<()> {
    let _ = fs::remove_dir_all(rt, path);
    fs::create_dir_all(rt, path)
}

// Puts a link to another path below the root there, or else moves that file there.
fn bring(rt: &HostRuntime, root: &str, other: &str, path: &str, is_link: bool) -> io::Result<()> {
    let full_path = below(rt, root, other)?;
    if is_link {
        symlink(rt, full_path.as_str(), path)
    } else {
        fs::rename(rt, full_path.as_str(), path)
    }
}

fn make_as_long(rt: &HostRuntime, path: &str, length: u64) -> io::Result<()> {
    fs::File::create(rt, path)?.set_len(length)
}

fn is_seen(rt: &HostRuntime, path: &str, seen: Seen) -> bool {
    match seen {
        Seen::Nothing => fs::symlink_metadata(rt, path).is_err(),
        Seen::Something => fs::symlink_metadata(rt, path).is_ok(),
        Seen::Text(text) => match fs::read(rt, path) {
            Ok(bytes) => bytes.as_slice() == text.as_bytes(),
            Err(_) => false,
        },
        Seen::Mode(mask, bits) => match fs::metadata(rt, path) {
            Ok(metadata) => metadata.permissions().mode() & mask == bits,
            Err(_) => false,
        },
    }
}

fn make_change(rt: &HostRuntime, root: &str, change: Change) -> Result<(), StoreFault> {
    let mut store = FolderStore::new(rt, root);
    match change {
        Change::Replace(path, text) => store.replace(path, text.as_bytes()),
        Change::Note(text) => store.replace_journal(text.as_bytes()),
        Change::NoteListed(text) => {
            store.list()?;
            store.replace_journal(text.as_bytes())
        }
        Change::Clear => store.clear_leftovers(),
    }
}

fn is_answered(rt: &HostRuntime, root: &str, ask: Ask) -> bool {
    match ask {
        Ask::File(path, text) => is_text(read(rt, root, path), text, text.len()),
        Ask::FileLength(path, length) => is_text(read(rt, root, path), "", length),
        Ask::NoFile(path) => {
            read(rt, root, path).is_err()
                && make_change(rt, root, Change::Replace(path, "B")).is_err()
        }
        Ask::Journal(text) => is_text(journal(rt, root), text, text.len()),
        Ask::JournalLength(length) => is_text(journal(rt, root), "", length),
        Ask::NoJournal => {
            journal(rt, root).is_err() && make_change(rt, root, Change::Note("B")).is_err()
        }
        Ask::NoFolder => fails_to_clear(rt, root),
        Ask::OnePath(path) => lists_one(rt, root, path),
    }
}

fn read(rt: &HostRuntime, root: &str, path: &str) -> Result<Vec<u8>, StoreFault> {
    FolderStore::new(rt, root).read(path)
}

fn journal(rt: &HostRuntime, root: &str) -> Result<Vec<u8>, StoreFault> {
    FolderStore::new(rt, root).read_journal()
}

fn fails_to_clear(rt: &HostRuntime, root: &str) -> bool {
    let mut store = FolderStore::new(rt, root);
    let is_new = store.failures() == 0;
    let cleared = store.clear_leftovers();
    is_new && cleared == Err(StoreFault::Failed) && store.failures() == 1
}

fn lists_one(rt: &HostRuntime, root: &str, path: &str) -> bool {
    match FolderStore::new(rt, root).list() {
        Ok(paths) => match paths.as_slice() {
            [only] => only.as_str() == path,
            _ => false,
        },
        Err(_) => false,
    }
}
