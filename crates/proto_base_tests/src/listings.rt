//! What the folder store lists, over folders that a test makes up.

use proto_store::{FolderStore, Store};
use std::alloc::{Allocator, Global};
use std::fs::{File, Metadata, OpenOptions};
use std::io;
use std::process::Abort;
use std::rt::{Clock, Files};
use std::time::Duration;

// Folders with what their names are, as a system tells them.
#[derive(Clone, Copy)]
struct Tree<'a> {
    alloc: Global,
    // Each folder, and its names, each ended by a zero byte.
    folders: &'a [(&'a str, &'a [u8])],
    files: &'a [&'a str],
    links: &'a [&'a str],
}

fn absent<T>() -> io::Result<T> {
    Err(io::Error::from(io::ErrorKind::NotFound))
}

impl Alloc for Tree<'_> {
    type A = Global;

    fn alloc(&self) -> Global {
        self.alloc
    }
}

// Long after the folders were made, whose times are none.
impl Clock for Tree<'_> {
    fn monotonic(&self) -> io::Result<Duration> {
        Ok(Duration::from_secs(1))
    }

    fn since_1970(&self) -> io::Result<Duration> {
        Ok(Duration::from_secs(1))
    }
}

impl<'a> Files for Tree<'a> {
    type File = File;

    type Dir = &'a [u8];

    fn open_file(&self, _how: &OpenOptions, _path: &str) -> io::Result<File> {
        absent()
    }

    fn open_dir(&self, path: &str) -> io::Result<&'a [u8]> {
        let name = path.strip_suffix('/').unwrap_or(path);
        for (folder, names) in self.folders {
            if name == *folder {
                return Ok(*names);
            }
        }
        if self.files.contains(&path) || self.links.contains(&path) {
            return Err(io::Error::from(io::ErrorKind::NotADirectory));
        }
        absent()
    }

    fn metadata(&self, _path: &str) -> io::Result<Metadata> {
        absent()
    }

    fn symlink_metadata(&self, path: &str) -> io::Result<Metadata> {
        if self.files.contains(&path) {
            return Ok(Metadata::of_file(0));
        }
        if self.links.contains(&path) {
            return Ok(Metadata::of_symlink(0));
        }
        let name = path.strip_suffix('/').unwrap_or(path);
        for (folder, _) in self.folders {
            if *folder == name {
                return Ok(Metadata::of_dir());
            }
        }
        absent()
    }

    fn copy(&self, _from: &str, _to: &str) -> io::Result<u64> {
        absent()
    }

    fn rename(&self, _from: &str, _to: &str) -> io::Result<()> {
        absent()
    }

    fn remove_file(&self, _path: &str) -> io::Result<()> {
        absent()
    }

    fn create_dir(&self, _path: &str) -> io::Result<()> {
        absent()
    }

    fn remove_dir(&self, _path: &str) -> io::Result<()> {
        absent()
    }

    fn remove_dir_all<B: Allocator>(&self, _alloc: B, _path: &str) -> io::Result<()> {
        absent()
    }
}

// The store of a folder lists these paths, a line each, in some order.
fn expect_listed<R: Files + Clock + AllocGlobal>(
    rt: &impl Abort,
    tree: &R,
    root: &str,
    wanted: &str,
) {
    let mut store = FolderStore::new(tree, root);
    assert!(rt; store.failures() == 0);
    let paths = store.list().expect(rt, "the paths");
    expect_lines(rt, tree.alloc(), paths, wanted);
}

// These are the lines, in some order.
fn expect_lines(rt: &impl Abort, alloc: Global, mut paths: Vec<String>, wanted: &str) {
    paths.sort_unstable();
    let mut lines = String::new(alloc);
    for path in paths.iter() {
        lines.push_str(path.as_str()).expect(rt, "memory");
        lines.push('\n').expect(rt, "memory");
    }
    assert!(rt; lines.as_str() == wanted);
}

// The store of a folder lists nothing, and counts that.
fn expect_failed<R: Files + Clock + AllocGlobal>(rt: &impl Abort, tree: &R, root: &str) {
    let mut store = FolderStore::new(tree, root);
    let is_new = store.failures() == 0;
    let lists = store.list().is_ok();
    assert!(rt; is_new && !lists && store.failures() == 1);
}

// Each folder, and its names, each ended by a zero byte.
type Folders = &'static [(&'static str, &'static [u8])];

const SCHEMAS: Folders = &[
    (
        "r",
        b"b.proto\0p\0.git\0.x.proto\0.\xff\0notes.txt\0link.proto\0linked\0d.proto\0.proto\0proto\0gone\0gone.proto\0",
    ),
    ("r/p", b"\0v1\0a.proto\0"),
    ("r/p/v1", b"c.proto\0"),
    ("r/d.proto", b"e.proto\0"),
    ("r/.git", b"g.proto\0"),
];

const SCHEMA_FILES: &[&str] = &[
    "r/b.proto",
    "r/notes.txt",
    "r/proto",
    "r/p/a.proto",
    "r/p/v1/c.proto",
    "r/d.proto/e.proto",
];

#[test]
fn lists_schema_files(rt: HostRuntime) {
    let tree = Tree {
        alloc: rt.alloc(),
        folders: SCHEMAS,
        files: SCHEMA_FILES,
        links: &["r/link.proto", "r/linked"],
    };
    let wanted = "b.proto\nd.proto/e.proto\np/a.proto\np/v1/c.proto\n";
    expect_listed(&rt, &tree, "r", wanted);
}

const UNREADABLE: &[Folders] = &[
    // No folder is there.
    &[],
    // A name that is no text.
    &[("r", b"a.proto\0b\xff\0")],
];

#[test]
fn fails_at_what_it_cannot_read(rt: HostRuntime) {
    for folders in UNREADABLE {
        let tree = Tree {
            alloc: rt.alloc(),
            folders,
            files: &["r/a.proto"],
            links: &[],
        };
        expect_failed(&rt, &tree, "r");
    }
}

// The root of the file system, and the folder where the program runs, each with a file.
const ROOTS: Folders = &[("", b"a.proto\0"), (".", b"a.proto\0")];

#[test]
fn takes_an_empty_root_for_missing(rt: HostRuntime) {
    let tree = Tree {
        alloc: rt.alloc(),
        folders: ROOTS,
        files: &["a.proto", "./a.proto"],
        links: &[],
    };
    expect_listed(&rt, &tree, ".", "a.proto\n");
    expect_failed(&rt, &tree, "");
}
