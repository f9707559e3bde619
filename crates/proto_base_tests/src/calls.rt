//! Stores, and what the tests ask them.

ghost use Rattle.std.specs.Prelude.{◌<◌, length};

use proto_base::NoMemory;
use proto_store::{MemoryStore, Store, StoreFault};
use std::alloc::Global;
use std::process::Abort;

/// A store in memory of these files and this journal.
pub(crate) fn store_of(
    alloc: Global,
    files: &[(&str, &str)],
    journal: &str,
) -> Result<MemoryStore, NoMemory> {
    let journal = journal.as_bytes().to_vec(alloc)?;
    let mut given = Vec::new(alloc);
    give(alloc, &mut given, files)?;
    MemoryStore::new(alloc, given, journal)
}

fn give(
    alloc: Global,
    given: &mut Vec<(String, Vec<u8>)>,
    files: &[(&str, &str)],
) -> Result<(), NoMemory> {
    for (path, text) in files {
        let bytes = text.as_bytes().to_vec(alloc)?;
        given.push((String::from_str(alloc, path)?, bytes))?;
    }
    Ok(())
}

// Where the path stands among those that are listed.
fn place_of<R: Abort>(rt: &R, paths: &[String], path: &str) -> usize
    ensures { result < length paths.now }
{
    match paths.iter().position(|listed| listed.as_str() == path) {
        Some(place) => place,
        None => panic!(rt; "{path} is not listed"),
    }
}

/// The bytes at a path. This is two calls of the store: its list has to have the path.
pub(crate) fn read<S: Store, R: Abort>(
    rt: &R,
    store: &mut S,
    path: &str,
) -> Result<Vec<u8>, StoreFault> {
    assert!(rt; store.failures() < u64::MAX);
    let paths = store.list()?;
    let place = place_of(rt, paths.as_slice(), path);
    store.read(paths[place].as_str())
}

/// Replaces the file at a path. This is two calls of the store: its list has to have the path.
pub(crate) fn replace<S: Store, R: Abort>(
    rt: &R,
    store: &mut S,
    path: &str,
    text: &str,
) -> Result<(), StoreFault> {
    assert!(rt; store.failures() < u64::MAX);
    let paths = store.list()?;
    let place = place_of(rt, paths.as_slice(), path);
    store.replace(paths[place].as_str(), text.as_bytes())
}

/// Whether these are so many bytes, of which the first are this text.
pub(crate) fn is_text(answer: Result<Vec<u8>, StoreFault>, text: &str, length: usize) -> bool {
    match answer {
        Ok(bytes) => bytes.len() == length && bytes.starts_with(text.as_bytes()),
        Err(_) => false,
    }
}

// Whether the store lists so many paths.
fn lists<S: Store, R: Abort>(rt: &R, store: &mut S, count: usize) -> bool {
    assert!(rt; store.failures() < u64::MAX);
    match store.list() {
        Ok(paths) => paths.len() == count,
        Err(_) => false,
    }
}

/// Whether the store answers that it holds exactly these files and this journal.
pub(crate) fn is_held<S: Store, R: Abort>(
    rt: &R,
    store: &mut S,
    files: &[(&str, &str)],
    journal: &str,
) -> bool {
    for (path, text) in files {
        if !is_text(read(rt, store, path), text, text.len()) {
            return false;
        }
    }
    let lists = lists(rt, store, files.len());
    assert!(rt; store.failures() < u64::MAX);
    lists && is_text(store.read_journal(), journal, journal.len())
}
