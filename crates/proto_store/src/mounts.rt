//! At which paths something is mounted.

use std::alloc::Global;
use std::collections::BTreeSet;
use std::fs::File;
use std::io;
use std::io::Read;
use std::rt::Files;

// Has a line for each mount. The fifth of the words on it is the path, where a blank, a tab, a line
// feed and a backslash are written as a backslash and three octal digits.
const MOUNTS: &str = "/proc/self/mountinfo";

// How much of it is read.
const MAX_MOUNTS_LEN: u64 = 16_777_216;

// The whole paths at which something is mounted, none where the system does not tell them.
pub(crate) fn mounted_paths<R: Files + AllocGlobal>(rt: &R) -> io::Result<BTreeSet<String>> {
    let mut paths = BTreeSet::new(rt.alloc());
    let Ok(file) = File::open(rt, MOUNTS) else {
        return Ok(paths);
    };
    let mut bytes = Vec::new(rt.alloc());
    file.take(MAX_MOUNTS_LEN).read_to_end(&mut bytes)?;
    for line in bytes.split(|byte| *byte == b'\n') {
        if let Some(word) = line.split(|byte| *byte == b' ').nth(4) {
            note_path(rt.alloc(), &mut paths, word)?;
        }
    }
    Ok(paths)
}

// Notes a path that is text.
fn note_path(alloc: Global, paths: &mut BTreeSet<String>, word: &[u8]) -> io::Result<()> {
    if let Ok(path) = str::from_utf8(unescaped(alloc, word)?.as_slice()) {
        let _ = paths.insert(String::from_str(alloc, path)?)?;
    }
    Ok(())
}

// The bytes that such a word stands for.
fn unescaped(alloc: Global, word: &[u8]) -> io::Result<Vec<u8>> {
    let mut bytes = Vec::with_capacity(alloc, word.len())?;
    let mut left = word;
    for _ in 0..word.len() {
        let Some((first, rest)) = left.split_first() else {
            break;
        };
        let (byte, rest) = match (first, rest) {
            (b'\\', [b'0', b'4', b'0', behind @ ..]) => (b' ', behind),
            (b'\\', [b'0', b'1', b'1', behind @ ..]) => (b'\t', behind),
            (b'\\', [b'0', b'1', b'2', behind @ ..]) => (b'\n', behind),
            (b'\\', [b'1', b'3', b'4', behind @ ..]) => (b'\\', behind),
            _ => (*first, rest),
        };
        bytes.push(byte)?;
        left = rest;
    }
    Ok(bytes)
}
