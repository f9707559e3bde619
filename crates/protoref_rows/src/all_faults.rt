//! All faults of files that are read, for a comparison with those that a model lists.

use crate::input::{Given, read_files};
use proto_all_faults::{NoMemory, faults};
use std::alloc::Global;
use std::io;

/// Prints all faults of the files, each as `path:offset: number name`. In the texts that are read each
/// character stands for the byte of its number, so that they may have bytes that are no text.
pub(crate) fn run<R: Print + AllocGlobal>(rt: &R, input: &str) -> io::Result<()> {
    match read_files(rt.alloc(), input)? {
        Some((read, _)) => print(rt, &with_bytes(rt.alloc(), &read)?),
        None => rt.println("no files"),
    }
}

fn with_bytes(alloc: Global, read: &Given) -> io::Result<Given> {
    let mut files = Vec::new(alloc);
    for (path, text) in read {
        let text = str::from_utf8(text).unwrap_or("");
        files.push((path.to_string(alloc)?, bytes_of(alloc, text)?))?;
    }
    Ok(files)
}

// The numbers of the characters, or a question mark in the place of one that is no byte.
fn bytes_of(alloc: Global, text: &str) -> io::Result<Vec<u8>> {
    let mut bytes = Vec::new(alloc);
    for character in text.chars() {
        bytes.push(u8::try_from(u32::from(character)).unwrap_or(b'?'))?;
    }
    Ok(bytes)
}

fn print<R: Print + AllocGlobal>(rt: &R, files: &Given) -> io::Result<()> {
    match faults(rt.alloc(), files) {
        Ok(listed) => {
            for fault in &listed {
                let (path, offset) = (fault.path.as_str(), fault.offset);
                let (number, name) = (fault.number(), fault.name());
                println!(rt; "{path}:{offset}: {number} {name}")?;
            }
            Ok(())
        }
        Err(NoMemory) => rt.println("no memory"),
    }
}
