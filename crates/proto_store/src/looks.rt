//! What stands at a path, and how it is told from what stood there before.

use proto_base::MAX_LEN;
use std::fs::{File, Metadata, OpenFile};
use std::hash::{DefaultHasher, Hasher};
use std::io::Read;
use std::os::unix::fs::MetadataExt;
use std::rt::Files;
use std::{fs, io};

// A file or a folder as it was at one time. Who writes it changes its size or its
// times, and who puts another in its place changes its number.
#[derive(Clone, Copy, PartialEq, Eq)]
pub(crate) struct Stamp {
    pub(crate) file: FileNumber,
    size: u64,
    pub(crate) written: (i64, i64),
    pub(crate) changed: (i64, i64),
}

impl Stamp {
    // Whether it is the same file with the same last write. Its names, its mode, its owner and its
    // access list may be others: they move the time of the last change alone.
    pub(crate) fn is_written_as(self, other: Stamp) -> bool {
        self.file == other.file && self.size == other.size && self.written == other.written
    }
}

// A file as it was read or written.
#[derive(Clone, Copy, PartialEq, Eq)]
pub(crate) struct Known {
    pub(crate) stamp: Stamp,
    // What its bytes are told by, where that is kept.
    pub(crate) digest: Option<u64>,
}

// By what bytes are told from others.
pub(crate) fn digest_of(bytes: &[u8]) -> u64 {
    let mut hasher = DefaultHasher::new();
    hasher.write(bytes);
    hasher.finish()
}

// The stamp of a file or a folder of which this is told.
pub(crate) fn stamp_of(metadata: &Metadata) -> Stamp {
    Stamp {
        file: number_of(metadata),
        size: metadata.size(),
        written: (metadata.mtime(), metadata.mtime_nsec()),
        changed: (metadata.ctime(), metadata.ctime_nsec()),
    }
}

// What is told of a path, where something is there. A symbolic link is not followed.
pub(crate) fn look<R: Files>(rt: &R, path: &str) -> io::Result<Option<Metadata>> {
    match fs::symlink_metadata(rt, path) {
        Ok(metadata) => Ok(Some(metadata)),
        Err(error) if error.kind() == io::ErrorKind::NotFound => Ok(None),
        Err(error) => Err(error),
    }
}

// The regular file at a path, or none where nothing is there.
// Anything else there, a symbolic link among it, fails.
pub(crate) fn regular_file<R: Files>(rt: &R, path: &str) -> io::Result<Option<Metadata>> {
    match look(rt, path)? {
        Some(metadata) if metadata.is_file() => Ok(Some(metadata)),
        Some(_) => Err(io::Error::from(io::ErrorKind::InvalidInput)),
        None => Ok(None),
    }
}

// By what a file is known whatever its name: the device that it lies on, and its number there.
#[derive(Clone, Copy, PartialEq, Eq)]
pub(crate) struct FileNumber {
    device: u64,
    number: u64,
}

// The number of a file of which this is told.
pub(crate) fn number_of(metadata: &Metadata) -> FileNumber {
    FileNumber {
        device: metadata.dev(),
        number: metadata.ino(),
    }
}

// Opens the regular file that was seen at a path. What came in its place since fails.
pub(crate) fn open_numbered<R: Files>(
    rt: &R,
    path: &str,
    number: FileNumber,
) -> io::Result<(R::File, Metadata)> {
    let file = File::open(rt, path)?;
    let opened = file.metadata()?;
    if !opened.is_file() || number_of(&opened) != number {
        return Err(io::Error::from(io::ErrorKind::InvalidInput));
    }
    Ok((file, opened))
}

// The bytes of an open file, up to a limit, and how it was when it was opened.
pub(crate) fn bytes_of<R: Files + AllocGlobal>(
    rt: &R,
    file: R::File,
    found: &Metadata,
    limit: usize,
) -> io::Result<(Vec<u8>, Stamp)> {
    // No byte behind the length that is told is read, so that no read asks for the end. A file of
    // which no length is told is read up to its end.
    let wanted = match found.size() {
        0 => limit as u64,
        len => len.min(limit as u64),
    };
    // Room for no more than a schema may have, whatever length is told; the byte more is that of
    // the turn that finds the end.
    let told = found.size().min(MAX_LEN as u64) as usize;
    let mut bytes = Vec::with_capacity(rt.alloc(), told + 1)?;
    file.take(wanted).read_to_end(&mut bytes)?;
    Ok((bytes, stamp_of(found)))
}

// Reads all names of a folder, each ended by a zero byte. A read that is interrupted goes on.
pub(crate) fn read_names<S: Read>(folder: &mut S, names: &mut Vec<u8>) -> io::Result<()> {
    // A read of a folder wants 4,096 bytes, and each call fills them with zeros.
    let mut buffer = [0u8; 4096];
    for _ in 0..u64::MAX {
        match folder.read(&mut buffer) {
            Ok(0) => break,
            Ok(count) => names.extend_from_slice(&buffer[..count])?,
            Err(error) if error.kind() == io::ErrorKind::Interrupted => {}
            Err(error) => return Err(error),
        }
    }
    Ok(())
}
