//! A writer that fails where a test says so.

use std::io;
use std::io::Write;

/// A writer that takes a few bytes at a time, and only so many of them.
#[derive(Drop)]
pub(crate) struct Pipe {
    pub(crate) taken: Vec<u8>,
    pub(crate) at_once: usize,
    pub(crate) room: usize,
    // Whether it fails where it has no room left; else it takes no byte.
    pub(crate) breaks: bool,
}

impl Write for Pipe {
    fn write(&mut self, bytes: &[u8]) -> io::Result<usize> {
        if self.room == 0 && self.breaks {
            return Err(io::Error::from(io::ErrorKind::BrokenPipe));
        }
        let count = bytes.len().min(self.at_once).min(self.room);
        let (front, _) = bytes.split_at(count);
        self.taken.extend_from_slice(front)?;
        self.room -= count;
        Ok(count)
    }

    fn flush(&mut self) -> io::Result<()> {
        Ok(())
    }
}
