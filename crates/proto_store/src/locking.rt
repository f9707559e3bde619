//! The lock of a folder.

use std::fs::{File, TryLockError};
use std::rt::Clock;
use std::time::Duration;
use std::{io, thread};

// How long it is waited at a time for those that only read a folder.
const WAIT_MILLIS: u64 = 10;

// How often: up to a second in all.
const MOST_WAITS: u32 = 100;

/// Takes a folder for this open of it alone. Waits up to a second for those that only read it, and
/// not at all for one that has it alone. Answers whether the file system has such locks.
pub(crate) fn lock_alone<C: Clock>(clock: &C, folder: &File) -> io::Result<bool> {
    for _ in 0..MOST_WAITS {
        match folder.try_lock() {
            Ok(()) => return Ok(true),
            Err(TryLockError::WouldBlock) => wait_for_readers(clock, folder)?,
            Err(TryLockError::Error(_)) => return Ok(false),
        }
    }
    Err(io::Error::from(io::ErrorKind::WouldBlock))
}

// Waits a moment, where all that have the folder only read it.
fn wait_for_readers<C: Clock>(clock: &C, folder: &File) -> io::Result<()> {
    if let Err(TryLockError::WouldBlock) = folder.try_lock_shared() {
        return Err(io::Error::from(io::ErrorKind::WouldBlock));
    }
    folder.unlock()?;
    thread::sleep(clock, Duration::from_millis(WAIT_MILLIS));
    Ok(())
}
