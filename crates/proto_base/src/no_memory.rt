//! Out of memory.

ghost use Rattle.std.specs.Prelude.{◌≡◌, codes};

use std::alloc::{AllocError, AllocFailed};
use thiserror::Error;

/// Out of memory: a growth was refused, and what the call says of that holds.
#[derive(Clone, Copy, Debug, PartialEq, Eq, Error)]
#[error("no memory")]
pub struct NoMemory;

impl NoMemory {
    /// Always 0: out of memory is no fault of a schema.
    pub fn number(self) -> u32
        ensures { result ≡ 0 }
    {
        0
    }

    /// Always `NoMemory`.
    pub fn name(self) -> &'static str
        ensures { result.now ≡ codes "NoMemory" }
    {
        "NoMemory"
    }
}

impl From<AllocError> for NoMemory {
    fn from(_e: AllocError) -> NoMemory {
        NoMemory
    }
}

impl<T: Drop> From<AllocFailed<T>> for NoMemory {
    fn from(_e: AllocFailed<T>) -> NoMemory {
        NoMemory
    }
}
