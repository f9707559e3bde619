//! Why a row is not tried to its end.

use proto_base::NoMemory;
use std::alloc::{AllocError, AllocFailed};

/// Why it cannot be said what is otherwise than a row says.
#[derive(Clone, Copy)]
pub(crate) enum Fault {
    /// Out of memory.
    NoMemory,
    /// The row is not written as the rows of its table are, for this reason.
    Unreadable(&'static str),
}

impl From<NoMemory> for Fault {
    fn from(_e: NoMemory) -> Fault {
        Fault::NoMemory
    }
}

impl From<AllocError> for Fault {
    fn from(_e: AllocError) -> Fault {
        Fault::NoMemory
    }
}

impl<T: Drop> From<AllocFailed<T>> for Fault {
    fn from(_e: AllocFailed<T>) -> Fault {
        Fault::NoMemory
    }
}
