//! Why a stream gives no content.

ghost use Rattle.std.specs.Prelude.{◌≡◌};
ghost use Rattle.proto_frames.specs.declared.fault.FrameFault.TheVariants.{NoMemory};

use std::alloc::{AllocError, AllocFailed};
use thiserror::Error;

/// Why a stream gives no content. After any of these no more can be read of it: how much of the
/// frame was taken is not said.
#[derive(Clone, Copy, Debug, PartialEq, Eq, Error)]
pub enum FrameFault {
    /// A line of the header has no CR LF at its end, is too long or is no field, there are too
    /// many, or the length is not there, stands there twice or is no number.
    #[error("a header is malformed")]
    Malformed,
    /// The content is longer than is taken.
    #[error("a message is too long")]
    TooLong,
    /// The stream ends within a frame.
    #[error("the stream ends within a message")]
    Cut,
    /// A read failed.
    #[error("a read failed")]
    Input,
    /// Out of memory.
    #[error("out of memory")]
    NoMemory,
}

impl From<AllocError> for FrameFault {
    ghost from_gives = { λ _ e. e ≡ NoMemory };

    fn from(_e: AllocError) -> FrameFault {
        FrameFault::NoMemory
    }
}

impl<T: Drop> From<AllocFailed<T>> for FrameFault {
    ghost from_gives = { λ _ e. e ≡ NoMemory };

    fn from(_e: AllocFailed<T>) -> FrameFault {
        FrameFault::NoMemory
    }
}
