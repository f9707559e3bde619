//! Why a run ended early.

use proto_frames::{FrameFault, WriteFault};
use thiserror::Error;

/// Why a machine does not take a message.
#[derive(Clone, Copy, Debug, PartialEq, Eq, Error)]
pub enum TakeFault {
    /// Out of memory.
    #[error("out of memory")]
    NoMemory,
    /// It does not take this message in the state that it is in.
    #[error("a message cannot be taken in")]
    Refused,
}

/// Why a run ended early. What was taken until then, and how much of the replies was written, is
/// what `Failed` says.
#[derive(Clone, Copy, Debug, PartialEq, Eq, Error)]
pub enum ServeFault {
    /// The stream gave no message.
    #[error("{0}")]
    Frame(FrameFault),
    /// The machine did not take a message.
    #[error("{0}")]
    Take(TakeFault),
    /// A reply was not written whole.
    #[error("{0}")]
    Write(WriteFault),
    /// 2^64 - 1 messages were taken, and no more are counted.
    #[error("too many messages")]
    TooMany,
}
