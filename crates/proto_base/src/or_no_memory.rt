//! A fault of some kind, or out of memory.

ghost use Rattle.std.specs.Prelude.{◌≡◌};
ghost use Rattle.proto_base.specs.declared.or_no_memory.OrNoMemory.TheVariants as or;

use crate::no_memory::NoMemory;
use std::alloc::{AllocError, AllocFailed};

/// Why a call gives no value: its fault, or out of memory.
#[derive(Drop)]
pub enum OrNoMemory<F> {
    /// What is wrong.
    Fault(F),
    /// A growth was refused; nothing else is said.
    NoMemory,
}

impl<F> From<AllocError> for OrNoMemory<F> {
    ghost from_gives = { λ _ e. e ≡ or.NoMemory };

    fn from(_e: AllocError) -> OrNoMemory<F> {
        OrNoMemory::NoMemory
    }
}

impl<F> From<NoMemory> for OrNoMemory<F> {
    ghost from_gives = { λ _ e. e ≡ or.NoMemory };

    fn from(_e: NoMemory) -> OrNoMemory<F> {
        OrNoMemory::NoMemory
    }
}

impl<F, T: Drop> From<AllocFailed<T>> for OrNoMemory<F> {
    ghost from_gives = { λ _ e. e ≡ or.NoMemory };

    fn from(_e: AllocFailed<T>) -> OrNoMemory<F> {
        OrNoMemory::NoMemory
    }
}
