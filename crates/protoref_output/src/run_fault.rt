//! Why a command has no answer.

ghost use Rattle.std.specs.Prelude.{◌≡◌};
ghost use Rattle.protoref_output.specs.Ends.{run_fault_name, fault_text};

use crate::writing::OutputFault;
use proto_base::NoMemory;
use proto_store::StoreFault;
use std::alloc::{AllocError, AllocFailed};
use thiserror::Error;

/// Why a command has no answer.
#[derive(Clone, Copy, Debug, PartialEq, Eq, Error)]
pub enum RunFault {
    #[error("store failed")]
    Store,
    #[error("no memory")]
    NoMemory,
    #[error("output failed")]
    Output,
}

impl RunFault {
    /// 0, since none of these is a fault of a schema.
    pub fn number(self) -> u32
        ensures { result ≡ 0 }
    {
        0
    }

    /// The name of the fault.
    pub fn name(self) -> &'static str
        ensures { result.now ≡ run_fault_name self }
    {
        match self {
            RunFault::Store => "Store",
            RunFault::NoMemory => "NoMemory",
            RunFault::Output => "Output",
        }
    }
}

impl From<StoreFault> for RunFault {
    ghost use Rattle.protoref_output.specs.declared.run_fault.RunFault.TheVariants as fault;

    ghost from_gives = { λ _ e. e ≡ fault.Store };

    fn from(_fault: StoreFault) -> RunFault {
        RunFault::Store
    }
}

impl From<OutputFault> for RunFault {
    ghost use Rattle.protoref_output.specs.declared.run_fault.RunFault.TheVariants as fault;

    ghost from_gives = { λ _ e. e ≡ fault.Output };

    fn from(_fault: OutputFault) -> RunFault {
        RunFault::Output
    }
}

impl From<NoMemory> for RunFault {
    ghost use Rattle.protoref_output.specs.declared.run_fault.RunFault.TheVariants as fault;

    ghost from_gives = { λ _ e. e ≡ fault.NoMemory };

    fn from(_error: NoMemory) -> RunFault {
        RunFault::NoMemory
    }
}

impl From<AllocError> for RunFault {
    ghost use Rattle.protoref_output.specs.declared.run_fault.RunFault.TheVariants as fault;

    ghost from_gives = { λ _ e. e ≡ fault.NoMemory };

    fn from(_error: AllocError) -> RunFault {
        RunFault::NoMemory
    }
}

impl<T: Drop> From<AllocFailed<T>> for RunFault {
    ghost use Rattle.protoref_output.specs.declared.run_fault.RunFault.TheVariants as fault;

    ghost from_gives = { λ _ e. e ≡ fault.NoMemory };

    fn from(_error: AllocFailed<T>) -> RunFault {
        RunFault::NoMemory
    }
}

/// The line for standard error.
pub fn fault_line(fault: &RunFault) -> &'static str
    ensures { result.now ≡ fault_text fault.now }
{
    match fault {
        RunFault::Store => "protoref: store failed",
        RunFault::NoMemory => "protoref: no memory",
        RunFault::Output => "protoref: output failed",
    }
}
