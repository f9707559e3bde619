//! What may be wrong with a journal.

ghost use Rattle.std.specs.Prelude.{◌≡◌};
ghost use Rattle.proto_journal_records.specs.FaultTable.{journal_fault_number, journal_fault_name};

use proto_edit_entries::Refusal;
use std::alloc::{AllocError, AllocFailed};
use thiserror::Error;

/// Why a call over a journal is refused.
#[derive(Debug, Drop, Error)]
pub enum JournalFault {
    /// The bytes are no journal.
    #[error("the journal is damaged")]
    BadJournal,
    /// The journal has no entry.
    #[error("the journal has no entry")]
    NothingToUndo,
    /// The last entry is open.
    #[error("the last entry is open")]
    OpenEntry,
    /// A call of the store failed.
    #[error("the store failed")]
    Store,
    /// The journal would pass 16,777,216 bytes.
    #[error("the journal would have more than 16,777,216 bytes")]
    JournalFull,
    #[error("no memory")]
    NoMemory,
    /// The edit or the undo is refused, and not when out of memory.
    #[error("refused: {0}")]
    Refused(Refusal),
}

impl JournalFault {
    /// The number in the table of these faults, from 1
    /// to 6; 0 for a refusal, which has its own number.
    pub fn number(&self) -> u32
        ensures { result ≡ journal_fault_number self.now }
    {
        match self {
            JournalFault::BadJournal => 1,
            JournalFault::NothingToUndo => 2,
            JournalFault::OpenEntry => 3,
            JournalFault::Store => 4,
            JournalFault::JournalFull => 5,
            JournalFault::NoMemory => 6,
            JournalFault::Refused(_) => 0,
        }
    }

    /// The name in the table of these faults.
    pub fn name(&self) -> &'static str
        ensures { result.now ≡ journal_fault_name self.now }
    {
        match self {
            JournalFault::BadJournal => "BadJournal",
            JournalFault::NothingToUndo => "NothingToUndo",
            JournalFault::OpenEntry => "OpenEntry",
            JournalFault::Store => "Store",
            JournalFault::JournalFull => "JournalFull",
            JournalFault::NoMemory => "NoMemory",
            JournalFault::Refused(_) => "Refused",
        }
    }
}

impl From<AllocError> for JournalFault {
    ghost use Rattle.proto_journal_records.specs.declared.fault.JournalFault.TheVariants.{NoMemory};

    ghost from_gives = { λ _ e. e ≡ NoMemory };

    fn from(_e: AllocError) -> JournalFault {
        JournalFault::NoMemory
    }
}

impl From<proto_base::NoMemory> for JournalFault {
    ghost use Rattle.proto_journal_records.specs.declared.fault.JournalFault.TheVariants.{NoMemory};

    ghost from_gives = { λ _ e. e ≡ NoMemory };

    fn from(_e: proto_base::NoMemory) -> JournalFault {
        JournalFault::NoMemory
    }
}

impl<T: Drop> From<AllocFailed<T>> for JournalFault {
    ghost use Rattle.proto_journal_records.specs.declared.fault.JournalFault.TheVariants.{NoMemory};

    ghost from_gives = { λ _ e. e ≡ NoMemory };

    fn from(_e: AllocFailed<T>) -> JournalFault {
        JournalFault::NoMemory
    }
}

impl From<Refusal> for JournalFault {
    ghost use Rattle.proto_journal_records.specs.FaultTable.{fault_of_refusal};

    ghost from_gives = { λ refusal e. e ≡ fault_of_refusal refusal };

    fn from(refusal: Refusal) -> JournalFault {
        match refusal {
            Refusal::NoMemory => JournalFault::NoMemory,
            refusal => JournalFault::Refused(refusal),
        }
    }
}
