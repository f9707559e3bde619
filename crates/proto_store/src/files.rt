//! All files of a store.

ghost use Rattle.std.specs.Prelude.{◌≡◌, ◌-◌, ◌^◌, ◌<◌, IfOk};
ghost use Rattle.proto_store.specs.Reading.{CountsReading};
ghost use Rattle.proto_store.specs.Stores.{AreInPathOrder, HoldsGiven, Over};

use crate::store::{Store, StoreFault};
use std::alloc::{AllocFailed, Global};
use thiserror::Error;

// No `OrNoMemory`: its fault says nothing more, and each case has a text for people.
/// Why not all files of a store are read.
#[derive(Clone, Copy, Debug, PartialEq, Eq, Error)]
pub enum ReadingFault {
    /// A call of the store failed.
    #[error("the store failed")]
    Store,
    /// A growth was refused.
    #[error("no memory")]
    NoMemory,
}

impl From<StoreFault> for ReadingFault {
    ghost use Rattle.proto_store.specs.declared.files.ReadingFault.TheVariants as fault;

    ghost from_gives = { λ _ e. e ≡ fault.Store };

    fn from(_fault: StoreFault) -> ReadingFault {
        ReadingFault::Store
    }
}

impl<T: Drop> From<AllocFailed<T>> for ReadingFault {
    ghost use Rattle.proto_store.specs.declared.files.ReadingFault.TheVariants as fault;

    ghost from_gives = { λ _ e. e ≡ fault.NoMemory };

    fn from(_error: AllocFailed<T>) -> ReadingFault {
        ReadingFault::NoMemory
    }
}

/// All files of the store, in the order of their paths, each of the language that its files are
/// of. It ends with `Store` at the first call of
/// the store that fails, and with `NoMemory` where memory runs out. The store is as before.
pub fn all_files<S: Store>(
    alloc: Global,
    store: &mut S,
) -> Result<Vec<(String, Vec<u8>)>, ReadingFault>
    requires { S.failure_count store.old < 2 ^ 64 - 1 }
    ensures files { IfOk result (λ files. HoldsGiven (S.holds store.old) files.items) }
    ensures order { IfOk result (λ _. Over (S.holds store.old)
        (λ held. AreInPathOrder held.files)) }
    ensures same { S.holds store.new ≡ S.holds store.old }
    ensures count { CountsReading (S.failure_count store.old) (S.failure_count store.new) result }
{
    let mut paths = store.list()?;
    paths.sort_unstable();
    let mut files = Vec::new(alloc);
    for path in paths {
        let bytes = store.read(path.as_str())?;
        files.push((path, bytes))?;
    }
    Ok(files)
}
