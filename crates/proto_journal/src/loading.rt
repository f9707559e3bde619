//! Files and workspaces, as a store has them.

ghost use Rattle.std.specs.Prelude.{◌≡◌, ◌-◌, ◌^◌, ◌<◌};
ghost use Rattle.proto_journal.specs.Loads.{CountsLoad, LoadOutcome, load_fault_name, load_fault_number};

use crate::gathering::sound_files;
use proto_base::{Fault, SchemaFault};
use proto_edit::Workspace;
use proto_store::{ReadingFault, Store};
use std::alloc::Global;
use thiserror::Error;

/// Why no workspace is loaded.
#[derive(Debug, Drop, Error)]
pub enum LoadFault {
    /// The files do not compile: their least fault by phase, path, offset and number.
    #[error("{0}")]
    Schema(Fault),
    /// A call of the store failed.
    #[error("the store failed")]
    Store,
    /// A growth was refused.
    #[error("no memory")]
    NoMemory,
}

impl LoadFault {
    /// The number of the schema fault, from 1 to 39, or 0 for another fault.
    pub fn number(&self) -> u32
        ensures { result ≡ load_fault_number self.now }
    {
        match self {
            LoadFault::Schema(fault) => fault.number(),
            LoadFault::Store => 0,
            LoadFault::NoMemory => 0,
        }
    }

    /// The name of the fault.
    pub fn name(&self) -> &'static str
        ensures { result.now ≡ load_fault_name self.now }
    {
        match self {
            LoadFault::Schema(fault) => fault.name(),
            LoadFault::Store => "Store",
            LoadFault::NoMemory => "NoMemory",
        }
    }
}

impl From<ReadingFault> for LoadFault {
    ghost use Rattle.proto_journal.specs.Loads.{load_fault};

    ghost from_gives = { λ fault e. e ≡ load_fault fault };

    fn from(fault: ReadingFault) -> LoadFault {
        match fault {
            ReadingFault::Store => LoadFault::Store,
            ReadingFault::NoMemory => LoadFault::NoMemory,
        }
    }
}

impl From<SchemaFault> for LoadFault {
    ghost use Rattle.proto_journal.specs.Loads.{schemas_fault};

    ghost from_gives = { λ fault e. e ≡ schemas_fault fault };

    fn from(fault: SchemaFault) -> LoadFault {
        match fault {
            SchemaFault::Schema(fault) => LoadFault::Schema(fault),
            SchemaFault::NoMemory => LoadFault::NoMemory,
        }
    }
}

/// The workspace of the store's files, where they compile; else `Schema` with their least fault.
/// Where the paths alone have a fault, no file is read. It ends with `Store` at the first call of
/// the store that fails, and with `NoMemory` where memory runs out. The store is as before.
pub fn load<S: Store>(alloc: Global, store: &mut S) -> Result<Workspace, LoadFault>
    requires { S.failure_count store.old < 2 ^ 64 - 1 }
    ensures outcome { LoadOutcome (S.holds store.old) result }
    ensures same { S.holds store.new ≡ S.holds store.old }
    ensures count { CountsLoad (S.failure_count store.old) (S.failure_count store.new) result }
{
    let profile = store.profile();
    let files = sound_files(alloc, store)?;
    match Workspace::open_as(alloc, files, profile) {
        Ok(workspace) => Ok(workspace),
        Err(fault) => Err(LoadFault::from(fault)),
    }
}
