//! The folders of the machine.

ghost use Rattle.std.specs.Prelude.{None};

use proto_base::Profile;
use proto_session::{Folders, ReadOnly, read_folder};
use proto_store::{FolderStore, ReadingFault};
use std::alloc::Global;
use std::fs::{File, TryLockError};
use std::rt::{Clock, Files};

/// The folders of the machine. No contract can say what they hold.
#[derive(Drop)]
pub struct HostFolders<'a, R: Files<File = File> + Clock + AllocGlobal> {
    rt: &'a R,
}

impl<'a, R: Files<File = File> + Clock + AllocGlobal> HostFolders<'a, R> {
    /// Those that this runtime reaches.
    pub fn new(rt: &'a R) -> HostFolders<'a, R> {
        HostFolders { rt }
    }
}

impl<'a, R: Files<File = File> + Clock + AllocGlobal> Folders for HostFolders<'a, R> {
    ghost holds = { λ _ _ _. None };

    fn read_all(
        &self,
        alloc: Global,
        profile: Profile,
        folder: &[u8],
    ) -> Result<Vec<(String, Vec<u8>)>, ReadingFault> {
        let Ok(folder) = str::from_utf8(folder) else {
            return Err(ReadingFault::Store);
        };
        // Held while the folder is read: a command that writes waits for it.
        let _lock = shared_lock(self.rt, folder)?;
        // The store is made for each reading, and can only be read.
        let mut store = ReadOnly::new(FolderStore::of_language(self.rt, folder, profile));
        read_folder(alloc, &mut store)
    }
}

// A folder, locked among those that only read it, where the file system has such locks. Fails where
// another has it alone, and so may be writing it.
fn shared_lock<R: Files<File = File>>(rt: &R, folder: &str) -> Result<File, ReadingFault> {
    let Ok(folder) = File::open(rt, folder) else {
        return Err(ReadingFault::Store);
    };
    if let Err(TryLockError::WouldBlock) = folder.try_lock_shared() {
        return Err(ReadingFault::Store);
    }
    Ok(folder)
}
