//! Folders of schemas that are read, and never written.

ghost use Rattle.std.specs.Prelude.{◌≡◌, ◌-◌, ◌^◌, ◌<◌, List, Option, None, IfErr, IfOk, map};
ghost use Rattle.std.specs.String.{string_bytes};
ghost use Rattle.proto_base.specs.GivenFiles.{FileOf, files_of_as};
ghost use Rattle.proto_base.specs.Texts.{Path};
ghost use Rattle.proto_base.specs.declared.profile.Profile.{Profile};
ghost use Rattle.proto_store.specs.Reading.{CountsReading};
ghost use Rattle.proto_store.specs.Stores.{Counts, HoldsBytes, HoldsGiven, IsListed, ListsPaths};
ghost use Rattle.proto_session.specs.Steps.{AreFilesOf};

use proto_base::Profile;
use proto_store::{ReadingFault, Store, StoreFault};
use std::alloc::Global;
use std::marker::Model;

/// A store of which files are listed and read, and no more: who has it cannot write.
#[derive(Drop)]
pub struct ReadOnly<S: Store> {
    store: S,
}

impl<S: Store> Model for ReadOnly<S> {
    ghost Value = { S };

    ghost view = { λ r. r.store };
}

impl<S: Store> ReadOnly<S> {
    /// The store, to be read alone.
    pub fn new(store: S) -> ReadOnly<S>
        ensures { result ≡ store }
    {
        ReadOnly { store }
    }

    /// The paths of all files, each once, in any order.
    pub fn list(&mut self) -> Result<Vec<String>, StoreFault>
        requires { S.failure_count self.old < 2 ^ 64 - 1 }
        ensures paths { IfOk result (λ paths. ListsPaths
            (S.holds self.old) (map string_bytes paths.items)) }
        ensures same { S.holds self.new ≡ S.holds self.old }
        ensures count { Counts (S.failure_count self.old) (S.failure_count self.new) result }
    {
        self.store.list()
    }

    /// The bytes of the file at a path that `list` answers.
    pub fn read(&mut self, path: &str) -> Result<Vec<u8>, StoreFault>
        requires room { S.failure_count self.old < 2 ^ 64 - 1 }
        requires listed { IsListed (S.holds self.old) path.now }
        ensures bytes { IfOk result (λ bytes. HoldsBytes
            (S.holds self.old) path.now bytes.items) }
        ensures same { S.holds self.new ≡ S.holds self.old }
        ensures count { Counts (S.failure_count self.old) (S.failure_count self.new) result }
    {
        self.store.read(path)
    }
}

/// All files of a store, in the order of their paths. It ends with `Store` at the first call of the
/// store that fails, and with `NoMemory` where memory runs out.
pub fn read_folder<S: Store>(
    alloc: Global,
    store: &mut ReadOnly<S>,
) -> Result<Vec<(String, Vec<u8>)>, ReadingFault>
    requires { S.failure_count store.old < 2 ^ 64 - 1 }
    ensures files { IfOk result (λ files. HoldsGiven (S.holds store.old) files.items) }
    ensures same { S.holds store.new ≡ S.holds store.old }
    ensures count { CountsReading (S.failure_count store.old) (S.failure_count store.new) result }
{
    let mut paths = store.list()?;
    paths.sort_unstable();
    let mut files = Vec::new(alloc);
    for path in paths {
        let bytes = store.read(path.as_str())?;
        files.push((path, bytes))?;
    }
    Ok(files)
}

/// Where folders of schemas are found by their paths.
pub trait Folders {
    /// What the folder at a path holds, read in a language, where that is known.
    ghost holds: { Self → Profile → Path → Option (List FileOf) };

    /// All schemas of the folder at a path, which are of a language, in the order of their paths.
    /// Nothing is written. It ends with `Store` where the folder cannot be read, as where it is not
    /// there, and with `NoMemory` where memory runs out. A folder of which it is known what it holds
    /// can be read.
    fn read_all(
        &self,
        alloc: Global,
        profile: Profile,
        folder: &[u8],
    ) -> Result<Vec<(String, Vec<u8>)>, ReadingFault>
        ensures files { IfOk result (λ files. AreFilesOf
            (holds self.now profile folder.now) (files_of_as profile files.items)) }
        ensures lost { IfErr result (λ fault.
            fault ≡ ReadingFault.Store → holds self.now profile folder.now ≡ None) };
}
