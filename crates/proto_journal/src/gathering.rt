//! The files of a store, whose paths are asked before any file is read.

ghost use Rattle.std.specs.Prelude.{◌≡◌, ◌-◌, ◌^◌, ◌<◌, IfErr, IfOk, map};
ghost use Rattle.std.specs.String.{string_bytes};
ghost use Rattle.proto_files.specs.Faults.{IsFilesError};
ghost use Rattle.proto_files.specs.GivenFiles.{files_of, paths_of};
ghost use Rattle.proto_files.specs.PathFaults.{PathFaults};
ghost use Rattle.proto_journal.specs.Loads.{ArePathsOf, AreSoundPaths, CountsLoad, IsLoadFault};
ghost use Rattle.proto_journal_records.specs.Known.{Over};
ghost use Rattle.proto_store.specs.Reading.{CountsReading};
ghost use Rattle.proto_store.specs.Stores.{AreInPathOrder, HoldsGiven};

use crate::loading::LoadFault;
use proto_base::SchemaFault;
use proto_files::Paths;
use proto_store::{ReadingFault, Store};
use std::alloc::Global;

// The paths of all files of the store, in their order.
fn sorted_paths<S: Store>(store: &mut S) -> Result<Vec<String>, ReadingFault>
    requires { S.failure_count store.old < 2 ^ 64 - 1 }
    ensures paths { IfOk result (λ paths. ArePathsOf
        (S.holds store.old) (map string_bytes paths.items)) }
    ensures same { S.holds store.new ≡ S.holds store.old }
    ensures count { CountsReading (S.failure_count store.old) (S.failure_count store.new) result }
{
    let mut paths = store.list()?;
    paths.sort_unstable();
    Ok(paths)
}

// A file without bytes at each of the paths.
fn empty_files(alloc: Global, paths: &[String]) -> Result<Vec<(String, Vec<u8>)>, SchemaFault>
    ensures paths { IfOk result (λ files. paths_of (files_of files.items)
        ≡ map string_bytes paths.now) }
    ensures fault { IfErr result (λ e. e ≡ SchemaFault.NoMemory) }
{
    let mut files = Vec::new(alloc);
    for path in paths {
        let name = path.clone()?;
        files.push((name, Vec::new(alloc)))?;
    }
    Ok(files)
}

// Asks the paths alone for their least fault.
fn ask(alloc: Global, paths: &[String]) -> Result<(), SchemaFault>
    ensures sound { IfOk result (λ _. AreSoundPaths (map string_bytes paths.now)) }
    ensures fault { IfErr result (IsFilesError (PathFaults 4096 (map string_bytes paths.now))) }
{
    let files = empty_files(alloc, paths)?;
    Paths::new(alloc, files)?;
    Ok(())
}

// The files at the paths of all files of the store.
// `all_files` cannot ask the paths between its listing and its reading, so this reads them.
fn read_files<S: Store>(
    alloc: Global,
    store: &mut S,
    paths: Vec<String>,
) -> Result<Vec<(String, Vec<u8>)>, ReadingFault>
    requires room { S.failure_count store.old < 2 ^ 64 - 1 }
    requires paths { ArePathsOf (S.holds store.old) (map string_bytes paths.items) }
    ensures files { IfOk result (λ files. HoldsGiven (S.holds store.old) files.items) }
    ensures paths { IfOk result (λ files. paths_of (files_of files.items)
        ≡ map string_bytes paths.items) }
    ensures same { S.holds store.new ≡ S.holds store.old }
    ensures count { CountsReading (S.failure_count store.old) (S.failure_count store.new) result }
{
    let mut files = Vec::new(alloc);
    for path in paths {
        let bytes = store.read(path.as_str())?;
        files.push((path, bytes))?;
    }
    Ok(files)
}

/// All files of the store, in the order of their paths, where these paths alone have no fault; else
/// `Schema` with their least fault, which is that of the files too, and then no file was read. It
/// ends with `Store` at the first call of the store that fails, and with `NoMemory` where memory
/// runs out. The store is as before.
pub fn sound_files<S: Store>(
    alloc: Global,
    store: &mut S,
) -> Result<Vec<(String, Vec<u8>)>, LoadFault>
    requires { S.failure_count store.old < 2 ^ 64 - 1 }
    ensures files { IfOk result (λ files. HoldsGiven (S.holds store.old) files.items) }
    ensures order { IfOk result (λ _. Over (S.holds store.old)
        (λ held. AreInPathOrder held.files)) }
    ensures sound { IfOk result (λ files. AreSoundPaths (paths_of (files_of files.items))) }
    ensures fault { IfErr result (IsLoadFault (S.holds store.old)) }
    ensures same { S.holds store.new ≡ S.holds store.old }
    ensures count { CountsLoad (S.failure_count store.old) (S.failure_count store.new) result }
{
    let paths = sorted_paths(store)?;
    ask(alloc, paths.as_slice())?;
    let files = read_files(alloc, store, paths)?;
    Ok(files)
}
