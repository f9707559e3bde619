//! All faults of the files that are given as a workspace.

ghost use Rattle.std.specs.Prelude.{◌≡◌, map, IfOk};
ghost use Rattle.proto_files.specs.Faults.{IsFilesError, IsLeastFault, fault_at};
ghost use Rattle.proto_files.specs.GivenFiles.{files_of, files_of_as, paths_of};
ghost use Rattle.proto_files.specs.PathFaults.{PathFaults};
ghost use Rattle.proto_files.specs.ReadFaults.{ReadFaults};
ghost use Rattle.proto_all_faults.specs.Laws.{AreAllFaults};
ghost use Rattle.proto_all_faults.specs.Steps.{AreSortedOf, HasSorted};

use crate::links::file_faults;
use crate::paths::path_faults;
use crate::texts::{grammar_faults, text_faults};
use proto_base::{Fault, NoMemory, Profile, SchemaFault};
use proto_files::{Files, Paths};
use std::alloc::Global;

fn copy_files(
    alloc: Global,
    given: &[(String, Vec<u8>)],
) -> Result<Vec<(String, Vec<u8>)>, NoMemory>
    ensures { IfOk result (λ copies. files_of copies.items ≡ files_of given.now) }
{
    let mut copies = Vec::new(alloc);
    for file in given {
        let path = String::from_str(alloc, file.0.as_str())?;
        copies.push((path, Vec::from_slice(alloc, &file.1)?))?;
    }
    Ok(copies)
}

/// All faults of the phase of texts or the grammar that the least one is of, in order.
fn faults_of_phase(
    alloc: Global,
    given: &[(String, Vec<u8>)],
    profile: Profile,
    least: &Fault,
) -> Result<Vec<Fault>, NoMemory>
    requires sorted { HasSorted (files_of_as profile given.now) }
    requires least { IsLeastFault (ReadFaults (files_of_as profile given.now))
        (fault_at least.now) }
    ensures { IfOk result (λ listed. AreAllFaults
        (files_of_as profile given.now) (map fault_at listed.items)) }
{
    if least.kind.phase() == 1 {
        text_faults(alloc, given, profile)
    } else {
        grammar_faults(alloc, given, profile)
    }
}

/// The same, where reading has found the least fault, or is out of memory.
fn read_faults(
    alloc: Global,
    given: &[(String, Vec<u8>)],
    profile: Profile,
    found: SchemaFault,
) -> Result<Vec<Fault>, NoMemory>
    requires sorted { HasSorted (files_of_as profile given.now) }
    requires least { IsFilesError (ReadFaults (files_of_as profile given.now)) found }
    ensures { IfOk result (λ listed. AreAllFaults
        (files_of_as profile given.now) (map fault_at listed.items)) }
{
    match found {
        SchemaFault::Schema(least) => faults_of_phase(alloc, given, profile, &least),
        SchemaFault::NoMemory => Err(NoMemory),
    }
}

/// All faults of files in order, at paths that have none.
fn faults_in_order(
    alloc: Global,
    given: &[(String, Vec<u8>)],
    profile: Profile,
    paths: Paths,
) -> Result<Vec<Fault>, NoMemory>
    requires { AreSortedOf (files_of_as profile given.now) paths }
    ensures { IfOk result (λ listed. AreAllFaults
        (files_of_as profile given.now) (map fault_at listed.items)) }
{
    match Files::read(alloc, paths) {
        Ok(files) => {
            let listed = file_faults(alloc, &files);
            files.release();
            listed
        }
        Err(found) => read_faults(alloc, given, profile, found),
    }
}

/// All faults of paths, where the least one was found, or out of memory.
fn faults_of_paths(
    alloc: Global,
    given: &[(String, Vec<u8>)],
    profile: Profile,
    found: SchemaFault,
) -> Result<Vec<Fault>, NoMemory>
    requires { IsFilesError
        (PathFaults 4096 (paths_of (files_of_as profile given.now))) found }
    ensures { IfOk result (λ listed. AreAllFaults
        (files_of_as profile given.now) (map fault_at listed.items)) }
{
    match found {
        SchemaFault::Schema(_least) => path_faults(alloc, given),
        SchemaFault::NoMemory => Err(NoMemory),
    }
}

/// All faults of the files given, as paths and bytes, of the first phase that has one: rising by path,
/// offset and number, each once. None is listed exactly where the files compile, and the first is the
/// fault that `Schema::open` answers. In checks a number of 2^64 or more counts as 2^64: it is
/// 17 NumberRange in any case, and this reading tells whether it is 18, 19, 21, 32, 36 or 37 as well.
/// The files are copied. Fails only when out of memory.
pub fn faults(alloc: Global, given: &[(String, Vec<u8>)]) -> Result<Vec<Fault>, NoMemory>
    ensures { IfOk result (λ listed. AreAllFaults (files_of given.now) (map fault_at listed.items)) }
{
    faults_as(alloc, given, Profile::Core)
}

/// As `faults`, for files of a language: the first is the fault that `Schema::open_as` answers.
pub fn faults_as(
    alloc: Global,
    given: &[(String, Vec<u8>)],
    profile: Profile,
) -> Result<Vec<Fault>, NoMemory>
    ensures { IfOk result (λ listed. AreAllFaults
        (files_of_as profile given.now) (map fault_at listed.items)) }
{
    let copies = copy_files(alloc, given)?;
    match Paths::new_as(alloc, copies, profile) {
        Ok(paths) => faults_in_order(alloc, given, profile, paths),
        Err(found) => faults_of_paths(alloc, given, profile, found),
    }
}
