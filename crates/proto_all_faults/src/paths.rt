//! All faults of paths.

ghost use Rattle.std.specs.Prelude.{◌≡◌, ◌++◌, map, IfOk, OnOk, IsPermutation};
ghost use Rattle.proto_files.specs.Faults.{fault_at};
ghost use Rattle.proto_files.specs.FirstFault.{begins_with};
ghost use Rattle.proto_files.specs.GivenFiles.{files_of, paths_of};
ghost use Rattle.proto_files.specs.PathFaults.{PathFaults};
ghost use Rattle.proto_files.specs.WorkspacePaths.{IsInPathOrder};
ghost use Rattle.proto_names_faults.specs.AllFaults.{AreAllOf};
ghost use Rattle.proto_all_faults.specs.ListedPaths.{fault_if, faults_at, path_fault, path_faults_from};

use proto_base::{Fault, FaultKind, NoMemory};
use proto_files::{MAX_FILES, is_workspace_path};
use proto_names_faults::in_order;
use std::alloc::Global;

fn given_paths<'a>(alloc: Global, given: &'a [(String, Vec<u8>)]) -> Result<Vec<&'a str>, NoMemory>
    ensures { IfOk result (λ paths. map (λ p. p.now) paths.items ≡ paths_of (files_of given.now)) }
{
    let mut paths = Vec::new(alloc);
    for file in given {
        paths.push(file.0.as_str())?;
    }
    Ok(paths)
}

fn sort_paths(paths: &mut Vec<&str>)
    ensures same { IsPermutation paths.old.items paths.new.items }
    ensures in_order { IsInPathOrder (map (λ p. p.now) paths.new.items) }
{
    paths.sort_unstable();
}

fn fault_of_path(alloc: Global, kind: FaultKind, path: &str) -> Result<Fault, NoMemory>
    ensures { IfOk result (λ fault. fault_at fault ≡ path_fault kind path.now) }
{
    Ok(Fault {
        path: String::from_str(alloc, path)?,
        offset: 0,
        kind,
    })
}

/// Adds a fault of the kind at the path, where it holds.
fn add_if(
    alloc: Global,
    found: &mut Vec<Fault>,
    holds: bool,
    kind: FaultKind,
    path: &str,
) -> Result<(), NoMemory>
    ensures { OnOk result (map fault_at found.new.items
        ≡ map fault_at found.old.items ++ fault_if holds kind path.now) }
{
    if holds {
        found.push(fault_of_path(alloc, kind, path)?)?;
    }
    Ok(())
}

fn begins_with(paths: &[&str], path: &str) -> bool
    ensures { result ≡ begins_with (map (λ p. p.now) paths.now) path.now }
{
    match paths.first() {
        Some(next) => *next == path,
        None => false,
    }
}

/// Adds the faults of the path at a place, where paths in order follow it.
fn add_faults(
    alloc: Global,
    found: &mut Vec<Fault>,
    place: usize,
    path: &str,
    rest: &[&str],
) -> Result<(), NoMemory>
    ensures { OnOk result (map fault_at found.new.items ≡ map fault_at found.old.items
        ++ faults_at place 4096 path.now (map (λ p. p.now) rest.now)) }
{
    let is_bad = !is_workspace_path(path);
    add_if(alloc, found, is_bad, FaultKind::BadPath, path)?;
    let is_double = begins_with(rest, path);
    add_if(alloc, found, is_double, FaultKind::DoublePath, path)?;
    let is_too_many = place == MAX_FILES;
    add_if(alloc, found, is_too_many, FaultKind::TooManyFiles, path)
}

/// The faults of paths in order, path by path.
fn faults_by_path(alloc: Global, paths: &[&str]) -> Result<Vec<Fault>, NoMemory>
    ensures { IfOk result (λ found. map fault_at found.items
        ≡ path_faults_from 0 4096 (map (λ p. p.now) paths.now)) }
{
    let mut found = Vec::new(alloc);
    for place in 0..paths.len() {
        let (_, rest) = paths.split_at(place + 1);
        add_faults(alloc, &mut found, place, paths[place], rest)?;
    }
    Ok(found)
}

/// All faults of the paths of the files given, in order. Fails only when out of memory.
pub(crate) fn path_faults(
    alloc: Global,
    given: &[(String, Vec<u8>)],
) -> Result<Vec<Fault>, NoMemory>
    ensures { IfOk result (λ listed. AreAllOf
        (PathFaults 4096 (paths_of (files_of given.now))) (map fault_at listed.items)) }
{
    let mut paths = given_paths(alloc, given)?;
    sort_paths(&mut paths);
    let found = faults_by_path(alloc, &paths)?;
    Ok(in_order(found))
}
