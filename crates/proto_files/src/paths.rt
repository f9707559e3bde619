//! The files that are given for a workspace, by their paths.

ghost use Rattle.std.specs.Prelude.{◌≡◌, ◌≤◌, ◌<◌, length, map, IfOk, IfErr, IfSome, IsPermutation};
ghost use Rattle.proto_files.specs.Faults.{HasNoFault, IsFilesError};
ghost use Rattle.proto_files.specs.GivenFiles.{AreWorkspaceFiles, paths_of, files_of, files_of_as};
ghost use Rattle.proto_files.specs.Stages.{named_files, named_paths};
ghost use Rattle.proto_files.specs.WorkspacePaths.{IsInPathOrder};
ghost use Rattle.proto_files.specs.PathFaults.{PathFaults};
ghost use Rattle.proto_files.specs.FirstFault.{begins_with, fault_before, first_fault};

use crate::path::is_workspace_path;
use crate::stages::NamedFile;
use proto_base::{Fault, FaultKind, Profile, SchemaFault};
use std::alloc::{AllocError, Global};
use std::marker::Model;

/// How many files a workspace has at most.
pub const MAX_FILES: usize = 4096;

/// Files at distinct workspace paths, in the order of their paths, and at most `MAX_FILES` of them.
#[derive(Drop)]
pub struct Paths {
    files: Vec<NamedFile>,
}

impl Model for Paths {
    ghost use Rattle.std.specs.Prelude.{List};
    ghost use Rattle.proto_files.specs.GivenFiles.{FileOf, AreWorkspaceFiles};

    ghost Value = { List FileOf };

    ghost use Rattle.proto_files.specs.Stages.{named_files};

    ghost view = { λ p. named_files p.files.items };

    ghost invariant = { λ p. AreWorkspaceFiles (named_files p.files.items) };
}

fn name_files(
    alloc: Global,
    files: Vec<(String, Vec<u8>)>,
    profile: Profile,
) -> Result<Vec<NamedFile>, AllocError>
    ensures { IfOk result (λ named. named_files named.items ≡ files_of_as profile files.items) }
{
    files
        .into_iter()
        .map(|(path, bytes)| NamedFile {
            path,
            bytes,
            profile,
        })
        .collect(alloc)
}

fn sort_by_path(files: &mut Vec<NamedFile>)
    ensures same { IsPermutation files.old.items files.new.items }
    ensures in_order { IsInPathOrder (named_paths files.new.items) }
{
    files.sort_unstable_by(|a, b| a.path.cmp(&b.path));
}

fn begins_with(files: &[NamedFile], path: &str) -> bool
    ensures { result ≡ begins_with (named_paths files.now) path.now }
{
    match files.first() {
        Some(next) => next.path.as_str() == path,
        None => false,
    }
}

// The fault of a path at a place, where files in path order follow it.
#[tactic(auto, unfolding(crate::specs::FirstFault::fault_before))]
fn fault_before(place: usize, limit: usize, path: &str, rest: &[NamedFile]) -> Option<FaultKind>
    ensures { result ≡ fault_before place limit path.now (named_paths rest.now) }
{
    if !is_workspace_path(path) {
        Some(FaultKind::BadPath)
    } else if begins_with(rest, path) {
        Some(FaultKind::DoublePath)
    } else if place == limit {
        Some(FaultKind::TooManyFiles)
    } else {
        None
    }
}

// The least fault of the paths of files in path order, with the place of its file.
fn first_fault(files: &[NamedFile], limit: usize) -> Option<(usize, FaultKind)>
    ensures fault { result ≡ first_fault 0 limit (named_paths files.now) }
    ensures within { IfSome result (λ fault. fault.0 < length files.now) }
{
    let mut place = 0;
    let mut left = files;
    while let Some((file, rest)) = left.split_first() {
        if let Some(kind) = fault_before(place, limit, file.path.as_str(), rest) {
            return Some((place, kind));
        }
        left = rest;
        place += 1;
    }
    None
}

impl Paths {
    /// The files in the order of their paths. Where a path is no workspace path, is given twice, or
    /// there are more than `MAX_FILES` files, the least such fault is answered. Otherwise it fails
    /// only when out of memory.
    pub fn new(alloc: Global, files: Vec<(String, Vec<u8>)>) -> Result<Paths, SchemaFault>
        ensures clean { IfOk result (λ _. HasNoFault
            (PathFaults MAX_FILES (paths_of (files_of files.items)))) }
        ensures same { IfOk result (λ paths. IsPermutation (files_of files.items) paths) }
        ensures in_order { IfOk result (λ paths. AreWorkspaceFiles paths) }
        ensures fault { IfErr result (λ e. IsFilesError
            (PathFaults MAX_FILES (paths_of (files_of files.items))) e) }
    {
        Paths::up_to(alloc, MAX_FILES, files)
    }

    /// The files of a language in the order of their paths; otherwise as `new`.
    pub fn new_as(
        alloc: Global,
        files: Vec<(String, Vec<u8>)>,
        profile: Profile,
    ) -> Result<Paths, SchemaFault>
        ensures clean { IfOk result (λ _. HasNoFault
            (PathFaults MAX_FILES (paths_of (files_of_as profile files.items)))) }
        ensures same { IfOk result (λ paths. IsPermutation
            (files_of_as profile files.items) paths) }
        ensures in_order { IfOk result (λ paths. AreWorkspaceFiles paths) }
        ensures fault { IfErr result (λ e. IsFilesError
            (PathFaults MAX_FILES (paths_of (files_of_as profile files.items))) e) }
    {
        Paths::up_to_as(alloc, MAX_FILES, files, profile)
    }

    /// As `new`, where a workspace has at most `limit` files.
    pub fn up_to(
        alloc: Global,
        limit: usize,
        files: Vec<(String, Vec<u8>)>,
    ) -> Result<Paths, SchemaFault>
        requires { limit ≤ MAX_FILES }
        ensures clean { IfOk result (λ _. HasNoFault
            (PathFaults limit (paths_of (files_of files.items)))) }
        ensures same { IfOk result (λ paths. IsPermutation (files_of files.items) paths) }
        ensures in_order { IfOk result (λ paths. AreWorkspaceFiles paths) }
        ensures fault { IfErr result (λ e. IsFilesError
            (PathFaults limit (paths_of (files_of files.items))) e) }
    {
        Paths::up_to_as(alloc, limit, files, Profile::Core)
    }

    // As `up_to`, for files of a language.
    fn up_to_as(
        alloc: Global,
        limit: usize,
        files: Vec<(String, Vec<u8>)>,
        profile: Profile,
    ) -> Result<Paths, SchemaFault>
        requires { limit ≤ MAX_FILES }
        ensures clean { IfOk result (λ _. HasNoFault
            (PathFaults limit (paths_of (files_of_as profile files.items)))) }
        ensures same { IfOk result (λ paths. IsPermutation
            (files_of_as profile files.items) paths) }
        ensures in_order { IfOk result (λ paths. AreWorkspaceFiles paths) }
        ensures fault { IfErr result (λ e. IsFilesError
            (PathFaults limit (paths_of (files_of_as profile files.items))) e) }
    {
        let mut files = name_files(alloc, files, profile)?;
        sort_by_path(&mut files);
        match first_fault(&files, limit) {
            None => Ok(Paths { files }),
            Some((place, kind)) => {
                let file = files.swap_remove(place);
                Err(SchemaFault::Schema(Fault {
                    path: file.path,
                    offset: 0,
                    kind,
                }))
            }
        }
    }

    /// The files, to be read.
    pub(crate) fn into_files(self) -> Vec<NamedFile>
        ensures same { named_files result.items ≡ self }
        ensures workspace { AreWorkspaceFiles self }
    {
        self.files
    }
}
