//! All faults of checks.

ghost use Rattle.std.specs.Prelude.{◌≡◌, ◌<◌, ◌++◌, List, Some, length, map, IfOk, OnOk};
ghost use Rattle.proto_tree.specs.File.{tree_of_file};
ghost use Rattle.proto_files.specs.Faults.{fault_at};
ghost use Rattle.proto_files.specs.FilesRead.{AreRead, ReadOf};
ghost use Rattle.proto_ast.specs.Numbers.{past};
ghost use Rattle.proto_names_faults.specs.AllFaults.{AreAllOf};
ghost use Rattle.proto_resolved.specs.Enums.{IsEnumTable};
ghost use Rattle.proto_resolved.specs.Scenes.{AreScenes};
ghost use Rattle.proto_desc_checks.specs.FileFlaws.{file_flaws};
ghost use Rattle.proto_desc_extensions.specs.Listed.{AreWorkspaceFlaws};
ghost use Rattle.proto_desc.specs.Checked.{fault_of_flaw};
ghost use Rattle.proto_all_faults.specs.AllFaults.{CheckFaultsUpTo};
ghost use Rattle.proto_all_faults.specs.Steps.{faults_before};

use proto_ast::Scene;
use proto_base::{Fault, NoMemory, SchemaFault};
use proto_desc_checks::{Flaw, file_flaws};
use proto_desc_extensions::workspace_flaws;
use proto_files::{Files, fault_at_token};
use proto_names_faults::in_order;
use proto_resolved::Linked;
use proto_resolved::enum_table::{EnumTable, enum_table};
use proto_resolved::scenes::scenes;
use proto_tree::File;
use std::alloc::Global;

/// A flaw as a fault of its file.
fn fault_of(alloc: Global, files: &Files, file: u32, flaw: Flaw) -> Result<Fault, NoMemory>
    requires { file < length files.now }
    ensures { IfOk result (λ fault. (reads : List ReadOf) → AreRead files.now reads
        → fault_at fault ≡ fault_of_flaw files.now reads file flaw) }
{
    match fault_at_token(alloc, files, file, flaw.token, flaw.kind) {
        SchemaFault::Schema(fault) => Ok(fault),
        SchemaFault::NoMemory => Err(NoMemory),
    }
}

/// Adds flaws as faults of their file.
fn add_flaws(
    alloc: Global,
    found: &mut Vec<Fault>,
    files: &Files,
    file: u32,
    flaws: &[Flaw],
) -> Result<(), NoMemory>
    requires { file < length files.now }
    ensures { OnOk result ((reads : List ReadOf) → AreRead files.now reads
        → map fault_at found.new.items ≡ map fault_at found.old.items
        ++ map (fault_of_flaw files.now reads file) flaws.now) }
{
    for flaw in flaws {
        found.push(fault_of(alloc, files, file, *flaw)?)?;
    }
    Ok(())
}

/// The flaws of a file, beside those that its workspace decides.
fn all_flaws(
    alloc: Global,
    scene: &Scene,
    tree: &File,
    of_workspace: &[Flaw],
) -> Result<Vec<Flaw>, NoMemory>
    ensures { IfOk result (λ flaws. flaws.items
        ≡ file_flaws scene.now (tree_of_file tree.now) ++ of_workspace.now) }
{
    let mut flaws = file_flaws(alloc, scene, tree)?;
    flaws.extend_from_slice(of_workspace)?;
    Ok(flaws)
}

/// The faults of all files, where those that the workspace decides are given for each.
fn faults_by_file(
    alloc: Global,
    files: &Files,
    scenes: &[Scene],
    of_workspace: &[Vec<Flaw>],
) -> Result<Vec<Fault>, NoMemory>
    requires scenes { AreScenes files.now scenes.now }
    requires flaws { AreWorkspaceFlaws files.now of_workspace.now }
    ensures { IfOk result (λ found. (reads : List ReadOf) → AreRead files.now reads
        → map fault_at found.items
        ≡ faults_before (Some past) files.now reads (length files.now)) }
{
    let mut found = Vec::new(alloc);
    for file in 0..files.len() as u32 {
        let place = file as usize;
        let tree = files.tree(file);
        let flaws = all_flaws(alloc, &scenes[place], tree, &of_workspace[place])?;
        add_flaws(alloc, &mut found, files, file, &flaws)?;
    }
    Ok(found)
}

/// The faults of checks, with the enums of all files.
fn faults_with(
    alloc: Global,
    linked: &Linked<'_>,
    table: &EnumTable,
) -> Result<Vec<Fault>, NoMemory>
    requires { IsEnumTable linked.now.files table.now }
    ensures { IfOk result (λ found. (reads : List ReadOf) → AreRead linked.now.files reads
        → map fault_at found.items
        ≡ faults_before (Some past) linked.now.files reads (length linked.now.files)) }
{
    let scenes = scenes(alloc, linked, table)?;
    let of_workspace = workspace_flaws(alloc, linked, &scenes)?;
    faults_by_file(alloc, linked.files(), &scenes, &of_workspace)
}

/// All faults of the checks of linked files, in order, their numbers up to 2^64. Fails only when out
/// of memory.
pub(crate) fn check_faults(alloc: Global, linked: &Linked<'_>) -> Result<Vec<Fault>, NoMemory>
    ensures { IfOk result (λ listed. AreAllOf
        (CheckFaultsUpTo (Some past) linked.now.files) (map fault_at listed.items)) }
{
    let table = enum_table(alloc, linked.files())?;
    let found = faults_with(alloc, linked, &table)?;
    Ok(in_order(found))
}
