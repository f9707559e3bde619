//! Checking linked files, with their descriptors or without.

ghost use Rattle.std.specs.Prelude.{◌<◌, ◌++◌, length, map, string_bytes, IfOk, IfErr};
ghost use Rattle.std.specs.List.{Contains};
ghost use Rattle.proto_tree.specs.File.{tree_of_file};
ghost use Rattle.proto_files.specs.Faults.{HasNoFault};
ghost use Rattle.proto_resolved.specs.LinkOfFiles.{IsLinkOf};
ghost use Rattle.proto_desc_checks.specs.FileFlaws.{file_flaws};
ghost use Rattle.proto_desc_numbers.specs.Flaws.{IsLeastOfFlaws};
ghost use Rattle.proto_desc.specs.Checked.{AreDescribed, CheckFaults, IsCheckError};
ghost use Rattle.proto_resolved.specs.Scenes.{AreScenes, IsSceneOf};
ghost use Rattle.proto_desc.specs.Printing.{IsJsonOf};
ghost use Rattle.proto_desc.specs.CheckSteps.{AreOfWorkspace, HasNoFlaw, IsFaultOf, IsLeastFlawError};
ghost use Rattle.proto_resolved.specs.Enums.{IsEnumTable};
ghost use Rattle.proto_desc_extensions.specs.Listed.{AreWorkspaceFlaws};
ghost use Rattle.proto_desc.specs.Views.{files_desc, files_kept};
ghost use Rattle.proto_descriptors.specs.Views.{file_desc};
ghost use Rattle.proto_desc_affected.specs.Checked.{AreKeptOf};

use crate::described::file_descriptor;
use crate::descriptors::Descriptors;
use crate::json_form::{close, push_file};
use proto_ast::Scene;
use proto_base::{NoMemory, SchemaFault};
use proto_desc_affected::file_summaries;
use proto_desc_checks::{Flaw, file_flaws, least};
use proto_desc_extensions::workspace_flaws;
use proto_descriptors::FileDescriptor;
use proto_files::{Files, fault_at_token};
use proto_resolved::enum_table::{EnumTable, enum_table};
use proto_resolved::scenes::scenes;
use proto_resolved::{Link, Linked};
use proto_tree::File;
use std::alloc::Global;

/// A flaw as a fault of its file.
fn fault(alloc: Global, files: &Files, file: u32, flaw: Flaw) -> SchemaFault
    requires { file < length files.now }
    ensures { IsFaultOf files.now file flaw result }
{
    fault_at_token(alloc, files, file, flaw.token, flaw.kind)
}

/// The least flaw of a file, beside those that its workspace decides.
fn least_flaw(
    alloc: Global,
    scene: &Scene,
    tree: &File,
    of_workspace: &[Flaw],
) -> Result<Option<Flaw>, NoMemory>
    ensures { IfOk result (λ flaw. IsLeastOfFlaws
        (Contains (file_flaws scene.now (tree_of_file tree.now) ++ of_workspace.now)) flaw) }
{
    let mut found = file_flaws(alloc, scene, tree)?;
    found.extend_from_slice(of_workspace)?;
    Ok(least(&found))
}

/// Whether a file has no flaw; else its least one.
fn check_file(
    alloc: Global,
    files: &Files,
    scene: &Scene,
    of_workspace: &[Flaw],
    file: u32,
) -> Result<(), SchemaFault>
    requires file { file < length files.now }
    requires scene { IsSceneOf files.now file scene.now }
    requires flaws { AreOfWorkspace files.now file of_workspace.now }
    ensures clean { IfOk result (λ _. HasNoFlaw files.now file) }
    ensures fault { IfErr result (IsLeastFlawError files.now file) }
{
    match least_flaw(alloc, scene, files.tree(file), of_workspace)? {
        Some(flaw) => Err(fault(alloc, files, file, flaw)),
        None => Ok(()),
    }
}

/// Whether no file has a flaw, where those that the workspace decides are given for each; else the
/// least one of the first that has.
fn check_each(
    alloc: Global,
    linked: &Linked<'_>,
    scenes: &[Scene],
    of_workspace: &[Vec<Flaw>],
) -> Result<(), SchemaFault>
    requires scenes { AreScenes linked.now.files scenes.now }
    requires flaws { AreWorkspaceFlaws linked.now.files of_workspace.now }
    ensures clean { IfOk result (λ _. HasNoFault (CheckFaults linked.now.files)) }
    ensures fault { IfErr result (IsCheckError linked.now.files) }
{
    let files = linked.files();
    for file in 0..linked.file_count() as u32 {
        let place = file as usize;
        check_file(alloc, files, &scenes[place], &of_workspace[place], file)?;
    }
    Ok(())
}

/// Whether no file has a flaw; else the least one of the first that has.
fn check_files(alloc: Global, linked: &Linked<'_>, scenes: &[Scene]) -> Result<(), SchemaFault>
    requires { AreScenes linked.now.files scenes.now }
    ensures clean { IfOk result (λ _. HasNoFault (CheckFaults linked.now.files)) }
    ensures fault { IfErr result (IsCheckError linked.now.files) }
{
    let of_workspace = workspace_flaws(alloc, linked, scenes)?;
    check_each(alloc, linked, scenes, &of_workspace)
}

/// The descriptors of the files, in the order of their paths.
fn descriptors(
    alloc: Global,
    linked: &Linked<'_>,
    scenes: &[Scene],
) -> Result<Vec<FileDescriptor>, NoMemory>
    requires { AreScenes linked.now.files scenes.now }
    ensures { IfOk result (λ ds. AreDescribed linked.now.files (map file_desc ds.items)) }
{
    let files = linked.files();
    let mut descriptors = Vec::with_capacity(alloc, linked.file_count())?;
    for file in 0..linked.file_count() as u32 {
        let path = files.path(file);
        descriptors.push(file_descriptor(alloc, &scenes[file as usize], path, files.tree(file))?)?;
    }
    Ok(descriptors)
}

/// The same, with the enums of all files.
fn describe_with(
    alloc: Global,
    linked: &Linked<'_>,
    table: &EnumTable,
) -> Result<Vec<FileDescriptor>, SchemaFault>
    requires { IsEnumTable linked.now.files table.now }
    ensures clean { IfOk result (λ _. HasNoFault (CheckFaults linked.now.files)) }
    ensures descriptors { IfOk result (λ ds.
        AreDescribed linked.now.files (map file_desc ds.items)) }
    ensures fault { IfErr result (IsCheckError linked.now.files) }
{
    let scenes = scenes(alloc, linked, table)?;
    check_files(alloc, linked, &scenes)?;
    Ok(descriptors(alloc, linked, &scenes)?)
}

/// What `check` answers, of which nothing is kept of the files.
pub(crate) fn describe(
    alloc: Global,
    linked: &Linked<'_>,
) -> Result<Vec<FileDescriptor>, SchemaFault>
    ensures clean { IfOk result (λ _. HasNoFault (CheckFaults linked.now.files)) }
    ensures descriptors { IfOk result (λ ds.
        AreDescribed linked.now.files (map file_desc ds.items)) }
    ensures fault { IfErr result (IsCheckError linked.now.files) }
{
    let table = enum_table(alloc, linked.files())?;
    describe_with(alloc, linked, &table)
}

/// The descriptors of linked files, in the order of their paths, where their checks find no fault;
/// else the least fault by path, offset and number, or out of memory.
pub fn check(alloc: Global, files: &Files, link: &Link) -> Result<Descriptors, SchemaFault>
    requires { IsLinkOf files.now link.now }
    ensures clean { IfOk result (λ _. HasNoFault (CheckFaults files.now)) }
    ensures descriptors { IfOk result (λ d. AreDescribed files.now (files_desc d)) }
    ensures kept { IfOk result (λ d. AreKeptOf files.now (files_kept d)) }
    ensures fault { IfErr result (IsCheckError files.now) }
{
    let linked = Linked::new(files, link);
    let file = describe(alloc, &linked)?;
    let kept = file_summaries(alloc, &linked)?;
    Ok(Descriptors { file, kept })
}

/// The JSON text of the descriptors of the files, of which one is there at a time.
fn json_of(alloc: Global, linked: &Linked<'_>, scenes: &[Scene]) -> Result<String, NoMemory>
    requires { AreScenes linked.now.files scenes.now }
    ensures { IfOk result (λ text. IsJsonOf linked.now.files (string_bytes text)) }
{
    let files = linked.files();
    let mut text = String::new(alloc);
    for file in 0..linked.file_count() as u32 {
        let path = files.path(file);
        let descriptor = file_descriptor(alloc, &scenes[file as usize], path, files.tree(file))?;
        push_file(alloc, &mut text, &descriptor)?;
    }
    close(&mut text)?;
    Ok(text)
}

/// The same where the checks find no fault, with the enums of all files.
fn print_with(alloc: Global, linked: &Linked<'_>, table: &EnumTable) -> Result<String, SchemaFault>
    requires { IsEnumTable linked.now.files table.now }
    ensures clean { IfOk result (λ _. HasNoFault (CheckFaults linked.now.files)) }
    ensures text { IfOk result (λ text. IsJsonOf linked.now.files (string_bytes text)) }
    ensures fault { IfErr result (IsCheckError linked.now.files) }
{
    let scenes = scenes(alloc, linked, table)?;
    check_files(alloc, linked, &scenes)?;
    Ok(json_of(alloc, linked, &scenes)?)
}

/// The JSON text of what `check` answers.
pub(crate) fn print(alloc: Global, linked: &Linked<'_>) -> Result<String, SchemaFault>
    ensures clean { IfOk result (λ _. HasNoFault (CheckFaults linked.now.files)) }
    ensures text { IfOk result (λ text. IsJsonOf linked.now.files (string_bytes text)) }
    ensures fault { IfErr result (IsCheckError linked.now.files) }
{
    let table = enum_table(alloc, linked.files())?;
    print_with(alloc, linked, &table)
}

/// The same, and no descriptors.
fn pass_checks_with(
    alloc: Global,
    linked: &Linked<'_>,
    table: &EnumTable,
) -> Result<(), SchemaFault>
    requires { IsEnumTable linked.now.files table.now }
    ensures clean { IfOk result (λ _. HasNoFault (CheckFaults linked.now.files)) }
    ensures fault { IfErr result (IsCheckError linked.now.files) }
{
    let scenes = scenes(alloc, linked, table)?;
    check_files(alloc, linked, &scenes)
}

/// Whether the checks of linked files find no fault; else the least fault by path, offset and
/// number, or out of memory: what `check` answers, of which no descriptor is made here.
pub fn pass_checks(alloc: Global, files: &Files, link: &Link) -> Result<(), SchemaFault>
    requires { IsLinkOf files.now link.now }
    ensures clean { IfOk result (λ _. HasNoFault (CheckFaults files.now)) }
    ensures fault { IfErr result (IsCheckError files.now) }
{
    let table = enum_table(alloc, files)?;
    pass_checks_with(alloc, &Linked::new(files, link), &table)
}
