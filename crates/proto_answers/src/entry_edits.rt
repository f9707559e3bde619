//! The text edits of an entry, and the answer to an edit.

ghost use Rattle.std.specs.Prelude.{◌≡◌, ◌≢◌, List, IfOk, IfSome, map};
ghost use Rattle.proto_edit.specs.Answers.{asked};
ghost use Rattle.proto_edit.specs.Workspaces.{Asked, IsMappedStep, rename};
ghost use Rattle.proto_edit_entries.specs.Entries.{change_of};
ghost use Rattle.proto_edit_entries.specs.Putting.{IsPut};
ghost use Rattle.proto_edit_entries.specs.declared.refusal.Refusal.TheVariants.{NoMemory as OutOfMemory};
ghost use Rattle.proto_files.specs.GivenFiles.{AreWorkspaceFiles, FileOf};
ghost use Rattle.proto_answers.specs.EditAnswers.{AreAllEditsIfAny, AreEditsIfAny, IsAnswerTo};
ghost use Rattle.proto_answers.specs.LspFiles.{lsp_files};
ghost use Rattle.proto_answers.specs.declared.answers.Answer.TheVariants.{Refused};

use crate::answers::{Answer, FileEdits};
use crate::laws::edits_put_files;
use crate::line_ends::suit_editors;
use proto_edit::{Change, Edit, Entry, Files, NoMemory, Refusal, Workspace};
use proto_positions::{Encoding, text_edits};
use std::alloc::Global;

/// The text edits of a change of one of the files; none where not all editors would make the same
/// of it.
fn edits_of_change(
    alloc: Global,
    files: &Files,
    encoding: Encoding,
    change: &Change,
) -> Result<Option<FileEdits>, NoMemory>
    requires { AreWorkspaceFiles files.now }
    ensures { IfOk result (AreEditsIfAny files.now encoding (change_of change.now)) }
{
    let Some(file) = files.place_of_path(change.path.as_str()) else {
        return Ok(None);
    };
    let text = files.source(file).as_bytes();
    if !suit_editors(text, &change.splices) {
        return Ok(None);
    }
    let edits = text_edits(alloc, text, encoding, &change.splices)?;
    let path = String::from_str(alloc, change.path.as_str())?;
    Ok(Some(FileEdits { path, edits }))
}

/// The text edits of each change, in their order; none where one of them has none.
fn edits_of_changes(
    alloc: Global,
    files: &Files,
    encoding: Encoding,
    changes: &[Change],
) -> Result<Option<Vec<FileEdits>>, NoMemory>
    requires { AreWorkspaceFiles files.now }
    ensures { IfOk result (AreAllEditsIfAny files.now encoding (map change_of changes.now)) }
{
    let mut all = Vec::new(alloc);
    for change in changes {
        let Some(edits) = edits_of_change(alloc, files, encoding, change)? else {
            return Ok(None);
        };
        all.push(edits)?;
    }
    Ok(Some(all))
}

/// The text edits of what an entry changes, file by file in the order of the paths: what it puts
/// into the files is what an editor makes of them. None where not all editors would make the same
/// of one of its changes. Fails only when out of memory.
pub fn edits_of_entry(
    alloc: Global,
    files: &Files,
    encoding: Encoding,
    entry: &Entry,
) -> Result<Option<Vec<FileEdits>>, NoMemory>
    ensures exact { IfOk result (AreAllEditsIfAny files.now encoding entry.now) }
    ensures put { IfOk result (λ found. IfSome found (λ edits. (after : List FileOf)
        → IsPut files.now entry.now after
        → lsp_files encoding edits.items files.now ≡ after)) }
{
    edits_put_files();
    // Their paths are apart, and in order.
    files.len();
    edits_of_changes(alloc, files, encoding, entry.changes())
}

/// The answer that a refusal is, where memory was there.
fn refused(refusal: Refusal) -> Result<Answer, NoMemory>
    ensures { IfOk result (λ answer. (answer ≡ Refused refusal) × (refusal ≢ OutOfMemory)) }
{
    match refusal {
        Refusal::NoMemory => Err(NoMemory),
        _ => Ok(Answer::Refused(refusal)),
    }
}

/// The answer that an entry of the workspace is.
fn answer_of_entry(
    alloc: Global,
    workspace: &Workspace,
    encoding: Encoding,
    entry: &Entry,
) -> Result<Answer, NoMemory>
    ensures { (edit : Asked) (after : List FileOf)
        → IsMappedStep workspace.now edit entry.now after
        → IfOk result (IsAnswerTo workspace.now encoding edit) }
{
    match edits_of_entry(alloc, workspace.files(), encoding, entry)? {
        Some(edits) => Ok(Answer::Edits(edits)),
        None => Ok(Answer::LineEnds),
    }
}

/// The answer to an edit of the workspace, in which nothing changes: where it is admissible, its
/// text edits, with positions in units of the encoding, or that not all editors would make the same
/// of it; else the least case that refuses it. Fails only when out of memory.
pub fn answer_to(
    alloc: Global,
    workspace: &Workspace,
    encoding: Encoding,
    edit: &Edit,
) -> Result<Answer, NoMemory>
    ensures { IfOk result (IsAnswerTo workspace.now encoding (asked edit.now)) }
{
    match workspace.answer(alloc, edit) {
        Ok(entry) => answer_of_entry(alloc, workspace, encoding, &entry),
        Err(refusal) => refused(refusal),
    }
}

/// The answer to a rename of a full name, without a leading dot, to a new simple name.
pub fn rename_in(
    alloc: Global,
    workspace: &Workspace,
    encoding: Encoding,
    name: &str,
    to: &str,
) -> Result<Answer, NoMemory>
    ensures { IfOk result (IsAnswerTo workspace.now encoding (rename name.now to.now)) }
{
    let name = String::from_str(alloc, name)?;
    let to = String::from_str(alloc, to)?;
    answer_to(alloc, workspace, encoding, &Edit::Rename { name, to })
}
