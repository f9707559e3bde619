//! Edits that an editor offers, with their text edits.

ghost use Rattle.std.specs.Prelude.{◌≡◌, ◌≢◌, IfOk, None};
ghost use Rattle.std.specs.String.{string_bytes};
ghost use Rattle.proto_edit.specs.Answers.{asked};
ghost use Rattle.proto_edit.specs.Workspaces.{drop_import};
ghost use Rattle.proto_lint_rules.specs.declared.rule.Rule.TheVariants.{ImportUsed};
ghost use Rattle.proto_edit_rules.specs.Rename.{same_at};
ghost use Rattle.proto_names_rules.specs.Grown.{at};
ghost use Rattle.proto_answers.specs.Actions.{AreOffered, IsDeclaredNameAt, IsDeletionAt};
ghost use Rattle.proto_answers.specs.Declaring.{at_token};

use crate::answers::{Answer, FileEdits};
use crate::declaring::{FileToken, declaring_token};
use crate::entry_edits::answer_to;
use crate::standing::{FileOffset, NamedToken, named_token_at};
use proto_edit::{Edit, NoMemory, Workspace};
use proto_lint_names::Finding;
use proto_lint_rules::Rule;
use proto_positions::Encoding;
use std::alloc::Global;

/// The text edits that are answered to an edit, if some are.
fn offered(
    alloc: Global,
    workspace: &Workspace,
    encoding: Encoding,
    edit: &Edit,
) -> Result<Option<Vec<FileEdits>>, NoMemory>
    ensures { IfOk result (AreOffered workspace.now encoding (asked edit.now)) }
{
    match answer_to(alloc, workspace, encoding, edit)? {
        Answer::Edits(edits) => Ok(Some(edits)),
        Answer::LineEnds => Ok(None),
        Answer::Refused(_) => Ok(None),
    }
}

/// Whether it is the token of this file with this index.
fn is_at(declaring: FileToken, file: u32, token: u32) -> bool
    ensures { result ≡ same_at (at_token declaring) (at file token) }
{
    declaring.file == file && declaring.token == token
}

/// The name of what the word at the offset declares, if that may be renamed.
fn declared_name_at(
    alloc: Global,
    workspace: &Workspace,
    spot: FileOffset,
) -> Result<Option<String>, NoMemory>
    ensures { IfOk result (IsDeclaredNameAt workspace.now spot) }
{
    let Some(found) = named_token_at(alloc, workspace, spot)? else {
        return Ok(None);
    };
    // The files compile.
    workspace.files();
    let NamedToken { token, name } = found;
    let declaring = declaring_token(alloc, workspace, name.as_str())?;
    if is_at(declaring, spot.file, token) {
        Ok(Some(name))
    } else {
        Ok(None)
    }
}

/// The text edits that delete the field that is declared at the offset of a file of the workspace,
/// and reserve its number and its name. None where no field is declared there, where its deletion
/// is refused, and where not all editors would make the same of it. Fails only when out of memory.
pub fn field_deletion(
    alloc: Global,
    workspace: &Workspace,
    encoding: Encoding,
    spot: FileOffset,
) -> Result<Option<Vec<FileEdits>>, NoMemory>
    ensures { IfOk result (IsDeletionAt workspace.now encoding spot) }
{
    let Some(name) = declared_name_at(alloc, workspace, spot)? else {
        return Ok(None);
    };
    offered(alloc, workspace, encoding, &Edit::DeleteField { name })
}

/// The text edits that drop the import of which `IMPORT_USED` has this finding. None for a finding
/// of another rule, where the drop is refused, and where not all editors would make the same of it.
/// Fails only when out of memory.
pub fn import_drop(
    alloc: Global,
    workspace: &Workspace,
    encoding: Encoding,
    finding: &Finding,
) -> Result<Option<Vec<FileEdits>>, NoMemory>
    ensures used { finding.now.rule ≡ ImportUsed
        → IfOk result (AreOffered workspace.now encoding
        (drop_import (string_bytes finding.now.path) (string_bytes finding.now.name))) }
    ensures other { finding.now.rule ≢ ImportUsed → IfOk result (λ found. found ≡ None) }
{
    match finding.rule {
        Rule::ImportUsed => {
            let file = String::from_str(alloc, finding.path.as_str())?;
            let path = String::from_str(alloc, finding.name.as_str())?;
            offered(alloc, workspace, encoding, &Edit::DropImport { file, path })
        }
        _ => Ok(None),
    }
}
