//! The rename of what stands at an offset.

ghost use Rattle.std.specs.Prelude.{IfOk};
ghost use Rattle.proto_answers.specs.Answers.{IsRenamingAt};

use crate::answers::Answer;
use crate::entry_edits::rename_in;
use crate::standing::{FileOffset, named_token_at};
use proto_edit::{NoMemory, Workspace};
use proto_positions::Encoding;
use std::alloc::Global;

/// The answer to a rename, to a new simple name, of what stands at the offset of a file of the
/// workspace, in which nothing changes: that to the rename of the name for which the word stands
/// that covers the offset or, where no word does, ends there. None where that is no name of a symbol
/// that may be renamed, and where there is no such word or file. Fails only when out of memory.
pub fn rename_at(
    alloc: Global,
    workspace: &Workspace,
    encoding: Encoding,
    spot: FileOffset,
    to: &str,
) -> Result<Option<Answer>, NoMemory>
    ensures { IfOk result (IsRenamingAt workspace.now encoding spot to.now) }
{
    let Some(found) = named_token_at(alloc, workspace, spot)? else {
        return Ok(None);
    };
    let answer = rename_in(alloc, workspace, encoding, found.name.as_str(), to)?;
    Ok(Some(answer))
}
