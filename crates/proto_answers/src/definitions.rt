//! Where what stands at an offset is declared.

ghost use Rattle.std.specs.Prelude.{IfOk};
ghost use Rattle.proto_answers.specs.Answers.{IsDefinitionAt};

use crate::declaring::declaring_token;
use crate::ranges::{Location, location_of};
use crate::standing::{FileOffset, named_token_at};
use proto_edit::{NoMemory, Workspace};
use proto_positions::Encoding;
use std::alloc::Global;

/// Where the token stands that declares what has the name that stands at the offset of a file of
/// the workspace: for a field of a map the field itself, for a default the value of the enum. None
/// where no name of a symbol that may be renamed stands there. Fails only when out of memory.
pub fn definition_at(
    alloc: Global,
    workspace: &Workspace,
    encoding: Encoding,
    spot: FileOffset,
) -> Result<Option<Location>, NoMemory>
    ensures { IfOk result (IsDefinitionAt workspace.now encoding spot) }
{
    let Some(found) = named_token_at(alloc, workspace, spot)? else {
        return Ok(None);
    };
    let declaring = declaring_token(alloc, workspace, found.name.as_str())?;
    let files = workspace.files();
    let location = location_of(files, encoding, declaring.file, declaring.token);
    Ok(Some(location))
}
