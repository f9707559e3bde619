//! The word at an offset of a file, and the name that it stands for.

ghost use Rattle.std.specs.Prelude.{IfOk};
ghost use Rattle.proto_files.specs.Faults.{HasNoFault};
ghost use Rattle.proto_names.specs.LinkOfFiles.{IsLinkOf};
ghost use Rattle.proto_names_imports.specs.Links.{LinkFaults};
ghost use Rattle.proto_answers.specs.Standing.{IsNamedTokenAt};

use proto_edit::{Files, Link, NoMemory, Workspace};
use proto_files::are_read;
use proto_names_at::{name_at, word_at};
use std::alloc::Global;

/// An offset of a file.
#[derive(Clone, Copy, Debug, PartialEq, Eq)]
pub struct FileOffset {
    /// The number of the file, from 0.
    pub file: u32,
    /// The offset, in bytes from 0.
    pub offset: usize,
}

/// A token of a file, by its index from 0, with the full name that it stands for.
#[derive(Drop)]
pub(crate) struct NamedToken {
    pub(crate) token: u32,
    pub(crate) name: String,
}

/// The word at the offset, where it stands for a name.
fn named_token_in(
    alloc: Global,
    files: &Files,
    link: &Link,
    spot: FileOffset,
) -> Result<Option<NamedToken>, NoMemory>
    requires link { IsLinkOf files.now link.now }
    requires linked { HasNoFault (LinkFaults files.now) }
    ensures { IfOk result (IsNamedTokenAt files.now spot) }
{
    are_read(files);
    let Some(token) = word_at(files, spot.file, spot.offset) else {
        return Ok(None);
    };
    match name_at(alloc, files, link, spot.file, token)? {
        Some(name) => Ok(Some(NamedToken { token, name })),
        None => Ok(None),
    }
}

/// The same in the files of a workspace.
pub(crate) fn named_token_at(
    alloc: Global,
    workspace: &Workspace,
    spot: FileOffset,
) -> Result<Option<NamedToken>, NoMemory>
    ensures { IfOk result (IsNamedTokenAt workspace.now spot) }
{
    named_token_in(alloc, workspace.files(), workspace.link(), spot)
}
