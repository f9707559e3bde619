//! The token that declares what has a name.

ghost use Rattle.std.specs.Prelude.{IfOk};
ghost use Rattle.proto_edit_captures.specs.FoundTargets.{IsNoTarget};
ghost use Rattle.proto_files.specs.Faults.{HasNoFault};
ghost use Rattle.proto_names.specs.LinkOfFiles.{IsLinkOf};
ghost use Rattle.proto_names_imports.specs.Links.{LinkFaults};
ghost use Rattle.proto_answers.specs.Declaring.{IsDeclaring, MayBeRenamed};

use proto_edit::{Files, Link, NoMemory, Workspace};
use proto_edit_captures::{NoTarget, find_target};
use proto_resolved::CleanLinked;
use std::alloc::Global;

/// A token of a file, both by their numbers from 0.
#[derive(Clone, Copy)]
pub(crate) struct FileToken {
    pub(crate) file: u32,
    pub(crate) token: u32,
}

/// Out of memory: where what has the name may be renamed, there is no other cause.
fn no_memory(files: &Files, name: &str, cause: NoTarget) -> NoMemory
    requires linked { HasNoFault (LinkFaults files.now) }
    requires named { MayBeRenamed files.now name.now }
    requires cause { IsNoTarget files.now name.now cause }
{
    match cause {
        NoTarget::Unknown => unreachable!(),
        NoTarget::NotAllowed => unreachable!(),
        NoTarget::NoMemory => NoMemory,
    }
}

/// The token that declares what has the name.
fn declaring_token_in(
    alloc: Global,
    files: &Files,
    link: &Link,
    name: &str,
) -> Result<FileToken, NoMemory>
    requires link { IsLinkOf files.now link.now }
    requires linked { HasNoFault (LinkFaults files.now) }
    requires named { MayBeRenamed files.now name.now }
    ensures { IfOk result (IsDeclaring files.now name.now) }
{
    let linked = CleanLinked::new(files, link);
    match find_target(alloc, &linked, name) {
        Ok(target) => Ok(FileToken {
            file: target.file,
            token: target.token,
        }),
        Err(cause) => Err(no_memory(files, name, cause)),
    }
}

/// The same in the files of a workspace.
pub(crate) fn declaring_token(
    alloc: Global,
    workspace: &Workspace,
    name: &str,
) -> Result<FileToken, NoMemory>
    requires { MayBeRenamed workspace.now name.now }
    ensures { IfOk result (IsDeclaring workspace.now name.now) }
{
    declaring_token_in(alloc, workspace.files(), workspace.link(), name)
}
