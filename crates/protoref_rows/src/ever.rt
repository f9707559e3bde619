//! Names that were declared at any time of a walk, also those that went.

use proto_edit::{Link, Workspace};
use std::alloc::Global;
use std::io;

/// Puts the names that a workspace declares behind those that were declared before, each once.
pub(crate) fn add_declared(
    alloc: Global,
    names: &mut Vec<String>,
    workspace: &Workspace,
) -> io::Result<()> {
    for file in 0..workspace.files().len() as u32 {
        add_names(alloc, names, workspace.link(), file)?;
    }
    Ok(())
}

fn add_names(alloc: Global, names: &mut Vec<String>, link: &Link, file: u32) -> io::Result<()> {
    let declared = link.declared_in(file);
    for place in 0..declared.len() {
        if let Some(name) = declared.get(place).and_then(|id| link.name_of(id)) {
            add_name(alloc, names, name)?;
        }
    }
    Ok(())
}

fn add_name(alloc: Global, names: &mut Vec<String>, name: &str) -> io::Result<()> {
    for one in names.as_slice() {
        if one.as_str() == name {
            return Ok(());
        }
    }
    names.push(name.to_string(alloc)?)?;
    Ok(())
}

/// Whether each of the names is found in both links or in neither, and seen by the same files.
pub(crate) fn are_found_alike(link: &Link, anew: &Link, names: &[String], files: u32) -> bool {
    for name in names {
        if !is_found_alike(link, anew, name.as_str(), files) {
            return false;
        }
    }
    true
}

fn is_found_alike(link: &Link, anew: &Link, name: &str, files: u32) -> bool {
    for file in 0..files {
        if link.visible(file, name) != anew.visible(file, name) {
            return false;
        }
    }
    link.symbol(name).is_some() == anew.symbol(name).is_some()
}
