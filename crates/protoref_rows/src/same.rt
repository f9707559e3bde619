//! Whether a workspace is one that is opened anew from its bytes, by every reader.

use crate::ever::are_found_alike;
use crate::input::Given;
use proto_edit::{Files, Link, OpenFault, SymbolId, Workspace, to_json};
use std::alloc::Global;
use std::io;

/// In what the workspace differs from one that is opened anew from its bytes, or that it is the
/// same. The names are those that were declared at any time.
pub(crate) fn difference(
    alloc: Global,
    workspace: &Workspace,
    names: &[String],
) -> io::Result<&'static str> {
    let given = given_again(alloc, workspace.files())?;
    match Workspace::open(alloc, given) {
        Ok(anew) => {
            let differs = differs_from(alloc, workspace, &anew, names);
            anew.release();
            Ok(differs)
        }
        Err(OpenFault::Schema(_fault)) => Ok("does not compile"),
        Err(OpenFault::NoMemory) => Ok("no memory"),
    }
}

fn given_again(alloc: Global, files: &Files) -> io::Result<Given> {
    let mut list = Vec::new(alloc);
    for place in 0..files.len() as u32 {
        let path = files.path(place).to_string(alloc)?;
        let bytes = Vec::from_slice(alloc, files.source(place).as_bytes())?;
        list.push((path, bytes))?;
    }
    Ok(list)
}

fn differs_from(
    alloc: Global,
    workspace: &Workspace,
    anew: &Workspace,
    names: &[String],
) -> &'static str {
    let files = workspace.files();
    let (link, other) = (workspace.link(), anew.link());
    if !are_same_files(files, anew.files()) {
        "other files"
    } else if !are_same_names(link, other, files.len() as u32) {
        "other names"
    } else if !are_same_meanings(link, other, files.len() as u32) {
        "other meanings"
    } else if !is_same_sight(link, other, files.len() as u32) {
        "other sight"
    } else if !are_found_alike(link, other, names, files.len() as u32) {
        "other names that went"
    } else if !are_same_descriptors(alloc, workspace, anew) {
        "other descriptors"
    } else {
        "same"
    }
}

// Paths, texts and tokens; what tokens are read as is one tree.
fn are_same_files(files: &Files, anew: &Files) -> bool {
    if files.len() != anew.len() {
        return false;
    }
    for place in 0..files.len() as u32 {
        if !is_same_file(files, anew, place) {
            return false;
        }
    }
    true
}

fn is_same_file(files: &Files, anew: &Files, place: u32) -> bool {
    if place as usize >= files.len() || place as usize >= anew.len() {
        return false;
    }
    files.path(place) == anew.path(place)
        && files.source(place).as_bytes() == anew.source(place).as_bytes()
        && files.tokens(place) == anew.tokens(place)
}

// The names that each file declares, in order.
fn are_same_names(link: &Link, anew: &Link, files: u32) -> bool {
    for file in 0..files {
        if !declares_the_same(link, anew, file) {
            return false;
        }
    }
    true
}

fn declares_the_same(link: &Link, anew: &Link, file: u32) -> bool {
    let (names, others) = (link.declared_in(file), anew.declared_in(file));
    if names.len() != others.len() {
        return false;
    }
    for place in 0..names.len() {
        if !is_same_name(link, names.get(place), anew, others.get(place)) {
            return false;
        }
    }
    true
}

// What every reader of an id answers, and that its text is found.
fn is_same_name(link: &Link, id: Option<SymbolId>, anew: &Link, other: Option<SymbolId>) -> bool {
    let (Some(id), Some(other)) = (id, other) else {
        return false;
    };
    let Some(name) = link.name_of(id) else {
        return false;
    };
    anew.name_of(other) == Some(name)
        && link.symbol(name) == Some(id)
        && anew.symbol(name) == Some(other)
        && link.kind_of(id) == anew.kind_of(other)
        && link.file_of(id) == anew.file_of(other)
        && link.token_of(id) == anew.token_of(other)
        && link.references(id) == anew.references(other)
}

// What the references of each file mean, in order.
fn are_same_meanings(link: &Link, anew: &Link, files: u32) -> bool {
    for file in 0..files {
        if !means_the_same(link, anew, file) {
            return false;
        }
    }
    true
}

fn means_the_same(link: &Link, anew: &Link, file: u32) -> bool {
    let (meant, others) = (link.meant_in(file), anew.meant_in(file));
    if meant.len() != others.len() {
        return false;
    }
    for (one, other) in meant.iter().zip(others) {
        let token = one.token();
        if token != other.token()
            || link.name_of(one.symbol()) != anew.name_of(other.symbol())
            || link.meaning(file, token) != Some(one.symbol())
        {
            return false;
        }
    }
    true
}

// Which names each file sees, of all that are declared.
fn is_same_sight(link: &Link, anew: &Link, files: u32) -> bool {
    for file in 0..files {
        for other in 0..files {
            if !sees_the_same(link, anew, file, other) {
                return false;
            }
        }
    }
    true
}

fn sees_the_same(link: &Link, anew: &Link, file: u32, other: u32) -> bool {
    let names = link.declared_in(other);
    for place in 0..names.len() {
        if let Some(name) = names.get(place).and_then(|id| link.name_of(id)) {
            if link.visible(file, name) != anew.visible(file, name) {
                return false;
            }
        }
    }
    true
}

fn are_same_descriptors(alloc: Global, workspace: &Workspace, anew: &Workspace) -> bool {
    match (
        to_json(alloc, workspace.descriptors()),
        to_json(alloc, anew.descriptors()),
    ) {
        (Ok(text), Ok(other)) => text.as_str() == other.as_str(),
        _ => false,
    }
}
