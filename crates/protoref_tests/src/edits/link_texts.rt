//! What a link says of its files, as one text: of each file its path, the names that it declares, and what its references resolve
//! to. A name stands with the place of its declaration and those of the references to it, each as `file:token`, and a reference as
//! `token=name`.

use proto_base::NoMemory;
use proto_edit::{Link, SymbolId, Workspace};
use proto_files::Files;
use std::alloc::Global;
use std::fmt::Write;

/// The text of a link of these files.
pub(super) fn link_text(alloc: Global, files: &Files, link: &Link) -> Result<String, NoMemory> {
    let mut text = String::new(alloc);
    for file in 0..files.len() as u32 {
        write!(text, "{}:", files.path(file))?;
        add_names(&mut text, link, file)?;
        add_meanings(&mut text, link, file)?;
        text.push(';')?;
    }
    Ok(text)
}

/// The text of a workspace's link.
pub(super) fn text_of_link(alloc: Global, workspace: &Workspace) -> Result<String, NoMemory> {
    link_text(alloc, workspace.files(), workspace.link())
}

fn add_names(text: &mut String, link: &Link, file: u32) -> Result<(), NoMemory> {
    let names = link.declared_in(file);
    for place in 0..names.len() {
        if let Some(id) = names.get(place) {
            add_name(text, link, id)?;
        }
    }
    Ok(())
}

fn add_name(text: &mut String, link: &Link, id: SymbolId) -> Result<(), NoMemory> {
    let name = link.name_of(id).unwrap_or("no name");
    write!(text, " {name}")?;
    if let (Some(file), Some(token)) = (link.file_of(id), link.token_of(id)) {
        write!(text, " {file}:{token}")?;
    }
    for reference in link.references(id) {
        write!(text, ",{}:{}", reference.file, reference.token)?;
    }
    Ok(())
}

fn add_meanings(text: &mut String, link: &Link, file: u32) -> Result<(), NoMemory> {
    for meant in link.meant_in(file) {
        let name = link.name_of(meant.symbol()).unwrap_or("no name");
        write!(text, " {}={name}", meant.token())?;
    }
    Ok(())
}
