//! An edit, and the time that its answer, making it and taking it back take beside opening the
//! files.

use crate::files_at;
use proto_base::Profile;
use proto_edit::Workspace;
use std::alloc::Global;
use std::io;
use std::rt::{Clock, Files};
use std::time::Instant;

// What is asked.
#[derive(Clone, Copy)]
pub(crate) enum Edit<'a> {
    Rename { name: &'a str, to: &'a str },
    DeleteField { name: &'a str },
    AddImport { file: &'a str, path: &'a str },
    DropImport { file: &'a str, path: &'a str },
}

// The language of the files, and the words behind it.
fn read_profile(words: &[String]) -> (Profile, &[String]) {
    if let [first, rest @ ..] = words {
        if first.as_str() == "--as-written" {
            return (Profile::AsWritten, rest);
        }
    }
    (Profile::Core, words)
}

// The edit that words begin with, and the words behind it.
pub(crate) fn read_edit(words: &[String]) -> Option<(Edit<'_>, &[String])> {
    let [command, first, rest @ ..] = words else {
        return None;
    };
    let (command, first) = (command.as_str(), first.as_str());
    if command == "delete-field" {
        return Some((Edit::DeleteField { name: first }, rest));
    }
    let [second, rest @ ..] = rest else {
        return None;
    };
    let (name, to) = (first, second.as_str());
    let (file, path) = (name, to);
    let edit = match command {
        "rename" => Edit::Rename { name, to },
        "add-import" => Edit::AddImport { file, path },
        "drop-import" => Edit::DropImport { file, path },
        _ => return None,
    };
    Some((edit, rest))
}

// The edit as the workspace takes it.
pub(crate) fn owned_edit(alloc: Global, edit: Edit) -> io::Result<proto_edit::Edit> {
    Ok(match edit {
        Edit::Rename { name, to } => proto_edit::Edit::Rename {
            name: name.to_string(alloc)?,
            to: to.to_string(alloc)?,
        },
        Edit::DeleteField { name } => proto_edit::Edit::DeleteField {
            name: name.to_string(alloc)?,
        },
        Edit::AddImport { file, path } => proto_edit::Edit::AddImport {
            file: file.to_string(alloc)?,
            path: path.to_string(alloc)?,
        },
        Edit::DropImport { file, path } => proto_edit::Edit::DropImport {
            file: file.to_string(alloc)?,
            path: path.to_string(alloc)?,
        },
    })
}

pub(crate) fn micros(from: Instant, to: Instant) -> u128 {
    to.duration_since(from).as_micros()
}

// Makes the edit in place and takes it back, and prints what each takes.
fn print_made<R: Print + Clock + AllocGlobal>(
    rt: &R,
    workspace: &mut Workspace,
    edit: proto_edit::Edit,
) -> io::Result<()> {
    let asked = Instant::now(rt)?;
    match workspace.apply(rt.alloc(), edit) {
        Ok(entry) => {
            let made = Instant::now(rt)?;
            let end = match workspace.undo(rt.alloc(), &entry) {
                Ok(()) => "undone",
                Err(_) => "not undone",
            };
            let (making, undoing) = (micros(asked, made), micros(made, Instant::now(rt)?));
            println!(rt; ", applied {making}, {end} {undoing}")
        }
        Err(_) => println!(rt; ", not applied"),
    }
}

// The answer to an edit, where the opening of the files began at a time, and how it is made.
fn answer<R: Print + Clock + AllocGlobal>(
    rt: &R,
    workspace: &mut Workspace,
    edit: proto_edit::Edit,
    begun: Instant,
) -> io::Result<()> {
    let asked = Instant::now(rt)?;
    let answer = workspace.answer(rt.alloc(), &edit);
    let answered = Instant::now(rt)?;
    let (opening, editing) = (micros(begun, asked), micros(asked, answered));
    match answer {
        Ok(entry) => {
            let count = entry.changes().len();
            print!(rt; "{count} files: opened {opening}, edited {editing}")?;
            print_made(rt, workspace, edit)
        }
        Err(refusal) => {
            let (number, name) = (refusal.number(), refusal.name());
            println!(rt; "refused {number} {name}: opened {opening}, edited {editing}")
        }
    }
}

/// Prints how many files an edit changes, and four times in microseconds: of opening the files, of
/// the edit's answer, of making it in place, and of taking it back. Of a refused edit why it is,
/// and the first two times. Behind `--as-written` the files are of the language as it is written.
pub(crate) fn time_edit<R: Files + Print + Clock + AllocGlobal>(
    rt: &R,
    words: &[String],
) -> io::Result<()> {
    let (profile, words) = read_profile(words);
    let Some((edit, paths)) = read_edit(words) else {
        return println!(rt; "no edit");
    };
    let edit = owned_edit(rt.alloc(), edit)?;
    let given = files_at(rt, paths)?;
    let begun = Instant::now(rt)?;
    match Workspace::open_as(rt.alloc(), given, profile) {
        Ok(mut workspace) => {
            let printed = answer(rt, &mut workspace, edit, begun);
            workspace.release();
            printed
        }
        Err(_fault) => println!(rt; "not opened"),
    }
}
