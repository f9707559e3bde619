//! A list of edits, and the time that making it and taking it back take beside opening the files.

use crate::editing::{micros, owned_edit, read_edit};
use crate::files_at;
use proto_base::NoMemory;
use proto_edit::{Edit, Workspace};
use proto_edit_entries::{Entry, Refusal};
use std::alloc::Global;
use std::io;
use std::rt::{Clock, Files};
use std::time::Instant;

// The edits that words begin with, and the words behind them.
fn read_edits(alloc: Global, words: &[String]) -> io::Result<(Vec<Edit>, &[String])> {
    let mut edits = Vec::new(alloc);
    let mut rest = words;
    for _word in words {
        let Some((edit, behind)) = read_edit(rest) else {
            break;
        };
        edits.push(owned_edit(alloc, edit)?)?;
        rest = behind;
    }
    Ok((edits, rest))
}

// The entries of the edits that were made.
fn made(alloc: Global, answers: Vec<Result<Entry, Refusal>>) -> io::Result<Vec<Entry>> {
    let mut entries = Vec::new(alloc);
    for answer in answers {
        if let Ok(entry) = answer {
            entries.push(entry)?;
        }
    }
    Ok(entries)
}

// Takes back what was made.
fn take_back(alloc: Global, workspace: &Workspace, entries: &[Entry]) -> &'static str {
    match workspace.undo_all(alloc, entries) {
        Ok(before) => {
            before.release();
            "undone"
        }
        Err(_refusal) => "not undone",
    }
}

// Takes back what was made of a list, and prints what both took.
fn print_made<R: Print + Clock + AllocGlobal>(
    rt: &R,
    after: &Workspace,
    answers: Vec<Result<Entry, Refusal>>,
    begun: Instant,
    asked: Instant,
) -> io::Result<()> {
    let ended = Instant::now(rt)?;
    let of = answers.len();
    let entries = made(rt.alloc(), answers)?;
    let back = Instant::now(rt)?;
    let end = take_back(rt.alloc(), after, &entries);
    let (opening, making) = (micros(begun, asked), micros(asked, ended));
    let (count, undoing) = (entries.len(), micros(back, Instant::now(rt)?));
    println!(rt; "{count} of {of} edits: opened {opening}, applied {making}, {end} {undoing}")
}

// Makes the list and takes it back, where the opening of the files began at a time.
fn print_list<R: Print + Clock + AllocGlobal>(
    rt: &R,
    workspace: &Workspace,
    edits: &[Edit],
    begun: Instant,
) -> io::Result<()> {
    let asked = Instant::now(rt)?;
    match workspace.apply_all(rt.alloc(), edits) {
        Ok((after, answers)) => {
            let printed = print_made(rt, &after, answers, begun, asked);
            after.release();
            printed
        }
        Err(NoMemory) => println!(rt; "no memory"),
    }
}

/// Prints how many edits of a list are made, and three times in microseconds: of opening the files,
/// of making the list in a workspace of its own, and of taking back what was made.
pub(crate) fn time_edits<R: Files + Print + Clock + AllocGlobal>(
    rt: &R,
    words: &[String],
) -> io::Result<()> {
    let (edits, paths) = read_edits(rt.alloc(), words)?;
    let given = files_at(rt, paths)?;
    let begun = Instant::now(rt)?;
    match Workspace::open(rt.alloc(), given) {
        Ok(workspace) => {
            let printed = print_list(rt, &workspace, &edits, begun);
            workspace.release();
            printed
        }
        Err(_fault) => println!(rt; "not opened"),
    }
}
