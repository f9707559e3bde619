//! Walks through edits and undos of one workspace, each made in place, and compares the workspace
//! after each with one that is opened anew from its bytes.
//!
//! What is read are texts, each as its length in bytes, a colon, the text and a comma: how many
//! files, for each its path and its text; then the steps, each as three texts: the kind of an edit
//! with its two words, or `undo` with two empty ones, which takes back the last edit that stands.
//! Where the text `library` stands first, the example of docs/library.md is run before the walk; where
//! `faults` does, all faults of the files are printed, and nothing is walked.

use crate::ever::add_declared;
use crate::input::{Given, next_text, read_files};
use crate::same::difference;
use crate::step::{Step, next_step};
use crate::{all_faults, library_example};
use proto_edit::{Edit, Entry, OpenFault, Refusal, Workspace};
use std::io;

/// Reads standard input, and does what it asks.
pub(crate) fn run(rt: &HostRuntime) -> io::Result<()> {
    let text = io::read_to_string(rt.alloc(), rt.reader())?;
    match text.strip_prefix("7:library,") {
        Some(rest) => {
            library_example::run(rt)?;
            rt.println("")?;
            read(rt, rest)
        }
        None => read_or_list(rt, &text),
    }
}

fn read_or_list<R: Print + AllocGlobal>(rt: &R, text: &str) -> io::Result<()> {
    match text.strip_prefix("6:faults,") {
        Some(rest) => all_faults::run(rt, rest),
        None => read(rt, text),
    }
}

fn read<R: Print + AllocGlobal>(rt: &R, input: &str) -> io::Result<()> {
    match read_files(rt.alloc(), input)? {
        Some((files, steps)) => open(rt, files, steps),
        None => rt.println("no files"),
    }
}

// This function alone owns the workspace that is edited.
fn open<R: Print + AllocGlobal>(rt: &R, files: Given, steps: &str) -> io::Result<()> {
    match Workspace::open(rt.alloc(), files) {
        Ok(mut workspace) => {
            let walked = walk(rt, &mut workspace, steps);
            workspace.release();
            walked
        }
        Err(OpenFault::Schema(_fault)) => rt.println("a fault"),
        Err(OpenFault::NoMemory) => rt.println("no memory"),
    }
}

// Makes the steps one by one, and prints what each is answered and in what the workspace differs.
fn walk<R: Print + AllocGlobal>(rt: &R, workspace: &mut Workspace, steps: &str) -> io::Result<()> {
    let mut entries = Vec::new(rt.alloc());
    let mut names = Vec::new(rt.alloc());
    add_declared(rt.alloc(), &mut names, workspace)?;
    let mut rest = steps;
    // Each step is a byte and more.
    for _ in 0..steps.len() {
        let Some((step, behind)) = next_step(rt.alloc(), rest)? else {
            return Ok(());
        };
        answer(rt, workspace, &mut entries, step)?;
        add_declared(rt.alloc(), &mut names, workspace)?;
        rt.println(difference(rt.alloc(), workspace, &names)?)?;
        rest = behind;
    }
    Ok(())
}

fn answer<R: Print + AllocGlobal>(
    rt: &R,
    workspace: &mut Workspace,
    entries: &mut Vec<Entry>,
    step: Step,
) -> io::Result<()> {
    match step {
        Step::Edit(edit) => apply(rt, workspace, entries, edit),
        Step::Undo => undo(rt, workspace, entries),
    }
}

fn apply<R: Print + AllocGlobal>(
    rt: &R,
    workspace: &mut Workspace,
    entries: &mut Vec<Entry>,
    edit: Edit,
) -> io::Result<()> {
    match workspace.apply(rt.alloc(), edit) {
        Ok(entry) => {
            entries.push(entry)?;
            print!(rt; "done ")
        }
        Err(refusal) => print_refusal(rt, &refusal),
    }
}

fn undo<R: Print + AllocGlobal>(
    rt: &R,
    workspace: &mut Workspace,
    entries: &mut Vec<Entry>,
) -> io::Result<()> {
    let Some(entry) = entries.pop() else {
        return print!(rt; "nothing ");
    };
    match workspace.undo(rt.alloc(), &entry) {
        Ok(()) => print!(rt; "undone "),
        Err(refusal) => print_refusal(rt, &refusal),
    }
}

fn print_refusal<R: Print>(rt: &R, refusal: &Refusal) -> io::Result<()> {
    print!(rt; "{} ", refusal.number())
}
