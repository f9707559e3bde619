//! Rows of edits.
//!
//!     files: the files
//!     bytes: up to how many bytes the first file is filled with spaces
//!     edit: an edit, and behind ` > ` what it is answered, as a `Step` has it
//!     after: the files afterwards; none where they are as before
//!     json: what stands in the descriptors afterwards
//!     undo: which entry is undone, counted from 0 > the number and the name of the answer > the files then
//!
//! A row without undos is led back by its entries. One of a filled file says what its edits are
//! answered, and no more.

use crate::fault::Fault;
use crate::files::{File, files_of};
use crate::row::Line;
use protoref_test_cases::{Row, Said, Step, Undo, difference, difference_of_answers, padded_text};
use std::alloc::Global;

/// What a row says.
#[derive(Drop)]
struct Edits<'a> {
    files: &'a str,
    bytes: Option<usize>,
    steps: Vec<Step<'a>>,
    after: &'a str,
    json: &'a str,
    undos: Vec<Undone<'a>>,
}

/// An undo, with the files afterwards.
#[derive(Drop)]
struct Undone<'a> {
    entry: usize,
    said: Said<'a>,
    files: Vec<File<'a>>,
}

/// What is otherwise than the row says, or an empty text.
pub(crate) fn difference_of_edits(alloc: Global, lines: &[Line]) -> Result<String, Fault> {
    let edits = edits_of(alloc, lines)?;
    let files = files_of(alloc, edits.files)?;
    match edits.bytes {
        Some(bytes) => difference_of_filled(alloc, &edits, files.as_slice(), bytes),
        None => difference_of_row(alloc, &edits, files.as_slice()),
    }
}

fn difference_of_row(alloc: Global, edits: &Edits, files: &[File]) -> Result<String, Fault> {
    let after = files_of(alloc, edits.after)?;
    let row = Row {
        files,
        steps: edits.steps.as_slice(),
        after: after.as_slice(),
        json: edits.json,
    };
    let mut undos = Vec::new(alloc);
    for undone in &edits.undos {
        undos.push((undone.entry, undone.said, undone.files.as_slice()))?;
    }
    Ok(difference(alloc, &row, undos.as_slice())?)
}

// The first file is filled with spaces up to so many bytes.
fn difference_of_filled(
    alloc: Global,
    edits: &Edits,
    files: &[File],
    bytes: usize,
) -> Result<String, Fault> {
    let [(path, text), others @ ..] = files else {
        return Err(Fault::Unreadable("no files"));
    };
    let text = padded_text(alloc, text, bytes)?;
    let mut filled = Vec::new(alloc);
    filled.push((*path, text.as_str()))?;
    filled.extend_from_slice(others)?;
    Ok(difference_of_answers(alloc, filled.as_slice(), edits.steps.as_slice())?)
}

fn edits_of<'a>(alloc: Global, lines: &'a [Line]) -> Result<Edits<'a>, Fault> {
    let mut edits = Edits {
        files: "",
        bytes: None,
        steps: Vec::new(alloc),
        after: "",
        json: "",
        undos: Vec::new(alloc),
    };
    for line in lines {
        add_line(alloc, &mut edits, line)?;
    }
    if edits.files.is_empty() || edits.steps.is_empty() {
        return Err(Fault::Unreadable("no files or no edit"));
    }
    Ok(edits)
}

fn add_line<'a>(alloc: Global, edits: &mut Edits<'a>, line: &'a Line) -> Result<(), Fault> {
    let text = line.text.as_str();
    match line.key {
        "files" if edits.files.is_empty() => edits.files = text,
        "bytes" if edits.bytes.is_none() => edits.bytes = Some(number(text)?),
        "edit" => edits.steps.push(step_of(text)?)?,
        "after" if edits.after.is_empty() => edits.after = text,
        "json" if edits.json.is_empty() => edits.json = text,
        "undo" => edits.undos.push(undone_of(alloc, text)?)?,
        _ => return Err(Fault::Unreadable("a key that no row of edits has, or has once")),
    }
    Ok(())
}

fn number(written: &str) -> Result<usize, Fault> {
    match written.parse() {
        Ok(number) => Ok(number),
        Err(_) => Err(Fault::Unreadable("no number")),
    }
}

fn parts(written: &str) -> Result<(&str, &str), Fault> {
    match written.split_once(" > ") {
        Some(parts) => Ok(parts),
        None => Err(Fault::Unreadable("no answer")),
    }
}

fn step_of(written: &str) -> Result<Step, Fault> {
    let (asked, answer) = parts(written)?;
    let mut words = asked.split(' ');
    let kind = words.next().unwrap_or("");
    let of = words.next().unwrap_or("");
    let to = words.next().unwrap_or("");
    if words.next().is_some() || !matches!(kind, "rename" | "delete" | "add" | "drop") {
        return Err(Fault::Unreadable("no edit"));
    }
    Ok((kind, of, to, answer))
}

fn undone_of(alloc: Global, written: &str) -> Result<Undone, Fault> {
    let (entry, said) = parts(written)?;
    let (said, files) = parts(said)?;
    let Some((refusal, name)) = said.split_once(' ') else {
        return Err(Fault::Unreadable("no answer of an undo"));
    };
    let refusal = number(refusal)?;
    Ok(Undone {
        entry: number(entry)?,
        said: (u32::try_from(refusal).unwrap_or(u32::MAX), name),
        files: files_of(alloc, files)?,
    })
}
