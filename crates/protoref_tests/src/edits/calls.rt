//! Rows that are written as texts, and how they are asserted.

use proto_base::{NoMemory, Profile, SchemaFault};
use proto_edit::Workspace;
use protoref_test_cases::{Row, Step, difference};
use std::alloc::Global;
use std::process::Abort;

/// Files, edits of them one after another, the files afterwards (none where they are as before), and what stands in the
/// descriptors then. Files are one text, `|` between them: the path of each, a space, and its text. So are edits: the words of
/// each, and behind ` > ` what it is answered, as a `Step` has it.
pub(crate) type Flat = [&'static str; 4];

/// The paths and texts of files that are written as one text.
pub(crate) fn texts(
    alloc: Global,
    written: &'static str,
) -> Result<Vec<(&'static str, &'static str)>, NoMemory> {
    let mut files = Vec::new(alloc);
    for file in written.split('|') {
        if !file.is_empty() {
            files.push(file.split_once(' ').unwrap_or((file, "")))?;
        }
    }
    Ok(files)
}

/// The workspace of such files as written.
pub(crate) fn open_as_written(
    alloc: Global,
    written: &'static str,
) -> Result<Workspace, SchemaFault> {
    let mut files = Vec::new(alloc);
    for (path, text) in &texts(alloc, written)? {
        let path = String::from_str(alloc, path)?;
        files.push((path, Vec::from_slice(alloc, text.as_bytes())?))?;
    }
    Workspace::open_as(alloc, files, Profile::AsWritten)
}

/// The edit that is written as one text, with its answer.
pub(crate) fn step(written: &'static str) -> Step<'static> {
    let (asked, answer) = written.split_once(" > ").unwrap_or((written, "no answer"));
    let mut words = asked.split(' ');
    let kind = words.next().unwrap_or("");
    let of = words.next().unwrap_or("");
    let to = words.next().unwrap_or("");
    (kind, of, to, answer)
}

fn steps(alloc: Global, written: &'static str) -> Result<Vec<Step<'static>>, NoMemory> {
    let mut steps = Vec::new(alloc);
    for one in written.split('|') {
        steps.push(step(one))?;
    }
    Ok(steps)
}

/// What is otherwise than a row says, which is led back by its entries.
pub(crate) fn difference_of(alloc: Global, flat: &Flat) -> Result<String, NoMemory> {
    let [given, asked, left, json] = *flat;
    let files = texts(alloc, given)?;
    let steps = steps(alloc, asked)?;
    let after = texts(alloc, left)?;
    let row = Row {
        files: files.as_slice(),
        steps: steps.as_slice(),
        after: after.as_slice(),
        json,
    };
    difference(alloc, &row, &[])
}

/// Ends the test with what is told, if there is anything.
pub(crate) fn expect_none<R: Abort>(rt: &R, told: Result<String, NoMemory>) {
    let told = told.expect(rt, "memory");
    assert!(rt; told.is_empty(), "{told}");
}
