//! The lines of what rules find.

ghost use Rattle.std.specs.Prelude.{◌≡◌, ◌++◌, ℕ, List, flat_map, map, IfOk, OnOk};
ghost use Rattle.std.specs.String.{string_bytes};
ghost use Rattle.proto_files.specs.GivenFiles.{file_at};
ghost use Rattle.proto_lint_names.specs.Views.{finding_of};
ghost use Rattle.protoref_output.specs.FoundLines.{found_line, finding_line, text_of_path};
ghost use Rattle.protoref_output.specs.Places.{IsCursorIn};
ghost use Rattle.proto_text.specs.Lines.{column_at, line_at};

use crate::place::{Cursor, Place};
use proto_base::NoMemory;
use proto_files::Files;
use proto_lint_names::Finding;
use std::alloc::Global;

/// The line of each finding, ended by a line feed:
/// `path:line:column: RULE name`. Findings in the order of their places take
/// one walk through the files and their texts. Fails only when out of memory.
pub fn lines_of_findings(
    alloc: Global,
    files: &Files,
    found: &[Finding],
) -> Result<String, NoMemory>
    ensures { IfOk result (λ text. string_bytes text
        ≡ flat_map (found_line files.now) (map finding_of found.now)) }
{
    let mut text = String::new(alloc);
    let mut spot = Spot::new();
    for finding in found {
        spot = spot.moved_to(files, finding.path.as_str(), finding.offset);
        add_line(alloc, &mut text, finding, spot.cursor.place())?;
    }
    Ok(text)
}

fn add_line(
    alloc: Global,
    text: &mut String,
    finding: &Finding,
    place: Place,
) -> Result<(), NoMemory>
    ensures { OnOk result (string_bytes text.new
        ≡ string_bytes text.old ++ finding_line (finding_of finding.now) place.line place.column) }
{
    let path = finding.path.as_str();
    let rule = finding.rule.name();
    let name = finding.name.as_str();
    let Place { line, column } = place;
    let line = format!(in alloc; "{path}:{line}:{column}: {rule} {name}\n")?;
    text.push_str(line.as_str())?;
    Ok(())
}

// A file by its number, and a place of its text.
#[derive(Clone, Copy)]
pub(crate) struct Spot {
    pub(crate) file: u32,
    pub(crate) cursor: Cursor,
}

impl Spot {
    // At the beginning of the first file.
    pub(crate) fn new() -> Spot
        ensures { (text : List ℕ) → IsCursorIn text result.cursor }
    {
        Spot {
            file: 0,
            cursor: Cursor::new(),
        }
    }

    // At an offset of the text of the file with a number.
    pub(crate) fn in_file(self, files: &Files, file: u32, offset: u32) -> Spot
        requires { IsCursorIn (file_at files.now self.file).bytes self.cursor }
        ensures file { result.file ≡ file }
        ensures there { IsCursorIn (file_at files.now file).bytes result.cursor }
        ensures line { result.cursor.place.line ≡ line_at (file_at files.now file).bytes offset }
        ensures column { result.cursor.place.column
            ≡ column_at (file_at files.now file).bytes offset }
    {
        let cursor = if file == self.file {
            self.cursor
        } else {
            Cursor::new()
        };
        Spot {
            file,
            cursor: cursor.moved_to(text_of(files, file), offset),
        }
    }

    // At an offset of the text of the file at a path.
    fn moved_to(self, files: &Files, path: &str, offset: u32) -> Spot
        requires { IsCursorIn (file_at files.now self.file).bytes self.cursor }
        ensures there { IsCursorIn (file_at files.now result.file).bytes result.cursor }
        ensures line { result.cursor.place.line ≡ line_at (text_of_path path.now files.now) offset }
        ensures column { result.cursor.place.column
            ≡ column_at (text_of_path path.now files.now) offset }
    {
        let file = number_of(files, path);
        self.in_file(files, file, offset)
    }
}

// The text of a file; empty where there is none with the number.
fn text_of(files: &Files, file: u32) -> &[u8]
    ensures { result.now ≡ (file_at files.now file).bytes }
{
    if (file as usize) < files.len() {
        files.source(file).as_bytes()
    } else {
        &[]
    }
}

// The text of the file at a path; empty where there is none.
pub(crate) fn text_named<'a>(files: &'a Files, path: &str) -> &'a [u8]
    ensures { result.now ≡ text_of_path path.now files.now }
{
    text_of(files, number_of(files, path))
}

// The number of the file at a path; the count of the files where there is none.
fn number_of(files: &Files, path: &str) -> u32
    ensures { (file_at files.now result).bytes ≡ text_of_path path.now files.now }
{
    let count = files.len() as u32;
    match files.place_of_path(path) {
        Some(file) => file,
        None => count,
    }
}
