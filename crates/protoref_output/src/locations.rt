//! Where references and faults stand.

ghost use Rattle.std.specs.Prelude.{◌≡◌, List, [], map, IfOk};
ghost use Rattle.std.specs.Option.{unwrap_or};
ghost use Rattle.proto_files.specs.Faults.{fault_at};
ghost use Rattle.proto_files.specs.FilesRead.{AreRead, ReadOf, read_at};
ghost use Rattle.proto_files.specs.GivenFiles.{file_at, files_of};
ghost use Rattle.protoref_output.specs.FaultLines.{IsLineAndColumn};
ghost use Rattle.protoref_output.specs.Locations.{location_at, location_of, reference_location};
ghost use Rattle.protoref_output.specs.Places.{IsCursorIn};
ghost use Rattle.proto_store.specs.Stores.{bytes_at};
ghost use Rattle.proto_text.specs.Texts.{offset_at};

use crate::found_lines::Spot;
use crate::place::{Place, place_at};
use proto_base::{Fault, NoMemory};
use proto_files::{Files, offset_of};
use proto_names::RefId;
use std::alloc::Global;
use std::fmt;

/// A place of a file, printed as `path:line:column`.
#[derive(Clone, Copy, Debug, PartialEq, Eq)]
pub struct Location<'a> {
    /// The path of the file in its workspace.
    pub path: &'a str,
    /// The line, from 1.
    pub line: usize,
    /// The column in bytes, from 1.
    pub column: usize,
}

impl<'a> fmt::Display for Location<'a> {
    fn fmt<W: fmt::Write>(&self, f: &mut fmt::Formatter<W>) -> fmt::Result {
        write!(f, "{}:{}:{}", self.path, self.line, self.column)
    }
}

/// Where each of the references begins, in their order. One that is not of these files stands at
/// the beginning of its file, and where there is no such file, of one with an empty path. References
/// in the order of a link take one walk through the texts. Fails only when out of memory.
pub fn locations_of_references<'a>(
    alloc: Global,
    files: &'a Files,
    references: &[RefId],
) -> Result<Vec<Location<'a>>, NoMemory>
    ensures { IfOk result (λ found. (reads : List ReadOf) → AreRead files.now reads
        → map location_of found.items
        ≡ map (reference_location files.now reads) references.now) }
{
    let mut found = Vec::new(alloc);
    let mut spot = Spot::new();
    for reference in references {
        spot = at_reference(spot, files, *reference);
        found.push(spot_location(spot, files))?;
    }
    Ok(found)
}

// From a spot to where a reference begins.
fn at_reference(spot: Spot, files: &Files, reference: RefId) -> Spot
    requires { IsCursorIn (file_at files.now spot.file).bytes spot.cursor }
    ensures there { IsCursorIn (file_at files.now result.file).bytes result.cursor }
    ensures located { (reads : List ReadOf) → AreRead files.now reads
        → location_at files.now result.file result.cursor.place
        ≡ reference_location files.now reads reference }
{
    let offset = offset_in(files, reference);
    spot.in_file(files, reference.file, offset)
}

// Where the first token of a reference begins; 0 where the files have no such token.
fn offset_in(files: &Files, reference: RefId) -> u32
    ensures { (reads : List ReadOf) → AreRead files.now reads
        → result ≡ offset_at (read_at reads reference.file).tokens reference.token }
{
    let file = reference.file;
    if (file as usize) < files.len() {
        offset_of(files.tokens(file), reference.token)
    } else {
        0
    }
}

fn spot_location<'a>(spot: Spot, files: &'a Files) -> Location<'a>
    ensures { location_of result ≡ location_at files.now spot.file spot.cursor.place }
{
    let Place { line, column } = spot.cursor.place();
    let path = path_of(files, spot.file);
    Location { path, line, column }
}

/// The path of a file; empty where there is none with the number.
pub fn path_of(files: &Files, file: u32) -> &str
    ensures { result.now ≡ (file_at files.now file).path }
{
    if (file as usize) < files.len() {
        files.path(file)
    } else {
        ""
    }
}

/// The line and the column of a fault of these files, which are listed as they are given to be
/// opened. Of two files at its path the first is looked at, and without one it is line 1, column 1.
/// Takes no memory.
pub fn place_of_fault(files: &[(String, Vec<u8>)], fault: &Fault) -> Place
    ensures { IsLineAndColumn (files_of files.now) (fault_at fault.now) result.line result.column }
{
    place_at(bytes_given(files, fault.path.as_str()), fault.offset)
}

// The bytes of the first file at a path; none where there is no such file.
fn bytes_given<'a>(files: &'a [(String, Vec<u8>)], path: &str) -> &'a [u8]
    ensures { result.now ≡ unwrap_or (bytes_at path.now (files_of files.now)) [] }
{
    for file in files {
        if path == file.0.as_str() {
            return file.1.as_slice();
        }
    }
    &[]
}
