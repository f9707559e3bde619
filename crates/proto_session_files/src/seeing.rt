//! The files that the client sees, and the texts that it has open.

ghost use Rattle.std.specs.Prelude.{◌≡◌, IfOk, OnOk, map};
ghost use Rattle.proto_base.specs.GivenFiles.{file_of, files_of, files_of_as};
ghost use Rattle.proto_base.specs.declared.profile.Profile.{Profile};
ghost use Rattle.proto_session_files.specs.Seeing.{is_there, place_for};
ghost use Rattle.proto_session_files.specs.Views.{closed, is_open, laid, of_version, open_of, seen_over, with_open, with_version};

use crate::open_text::OpenText;
use std::alloc::{AllocError, Global};
use std::cmp::Ordering;

// A copy of a file.
fn copy_file(alloc: Global, file: &(String, Vec<u8>)) -> Result<(String, Vec<u8>), AllocError>
    ensures { IfOk result (λ copy. file_of copy ≡ file_of file.now) }
{
    let path = String::from_str(alloc, file.0.as_str())?;
    let bytes = Vec::from_slice(alloc, file.1.as_slice())?;
    Ok((path, bytes))
}

/// Copies of files, in their order. Fails only when out of memory.
pub(crate) fn copy_files(
    alloc: Global,
    files: &[(String, Vec<u8>)],
) -> Result<Vec<(String, Vec<u8>)>, AllocError>
    ensures { IfOk result (λ copies. files_of copies.items ≡ files_of files.now) }
{
    let mut copies = Vec::new(alloc);
    for file in files {
        copies.push(copy_file(alloc, file)?)?;
    }
    Ok(copies)
}

// How many files from the first on come before the path.
fn place_for(files: &[(String, Vec<u8>)], path: &str) -> usize
    ensures { result ≡ place_for path.now (files_of files.now) }
{
    for (place, file) in files.iter().enumerate() {
        match path.cmp(file.0.as_str()) {
            Ordering::Greater => {}
            Ordering::Less | Ordering::Equal => return place,
        }
    }
    files.len()
}

// Whether the file at a place has the path.
fn is_there(files: &[(String, Vec<u8>)], place: usize, path: &str) -> bool
    ensures { result ≡ is_there path.now place (files_of files.now) }
{
    place < files.len() && files[place].0.as_str() == path
}

// Lays a file over those in the order of their paths.
fn lay(files: &mut Vec<(String, Vec<u8>)>, path: String, bytes: Vec<u8>) -> Result<(), AllocError>
    ensures { OnOk result (files_of files.new.items
        ≡ laid (file_of (path, bytes)) (files_of files.old.items)) }
{
    let place = place_for(files.as_slice(), path.as_str());
    if is_there(files.as_slice(), place, path.as_str()) {
        files.remove(place);
    }
    files.insert(place, (path, bytes))?;
    Ok(())
}

/// The files of the folder with the open texts laid over them, in whatever language they are read.
/// Fails only when out of memory.
pub fn seen(
    alloc: Global,
    disk: &[(String, Vec<u8>)],
    opened: &[OpenText],
) -> Result<Vec<(String, Vec<u8>)>, AllocError>
    ensures { IfOk result (λ files. (p : Profile) → files_of_as p files.items
        ≡ seen_over p (files_of_as p disk.now) (map open_of opened.now)) }
{
    let mut files = copy_files(alloc, disk)?;
    for open in opened {
        let path = String::from_str(alloc, open.path.as_str())?;
        let bytes = Vec::from_slice(alloc, open.text.as_bytes())?;
        lay(&mut files, path, bytes)?;
    }
    Ok(files)
}

// A copy of an open text.
fn copy_open(alloc: Global, open: &OpenText) -> Result<OpenText, AllocError>
    ensures { IfOk result (λ copy. open_of copy ≡ open_of open.now) }
{
    Ok(OpenText {
        path: String::from_str(alloc, open.path.as_str())?,
        uri: String::from_str(alloc, open.uri.as_str())?,
        version: open.version,
        text: String::from_str(alloc, open.text.as_str())?,
    })
}

/// Whether a text is open at the path.
pub fn is_open(opened: &[OpenText], path: &str) -> bool
    ensures { result ≡ is_open path.now (map open_of opened.now) }
{
    for open in opened {
        if open.path.as_str() == path {
            return true;
        }
    }
    false
}

/// The open texts without the one at the path. Fails only when out of memory.
pub fn closed(alloc: Global, opened: &[OpenText], path: &str) -> Result<Vec<OpenText>, AllocError>
    ensures { IfOk result (λ left. map open_of left.items
        ≡ closed path.now (map open_of opened.now)) }
{
    let mut left = Vec::new(alloc);
    for open in opened {
        if open.path.as_str() != path {
            left.push(copy_open(alloc, open)?)?;
        }
    }
    Ok(left)
}

/// The open texts with this one in the place of the one at its path. Fails only when out of memory.
pub fn with_open(
    alloc: Global,
    opened: &[OpenText],
    text: OpenText,
) -> Result<Vec<OpenText>, AllocError>
    ensures { IfOk result (λ all. map open_of all.items
        ≡ with_open (open_of text) (map open_of opened.now)) }
{
    let mut all = closed(alloc, opened, text.path.as_str())?;
    all.push(text)?;
    Ok(all)
}

// A copy of an open text, of this version where it is at the path.
fn renumbered(
    alloc: Global,
    open: &OpenText,
    path: &str,
    version: u64,
) -> Result<OpenText, AllocError>
    ensures { IfOk result (λ copy. open_of copy
        ≡ of_version path.now version (open_of open.now)) }
{
    let mut copy = copy_open(alloc, open)?;
    if copy.path.as_str() == path {
        copy.version = version;
    }
    Ok(copy)
}

/// The open texts, the one at the path of another version. Fails only when out of memory.
pub fn with_version(
    alloc: Global,
    opened: &[OpenText],
    path: &str,
    version: u64,
) -> Result<Vec<OpenText>, AllocError>
    ensures { IfOk result (λ all. map open_of all.items
        ≡ with_version path.now version (map open_of opened.now)) }
{
    let mut all = Vec::new(alloc);
    for open in opened {
        all.push(renumbered(alloc, open, path, version)?)?;
    }
    Ok(all)
}
