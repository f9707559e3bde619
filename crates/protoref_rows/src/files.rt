//! Files as rows write them: ` | ` between them, and each its path, which ends with `.proto`, and,
//! if it is not empty, a space and its text.

use crate::fault::Fault;
use std::alloc::Global;

/// The path and the text of a file.
pub(crate) type File<'a> = (&'a str, &'a str);

/// The files that are written so.
pub(crate) fn files_of(alloc: Global, written: &str) -> Result<Vec<File>, Fault> {
    let mut files = Vec::new(alloc);
    if written.is_empty() {
        return Ok(files);
    }
    for file in written.split(" | ") {
        files.push(file_of(file)?)?;
    }
    Ok(files)
}

fn file_of(written: &str) -> Result<File, Fault> {
    let path_len = match written.split_once(".proto ") {
        Some((name, _)) => name.len() + ".proto".len(),
        None if written.ends_with(".proto") => written.len(),
        None => return Err(Fault::Unreadable("a file without a path")),
    };
    match written.split_at_checked(path_len) {
        Some((path, text)) => Ok((path, text.strip_prefix(' ').unwrap_or(""))),
        None => Err(Fault::Unreadable("a file without a path")),
    }
}
