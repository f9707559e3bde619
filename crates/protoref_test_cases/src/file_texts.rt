//! Files in words: the path and the text of each.

use proto_base::NoMemory;
use proto_edit::Files;
use std::alloc::Global;
use std::fmt::Write;

/// The files of a workspace.
pub(crate) fn text_of_files(alloc: Global, files: &Files) -> Result<String, NoMemory> {
    let mut out = String::new(alloc);
    for file in files {
        let text = str::from_utf8(file.source.as_bytes()).unwrap_or("");
        write!(out, "{} {text}; ", file.path.as_str())?;
    }
    Ok(out)
}

/// The files of a row.
pub(crate) fn text_of_row(alloc: Global, files: &[(&str, &str)]) -> Result<String, NoMemory> {
    let mut out = String::new(alloc);
    for (path, text) in files {
        write!(out, "{path} {text}; ")?;
    }
    Ok(out)
}
