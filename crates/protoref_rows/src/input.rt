//! What is read: texts with their lengths, and the files at the beginning.

use std::alloc::Global;
use std::io;

/// Files by their paths in the workspace, with their bytes.
pub(crate) type Given = Vec<(String, Vec<u8>)>;

/// The first text, and what stands behind it; none where no text stands there.
pub(crate) fn next_text(input: &str) -> Option<(&str, &str)> {
    let (digits, behind) = input.split_once(':')?;
    let len = digits.parse::<usize>().ok()?;
    let (text, rest) = behind.split_at_checked(len)?;
    let rest = rest.strip_prefix(',')?;
    Some((text, rest))
}

/// The files, and what stands behind them; none where these are no files.
pub(crate) fn read_files(alloc: Global, input: &str) -> io::Result<Option<(Given, &str)>> {
    let Some((digits, behind)) = next_text(input) else {
        return Ok(None);
    };
    let Ok(count) = digits.parse::<usize>() else {
        return Ok(None);
    };
    let mut files = Vec::new(alloc);
    let mut rest = behind;
    for _ in 0..count {
        let Some((path, text, next)) = next_file(rest) else {
            return Ok(None);
        };
        files.push((path.to_string(alloc)?, text.as_bytes().to_vec(alloc)?))?;
        rest = next;
    }
    Ok(Some((files, rest)))
}

fn next_file(input: &str) -> Option<(&str, &str, &str)> {
    let (path, behind) = next_text(input)?;
    let (text, rest) = next_text(behind)?;
    Some((path, text, rest))
}
