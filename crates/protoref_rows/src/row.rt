//! Rows as their files write them.
//!
//! A row is some lines behind one another, each a key, a colon and a text; an empty line stands
//! between two rows. A line that begins with `#` is a comment. In a text `\n`, `\r`, `\t` and `\\`
//! stand for a line feed, a carriage return, a tab and a backslash.

use crate::fault::Fault;
use proto_base::NoMemory;
use std::alloc::Global;
use std::io;

/// A row: the number of its first line, counted from 1, and its lines as they stand in the file.
#[derive(Clone, Copy)]
pub(crate) struct Row<'a> {
    pub(crate) first: usize,
    pub(crate) text: &'a str,
}

impl<'a> Row<'a> {
    /// Whether the line of this number is one of the row's.
    pub(crate) fn has_line(&self, number: usize) -> bool {
        number >= self.first && number - self.first < self.text.lines().count()
    }
}

/// A line of a row: its key, and its text.
#[derive(Drop)]
pub(crate) struct Line<'a> {
    pub(crate) key: &'a str,
    pub(crate) text: String,
}

fn is_comment(line: &str) -> bool {
    line.is_empty() || line.starts_with('#')
}

/// The rows of a file. Lines that are all comments are none.
pub(crate) fn rows_of(alloc: Global, text: &str) -> io::Result<Vec<Row>> {
    let mut rows = Vec::new(alloc);
    let mut first: usize = 1;
    for block in text.split("\n\n") {
        if !block.lines().all(is_comment) {
            rows.push(Row { first, text: block })?;
        }
        first = first
            .saturating_add(block.matches('\n').count())
            .saturating_add(2);
    }
    Ok(rows)
}

/// The lines of a row, without its comments.
pub(crate) fn lines_of<'a>(alloc: Global, row: &Row<'a>) -> Result<Vec<Line<'a>>, Fault> {
    let mut lines = Vec::new(alloc);
    for line in row.text.lines() {
        if !is_comment(line) {
            lines.push(line_of(alloc, line)?)?;
        }
    }
    Ok(lines)
}

fn line_of(alloc: Global, written: &str) -> Result<Line, Fault> {
    let (key, text) = match written.split_once(": ") {
        Some(parts) => parts,
        None => match written.strip_suffix(':') {
            Some(key) => (key, ""),
            None => return Err(Fault::Unreadable("a line without a key")),
        },
    };
    let text = plain_text(alloc, text)?;
    Ok(Line { key, text })
}

// The text that a written one stands for.
fn plain_text(alloc: Global, written: &str) -> Result<String, Fault> {
    let mut text = String::new(alloc);
    let mut is_escaped = false;
    for next in written.chars() {
        if is_escaped {
            text.push(plain_character(next)?)?;
            is_escaped = false;
        } else if next == '\\' {
            is_escaped = true;
        } else {
            text.push(next)?;
        }
    }
    if is_escaped {
        return Err(Fault::Unreadable("a backslash at the end of a line"));
    }
    Ok(text)
}

fn plain_character(escaped: char) -> Result<char, Fault> {
    match escaped {
        'n' => Ok('\n'),
        'r' => Ok('\r'),
        't' => Ok('\t'),
        '\\' => Ok('\\'),
        _ => Err(Fault::Unreadable("a backslash before another character")),
    }
}

/// A text as a row writes it.
pub(crate) fn written_text(alloc: Global, text: &str) -> Result<String, NoMemory> {
    let mut written = String::new(alloc);
    for next in text.chars() {
        match next {
            '\n' => written.push_str("\\n")?,
            '\r' => written.push_str("\\r")?,
            '\t' => written.push_str("\\t")?,
            '\\' => written.push_str("\\\\")?,
            _ => written.push(next)?,
        }
    }
    Ok(written)
}
