//! Tries the rows of `data/`: each names calls of the library or of the program, and what they
//! answer. Prints each row of which something is otherwise, and how many rows were read.
//!
//!     protoref_rows              every row
//!     protoref_rows TABLE        the rows of a table
//!     protoref_rows TABLE:LINE   the row that stands at a line of a table
//!     protoref_rows walk         no row: the edits of one workspace that standard input has
//!     protoref_rows all          these, and then every row
#![tactic(auto)]

mod all_faults;
mod commands;
mod edits;
mod ever;
mod fault;
mod files;
mod input;
mod library_example;
mod row;
mod same;
mod step;
mod walking;

use crate::commands::difference_of_commands;
use crate::edits::difference_of_edits;
use crate::fault::Fault;
use crate::row::{Row, lines_of, rows_of};
use std::alloc::Global;
use std::rt::Files;
use std::{env, fs, io};

/// What the rows of a table are.
#[derive(Clone, Copy)]
enum Kind {
    /// Edits of a workspace.
    Edits,
    /// Commands of the program over a store.
    Commands,
}

/// The tables, each a file of `data/`, and what their rows are.
const TABLES: &[(&str, Kind)] = &[
    ("renames.rows", Kind::Edits),
    ("deletions.rows", Kind::Edits),
    ("imports.rows", Kind::Edits),
    ("extensions.rows", Kind::Edits),
    ("lists.rows", Kind::Edits),
    ("compile.rows", Kind::Commands),
    ("lint.rows", Kind::Commands),
    ("shop.rows", Kind::Commands),
    ("changes.rows", Kind::Commands),
    ("journals.rows", Kind::Commands),
];

fn main(rt: HostRuntime) -> io::Result<()> {
    let words: Vec<String> = env::args(&rt)?.collect(rt.alloc())?;
    // The first word is the name of the program itself.
    match words.as_slice() {
        [_program] => try_tables(&rt, None, None),
        [_program, word] => try_word(&rt, word.as_str()),
        _ => rt.println("more than one table or row"),
    }
}

// A walk, everything, or what stands at a place.
fn try_word(rt: &HostRuntime, word: &str) -> io::Result<()> {
    match word {
        "walk" => walking::run(rt),
        "all" => {
            walking::run(rt)?;
            try_tables(rt, None, None)
        }
        place => try_place(rt, place),
    }
}

// The rows of a table, or the one at a line of it.
fn try_place<R: Files + Print + AllocGlobal>(rt: &R, place: &str) -> io::Result<()> {
    match place.split_once(':') {
        Some((table, line)) => match line.parse() {
            Ok(line) => try_tables(rt, Some(table), Some(line)),
            Err(_) => rt.println("no number of a line"),
        },
        None => try_tables(rt, Some(place), None),
    }
}

// The rows of all tables, or of this one; all of them, or the one that stands at this line.
fn try_tables<R: Files + Print + AllocGlobal>(
    rt: &R,
    only: Option<&str>,
    line: Option<usize>,
) -> io::Result<()> {
    let mut count: u64 = 0;
    for &(table, kind) in TABLES {
        if only.is_none_or(|only| only == table) {
            count = count.saturating_add(try_table(rt, table, kind, line)?);
        }
    }
    println!(rt; "{count} rows")
}

// How many rows of a table were read.
fn try_table<R: Files + Print + AllocGlobal>(
    rt: &R,
    table: &str,
    kind: Kind,
    line: Option<usize>,
) -> io::Result<u64> {
    let text = fs::read_to_string(rt, table)?;
    let mut count: u64 = 0;
    for row in &rows_of(rt.alloc(), text.as_str())? {
        if line.is_none_or(|line| row.has_line(line)) {
            try_row(rt, table, kind, row)?;
            count = count.saturating_add(1);
        }
    }
    Ok(count)
}

fn try_row<R: Print + AllocGlobal>(rt: &R, table: &str, kind: Kind, row: &Row) -> io::Result<()> {
    let first = row.first;
    match difference(rt.alloc(), kind, row) {
        Ok(told) if told.is_empty() => return Ok(()),
        Ok(told) => println!(rt; "{table}:{first}: {told}")?,
        Err(Fault::NoMemory) => println!(rt; "{table}:{first}: out of memory")?,
        Err(Fault::Unreadable(why)) => println!(rt; "{table}:{first}: unreadable: {why}")?,
    }
    rt.println(row.text)
}

// What is otherwise than a row says, or an empty text.
fn difference(alloc: Global, kind: Kind, row: &Row) -> Result<String, Fault> {
    let lines = lines_of(alloc, row)?;
    match kind {
        Kind::Edits => difference_of_edits(alloc, lines.as_slice()),
        Kind::Commands => difference_of_commands(alloc, lines.as_slice()),
    }
}
