//! The steps over files, and what is printed of them.

use crate::report::{Report, report_on};
use crate::{Given, files_at};
use proto_base::{NoMemory, SchemaFault};
use proto_desc::{Schema, to_json};
use proto_files::{Files, Paths};
use proto_lint::{RuleSet, lint};
use proto_names::Link;
use proto_text::{Source, lex};
use std::alloc::Global;
use std::{fs, io, rt};

// How many tokens the text of the bytes has, if it has tokens.
fn token_count(alloc: Global, bytes: Vec<u8>) -> Option<usize> {
    match Source::new(bytes) {
        Ok(source) => match lex(alloc, &source) {
            Ok(tokens) => Some(tokens.len()),
            Err(_fault) => None,
        },
        Err(_fault) => None,
    }
}

/// Prints how many tokens all files have.
pub(crate) fn lex_all<R: rt::Files + Print + AllocGlobal>(
    rt: &R,
    paths: &[String],
) -> io::Result<()> {
    let mut all: usize = 0;
    for path in paths {
        match token_count(rt.alloc(), fs::read(rt, path.as_str())?) {
            Some(count) => all = all.saturating_add(count),
            None => return rt.println("no tokens"),
        }
    }
    println!(rt; "{all} tokens")
}

/// Prints a line for each file: what it declares, or its fault.
pub(crate) fn parse_all<R: rt::Files + Print + AllocGlobal>(
    rt: &R,
    paths: &[String],
) -> io::Result<()> {
    for path in paths {
        let said = report_on(rt.alloc(), fs::read(rt, path.as_str())?);
        print_report(rt, path.as_str(), &said)?;
    }
    Ok(())
}

fn print_report<R: Print>(rt: &R, path: &str, report: &Report) -> io::Result<()> {
    match report {
        Report::Counts(counts) => {
            println!(rt;
                "{path}: {} messages, {} enums, {} services, {} imports, {} options",
                counts.messages, counts.enums, counts.services, counts.imports, counts.options
            )
        }
        Report::Fault(fault) => {
            println!(rt; "{path}: {} {} {}", fault.number, fault.name, fault.offset)
        }
        Report::NoText => println!(rt; "{path}: too large or no text"),
    }
}

// How many files link, or how many findings they have.
fn count_linked(alloc: Global, files: &Files, is_linted: bool) -> Result<usize, SchemaFault> {
    let link = Link::new(alloc, files)?;
    let count = if is_linted {
        match lint(alloc, files, &link, &RuleSet::all()) {
            Ok(found) => Ok(found.len()),
            Err(NoMemory) => Err(SchemaFault::NoMemory),
        }
    } else {
        Ok(files.len())
    };
    link.release();
    count
}

fn count_in(alloc: Global, given: Given, is_linted: bool) -> Result<usize, SchemaFault> {
    let files = Files::read(alloc, Paths::new(alloc, given)?)?;
    let count = count_linked(alloc, &files, is_linted);
    files.release();
    count
}

/// Prints how many files link, or how many findings they have.
pub(crate) fn count<R: rt::Files + Print + AllocGlobal>(
    rt: &R,
    paths: &[String],
    is_linted: bool,
) -> io::Result<()> {
    let what = if is_linted { "findings" } else { "files link" };
    match count_in(rt.alloc(), files_at(rt, paths)?, is_linted) {
        Ok(count) => println!(rt; "{count} {what}"),
        Err(_fault) => rt.println("no link"),
    }
}

fn json_of(alloc: Global, given: Given) -> Result<String, SchemaFault> {
    let schema = Schema::open(alloc, given)?;
    let text = to_json(alloc, schema.descriptors());
    schema.release();
    Ok(text?)
}

fn print_fault<R: Print>(rt: &R, fault: &SchemaFault) -> io::Result<()> {
    match fault {
        SchemaFault::Schema(fault) => {
            let (path, offset) = (fault.path.as_str(), fault.offset);
            let (number, name) = (fault.number(), fault.name());
            println!(rt; "{path}:{offset}: {number} {name}")
        }
        SchemaFault::NoMemory => rt.println("no memory"),
    }
}

/// Prints the descriptors as JSON, or the fault as `path:offset: number name`.
pub(crate) fn compile<R: rt::Files + Print + AllocGlobal>(
    rt: &R,
    paths: &[String],
) -> io::Result<()> {
    match json_of(rt.alloc(), files_at(rt, paths)?) {
        Ok(text) => rt.println(text.as_str()),
        Err(fault) => print_fault(rt, &fault),
    }
}
