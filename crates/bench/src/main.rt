//! Does one step of the compiler over the files that its words name, so that it can be tried on
//! whole schemas, and timed.
//!
//!     bench lex|parse|link|lint|compile FILE..
//!     bench edit [--as-written] rename NAME TO FILE..
//!     bench edit [--as-written] delete-field NAME FILE..
//!     bench edit [--as-written] add-import|drop-import FILE PATH FILE..
//!     bench edits EDIT.. FILE..
#![tactic(auto)]

mod counts;
mod editing;
mod kind;
mod lists;
mod report;
mod steps;

use crate::editing::time_edit;
use crate::lists::time_edits;
use crate::steps::{compile, count, lex_all, parse_all};
use std::rt::{Clock, Files};
use std::{env, fs, io};

/// Files by path, with their bytes.
type Given = Vec<(String, Vec<u8>)>;

fn main(rt: HostRuntime) -> io::Result<()> {
    let words: Vec<String> = env::args(&rt)?.collect(rt.alloc())?;
    answer(&rt, words.as_slice())
}

// The first word is the name of the program itself.
fn answer<R: Files + Clock + Print + AllocGlobal>(rt: &R, words: &[String]) -> io::Result<()> {
    let [_program, step, words @ ..] = words else {
        return rt.println("no step");
    };
    match step.as_str() {
        "lex" => lex_all(rt, words),
        "parse" => parse_all(rt, words),
        "link" => count(rt, words, false),
        "lint" => count(rt, words, true),
        "compile" => compile(rt, words),
        "edit" => time_edit(rt, words),
        "edits" => time_edits(rt, words),
        _ => rt.println("no such step"),
    }
}

// The files with their bytes.
fn files_at<R: Files + AllocGlobal>(rt: &R, paths: &[String]) -> io::Result<Given> {
    let mut files = Vec::new(rt.alloc());
    for path in paths {
        let bytes = fs::read(rt, path.as_str())?;
        files.push((path.as_str().to_string(rt.alloc())?, bytes))?;
    }
    Ok(files)
}
