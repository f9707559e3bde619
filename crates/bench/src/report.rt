//! What is said of a file: its counts, or why it has no tree.

ghost use Rattle.bench.specs.Reports.{IsReport};

use crate::counts::{Counts, counts_of};
use proto_text::{Source, lex};
use proto_tree::parse;
use std::alloc::Global;

/// A fault as the table of faults has it.
#[derive(Clone, Copy)]
pub struct Fault {
    pub number: u32,
    pub name: &'static str,
    pub offset: u32,
}

#[derive(Clone, Copy)]
pub enum Report {
    Counts(Counts),
    Fault(Fault),
    /// The bytes are too many, or are not UTF-8.
    NoText,
}

fn report_text(alloc: Global, source: &Source) -> Report
    ensures { IsReport source.now result }
{
    let tokens = match lex(alloc, source) {
        Ok(tokens) => tokens,
        Err(fault) => {
            return Report::Fault(Fault {
                number: fault.number(),
                name: fault.name(),
                offset: fault.offset(),
            });
        }
    };
    match parse(alloc, source, &tokens) {
        Ok(file) => {
            let counts = counts_of(&file);
            file.release();
            Report::Counts(counts)
        }
        Err(fault) => Report::Fault(Fault {
            number: fault.number(),
            name: fault.name(),
            offset: fault.offset(),
        }),
    }
}

/// Reads the text of a file, its tokens and its tree.
pub fn report_on(alloc: Global, bytes: Vec<u8>) -> Report
    ensures { IsReport bytes.items result }
{
    match Source::new(bytes) {
        Ok(source) => report_text(alloc, &source),
        Err(_fault) => Report::NoText,
    }
}
