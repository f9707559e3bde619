//! Schemas in memory: a fault, references, findings, edits, a refusal, descriptors, and the way
//! back.

use proto_edit::{Edit, Entry, NoMemory, OpenFault, Refusal, Workspace, to_json};
use proto_lint::{RuleSet, lint};
use protoref_output::{
    lines_of_findings, locations_of_references, place_of_fault, refusal_line, schema_line,
};
use std::alloc::Global;
use std::io;

/// Files by their paths in the workspace, with their bytes.
type Given = Vec<(String, Vec<u8>)>;

const MONEY: (&str, &str) = (
    "shop/money.proto",
    "syntax = \"proto3\";
package shop;

message Money {
  int64 units = 1;
}
",
);

const ORDER: (&str, &str) = (
    "shop/order.proto",
    "syntax = \"proto3\";
package shop;

import \"shop/money.proto\";

message Order {
  Money total = 1;
  repeated shop.Money paid = 2;
  string Note = 3;
}
",
);

/// Opens the files without the one that is imported, and with it, and works with them.
pub fn run<R: Print + AllocGlobal>(rt: &R) -> io::Result<()> {
    open(rt, &[ORDER])?;
    open(rt, &[ORDER, MONEY])
}

fn given_files(alloc: Global, files: &[(&str, &str)]) -> io::Result<Given> {
    let mut list = Vec::new(alloc);
    for (path, text) in files {
        list.push((path.to_string(alloc)?, text.as_bytes().to_vec(alloc)?))?;
    }
    Ok(list)
}

// Opens files and works with them, or prints their fault. This function alone owns the workspace,
// and ends it by `release`; all others borrow it.
fn open<R: Print + AllocGlobal>(rt: &R, files: &[(&str, &str)]) -> io::Result<()> {
    match Workspace::open(rt.alloc(), given_files(rt.alloc(), files)?) {
        Ok(mut workspace) => {
            let worked = work(rt, &mut workspace);
            workspace.release();
            worked
        }
        Err(fault) => print_fault(rt, files, &fault),
    }
}

fn print_fault<R: Print + AllocGlobal>(
    rt: &R,
    files: &[(&str, &str)],
    fault: &OpenFault,
) -> io::Result<()> {
    match fault {
        OpenFault::Schema(fault) => {
            let place = place_of_fault(&given_files(rt.alloc(), files)?, fault);
            print_text(rt, schema_line(rt.alloc(), fault, place))
        }
        OpenFault::NoMemory => rt.println("no memory"),
    }
}

fn work<R: Print + AllocGlobal>(rt: &R, workspace: &mut Workspace) -> io::Result<()> {
    print_references(rt, workspace, "shop.Money")?;
    print_findings(rt, workspace)?;
    let mut entries = Vec::new(rt.alloc());
    edit(rt, workspace, &mut entries)
}

fn edit<R: Print + AllocGlobal>(
    rt: &R,
    workspace: &mut Workspace,
    entries: &mut Vec<Entry>,
) -> io::Result<()> {
    // Refused, since there is an `Order`.
    rename(rt, workspace, entries, ("shop.Money", "Order"))?;
    rename(rt, workspace, entries, ("shop.Order", "Purchase"))?;
    rename(rt, workspace, entries, ("shop.Money", "Order"))?;
    // `files`, `link` and `descriptors` are those of the files after both edits.
    print_references(rt, workspace, "shop.Order")?;
    print_json(rt, workspace)?;
    print_messages(rt, workspace)?;
    go_back(rt, workspace, entries)
}

// Asks for a rename, prints the answer, and keeps the entry, if it was made.
fn rename<R: Print + AllocGlobal>(
    rt: &R,
    workspace: &mut Workspace,
    entries: &mut Vec<Entry>,
    (name, to): (&str, &str),
) -> io::Result<()> {
    let name = name.to_string(rt.alloc())?;
    let to = to.to_string(rt.alloc())?;
    match workspace.apply(rt.alloc(), Edit::Rename { name, to }) {
        Ok(entry) => {
            print_changed(rt, &entry)?;
            entries.push(entry)?;
            Ok(())
        }
        Err(refusal) => print_refusal(rt, workspace, &refusal),
    }
}

// The last edit is undone first: what comes before it is stale until then.
fn go_back<R: Print + AllocGlobal>(
    rt: &R,
    workspace: &mut Workspace,
    entries: &[Entry],
) -> io::Result<()> {
    let (Some(first), Some(last)) = (entries.first(), entries.last()) else {
        return Ok(());
    };
    undo(rt, workspace, first)?;
    undo(rt, workspace, last)?;
    undo(rt, workspace, first)?;
    undo(rt, workspace, first)
}

fn undo<R: Print + AllocGlobal>(
    rt: &R,
    workspace: &mut Workspace,
    entry: &Entry,
) -> io::Result<()> {
    match workspace.undo(rt.alloc(), entry) {
        Ok(()) => rt.println("undone"),
        Err(refusal) => print_refusal(rt, workspace, &refusal),
    }
}

fn print_references<R: Print + AllocGlobal>(
    rt: &R,
    workspace: &Workspace,
    name: &str,
) -> io::Result<()> {
    let link = workspace.link();
    let Some(symbol) = link.symbol(name) else {
        return println!(rt; "no {name}");
    };
    let references = link.references(symbol);
    match locations_of_references(rt.alloc(), workspace.files(), references) {
        Ok(locations) => {
            for location in &locations {
                println!(rt; "{location}: {name}")?;
            }
            Ok(())
        }
        Err(NoMemory) => rt.println("no memory"),
    }
}

fn print_findings<R: Print + AllocGlobal>(rt: &R, workspace: &Workspace) -> io::Result<()> {
    let files = workspace.files();
    match lint(rt.alloc(), files, workspace.link(), &RuleSet::all()) {
        Ok(found) => print_text(rt, lines_of_findings(rt.alloc(), files, &found)),
        Err(NoMemory) => rt.println("no memory"),
    }
}

fn print_changed<R: Print>(rt: &R, entry: &Entry) -> io::Result<()> {
    for change in entry.changes() {
        println!(rt; "changed {}", change.path)?;
    }
    Ok(())
}

fn print_refusal<R: Print + AllocGlobal>(
    rt: &R,
    workspace: &Workspace,
    refusal: &Refusal,
) -> io::Result<()> {
    print_text(rt, refusal_line(rt.alloc(), refusal, workspace.files()))
}

fn print_json<R: Print + AllocGlobal>(rt: &R, workspace: &Workspace) -> io::Result<()> {
    match to_json(rt.alloc(), workspace.descriptors()) {
        Ok(text) => rt.println(text.as_str()),
        Err(NoMemory) => rt.println("no memory"),
    }
}

// The first message of each file, and how many fields it has.
fn print_messages<R: Print>(rt: &R, workspace: &Workspace) -> io::Result<()> {
    for file in workspace.descriptors().files() {
        if let Some(message) = file.message_type.first() {
            let (name, count) = (message.name.as_str(), message.field.len());
            println!(rt; "{}: {name}, fields: {count}", file.name)?;
        }
    }
    Ok(())
}

fn print_text<R: Print>(rt: &R, text: Result<String, NoMemory>) -> io::Result<()> {
    match text {
        Ok(text) => print!(rt; "{text}"),
        Err(NoMemory) => rt.println("no memory"),
    }
}
