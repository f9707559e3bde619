//! Rows of commands over a store in memory.
//!
//!     files: the files of the store
//!     journal: its journal; empty where the row has no such line
//!     done: the words of a command > what it prints, where all is well
//!     problem: the words of a command > what it prints, where there is a problem
//!
//! A command that prints nothing has no ` > `. A line `files` or `journal` behind the first command
//! says what the store then has, the files in the order of their paths; a line `unchanged:` says
//! that it has what the row begins with. A command's words are those of a command line without a
//! root; `lint none` asks no rule.

ghost use Rattle.std.specs.Prelude.{◌-◌, ◌^◌, ◌<◌, OnOk};

use crate::fault::Fault;
use crate::files::files_of;
use crate::row::{Line, written_text};
use protoref_commands::{
    Command, Edit, MemoryStore, ReadingFault, Rule, RuleSet, Status, Store, all_files, run,
};
use std::alloc::Global;

/// What is otherwise than the row says, or an empty text.
pub(crate) fn difference_of_commands(alloc: Global, lines: &[Line]) -> Result<String, Fault> {
    let Some(begun) = lines.iter().position(is_command) else {
        return Err(Fault::Unreadable("no command"));
    };
    let Some((given, asked)) = lines.split_at_checked(begun) else {
        return Err(Fault::Unreadable("no command"));
    };
    let begun = begun_of(given)?;
    let mut store = new_store(alloc, begun)?;
    for line in asked {
        let came = line_that_comes(alloc, &mut store, begun, line)?;
        let wanted = format!(in alloc; "{}: {}", line.key, line.text)?;
        if came != wanted {
            return difference(alloc, came.as_str(), wanted.as_str());
        }
    }
    Ok(String::new(alloc))
}

fn is_command(line: &Line) -> bool {
    matches!(line.key, "done" | "problem")
}

fn difference(alloc: Global, came: &str, wanted: &str) -> Result<String, Fault> {
    let came = written_text(alloc, came)?;
    let wanted = written_text(alloc, wanted)?;
    Ok(format!(in alloc; "{came}, not {wanted}")?)
}

// ---- the store that a row begins with

/// The files and the journal, as a row writes them.
type Begun<'a> = (&'a str, &'a str);

fn begun_of<'a>(given: &'a [Line]) -> Result<Begun<'a>, Fault> {
    match given {
        [files] if files.key == "files" => Ok((files.text.as_str(), "")),
        [files, journal] if files.key == "files" && journal.key == "journal" => {
            Ok((files.text.as_str(), journal.text.as_str()))
        }
        _ => Err(Fault::Unreadable("no files, or no journal behind them")),
    }
}

fn new_store(alloc: Global, (written, journal): Begun) -> Result<MemoryStore, Fault> {
    let mut files = Vec::new(alloc);
    for (path, text) in files_of(alloc, written)? {
        files.push((path.to_string(alloc)?, text.as_bytes().to_vec(alloc)?))?;
    }
    Ok(MemoryStore::new(alloc, files, journal.as_bytes().to_vec(alloc)?)?)
}

// ---- what comes

// What comes in place of a line, in its form.
fn line_that_comes(
    alloc: Global,
    store: &mut MemoryStore,
    begun: Begun,
    line: &Line,
) -> Result<String, Fault> {
    match line.key {
        "done" | "problem" => {
            let (asked, _) = line
                .text
                .as_str()
                .split_once(" > ")
                .unwrap_or((line.text.as_str(), ""));
            line_of_command(alloc, store, asked)
        }
        "files" => Ok(format!(in alloc; "files: {}", text_of_files(alloc, store)?)?),
        "journal" => Ok(format!(in alloc; "journal: {}", text_of_journal(alloc, store)?)?),
        "unchanged" => line_of_change(alloc, store, begun),
        _ => Err(Fault::Unreadable("a key that no row of commands has")),
    }
}

// What the store has, where that is not what the row begins with.
fn line_of_change(
    alloc: Global,
    store: &mut MemoryStore,
    (files, journal): Begun,
) -> Result<String, Fault> {
    let has_files = text_of_files(alloc, store)?;
    let has_journal = text_of_journal(alloc, store)?;
    if has_files.as_str() == files && has_journal.as_str() == journal {
        return Ok("unchanged: ".to_string(alloc)?);
    }
    Ok(format!(in alloc; "files: {has_files} journal: {has_journal}")?)
}

// How the command ends, its words, and behind ` > ` what it prints.
fn line_of_command(alloc: Global, store: &mut MemoryStore, asked: &str) -> Result<String, Fault> {
    check_room(store)?;
    let mut printed = Vec::new(alloc);
    let ended = run(alloc, command_of(alloc, asked)?, store, &mut printed);
    let end = match &ended {
        Ok(Status::Done) => "done",
        Ok(Status::Problem) => "problem",
        Err(fault) => fault.name(),
    };
    let printed = text_of(alloc, printed)?;
    let between = if printed.is_empty() { "" } else { " > " };
    Ok(format!(in alloc; "{end}: {asked}{between}{printed}")?)
}

fn text_of_journal(alloc: Global, store: &mut MemoryStore) -> Result<String, Fault> {
    check_room(store)?;
    match store.read_journal() {
        Ok(bytes) => text_of(alloc, bytes),
        Err(_) => Ok("the store failed".to_string(alloc)?),
    }
}

fn text_of_files(alloc: Global, store: &mut MemoryStore) -> Result<String, Fault> {
    check_room(store)?;
    let files = match all_files(alloc, store) {
        Ok(files) => files,
        Err(ReadingFault::NoMemory) => return Err(Fault::NoMemory),
        Err(ReadingFault::Store) => return Ok("the store failed".to_string(alloc)?),
    };
    let mut text = String::new(alloc);
    for (path, bytes) in files {
        if !text.is_empty() {
            text.push_str(" | ")?;
        }
        text.push_str(path.as_str())?;
        if !bytes.is_empty() {
            text.push(' ')?;
            text.push_str(text_of(alloc, bytes)?.as_str())?;
        }
    }
    Ok(text)
}

// Each call of a store wants room for the count of its failures.
fn check_room(store: &MemoryStore) -> Result<(), Fault>
    ensures { OnOk result (⟦<MemoryStore as Store>⟧.failure_count store.now < 2 ^ 64 - 1) }
{
    if store.failures() < u64::MAX {
        Ok(())
    } else {
        Err(Fault::Unreadable("too many failures"))
    }
}

fn text_of(alloc: Global, bytes: Vec<u8>) -> Result<String, Fault> {
    match String::from_utf8(bytes) {
        Ok(text) => Ok(text),
        Err(_) => Ok("no UTF-8".to_string(alloc)?),
    }
}

// ---- commands

fn command_of(alloc: Global, asked: &str) -> Result<Command, Fault> {
    let mut words = asked.split(' ');
    let command = words.next().unwrap_or("");
    if command == "lint" {
        return Ok(Command::Lint(rules_of(asked)?));
    }
    let of = words.next().unwrap_or("").to_string(alloc)?;
    let to = words.next().unwrap_or("").to_string(alloc)?;
    match command {
        "rename" => Ok(Command::Edit(Edit::Rename { name: of, to })),
        "delete-field" => Ok(Command::Edit(Edit::DeleteField { name: of })),
        "add-import" => Ok(Command::Edit(Edit::AddImport { file: of, path: to })),
        "drop-import" => Ok(Command::Edit(Edit::DropImport { file: of, path: to })),
        "compile" => Ok(Command::Compile),
        "undo" => Ok(Command::Undo),
        "log" => Ok(Command::Log),
        "recover" => Ok(Command::Recover),
        "migrate" => Ok(Command::Migrate),
        _ => Err(Fault::Unreadable("no command")),
    }
}

// The rules that a line of `lint` names.
fn rules_of(asked: &str) -> Result<RuleSet, Fault> {
    let Some((_, names)) = asked.split_once(' ') else {
        return Ok(RuleSet::all());
    };
    let mut rules = RuleSet::none();
    if names == "none" {
        return Ok(rules);
    }
    for name in names.split(' ') {
        match Rule::from_name(name) {
            Some(rule) => rules.insert(rule),
            None => return Err(Fault::Unreadable("no rule of this name")),
        }
    }
    Ok(rules)
}
