//! The lines of a journal's records.

ghost use Rattle.std.specs.Prelude.{◌≡◌, ◌++◌, IfOk, OnOk, codes, decimal, map, option_map, string_bytes};
ghost use Rattle.proto_edit_entries.specs.EditsAsked.{asked};
ghost use Rattle.proto_edit_entries.specs.Entries.{change_of};
ghost use Rattle.protoref_output.specs.LogLines.{edit_words, joined_paths, log_lines, one_word, record_line, told_words, two_words};

use proto_base::NoMemory;
use proto_edit_entries::{Change, Edit};
use proto_journal_records::{Record, state_text};
use std::alloc::Global;

/// The line of each record, ended by a line feed: `INDEX STATE PATHS`, and behind it the words of
/// the edit as on the command line without ROOT, where the record tells it. The index counts from
/// 1, the state is `open` or `done`, and the paths of the changed files are joined by `,`. Fails
/// only when out of memory.
pub fn lines_of_records(alloc: Global, records: &[Record]) -> Result<String, NoMemory>
    ensures { IfOk result (λ text. string_bytes text ≡ log_lines records.now) }
{
    let mut text = String::new(alloc);
    let mut index = 0;
    for record in records {
        index += 1;
        add_record(alloc, &mut text, index, record)?;
    }
    Ok(text)
}

fn add_record(
    alloc: Global,
    text: &mut String,
    index: usize,
    noted: &Record,
) -> Result<(), NoMemory>
    ensures { OnOk result (string_bytes text.new
        ≡ string_bytes text.old ++ record_line index noted.now) }
{
    add_number(alloc, text, index)?;
    add_word(text, state_text(noted.state()))?;
    text.push(' ')?;
    add_paths(text, noted.entry().changes())?;
    add_told(text, noted.edit())?;
    text.push('\n')?;
    Ok(())
}

// Adds a number in decimal.
fn add_number(alloc: Global, text: &mut String, number: usize) -> Result<(), NoMemory>
    ensures { OnOk result (string_bytes text.new ≡ string_bytes text.old ++ decimal number) }
{
    let digits = format!(in alloc; "{number}")?;
    text.push_str(digits.as_str())?;
    Ok(())
}

// Adds a word, with a space before it.
fn add_word(text: &mut String, word: &str) -> Result<(), NoMemory>
    ensures { OnOk result (string_bytes text.new
        ≡ string_bytes text.old ++ (codes " " ++ word.now)) }
{
    text.push(' ')?;
    text.push_str(word)?;
    Ok(())
}

// Adds the paths of changed files, joined by `,`.
fn add_paths(text: &mut String, changes: &[Change]) -> Result<(), NoMemory>
    ensures { OnOk result (string_bytes text.new
        ≡ string_bytes text.old ++ joined_paths (map change_of changes.now)) }
{
    let Some((first, rest)) = changes.split_first() else {
        return Ok(());
    };
    text.push_str(first.path.as_str())?;
    for change in rest {
        text.push(',')?;
        text.push_str(change.path.as_str())?;
    }
    Ok(())
}

fn add_one(text: &mut String, command: &str, first: &str) -> Result<(), NoMemory>
    ensures { OnOk result (string_bytes text.new
        ≡ string_bytes text.old ++ one_word command.now first.now) }
{
    add_word(text, command)?;
    add_word(text, first)
}

fn add_two(text: &mut String, command: &str, first: &str, second: &str) -> Result<(), NoMemory>
    ensures { OnOk result (string_bytes text.new
        ≡ string_bytes text.old ++ two_words command.now first.now second.now) }
{
    add_word(text, command)?;
    add_word(text, first)?;
    add_word(text, second)
}

// Adds the words of an edit, each with a space before it.
fn add_edit(text: &mut String, edit: &Edit) -> Result<(), NoMemory>
    ensures { OnOk result (string_bytes text.new
        ≡ string_bytes text.old ++ edit_words (asked edit.now)) }
{
    match edit {
        Edit::Rename { name, to } => add_two(text, "rename", name.as_str(), to.as_str()),
        Edit::DeleteField { name } => add_one(text, "delete-field", name.as_str()),
        Edit::AddImport { file, path } => {
            add_two(text, "add-import", file.as_str(), path.as_str())
        }
        Edit::DropImport { file, path } => {
            add_two(text, "drop-import", file.as_str(), path.as_str())
        }
    }
}

// The same, where an edit is told.
fn add_told(text: &mut String, edit: Option<&Edit>) -> Result<(), NoMemory>
    ensures { OnOk result (string_bytes text.new
        ≡ string_bytes text.old ++ told_words (option_map (λ e. asked e.now) edit.entry)) }
{
    match edit {
        Some(edit) => add_edit(text, edit),
        None => Ok(()),
    }
}
