//! The lines of an edit and of an undo.

ghost use Rattle.std.specs.Prelude.{◌≡◌, IfOk, OnErr, OnOk, map, string_bytes};
ghost use Rattle.std.specs.Io.KnownBytes.{Appends};
ghost use Rattle.proto_edit_entries.specs.Entries.{change_of};
ghost use Rattle.protoref_output.specs.EditLines.{changed_line, changed_lines, faulty_line, place_text, reference_text, refused_line};
ghost use Rattle.protoref_output.specs.Writing.{AppendsBeginning};

use crate::found_lines::text_named;
use crate::place::{Place, place_at};
use crate::writing::{OutputFault, write_text};
use proto_base::NoMemory;
use proto_edit_entries::{Change, Entry, Refusal};
use proto_files::Files;
use proto_journal_records::JournalFault;
use std::alloc::Global;
use std::io::Write;

/// Writes a line for each file that an entry changed, ended
/// by a line feed: `changed PATH`. It takes no memory.
pub fn write_changed<W: Write>(writer: &mut W, entry: &Entry) -> Result<(), OutputFault>
    ensures ok { OnOk result (Appends (W.contents writer.old)
        (W.contents writer.new) (changed_lines entry.now)) }
    ensures err { OnErr result (AppendsBeginning
        (W.contents writer.old) (W.contents writer.new) (changed_lines entry.now)) }
{
    write_changes(writer, entry.changes())
}

fn write_changes<W: Write>(writer: &mut W, changes: &[Change]) -> Result<(), OutputFault>
    ensures ok { OnOk result (Appends (W.contents writer.old)
        (W.contents writer.new) (changed_lines (map change_of changes.now))) }
    ensures err { OnErr result (AppendsBeginning (W.contents writer.old)
        (W.contents writer.new) (changed_lines (map change_of changes.now))) }
{
    for change in changes {
        write_change(writer, change)?;
    }
    Ok(())
}

fn write_change<W: Write>(writer: &mut W, change: &Change) -> Result<(), OutputFault>
    ensures ok { OnOk result (Appends (W.contents writer.old)
        (W.contents writer.new) (changed_line (change_of change.now))) }
    ensures err { OnErr result (AppendsBeginning
        (W.contents writer.old) (W.contents writer.new) (changed_line (change_of change.now))) }
{
    write_text(writer, b"changed ")?;
    write_text(writer, change.path.as_str().as_bytes())?;
    write_text(writer, b"\n")
}

/// The line of a refusal, ended by a line feed: `refused: NUMBER NAME`, and behind it
/// ` path:line:column` of the reference in these files that would be captured or is needed, or of
/// the custom option. Fails only when out of memory.
pub fn refusal_line(alloc: Global, refusal: &Refusal, files: &Files) -> Result<String, NoMemory>
    ensures { IfOk result (λ text. string_bytes text ≡ refused_line files.now refusal.now) }
{
    let number = refusal.number();
    let name = refusal.name();
    let place = place_of_reference(alloc, refusal, files)?;
    let place = place.as_str();
    Ok(format!(in alloc; "refused: {number} {name}{place}\n")?)
}

// The place of the reference or of the custom option that a refusal tells of, if it tells of one.
fn place_of_reference(alloc: Global, refusal: &Refusal, files: &Files) -> Result<String, NoMemory>
    ensures { IfOk result (λ text. string_bytes text ≡ reference_text files.now refusal.now) }
{
    match refusal {
        Refusal::Captured { path, offset } => place_behind_space(
            alloc,
            files,
            path.as_str(),
            *offset,
        ),
        Refusal::Needed { path, offset } => place_behind_space(
            alloc,
            files,
            path.as_str(),
            *offset,
        ),
        Refusal::OptionValue { path, offset } => place_behind_space(
            alloc,
            files,
            path.as_str(),
            *offset,
        ),
        _ => Ok(String::new(alloc)),
    }
}

fn place_behind_space(
    alloc: Global,
    files: &Files,
    path: &str,
    offset: u32,
) -> Result<String, NoMemory>
    ensures { IfOk result (λ text. string_bytes text ≡ place_text files.now path.now offset) }
{
    let Place { line, column } = place_at(text_named(files, path), offset);
    Ok(format!(in alloc; " {path}:{line}:{column}")?)
}

/// The line of a fault of a journal, ended by a line feed:
/// `journal: NUMBER NAME`. Fails only when out of memory.
pub fn journal_line(alloc: Global, fault: &JournalFault) -> Result<String, NoMemory>
    ensures { IfOk result (λ text. string_bytes text ≡ faulty_line fault.now) }
{
    let number = fault.number();
    let name = fault.name();
    Ok(format!(in alloc; "journal: {number} {name}\n")?)
}
