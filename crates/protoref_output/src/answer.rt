//! The answer of a command.

ghost use Rattle.std.specs.Prelude.{◌≡◌, IfOk, OnErr};
ghost use Rattle.std.specs.Io.KnownBytes.{Appends};
ghost use Rattle.protoref_output.specs.Answers.{status_of, printed_text};
ghost use Rattle.protoref_output.specs.Writing.{AppendsBeginning};

use crate::edit_lines::write_changed;
use crate::recovery_lines::{write_migration, write_recovery};
use crate::status::Status;
use crate::writing::{OutputFault, write_text};
use proto_edit_entries::Entry;
use std::io::Write;

/// What a command prints, and how it ends.
#[derive(Drop)]
pub enum Answer {
    /// A text, and how the command ends.
    Text(String, Status),
    /// A line for each file that an entry changed, and that
    /// all is well. Nothing is left to be made for it.
    Changed(Entry),
    /// A line that says whether a store was recovered, and that
    /// all is well. Nothing is left to be made for it either.
    Recovery(bool),
    /// A line that says whether a journal went over to the second version,
    /// and that all is well. Nothing is left to be made for it either.
    Migration(bool),
}

/// Writes what an answer prints, and tells how the command ends. It takes no memory.
pub fn write_answer<W: Write>(writer: &mut W, answer: &Answer) -> Result<Status, OutputFault>
    ensures ok { IfOk result (λ status. Appends
        (W.contents writer.old) (W.contents writer.new) (printed_text answer.now)
        × (status ≡ status_of answer.now)) }
    ensures err { OnErr result (AppendsBeginning
        (W.contents writer.old) (W.contents writer.new) (printed_text answer.now)) }
{
    match answer {
        Answer::Text(text, status) => {
            write_text(writer, text.as_str().as_bytes())?;
            Ok(*status)
        }
        Answer::Changed(entry) => {
            write_changed(writer, entry)?;
            Ok(Status::Done)
        }
        Answer::Recovery(recovered) => {
            write_recovery(writer, *recovered)?;
            Ok(Status::Done)
        }
        Answer::Migration(migrated) => {
            write_migration(writer, *migrated)?;
            Ok(Status::Done)
        }
    }
}
