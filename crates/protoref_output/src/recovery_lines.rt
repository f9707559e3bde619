//! The lines of a recovery, and of the move to the second version of a journal.

ghost use Rattle.std.specs.Prelude.{◌≡◌, IfOk, OnErr, OnOk, string_bytes};
ghost use Rattle.std.specs.Io.KnownBytes.{Appends};
ghost use Rattle.protoref_output.specs.RecoveryLines.{migration_line, plain_refused_line, recovery_line};
ghost use Rattle.protoref_output.specs.Writing.{AppendsBeginning};

use crate::writing::{OutputFault, write_text};
use proto_base::NoMemory;
use proto_edit_entries::Refusal;
use std::alloc::Global;
use std::io::Write;

/// Writes whether a store was recovered, ended by a line feed:
/// `recovered` or `nothing to recover`. It takes no memory.
pub fn write_recovery<W: Write>(writer: &mut W, recovered: bool) -> Result<(), OutputFault>
    ensures ok { OnOk result (Appends (W.contents writer.old)
        (W.contents writer.new) (recovery_line recovered)) }
    ensures err { OnErr result (AppendsBeginning
        (W.contents writer.old) (W.contents writer.new) (recovery_line recovered)) }
{
    write_text(writer, recovery_text(recovered).as_bytes())
}

fn recovery_text(recovered: bool) -> &'static str
    ensures { result.now ≡ recovery_line recovered }
{
    if recovered {
        "recovered\n"
    } else {
        "nothing to recover\n"
    }
}

/// Writes whether a journal went over to the second version, ended by a
/// line feed: `migrated` or `nothing to migrate`. It takes no memory.
pub fn write_migration<W: Write>(writer: &mut W, migrated: bool) -> Result<(), OutputFault>
    ensures ok { OnOk result (Appends (W.contents writer.old)
        (W.contents writer.new) (migration_line migrated)) }
    ensures err { OnErr result (AppendsBeginning
        (W.contents writer.old) (W.contents writer.new) (migration_line migrated)) }
{
    write_text(writer, migration_text(migrated).as_bytes())
}

fn migration_text(migrated: bool) -> &'static str
    ensures { result.now ≡ migration_line migrated }
{
    if migrated {
        "migrated\n"
    } else {
        "nothing to migrate\n"
    }
}

/// The line of a refusal that tells of no reference, ended by a line feed: `refused: NUMBER NAME`.
/// No files are asked for it. Fails only when out of memory.
pub fn plain_refusal_line(alloc: Global, refusal: &Refusal) -> Result<String, NoMemory>
    ensures { IfOk result (λ text. string_bytes text ≡ plain_refused_line refusal.now) }
{
    let number = refusal.number();
    let name = refusal.name();
    Ok(format!(in alloc; "refused: {number} {name}\n")?)
}
