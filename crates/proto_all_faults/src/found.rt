//! Faults as they are found.

ghost use Rattle.std.specs.Prelude.{map, OnOk};
ghost use Rattle.proto_files.specs.Faults.{fault_at};
ghost use Rattle.proto_all_faults.specs.Steps.{IsAdded};

use proto_base::{Fault, NoMemory, SchemaFault};

/// Adds the fault of an error that may be out of memory.
pub(crate) fn add_error(found: &mut Vec<Fault>, error: SchemaFault) -> Result<(), NoMemory>
    ensures { OnOk result
        (IsAdded error (map fault_at found.old.items) (map fault_at found.new.items)) }
{
    match error {
        SchemaFault::Schema(fault) => {
            found.push(fault)?;
            Ok(())
        }
        SchemaFault::NoMemory => Err(NoMemory),
    }
}
