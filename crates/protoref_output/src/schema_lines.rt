//! The line of a fault.

ghost use Rattle.std.specs.Prelude.{◌≡◌, IfOk, string_bytes};
ghost use Rattle.proto_files.specs.Faults.{fault_at};
ghost use Rattle.protoref_output.specs.FaultLines.{line_of};

use crate::place::Place;
use proto_base::{Fault, NoMemory};
use std::alloc::Global;

/// The line of a fault at a place, ended by a line feed:
/// `path:line:column: NUMBER NAME`. Fails only when out of memory.
pub fn schema_line(alloc: Global, fault: &Fault, place: Place) -> Result<String, NoMemory>
    ensures { IfOk result (λ text. string_bytes text
        ≡ line_of (fault_at fault.now) place.line place.column) }
{
    let path = fault.path.as_str();
    let number = fault.number();
    let name = fault.name();
    let Place { line, column } = place;
    Ok(format!(in alloc; "{path}:{line}:{column}: {number} {name}\n")?)
}
