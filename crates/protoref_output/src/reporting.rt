//! The answer over files with a fault.

ghost use Rattle.std.specs.Prelude.{◌≡◌, ◌-◌, ◌^◌, ◌<◌, IfOk, IsErrOf, string_bytes};
ghost use Rattle.proto_files.specs.Faults.{fault_at};
ghost use Rattle.protoref_output.specs.Answers.{status_of, printed_text};
ghost use Rattle.protoref_output.specs.Ends.{CountsStore};
ghost use Rattle.protoref_output.specs.FaultLines.{IsLineOver, IsPlaceOver};
ghost use Rattle.proto_store.specs.Stores.{Counts, IsListed};

use crate::answer::Answer;
use crate::place::{Place, place_at};
use crate::run_fault::RunFault;
use crate::schema_lines::schema_line;
use crate::status::Status;
use proto_base::Fault;
use proto_store::{Store, StoreFault};
use std::alloc::Global;

/// The answer over files of a store of which this is the least fault: its
/// line, and a problem. Where the offset alone does not tell the line and
/// the column, the file is read again. It ends with `Store` where that
/// fails, and with `NoMemory` where memory runs out; the store is as before.
pub fn fault_answer<S: Store>(
    alloc: Global,
    store: &mut S,
    fault: &Fault,
) -> Result<Answer, RunFault>
    requires room { S.failure_count store.old < 2 ^ 64 - 1 }
    requires listed { 0 < fault.now.offset → IsListed
        (S.holds store.old) (string_bytes fault.now.path) }
    ensures text { IfOk result (λ answer. IsLineOver
        (S.holds store.old) (fault_at fault.now) (printed_text answer)) }
    ensures status { IfOk result (λ answer. status_of answer ≡ Status.Problem) }
    ensures unwritten { IsErrOf result RunFault.Output → ⊥ }
    ensures same { S.holds store.new ≡ S.holds store.old }
    ensures count { CountsStore (S.failure_count store.old) (S.failure_count store.new) result }
{
    let place = place_of(store, fault)?;
    let text = schema_line(alloc, fault, place)?;
    Ok(Answer::Text(text, Status::Problem))
}

// The place of a fault. The file is read for it, where the offset alone does not tell it.
fn place_of<S: Store>(store: &mut S, fault: &Fault) -> Result<Place, StoreFault>
    requires room { S.failure_count store.old < 2 ^ 64 - 1 }
    requires listed { 0 < fault.now.offset → IsListed
        (S.holds store.old) (string_bytes fault.now.path) }
    ensures place { IfOk result (λ place. IsPlaceOver
        (S.holds store.old) (fault_at fault.now) place.line place.column) }
    ensures same { S.holds store.new ≡ S.holds store.old }
    ensures count { Counts (S.failure_count store.old) (S.failure_count store.new) result }
{
    if fault.offset == 0 {
        return Ok(Place { line: 1, column: 1 });
    }
    let bytes = store.read(fault.path.as_str())?;
    Ok(place_at(bytes.as_slice(), fault.offset))
}
