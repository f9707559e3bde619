//! Faults in their order.

ghost use Rattle.std.specs.Prelude.{◌≡◌, ◌↔◌, map};
ghost use Rattle.std.specs.List.{AllPairs, Contains};
ghost use Rattle.std.specs.Ordering.{is_eq};
ghost use Rattle.proto_files.specs.Faults.{ComesBefore, FaultAt, fault_at, fault_cmp};

use proto_base::Fault;
use std::cmp::Ordering;

/// The same faults by phase, path, offset and number, each once. Takes no memory.
pub fn in_order(mut faults: Vec<Fault>) -> Vec<Fault>
    ensures rising { AllPairs ComesBefore (map fault_at result.items) }
    ensures same { (x : FaultAt)
        → Contains (map fault_at result.items) x ↔ Contains (map fault_at faults.items) x }
{
    faults.sort_unstable_by(|one, other| compared(one, other));
    faults.dedup_by(|one, other| is_same(one, other));
    faults
}

/// How a fault compares with another: by phase, path, offset and number.
fn compared(one: &Fault, other: &Fault) -> Ordering
    ensures { result ≡ fault_cmp (fault_at one.now) (fault_at other.now) }
{
    let phases = one.kind.phase().cmp(&other.kind.phase());
    let paths = one.path.cmp(&other.path);
    let offsets = one.offset.cmp(&other.offset);
    let numbers = one.kind.number().cmp(&other.kind.number());
    phases.then(paths.then(offsets.then(numbers)))
}

/// Whether two faults have the same path, offset and kind.
fn is_same(one: &Fault, other: &Fault) -> bool
    ensures { result ≡ is_eq (fault_cmp (fault_at one.now) (fault_at other.now)) }
{
    compared(one, other).is_eq()
}
