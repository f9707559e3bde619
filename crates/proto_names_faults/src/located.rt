//! Flaws as faults of the files that they stand in.

ghost use Rattle.std.specs.Prelude.{◌<◌, length, map, IfOk, OnOk};
ghost use Rattle.std.specs.List.{All};
ghost use Rattle.proto_files.specs.Faults.{fault_at};
ghost use Rattle.proto_names_faults.specs.Flaws.{AddsThere, AreListed, AreLocated};

use crate::flaw::Flaw;
use crate::ordering::in_order;
use proto_base::{Fault, NoMemory, SchemaFault};
use proto_files::{Files, are_read, fault_at_token};
use std::alloc::Global;

/// The faults that stand at the flaws, in their order, each once. Fails only when out of memory.
pub(crate) fn listed(alloc: Global, files: &Files, flaws: &[Flaw]) -> Result<Vec<Fault>, NoMemory>
    requires { All (λ w. w.file < length files.now) flaws.now }
    ensures { IfOk result (λ v. AreListed files.now flaws.now (map fault_at v.items)) }
{
    // Its contract says that each file has one list of tokens.
    are_read(files);
    let faults = located(alloc, files, flaws)?;
    Ok(in_order(faults))
}

/// For each flaw, the fault that stands there.
fn located(alloc: Global, files: &Files, flaws: &[Flaw]) -> Result<Vec<Fault>, NoMemory>
    requires { All (λ w. w.file < length files.now) flaws.now }
    ensures { IfOk result (λ v. AreLocated files.now flaws.now v.items) }
{
    let mut faults = Vec::new(alloc);
    for flaw in flaws {
        add_fault_there(alloc, files, flaw, &mut faults)?;
    }
    Ok(faults)
}

/// Adds the fault that stands at a flaw.
fn add_fault_there(
    alloc: Global,
    files: &Files,
    flaw: &Flaw,
    faults: &mut Vec<Fault>,
) -> Result<(), NoMemory>
    requires { flaw.now.file < length files.now }
    ensures { OnOk result (AddsThere files.now flaw.now faults.old.items faults.new.items) }
{
    match fault_at_token(alloc, files, flaw.file, flaw.token, flaw.kind) {
        SchemaFault::Schema(fault) => {
            faults.push(fault)?;
            Ok(())
        }
        SchemaFault::NoMemory => Err(NoMemory),
    }
}
