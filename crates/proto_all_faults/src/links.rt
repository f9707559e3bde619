//! All faults of files that were read.

ghost use Rattle.std.specs.Prelude.{Some, map, IfOk};
ghost use Rattle.proto_files.specs.Faults.{HasNoFault, IsLeastFault, fault_at};
ghost use Rattle.proto_files.specs.ReadFaults.{ReadFaults};
ghost use Rattle.proto_ast.specs.Numbers.{past};
ghost use Rattle.proto_names_imports.specs.LinkErrors.{IsLinkError};
ghost use Rattle.proto_names_imports.specs.Links.{LinkFaults};
ghost use Rattle.proto_names_faults.specs.AllFaults.{AreAllOf};
ghost use Rattle.proto_all_faults.specs.AllFaults.{FileFaultsUpTo, FirstPhase};

use crate::checks::check_faults;
use proto_base::{Fault, NoMemory, SchemaFault};
use proto_files::Files;
use proto_names_faults::{import_faults, name_faults, reference_faults};
use proto_resolved::{Link, Linked};
use std::alloc::Global;

/// All faults of the phase of imports, names or references that the least one is of, in order.
fn faults_of_phase(alloc: Global, files: &Files, least: &Fault) -> Result<Vec<Fault>, NoMemory>
    requires read { HasNoFault (ReadFaults files.now) }
    requires least { IsLeastFault (LinkFaults files.now) (fault_at least.now) }
    ensures { IfOk result (λ listed. AreAllOf
        (FirstPhase (FileFaultsUpTo (Some past) files.now)) (map fault_at listed.items)) }
{
    let phase = least.kind.phase();
    if phase == 3 {
        import_faults(alloc, files)
    } else if phase == 4 {
        name_faults(alloc, files)
    } else {
        reference_faults(alloc, files)
    }
}

/// The same, where linking has found the least fault, or is out of memory.
fn link_faults(alloc: Global, files: &Files, found: SchemaFault) -> Result<Vec<Fault>, NoMemory>
    requires read { HasNoFault (ReadFaults files.now) }
    requires least { IsLinkError files.now found }
    ensures { IfOk result (λ listed. AreAllOf
        (FirstPhase (FileFaultsUpTo (Some past) files.now)) (map fault_at listed.items)) }
{
    match found {
        SchemaFault::Schema(least) => faults_of_phase(alloc, files, &least),
        SchemaFault::NoMemory => Err(NoMemory),
    }
}

/// All faults of files that were read, of the first phase that has one, in order: of imports, else of
/// names, else of references, else of checks. None is listed exactly where there is none. In checks
/// a number of 2^64 or more counts as 2^64. Fails only when out of memory.
pub fn file_faults(alloc: Global, files: &Files) -> Result<Vec<Fault>, NoMemory>
    ensures { IfOk result (λ listed. AreAllOf
        (FirstPhase (FileFaultsUpTo (Some past) files.now)) (map fault_at listed.items)) }
{
    // Its contract says that their texts and grammar have no fault.
    let _count = files.len();
    match Link::new(alloc, files) {
        Ok(link) => {
            let listed = check_faults(alloc, &Linked::new(files, &link));
            link.release();
            listed
        }
        Err(found) => link_faults(alloc, files, found),
    }
}
