//! The schemas of a store, and what is answered where they do not compile.

ghost use Rattle.std.specs.Prelude.{◌≡◌, ◌-◌, ◌^◌, ◌<◌, IfErr, IfOk, IsErrOf, string_bytes};
ghost use Rattle.proto_desc.specs.Printing.{IsJsonOf};
ghost use Rattle.proto_desc.specs.Whole.{WorkspaceFaults};
ghost use Rattle.proto_files.specs.Faults.{IsLeastFault, fault_at};
ghost use Rattle.proto_journal.specs.Loads.{CountsLoad, IsLoadFault};
ghost use Rattle.protoref_output.specs.Ends.{CountsStore};
ghost use Rattle.proto_journal_records.specs.Known.{Over};
ghost use Rattle.protoref_commands.specs.Printed.{Compiles, TellsFault};

use proto_base::Fault;
use proto_desc::{CheckedSchema, PrintedSchema};
use proto_journal::{LoadFault, sound_files};
use proto_store::Store;
use protoref_output::{Answer, RunFault, fault_answer};
use std::alloc::Global;

// The schemas of a store, with the text of their descriptors. Where the paths alone have a fault, no
// file is read.
pub(crate) fn open_printed<S: Store>(
    alloc: Global,
    store: &mut S,
) -> Result<PrintedSchema, LoadFault>
    requires { S.failure_count store.old < 2 ^ 64 - 1 }
    ensures compiles { IfOk result (λ s. Compiles (S.holds store.old) s.files) }
    ensures text { IfOk result (λ s. IsJsonOf s.files (string_bytes s.text)) }
    ensures fault { IfErr result (IsLoadFault (S.holds store.old)) }
    ensures same { S.holds store.new ≡ S.holds store.old }
    ensures count { CountsLoad (S.failure_count store.old) (S.failure_count store.new) result }
{
    let profile = store.profile();
    let files = sound_files(alloc, store)?;
    match PrintedSchema::open_as(alloc, files, profile) {
        Ok(schema) => Ok(schema),
        Err(fault) => Err(LoadFault::from(fault)),
    }
}

// The same without a text. One function for both would be generic over which schemas are
// opened, by a trait whose clauses are those of two types: longer than the two.
pub(crate) fn open_checked<S: Store>(
    alloc: Global,
    store: &mut S,
) -> Result<CheckedSchema, LoadFault>
    requires { S.failure_count store.old < 2 ^ 64 - 1 }
    ensures compiles { IfOk result (Compiles (S.holds store.old)) }
    ensures fault { IfErr result (IsLoadFault (S.holds store.old)) }
    ensures same { S.holds store.new ≡ S.holds store.old }
    ensures count { CountsLoad (S.failure_count store.old) (S.failure_count store.new) result }
{
    let profile = store.profile();
    let files = sound_files(alloc, store)?;
    match CheckedSchema::open_as(alloc, files, profile) {
        Ok(schema) => Ok(schema),
        Err(fault) => Err(LoadFault::from(fault)),
    }
}

// The answer over files of a store that do not compile: the line of their least fault.
pub(crate) fn faulty<S: Store>(
    alloc: Global,
    store: &mut S,
    fault: &Fault,
) -> Result<Answer, RunFault>
    requires room { S.failure_count store.old < 2 ^ 64 - 1 }
    requires least { Over (S.holds store.old)
        (λ held. IsLeastFault (WorkspaceFaults held.files) (fault_at fault.now)) }
    ensures told { IfOk result (TellsFault (S.holds store.old)) }
    ensures unwritten { IsErrOf result RunFault.Output → ⊥ }
    ensures same { S.holds store.new ≡ S.holds store.old }
    ensures count { CountsStore (S.failure_count store.old) (S.failure_count store.new) result }
{
    fault_answer(alloc, store, fault)
}
