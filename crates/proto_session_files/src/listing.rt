//! All faults of files, after files that compiled.

ghost use Rattle.std.specs.Prelude.{◌≡◌, ◌<◌, ◌∷◌, List, true, IfOk, IfSome, map};
ghost use Rattle.proto_base.specs.FaultTable.{phase_of};
ghost use Rattle.proto_base.specs.GivenFiles.{files_of_as};
ghost use Rattle.proto_files.specs.Faults.{FaultAt, fault_at};
ghost use Rattle.proto_all_faults.specs.Laws.{AreAllFaults};

use crate::changed::changed_files;
use proto_all_faults::faults_as;
use proto_base::{Fault, NoMemory, Profile};
use proto_edit::Workspace;
use proto_names_faults::laws::{faults_are_of_phases, link_faults_are_these};
use std::alloc::Global;

// Whether the first of these faults is of the text or the grammar of a file.
fn begin_in_texts(listed: &[Fault]) -> bool
    ensures { result ≡ true → (x : FaultAt) × (rest : List FaultAt)
        × (map fault_at listed.now ≡ x ∷ rest) × (0 < phase_of x.kind) × (phase_of x.kind < 3) }
{
    let Some(first) = listed.first() else {
        return false;
    };
    let phase = first.kind.phase();
    if phase == 0 {
        return false;
    }
    phase < 3
}

// All faults, where one of the files that are not as they were has one of its text or its grammar.
fn own_faults(
    alloc: Global,
    clean: &Workspace,
    files: &[(String, Vec<u8>)],
    profile: Profile,
) -> Result<Option<Vec<Fault>>, NoMemory>
    ensures { IfOk result (λ found. IfSome found (λ listed.
        AreAllFaults (files_of_as profile files.now) (map fault_at listed.items))) }
{
    let Some(changed) = changed_files(alloc, clean.files(), files, profile)? else {
        return Ok(None);
    };
    // Which faults are of which phase.
    link_faults_are_these();
    faults_are_of_phases();
    let listed = faults_as(alloc, changed.as_slice(), profile)?;
    if begin_in_texts(listed.as_slice()) {
        Ok(Some(listed))
    } else {
        Ok(None)
    }
}

/// All faults of files of a language, in order, as `faults_as` lists them. Where they have the paths
/// and the language of files that compiled, and one of the texts that differ from theirs has a fault
/// of its text or its grammar, these texts alone are read. Fails only when out of memory.
pub fn faults_after(
    alloc: Global,
    good: &Option<Workspace>,
    files: &[(String, Vec<u8>)],
    profile: Profile,
) -> Result<Vec<Fault>, NoMemory>
    ensures { IfOk result (λ listed.
        AreAllFaults (files_of_as profile files.now) (map fault_at listed.items)) }
{
    let Some(clean) = good else {
        return faults_as(alloc, files, profile);
    };
    match own_faults(alloc, clean, files, profile)? {
        Some(listed) => Ok(listed),
        None => faults_as(alloc, files, profile),
    }
}
