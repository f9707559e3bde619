//! Laws of these faults, for the layers above. None of these does anything.

ghost use Rattle.proto_names_faults.specs.AllFaults.{FaultsAreOfPhases, LinkFaultsAreThese};

/// The faults of a link are those of its imports, of its names and of its references.
pub fn link_faults_are_these()
    ensures { LinkFaultsAreThese }
{}

/// The faults of imports are of phase 3, those of names of phase 4, and those of references of
/// phase 5.
pub fn faults_are_of_phases()
    ensures { FaultsAreOfPhases }
{}
