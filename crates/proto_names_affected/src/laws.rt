//! The laws, as functions that do nothing.

ghost use Rattle.proto_names_affected.specs.Referred.{MarkedAreGathered, UnmarkedReferencesStay, ReferencesRise};

/// The references to a name rise by their files (`rise`). Where files that are not marked have the
/// references that they had, so has a name of these files (`stay`). Those of marked files are what
/// is gathered file by file (`gathered`).
pub fn references_are_parted<M>()
    ensures rise { ReferencesRise M }
    ensures stay { UnmarkedReferencesStay M }
    ensures gathered { MarkedAreGathered M }
{}
