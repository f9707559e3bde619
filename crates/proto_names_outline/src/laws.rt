//! Laws of references. None of these does anything.

ghost use Rattle.proto_names_outline.specs.Core.{CoreUsesStay};

/// A file of the core language has the references of its fields, methods and extensions alone.
pub fn core_uses_stay()
    ensures { CoreUsesStay }
{}
