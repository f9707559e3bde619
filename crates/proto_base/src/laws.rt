//! The laws, as functions that do nothing.

ghost use Rattle.proto_base.specs.Undone.{AddedAreCut};

/// Of a list to which elements were added since a change of its log, what stood there at first is
/// the same once the changes are rolled back.
pub fn added_are_cut<T>()
    ensures { AddedAreCut T }
{}
