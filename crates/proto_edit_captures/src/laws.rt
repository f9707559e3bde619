//! The laws, as functions that do nothing.

ghost use Rattle.proto_edit_captures.specs.Collisions.{CollisionsAreNewNames};
ghost use Rattle.proto_edit_captures.specs.OvertakenLaw.{FirstsAreOvertaken};
ghost use Rattle.proto_edit_captures.specs.ShownAnew.{ShownIsAnew};

/// In linked files a rename collides exactly where its new name, or that of its new entry, is
/// that of a symbol that keeps its name.
pub fn collisions_are_new_names()
    ensures { CollisionsAreNewNames }
{}

/// What is shown under the new names of a rename, where nothing collides.
pub fn shown_is_anew()
    ensures { ShownIsAnew }
{}

/// The first reference of a file that is overtaken by texts is the first by names.
pub fn firsts_are_overtaken()
    ensures { FirstsAreOvertaken }
{}
