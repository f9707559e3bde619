//! The laws, as functions that do nothing.

ghost use Rattle.proto_names_update.specs.Edited.{EditedFilesDiffer};
ghost use Rattle.proto_names_update.specs.Relinked.{UnmarkedFilesMeanTheSame, RelinkedAreClean};

/// What files that are not edited declare and refer to is the same.
pub fn edited_files_differ()
    ensures { EditedFilesDiffer }
{}

/// Where files without faults of imports, names and references are edited, and the files that have
/// to be re-resolved are marked: what a reference of another file means stays (`unmarked`), and
/// none of these faults comes in, if imports and names have none, and no reference of a marked file
/// (`clean`).
pub fn relinked_are_clean()
    ensures unmarked { UnmarkedFilesMeanTheSame }
    ensures clean { RelinkedAreClean }
{}
