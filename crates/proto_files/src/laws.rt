//! Laws of the definitions, for the layers above. None of these does anything.

ghost use Rattle.proto_files.specs.Laws.{ApartInOrder, CoreFilesAreWritten, CoreFilesStayClean, OneOrder, PathsArePhase0, TextsArePhase1, GrammarIsPhase2};

/// The same files stand in one order of their paths.
pub fn files_have_one_order()
    ensures { OneOrder }
{}

/// Faults of paths, of texts and of the grammar are of the phases 0, 1 and 2.
pub fn faults_have_one_phase()
    ensures paths { PathsArePhase0 }
    ensures texts { TextsArePhase1 }
    ensures grammar { GrammarIsPhase2 }
{}

/// Two faults, neither before the other, are the same: a set of faults has one least.
pub fn least_is_one()
    ensures { ApartInOrder }
{}

/// Files that are read in the core language are read as written, with the same tokens and trees, and
/// have no fault there.
pub fn core_files_are_written()
    ensures read { CoreFilesAreWritten }
    ensures clean { CoreFilesStayClean }
{}
