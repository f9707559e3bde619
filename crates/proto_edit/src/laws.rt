//! What holds of the definitions, for whoever builds on them. None of these does anything.

ghost use Rattle.proto_edit_entries.specs.Laws.{PutsOnce};
ghost use Rattle.proto_edit.specs.Laws.{AcceptedAreNotable, CompiledAreRead, DescribedOnce, EditsAreMade, MappedOnce, RefusedOnce, RunsAreUndone, StepsAreUndone, StepsCompile, StepsLeaveOptions, StepsOnce, UndoneOnce, WorkspacesAreClean};
ghost use Rattle.proto_edit.specs.MappedSteps.{AdmissibleAdditionsStep, AdmissibleDeletionsStep, AdmissibleDropsStep, AdmissibleRenamesStep, RenamesAreSteps};
ghost use Rattle.proto_edit.specs.OptionLaws.{OptionLaws};
ghost use Rattle.proto_edit.specs.StatementLaws.{StatementLaws};

use proto_edit_statement_described::laws::{
    additions_are_made, deletions_are_made, drops_are_made, fields_may_be_deleted,
    statements_are_found,
};
use proto_edit_statement_laws::laws::{fields_are_one, places_are_one, statements_are_one};
use proto_option_laws::laws::renames_leave_options;
use proto_option_statement_laws::laws::{
    additions_leave_options, deletions_leave_options, drops_leave_options,
};

/// Files that compile have no fault, as a workspace that is given; and they have tokens and trees.
pub fn compiled_is_clean()
    ensures whole { WorkspacesAreClean }
    ensures read { CompiledAreRead }
{}

/// A rename that no case refuses is a mapped step: the changes of its words are an entry,
/// and the files with them compile to the old descriptors under the name map. Each
/// admissible rename has such a step.
pub fn renames_are_steps()
    ensures steps { RenamesAreSteps }
    ensures there { AdmissibleRenamesStep }
{}

/// The deletion of a field that no case refuses is a mapped step, and its changes are an entry.
pub fn deletions_are_steps()
    ensures { AdmissibleDeletionsStep }
{
    statements_are_known();
}

/// The same of an added import.
pub fn additions_are_steps()
    ensures { AdmissibleAdditionsStep }
{
    statements_are_known();
}

/// The same of a dropped import.
pub fn drops_are_steps()
    ensures { AdmissibleDropsStep }
{
    statements_are_known();
}

/// An accepted edit of files that compile can be written down: its names
/// are of words, and its paths are those of files.
pub fn accepted_are_notable()
    ensures { AcceptedAreNotable }
{}

/// An admissible edit of a workspace can be made, and leaves files that compile to
/// the old descriptors under its map; and it leaves custom options.
pub fn edits_compile()
    ensures made { EditsAreMade }
    ensures mapped { StepsCompile }
    ensures options { StepsLeaveOptions }
{
    statements_are_known();
    options_are_known();
}

/// Changes put one list of files; the accepted entries of a run, undone from the last to the first,
/// lead back to the files before it, and to no others.
pub fn runs_are_undone()
    ensures back { RunsAreUndone }
    ensures puts { PutsOnce }
    ensures once { UndoneOnce }
{
    statements_are_known();
}

/// Files that compile have one list of descriptors; an edit changes them in one way, to one list of
/// descriptors under its map, or is refused by one case, with one place where one is answered.
pub fn answers_are_one()
    ensures described { DescribedOnce }
    ensures steps { StepsOnce }
    ensures mapped { MappedOnce }
    ensures refused { RefusedOnce }
{
    statements_are_known();
}

/// Undoing what an edit answered leads back to the files before it, and to no others.
pub fn steps_are_undone()
    ensures { StepsAreUndone }
{
    statements_are_known();
}

/// What edits of statements rest on.
pub(crate) fn statements_are_known()
    ensures { StatementLaws }
{
    deletions_are_made();
    fields_may_be_deleted();
    fields_are_one();
    statements_are_one();
    additions_are_made();
    drops_are_made();
    statements_are_found();
    places_are_one();
}

/// What is known of the options that an edit leaves.
pub(crate) fn options_are_known()
    ensures { OptionLaws }
{
    renames_leave_options();
    deletions_leave_options();
    additions_leave_options();
    drops_leave_options();
}
