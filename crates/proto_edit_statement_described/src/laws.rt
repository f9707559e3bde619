//! The laws, as functions that do nothing.

ghost use Rattle.proto_edit_statement_described.specs.Deletions.{DeletionsBringNoFlaw};
ghost use Rattle.proto_edit_statement_described.specs.Files.{AdditionsLeaveNoFault, AdditionsMapDescriptors, DeletionsPassTheChecks, DeletionsMapDescriptors, DropsLeaveNoFault, DropsMapDescriptors};
ghost use Rattle.proto_edit_statement_described.specs.Imports.{AdditionsAreMapped, DropsAreMapped};
ghost use Rattle.proto_edit_statement_described.specs.Kept.{DeletionsKeepVersions, ImportsKeepVersions, NewTokensAreOwn, OthersKeepApart};
ghost use Rattle.proto_edit_statement_described.specs.Mapped.{DeletionsMapTheDescriptor};
ghost use Rattle.proto_edit_statement_described.specs.Scenes.{ScenesAreMoved};
ghost use Rattle.proto_edit_statement_described.specs.MovedFiles.{MovedFilesRead};
ghost use Rattle.proto_edit_statement_described.specs.OtherScenes.{OtherScenesReadTheSame};
ghost use Rattle.proto_edit_statement_described.specs.Statements.{FilesAreThere, ImportsAreOne, ImportsAreThere};
ghost use Rattle.proto_edit_statement_described.specs.Workspaces.{AdditionsAreMade, DropsAreMade};
ghost use Rattle.proto_edit_statement_described.specs.Fields.{NumbersAreSmall};
ghost use Rattle.proto_edit_statement_described.specs.NamedTrees.{TreesAreNamed};
ghost use Rattle.proto_edit_statement_described.specs.Numbers.{DecimalsAreNumbers};
ghost use Rattle.proto_edit_statement_described.specs.DeletedScenes.{OtherScenesStay, ScenesHaveTokens};
ghost use Rattle.proto_edit_statement_described.specs.Trees.{TreesAreDeleted};
ghost use Rattle.proto_edit_statement_described.specs.Workspace.{DeletionsAreDeletions, DeletionsAreLess, DeletionsAreMade, DeletionsAreMapped, DeletionsLeaveFiles, DeletionsLeaveNoFault, DeletionsMeanTheSame, DeletableFieldsAreOne, FieldsMayBeDeleted};

use proto_edit_statement_laws::laws::{
    additions_are_changes, additions_keep_links, deletions_are_changes, drops_are_changes,
    drops_keep_links, statements_are_exchanged, statements_are_one,
};
use proto_text::laws::{runs_are_replaced, segments_are_made};

/// Where the tokens of a file are moved and an import comes in or goes, its descriptor
/// is the old one with other imports.
pub fn imports_are_mapped()
    ensures added { AdditionsAreMapped }
    ensures dropped { DropsAreMapped }
{}

/// A file without a flaw has none after a field is deleted and its number and name are reserved,
/// where no other field of the message has the name.
pub fn deletions_bring_no_flaw()
    ensures { DeletionsBringNoFlaw }
{}

/// The descriptor of the file is then the old one without the field, with its number and name
/// reserved where it stood, or behind its oneof.
pub fn deletions_are_mapped()
    ensures { DeletionsMapTheDescriptor }
{}

/// A scene with the tokens of another at moved indices reads the same at these, and
/// its references mean what they meant.
pub fn scenes_are_moved()
    ensures { ScenesAreMoved }
{}

/// Tokens that are moved because others are put in stay apart from each other and from those, and
/// none of the edits changes the version of a file.
pub fn tokens_and_versions_are_kept()
    ensures apart { OthersKeepApart }
    ensures own { NewTokensAreOwn }
    ensures imports { ImportsKeepVersions }
    ensures deletions { DeletionsKeepVersions }
{}

/// The deletion of a field from one of some files brings no fault of the checks, and changes
/// the descriptor of that file alone.
pub fn deletions_leave_files_clean()
    ensures faults { DeletionsPassTheChecks }
    ensures descriptors { DeletionsMapDescriptors }
{}

/// So does an added import.
pub fn additions_leave_files_clean()
    ensures faults { AdditionsLeaveNoFault }
    ensures descriptors { AdditionsMapDescriptors }
{}

/// So does a dropped import.
pub fn drops_leave_files_clean()
    ensures faults { DropsLeaveNoFault }
    ensures descriptors { DropsMapDescriptors }
{}

/// A file that an edit of another one leaves reads the same, where its references mean
/// the same names and enums. Where an import comes into a file, all others read the
/// same, and this one at moved tokens.
pub fn scenes_stay()
    ensures others { OtherScenesReadTheSame }
    ensures moved { MovedFilesRead }
{}

/// An added import that no case refuses leaves files without a fault, with the
/// old descriptors but for the import.
pub fn additions_are_made()
    ensures { AdditionsAreMade }
{
    additions_are_changes();
    additions_keep_links();
    segments_are_made();
    statements_are_exchanged();
}

/// So does a dropped import.
pub fn drops_are_made()
    ensures { DropsAreMade }
{
    drops_are_changes();
    drops_keep_links();
    statements_are_exchanged();
}

/// Where no case refuses, the file is there, and of a dropped import one statement.
pub fn statements_are_found()
    ensures files { FilesAreThere }
    ensures there { ImportsAreThere }
    ensures one { ImportsAreOne }
{}

/// Where a field is deleted, the old tree is one tree with the field put in among the
/// members of a message, or of a oneof of it; the new tree is that one with the reservation
/// put in, in the same place or behind the oneof. The old tree declares the field and uses
/// its type besides what the new one does.
pub fn trees_are_deleted()
    ensures deleted { TreesAreDeleted }
    ensures named { TreesAreNamed }
{}

/// Where each reference means what it meant, both scenes of the file have the tokens of one scene,
/// moved, and the scene of each other file stays.
pub fn scenes_have_tokens()
    ensures edited { ScenesHaveTokens }
    ensures others { OtherScenesStay }
{}

/// Without a fault of the checks the number of each field is below 2^64; and a
/// number in decimal is read as itself.
pub fn numbers_are_read()
    ensures small { NumbersAreSmall }
    ensures decimal { DecimalsAreNumbers }
{}

/// A name that no case refuses to delete is that of one field.
pub fn fields_may_be_deleted()
    ensures there { FieldsMayBeDeleted }
    ensures one { DeletableFieldsAreOne }
{
    statements_are_one();
}

/// A deletion that no case refuses is of the names and of the descriptors what their laws ask
/// for: the names lose a field, and each reference means what it meant; the file loses the field,
/// and the other files read the same.
pub fn deletions_join()
    ensures less { DeletionsAreLess }
    ensures means { DeletionsMeanTheSame }
    ensures deletion { DeletionsAreDeletions }
{
    statements_are_exchanged();
    runs_are_replaced();
    segments_are_made();
}

/// Such a deletion brings no fault, and leaves the descriptors but for that of the file, which
/// loses the field and has its number and its name reserved.
pub fn deletions_leave_no_fault()
    ensures faults { DeletionsLeaveNoFault }
    ensures mapped { DeletionsAreMapped }
{
    statements_are_exchanged();
    runs_are_replaced();
    segments_are_made();
}

/// Where a field may be deleted, and its file would not be too long, the changes are an entry, and
/// put files of a workspace without a fault, whose descriptors are mapped; and no others.
pub fn deletions_are_made()
    ensures made { DeletionsAreMade }
    ensures left { DeletionsLeaveFiles }
{
    deletions_are_changes();
    statements_are_exchanged();
    runs_are_replaced();
    segments_are_made();
}
