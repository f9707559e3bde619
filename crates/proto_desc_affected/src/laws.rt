//! The laws, as functions that do nothing.

ghost use Rattle.proto_desc_affected.specs.Checked.{KeptFilesTellUnaffected, LinksHaveEnumsKept, LinksHaveWhatIsKept, LinksListReferences, MarksTellKept, MeantMessagesAreNoEnums};
ghost use Rattle.proto_desc_affected.specs.Extended.{UnaffectedFilesStayFlawless, UnaffectedFlawsOfFilesStay};
ghost use Rattle.proto_desc_affected.specs.Unaffected.{CleanEditsAreSound, UnaffectedDescriptorsStay, UnaffectedScenesStay};
ghost use Rattle.proto_desc_affected.specs.Values.{ValueNamesMatterToNoDescriptor, ValueNamesMatterToNoExtension, ValueNamesMatterToNoProto3Flaws};
ghost use Rattle.proto_desc_affected.specs.Marks.{WantedEnumsAreThere};

use proto_names_update::laws::{edited_files_differ, relinked_are_clean};

/// Files are soundly edited that had no fault of imports, names and references, and have none now.
pub fn clean_edits_are_sound()
    ensures { CleanEditsAreSound }
{}

/// Of a file that an edit does not affect the scene is what it was, with any cap, and of a proto3
/// file but for the names of enums' values (`scenes`). So are the descriptor (`descriptors`) and
/// what is wrong with the file alone (`own`). Where each file that has an `extend` block is
/// unaffected, and refers to what stood in files that are not edited, an unaffected file without a
/// flaw has none still (`flawless`): its custom options, too, are right, wherever the extensions
/// that they mean stand.
pub fn unaffected_files_stay()
    ensures scenes { UnaffectedScenesStay }
    ensures descriptors { UnaffectedDescriptorsStay }
    ensures own { UnaffectedFlawsOfFilesStay }
    ensures flawless { UnaffectedFilesStayFlawless }
{}

/// A link has of each reference what is kept of it (`kept`), and of what a file declares the enums
/// that are kept (`declared`). Where it says that a name which a reference means is a message's,
/// there is no enum (`enums`). Each reference is among those that mean its name, and the name among
/// those of the file that declares it (`listed`).
pub fn links_have_what_is_kept()
    ensures kept { LinksHaveWhatIsKept }
    ensures declared { LinksHaveEnumsKept }
    ensures enums { MeantMessagesAreNoEnums }
    ensures listed { LinksListReferences }
{}

/// What is kept of files tells with the link of the edited files that a file which is not edited is
/// unaffected: where by the link its references mean the names that are kept, and these stand in
/// files that are not edited, or the file has no `extend` block and they are messages' still, or
/// enums' that are to the file what is kept of them.
pub fn kept_files_tell_unaffected()
    ensures { KeptFilesTellUnaffected }
{}

/// Where two files are the same but for the names of the values of the enums that their references
/// mean, so is what is wrong with them, if they are proto3 (`flaws`), and so are their descriptors
/// (`descriptors`) and their extensions (`extensions`).
pub fn value_names_matter_to_proto2_alone()
    ensures flaws { ValueNamesMatterToNoProto3Flaws }
    ensures descriptors { ValueNamesMatterToNoDescriptor }
    ensures extensions { ValueNamesMatterToNoExtension }
{}

/// Where the files that have to be re-checked are marked, what is kept of any other tells that
/// it is unaffected, if what its references mean stands in files that are not edited, or the file
/// had no `extend` block and it is messages', or enums' that are to the file what is kept of them.
pub fn marks_tell_kept()
    ensures { MarksTellKept }
{
    edited_files_differ();
    relinked_are_clean();
}

/// A table of the enums of wanted files has each enum that a reference of a marked file means,
/// where each file is wanted that declares what these mean, messages left out.
pub fn wanted_enums_are_there()
    ensures { WantedEnumsAreThere }
{
    links_have_what_is_kept();
}
