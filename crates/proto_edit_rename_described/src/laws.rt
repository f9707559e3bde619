//! The laws, as functions that do nothing.

ghost use Rattle.proto_edit_rename_described.specs.Allowed.{RenamesLeaveNoFault};
ghost use Rattle.proto_edit_rename_described.specs.CleanFiles.{CleanFilesAreRead};
ghost use Rattle.proto_edit_rename_described.specs.DefaultsFit.{AllDefaultsFit, FieldsHaveRoles};
ghost use Rattle.proto_edit_rename_described.specs.DefaultsKept.{DefaultsStayValues};
ghost use Rattle.proto_edit_rename_described.specs.EnumDefaults.{EnumDefaultsFit};
ghost use Rattle.proto_edit_rename_described.specs.FilesTurn.{AllAreMapped, FilesTurn, RenamesAreMapped};
ghost use Rattle.proto_edit_rename_described.specs.NamesKept.{JsonNamesStay, ReservedNamesStay};
ghost use Rattle.proto_edit_rename_described.specs.OtherTokens.{LabelsAndScalarsStay, OtherTokensStay};
ghost use Rattle.proto_edit_rename_described.specs.ScenesTurn.{MeaningsTurn, NamesTurn};
ghost use Rattle.proto_edit_rename_described.specs.Turns.{DescriptorsAreMapped};
ghost use Rattle.proto_edit_rename_described.specs.WrittenJson.{JsonIsWrittenOnce, JsonIsWrittenOrNot};

/// Reserved names and JSON names have no flaw after a rename that cases 8 and 9 don't refuse.
pub fn names_are_kept()
    ensures reserved { ReservedNamesStay }
    ensures json { JsonNamesStay }
{}

/// A default that is one of its enum's values is one after a rename.
pub fn defaults_are_kept()
    ensures { DefaultsStayValues }
{}

/// So is a default of a field whose type means an enum.
pub fn enum_defaults_fit()
    ensures { EnumDefaultsFit }
{}

/// Tokens that name nothing, use nothing and are no renamed default are not
/// changed, and no label or scalar is.
pub fn other_tokens_stay()
    ensures labels { LabelsAndScalarsStay }
    ensures tokens { OtherTokensStay }
{}

/// Each field keeps its label, type and numbers after a rename, and its defaults go with the value
/// that they mean. So no default is wrong.
pub fn all_defaults_fit()
    ensures fields { FieldsHaveRoles }
    ensures fit { AllDefaultsFit }
{}

/// An allowed rename of files without a fault of links and checks leaves files without one.
pub fn renames_leave_no_fault()
    ensures { RenamesLeaveNoFault }
{}

/// After a rename each name is turned below what it stands in, and each reference means
/// what it meant under the name map.
pub fn scenes_turn()
    ensures names { NamesTurn }
    ensures meanings { MeaningsTurn }
{}

/// Where names and meanings turn, the descriptor is the old one under the name map.
pub fn descriptors_are_mapped()
    ensures { DescriptorsAreMapped }
{}

/// Whether the field that is renamed has a written JSON name has one answer.
pub fn written_json_is_one()
    ensures there { JsonIsWrittenOrNot }
    ensures one { JsonIsWrittenOnce }
{}

/// Each file of an allowed rename turns, so its descriptors are the old ones under the name map.
pub fn files_turn()
    ensures each { FilesTurn }
    ensures described { AllAreMapped }
    ensures mapped { RenamesAreMapped }
{}

/// Files whose texts and grammar have no fault have tokens and trees.
pub fn clean_files_are_read()
    ensures { CleanFilesAreRead }
{}
