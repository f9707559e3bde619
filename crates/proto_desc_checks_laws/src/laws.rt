//! The laws, as functions that do nothing.

ghost use Rattle.proto_desc_checks_laws.specs.Declarations.{BlocksAreDeclared, FieldNamesRise, FieldsAreDeclared, ValuesAreDeclared};
ghost use Rattle.proto_desc_checks_laws.specs.Deleted.{DeletionsKeepJsonNames, DeletionsKeepNames, DeletionsKeepNumbers};
ghost use Rattle.proto_desc_checks_laws.specs.Imports.{ImportsMoveFlaws};
ghost use Rattle.proto_desc_checks_laws.specs.NamedFlaws.{FlawsOfNames, NoFlawComesIn};
ghost use Rattle.proto_desc_checks_laws.specs.OneField.{NamesAreOfOneField, OptionsAreOfOneField};
ghost use Rattle.proto_desc_checks_laws.specs.Renamed.{NamesDecideThreeKinds};
ghost use Rattle.proto_desc_checks_laws.specs.Roles.{AskedTokensHaveRoles, DefaultsAreNotAsked, FieldOptionsHaveRoles, NamesAreNotAsked, ValueNumbersAreNumbers};

/// Scenes of one tree that differ in names alone have the same flaws, but for those of reserved
/// names, of defaults and of JSON names, of which it says nothing.
pub fn names_decide_three_kinds()
    ensures { NamesDecideThreeKinds }
{}

/// A file into which imports alone are put has the same flaws, each at the place that its token has
/// then.
pub fn imports_move_flaws()
    ensures { ImportsMoveFlaws }
{}

/// A message without a flaw in numbers, reserved names and JSON names has none after a field is
/// deleted and its number and name are reserved, where no other field has the name.
pub fn deletions_bring_no_flaws()
    ensures numbers { DeletionsKeepNumbers }
    ensures names { DeletionsKeepNames }
    ensures json_names { DeletionsKeepJsonNames }
{}

/// The flaws of a file that names decide are those of its blocks' defaults, reserved names and JSON
/// names. Where a second scene has none of these and all other flaws are the same, it has no flaw
/// if the first has none.
pub fn flaws_of_names()
    ensures all { FlawsOfNames }
    ensures none { NoFlawComesIn }
{}

/// What the blocks of a tree hold is declared: fields below their message, values beside their
/// enum. Name tokens of fields rise.
pub fn blocks_are_declared()
    ensures blocks { BlocksAreDeclared }
    ensures fields { FieldsAreDeclared }
    ensures values { ValuesAreDeclared }
    ensures rising { FieldNamesRise }
{}

/// What sentences and options read besides names stands at tokens of other roles than names, words
/// of references and defaults.
pub fn asked_tokens_have_roles()
    ensures asked { AskedTokensHaveRoles }
    ensures options { FieldOptionsHaveRoles }
    ensures numbers { ValueNumbersAreNumbers }
    ensures names { NamesAreNotAsked }
    ensures defaults { DefaultsAreNotAsked }
{}

/// A token names one field, or an option of one field.
pub fn tokens_are_of_one_field()
    ensures names { NamesAreOfOneField }
    ensures options { OptionsAreOfOneField }
{}
