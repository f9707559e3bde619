//! The laws, as functions that do nothing.

ghost use Rattle.proto_edit_statement_laws.specs.Deletions.{DeletionsAreOfOneTree, FieldsStandOnce};
ghost use Rattle.proto_edit_statement_laws.specs.Exchanges.{ExchangesAreReversed, LexemesAreMoved, StatementsAreExchanged};
ghost use Rattle.proto_edit_statement_laws.specs.Imports.{AdditionsAreRead, DropsAreRead, ImportsComeIn};
ghost use Rattle.proto_edit_statement_laws.specs.Reading.{DepthIsKept, PlacesAreSeams, StatementsAreRead};
ghost use Rattle.proto_edit_statement_laws.specs.DeletionChanges.{DeletionsAreChanges, FieldsAreOne, FieldsAreThere};
ghost use Rattle.proto_edit_statement_laws.specs.ImportChanges.{AdditionsAreChanges, DropsAreChanges};
ghost use Rattle.proto_edit_statement_laws.specs.Fields.{NamedFieldsAreOne, NamedFieldsAreThere, FieldsMayGo};
ghost use Rattle.proto_edit_statement_laws.specs.Files.{DeletionsHaveLess, ImportsAreMore};
ghost use Rattle.proto_edit_statement_laws.specs.Kept.{AdditionsKeepLinks, AdditionsKeepMeanings, DeletionsKeepLinks, DeletionsKeepMeanings, DropsKeepLinks, DropsKeepMeanings};
ghost use Rattle.proto_edit_statement_laws.specs.Options.{DeletionsKeepOptions, ImportsMoveOptions, NoOptionsComeIn, OptionsComeIn, OptionsMoveTokens, TreesMoveOptions};
ghost use Rattle.proto_edit_statement_laws.specs.Less.{LessIsLinked, LessMeans};
ghost use Rattle.proto_edit_statement_laws.specs.Places.{NeededMeansElse, NeededPlacesAreOne, NeededPlacesAreThere, OvertakenMeansElse, OvertakenPlacesAreOne, OvertakenPlacesAreThere};
ghost use Rattle.proto_edit_statement_laws.specs.Trees.{ImportsMoveNames, TreesMoveImports, TreesMoveNames};

use proto_names_rules::edits::{adds_import, adds_no_cycle, drops_import};
use proto_text::laws::{runs_are_replaced, segments_are_made};

/// Where items replace items, the new tree and its tokens are the old ones, all moved
/// by one map; and so are the old ones, read backwards.
pub fn statements_are_exchanged()
    ensures tree { StatementsAreExchanged }
    ensures tokens { LexemesAreMoved }
    ensures back { ExchangesAreReversed }
{}

/// Items begin and end where a text can be cut.
pub fn places_are_seams()
    ensures { PlacesAreSeams }
{}

/// Where statements replace statements in a text, the tree with them is read,
/// and no more braces are open at once.
pub fn statements_are_read()
    ensures read { StatementsAreRead }
    ensures depth { DepthIsKept }
{
    runs_are_replaced();
}

/// A deletion is of one tree, which has neither the field nor the reservation of its number and its
/// name: put in, the one gives the old tree, and the other the new one. A token names one field.
pub fn deletions_are_of_one_tree()
    ensures read { DeletionsAreOfOneTree }
    ensures once { FieldsStandOnce }
{
    runs_are_replaced();
    segments_are_made();
}

/// An added import is put in as the last of its file.
pub fn additions_are_read()
    ensures { AdditionsAreRead }
{
    runs_are_replaced();
    segments_are_made();
}

/// Where an import is dropped, the old file is the new one with the import put in;
/// the other imports stay, in order.
pub fn drops_are_read()
    ensures read { DropsAreRead }
    ensures imports { ImportsComeIn }
{
    runs_are_replaced();
}

/// Where a field is deleted, and its file would not be too long, the one splice of its file is an
/// entry, and puts files of a workspace with their tokens and trees, of the length told.
pub fn deletions_are_changes()
    ensures { DeletionsAreChanges }
{
    deletions_are_of_one_tree();
}

/// The same of an added import.
pub fn additions_are_changes()
    ensures { AdditionsAreChanges }
{
    additions_are_read();
    segments_are_made();
}

/// The same of a dropped import, where no file gets longer.
pub fn drops_are_changes()
    ensures { DropsAreChanges }
{
    drops_are_read();
}

/// Each declared field has its statement, and a token names one field.
pub fn statements_are_one()
    ensures there { FieldsAreThere }
    ensures one { FieldsAreOne }
{
    deletions_are_of_one_tree();
}

/// Without some fields and their entries each reference keeps its
/// meaning, and what is left is linked.
pub fn less_means_the_same()
    ensures means { LessMeans }
    ensures linked { LessIsLinked }
{}

/// A tree whose tokens are moved declares, uses and imports what it did, by moved tokens; so it
/// declares and uses where imports alone come in or go.
pub fn trees_move_names()
    ensures names { TreesMoveNames }
    ensures imports { TreesMoveImports }
    ensures apart { ImportsMoveNames }
{}

/// A tree whose tokens are moved has the custom options that it had, by moved tokens; so has one
/// where imports come in or go, and after a deletion no option is new.
pub fn trees_move_options()
    ensures tokens { OptionsMoveTokens }
    ensures options { TreesMoveOptions }
    ensures imports { ImportsMoveOptions }
    ensures more { OptionsComeIn }
    ensures same { NoOptionsComeIn }
    ensures deleted { DeletionsKeepOptions }
{}

/// The names of files of which one has a field less are the names before, without
/// the field and what goes with it; those of files of which one has an import more
/// are the same with one import more.
pub fn names_come_out()
    ensures less { DeletionsHaveLess }
    ensures more { ImportsAreMore }
{}

/// A name that neither case 1 nor case 2 refuses to delete is that of one written field.
pub fn fields_are_one()
    ensures there { NamedFieldsAreThere }
    ensures one { NamedFieldsAreOne }
    ensures free { FieldsMayGo }
{}

/// Where an added import overtakes a reference, or a dropped one is needed, the least
/// such place is there, and it is one.
pub fn places_are_one()
    ensures overtaken { OvertakenPlacesAreThere }
    ensures one_overtaken { OvertakenPlacesAreOne }
    ensures needed { NeededPlacesAreThere }
    ensures one_needed { NeededPlacesAreOne }
{}

/// A reference that the added import overtakes, or that needs the dropped one, would not mean what
/// it means: so cases 7 and 15 refuse nothing that could be done.
pub fn refusals_are_due()
    ensures overtaken { OvertakenMeansElse }
    ensures needed { NeededMeansElse }
{
    adds_import();
    drops_import();
}

/// A deletion keeps the meaning of each reference, and brings no fault
/// of imports, names and references.
pub fn deletions_keep_links()
    ensures means { DeletionsKeepMeanings }
    ensures links { DeletionsKeepLinks }
{}

/// So does an import that is added, where no case refuses it.
pub fn additions_keep_links()
    ensures means { AdditionsKeepMeanings }
    ensures links { AdditionsKeepLinks }
{
    adds_import();
    adds_no_cycle();
}

/// So does an import that is dropped, where no case refuses it.
pub fn drops_keep_links()
    ensures means { DropsKeepMeanings }
    ensures links { DropsKeepLinks }
{
    drops_import();
}
