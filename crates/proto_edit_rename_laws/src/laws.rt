//! The laws, as functions that do nothing.

ghost use Rattle.proto_edit_rename_laws.specs.Captures.{CapturesBeginAnew};
ghost use Rattle.proto_edit_rename_laws.specs.ChangesEntry.{ChangesAreEntry, OldTextsAreNames, TextsAfter};
ghost use Rattle.proto_edit_rename_laws.specs.ChangesPut.{ChangesArePut};
ghost use Rattle.proto_edit_rename_laws.specs.FirstPlaces.{FirstPlacesAreOne, FirstPlacesAreThere};
ghost use Rattle.proto_edit_rename_laws.specs.Inside.{TargetsAreInside, TokensAreInside};
ghost use Rattle.proto_edit_rename_laws.specs.NoLinkFault.{FilesAreLinked, FilesAreWoven, NoLinkFaultComesIn, ReadFilesAreClean};
ghost use Rattle.proto_edit_rename_laws.specs.OneTarget.{TargetsAreOne, TargetsAreThere};
ghost use Rattle.proto_edit_rename_laws.specs.OptionTexts.{OptionTextsStay, OptionTokensStay};
ghost use Rattle.proto_edit_rename_laws.specs.PlacesSuit.{PlacesSuit};
ghost use Rattle.proto_edit_rename_laws.specs.Respelling.{PlacesRespell};
ghost use Rattle.proto_edit_rename_laws.specs.Rewording.{FilesAreReworded, OtherTextsStay, SkeletonsStay, TextsAreChanged};
ghost use Rattle.proto_edit_rename_laws.specs.Scenes.{ScenesDiffer};
ghost use Rattle.proto_edit_rename_laws.specs.TokenRoles.{AllTokensHaveRoles};

use proto_names_rules::edits::decisions;

/// Words that suit their places can be put into all files: the texts are then the old ones but for
/// these words, the trees are the very same, and so is what they declare, import and use.
pub fn files_are_reworded()
    ensures put { FilesAreReworded }
    ensures texts { TextsAreChanged }
    ensures others { OtherTextsStay }
    ensures skeleton { SkeletonsStay }
{}

/// With the places of a rename changed, the texts spell the names as the name map wants them.
pub fn places_respell()
    ensures { PlacesRespell }
{}

/// What files declare and use stands at tokens of theirs.
pub fn tokens_are_inside()
    ensures { TokensAreInside }
{}

/// The token of a target is one of its file.
pub fn targets_are_inside()
    ensures { TargetsAreInside }
{}

/// The new word suits each place where a rename puts it, if its kind may have it.
pub fn places_suit()
    ensures { PlacesSuit }
{}

/// What is read of a file before and after a rename differs in names alone.
pub fn scenes_differ()
    ensures { ScenesDiffer }
{}

/// No fault of imports, names and references comes in by a rename.
pub fn no_link_fault_comes_in()
    ensures woven { FilesAreWoven }
    ensures linked { FilesAreLinked }
    ensures read { ReadFilesAreClean }
    ensures link { NoLinkFaultComesIn }
{}

/// A name that neither case 1 nor case 2 refuses has a target, and one
/// alone where no link fault stands.
pub fn targets_are_one()
    ensures one { TargetsAreOne }
    ensures there { TargetsAreThere }
{}

/// A captured reference begins, as rewritten, with the new word or the new entry's name.
pub fn captures_begin_anew()
    ensures { CapturesBeginAnew }
{}

/// Where a rename captures a reference, the least captured place is there, and it is one.
pub fn first_places_are_one()
    ensures there { FirstPlacesAreThere }
    ensures one { FirstPlacesAreOne }
{
    decisions();
}

/// The changes that new words make put the files with these words.
pub fn changes_are_put()
    ensures { ChangesArePut }
{}

/// The changes of a rename that no case refuses are an entry, each old text is the old name,
/// and the files afterwards are texts.
pub fn changes_are_entry()
    ensures old { OldTextsAreNames }
    ensures entry { ChangesAreEntry }
    ensures texts { TextsAfter }
{}

/// In linked files names, words of references and defaults are tokens apart, and what a rename
/// changes stands where such words are wanted.
pub fn tokens_have_roles()
    ensures { AllTokensHaveRoles }
{}

/// A rename leaves the paths and the values of custom options as they are.
pub fn option_texts_stay()
    ensures tokens { OptionTokensStay }
    ensures texts { OptionTextsStay }
{}
