//! Laws of the definitions, for the layers above. None of these does anything.

ghost use Rattle.proto_base.specs.declared.profile.Profile.{Profile};
ghost use Rattle.proto_text.specs.Edits.{InverseLeadsBack, PutsLength, EditsPutOnce};
ghost use Rattle.proto_text.specs.Grouping.{GroupsArePieces, GroupsArePiecesIn, OneGrouping, OneGroupingIn, PiecesAreGroups, PiecesAreGroupsIn};
ghost use Rattle.proto_text.specs.Renames.{EditsChangePieces, WordsMayChange, WordsMayChangeIn};
ghost use Rattle.proto_text.specs.Segments.{BetweenPlaces, DecimalIsNumber, QuotedStandsForItself, RunsAreReplaced, SegmentsJoin, SpaceIsSegment, TokenBeforeSegment, TokenIsSegment, TokensAreInOrder, TokensAreLexemes, TokensAreMoved};
ghost use Rattle.proto_text.specs.Texts.{CountStays, OneWordIsOneEdit, OtherWordsStay, WordsAreChanged, WordsArePut, WordsStandAtSpans};
ghost use Rattle.proto_text.specs.Tokens.{TokensAreWritten, CoreTokensHaveNoColon, NoFaultWithTokens, NoFaultWithTokensIn, OneTokenList, TokensOfText, TokensReadPieces, TokensWithoutColon};
ghost use Rattle.proto_text.specs.Values.{OneValue, StringsHaveValues, ValueIsValueOf};

/// Pieces, and groups of a token and the trivia behind it, say the same; a text is grouped in one
/// way at most.
pub fn groups_are_pieces()
    ensures pieces { GroupsArePieces }
    ensures groups { PiecesAreGroups }
    ensures one { OneGrouping }
    ensures pieces_in { (p : Profile) → GroupsArePiecesIn p }
    ensures groups_in { (p : Profile) → PiecesAreGroupsIn p }
    ensures one_in { (p : Profile) → OneGroupingIn p }
{}

/// The texts at the tokens of a text are those of its pieces.
pub fn tokens_read_pieces()
    ensures { TokensReadPieces }
{}

/// A text has one list of tokens, and where it has tokens of a language it has no fault in it.
pub fn tokens_are_one()
    ensures one { OneTokenList }
    ensures no_fault { NoFaultWithTokens }
    ensures no_fault_in { (p : Profile) → NoFaultWithTokensIn p }
{}

/// The tokens of a text are those of it as written, and of it in the core language exactly where
/// none is a `:`.
pub fn core_tokens_are_written()
    ensures tokens { TokensOfText }
    ensures written { TokensAreWritten }
    ensures no_colon { CoreTokensHaveNoColon }
    ensures without { TokensWithoutColon }
{}

/// Pieces stay pieces where words are put in place of words.
pub fn words_may_change()
    ensures words { WordsMayChange }
    ensures words_in { (p : Profile) → WordsMayChangeIn p }
{}

/// Edits of whole pieces put other pieces in their place.
pub fn edits_change_pieces()
    ensures { EditsChangePieces }
{}

/// The splices of changed words put a text with the same tokens by index, with the changed words.
pub fn words_are_put()
    ensures put { WordsArePut }
    ensures words { WordsAreChanged }
    ensures others { OtherWordsStay }
    ensures count { CountStays }
    ensures one { OneWordIsOneEdit }
{}

/// The word of a token is the text at its span.
pub fn words_stand_at_spans()
    ensures { WordsStandAtSpans }
{}

/// What was put is put back by the inverse edits; edits put one text, of a known length.
pub fn puts_lead_back()
    ensures back { InverseLeadsBack }
    ensures once { EditsPutOnce }
    ensures length { PutsLength }
{}

/// A string token has a value, and no text has two.
pub fn strings_have_one_value()
    ensures some { StringsHaveValues }
    ensures one { OneValue }
    ensures found { ValueIsValueOf }
{}

/// A segment may come in place of a run of tokens: the tokens before and behind the run stay.
pub fn runs_are_replaced()
    ensures replaced { RunsAreReplaced }
    ensures between { BetweenPlaces }
    ensures moved { TokensAreMoved }
{}

/// What segments are made of.
pub fn segments_are_made()
    ensures join { SegmentsJoin }
    ensures space { SpaceIsSegment }
    ensures token { TokenIsSegment }
    ensures before { TokenBeforeSegment }
    ensures quoted { QuotedStandsForItself }
    ensures decimal { DecimalIsNumber }
{}

/// Tokens stand in order, and each is in the lexical set of its kind.
pub fn tokens_are_in_order()
    ensures order { TokensAreInOrder }
    ensures lexemes { TokensAreLexemes }
{}
