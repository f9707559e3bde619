//! Laws of trees, for the layers above. None of these does anything.

ghost use Rattle.proto_base.specs.declared.profile.Profile.{Profile};
ghost use Rattle.proto_tree.specs.Laws.{CoreTreesArePlain, CoreTreesAreWritten, CoreTreesHaveNoWeakImport, TreesHaveTokens, OneTree, OneTreeIn, OneFault, OneFaultIn, NoFaultWithTree, NoFaultWithTreeIn, WordsKeepTrees, WordsKeepTreesIn, WordsComeForWords, WordsComeForWordsIn, EditsKeepTrees, EditsKeepTreesIn, TreesAreNumbered, TreesAreNumberedIn, OneMark, OneMarkIn, MarksFit, MarksFitIn, EachTokenIsMarked, EachTokenIsMarkedIn, WordsStandApart, StatementsHaveMarks, HeadersHaveMarks, WordsHaveWordClasses};
ghost use Rattle.proto_tree.specs.Replaced.{StatementsAreReplaced, StatementsAreReplacedIn};
ghost use Rattle.proto_tree.specs.Roles.{RolesAreOfTokens, RolesAreOfTokensIn, RolesAreOne, RolesAreOneIn, TokensHaveRoles, TokensHaveRolesIn};

/// A file has one tree at most, or one fault, and not both.
pub fn trees_are_one()
    ensures tree { OneTree }
    ensures fault { OneFault }
    ensures no_fault { NoFaultWithTree }
    ensures tree_in { (p : Profile) → OneTreeIn p }
    ensures fault_in { (p : Profile) → OneFaultIn p }
    ensures no_fault_in { (p : Profile) → NoFaultWithTreeIn p }
{}

/// The very same tree is read after words were put in place of words, where each new word
/// suits its place.
pub fn words_keep_trees()
    ensures trees { WordsKeepTrees }
    ensures words { WordsComeForWords }
    ensures edits { EditsKeepTrees }
    ensures trees_in { (p : Profile) → WordsKeepTreesIn p }
    ensures words_in { (p : Profile) → WordsComeForWordsIn p }
    ensures edits_in { (p : Profile) → EditsKeepTreesIn p }
{}

/// The places of a tree hold the indices of the tokens in order, each once; what each place wants
/// is there.
pub fn places_are_numbered()
    ensures numbered { TreesAreNumbered }
    ensures one { OneMark }
    ensures fit { MarksFit }
    ensures each { EachTokenIsMarked }
    ensures numbered_in { (p : Profile) → TreesAreNumberedIn p }
    ensures one_in { (p : Profile) → OneMarkIn p }
    ensures fit_in { (p : Profile) → MarksFitIn p }
    ensures each_in { (p : Profile) → EachTokenIsMarkedIn p }
{}

/// Each token has one role: it names what is declared, is a word of a reference, names an option,
/// or what else there is.
pub fn tokens_have_one_role()
    ensures there { RolesAreOfTokens }
    ensures each { TokensHaveRoles }
    ensures one { RolesAreOne }
    ensures there_in { (p : Profile) → RolesAreOfTokensIn p }
    ensures each_in { (p : Profile) → TokensHaveRolesIn p }
    ensures one_in { (p : Profile) → RolesAreOneIn p }
{}

/// A reference's words stand a dot apart.
pub fn words_stand_apart()
    ensures { WordsStandApart }
{}

/// The places of a statement or of a block's beginning are places of the tree.
pub fn parts_have_marks()
    ensures statements { StatementsHaveMarks }
    ensures headers { HeadersHaveMarks }
{}

/// Where statements are taken out, put in or replaced by others, the tree without, with or with the
/// others is read, its indices behind them moved.
pub fn statements_are_replaced()
    ensures replaced { StatementsAreReplaced }
    ensures replaced_in { (p : Profile) → StatementsAreReplacedIn p }
{}

/// A token's class is that of a word exactly where the token is a word.
pub fn words_have_word_classes()
    ensures { WordsHaveWordClasses }
{}

/// What is read in the core language is read as written, as the same tree, and has no custom option,
/// no weak import and no `:`.
pub fn core_trees_are_written()
    ensures plain { CoreTreesArePlain }
    ensures weak { CoreTreesHaveNoWeakImport }
    ensures tokens { TreesHaveTokens }
    ensures written { CoreTreesAreWritten }
{}
