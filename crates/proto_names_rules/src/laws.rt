//! The laws, as functions that do nothing.

ghost use Rattle.proto_names_rules.specs.Beginnings.{CapturesBeginSo, ScopesAreDeclared};
ghost use Rattle.proto_names_rules.specs.Kept.{FlawlessStay, InnerSpareOthers, KeysTell, LeavesSpareAll, MeaningsAreKept, UnaffectedAreKept};
ghost use Rattle.proto_names_rules.specs.Marked.{UnmarkedMeanTheSame, MarkedDecide};
ghost use Rattle.proto_names_rules.specs.Sight.{SightIsKept, SightIsTested};

/// A reference means what it meant, where what it meant is declared as it was and its file still
/// sees that, and no symbol that its first word might stand for is new to its file (`means`).
/// It has no fault then, if it had none (`flawless`).
pub fn meanings_are_kept()
    ensures means { MeaningsAreKept }
    ensures flawless { FlawlessStay }
{}

/// Where some files are edited, a reference of another file is kept if what they declare passes two
/// tests, and what its file sees no more and newly sees two others (`unaffected`), which rows of
/// names and keys of words can tell (`keys`). For references to types fields, oneofs, values,
/// methods and extensions may come and go (`leaves`), for the names of options in other files
/// fields, oneofs and methods (`inner`).
pub fn references_are_unaffected()
    ensures unaffected { UnaffectedAreKept }
    ensures keys { KeysTell }
    ensures leaves { LeavesSpareAll }
    ensures inner { InnerSpareOthers }
{}

/// Where some files are edited, and the files are marked that these four tests tell to look at
/// again, the references of all others mean what they meant (`unmarked`). So the
/// workspace is linked if no name clashes and the references of marked files have no fault
/// (`linked`).
pub fn marked_decide()
    ensures unmarked { UnmarkedMeanTheSame }
    ensures linked { MarkedDecide }
{}

/// A file sees what it saw, where its own imports are the same, and so are the public imports of
/// each file that it saw (`seen`); also as the bounded search answers it (`tested`).
pub fn sight_is_kept()
    ensures seen { SightIsKept }
    ensures tested { SightIsTested }
{}

/// A reference that a rename without a collision captures begins with a word of three, where its
/// scope is declared.
pub fn captures_begin_so()
    ensures { CapturesBeginSo }
{}

/// The scopes of a tree's references are declared.
pub fn scopes_are_declared<X>()
    ensures { ScopesAreDeclared X }
{}
