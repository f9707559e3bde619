//! Laws of links, for the layers above. None of these does anything.

ghost use Rattle.proto_names.specs.Laws.{UsesAreWords, VisibleIsSeen, VisibleIsShown};

/// A link of files says that a name is visible from a file exactly where the file sees a
/// declaration of this name.
pub fn visible_is_seen()
    ensures seen { VisibleIsSeen }
    ensures shown { VisibleIsShown }
{}

/// The words of each reference of a file's tree are words of the file, as `Link::resolve` asks of
/// the reference that it is given.
pub fn uses_are_words()
    ensures { UsesAreWords }
{}
