//! Laws of the files that a client sees, for the layers above. None of these does anything.

ghost use Rattle.proto_session_files.specs.Laws.{OpenTextsAreSeen, OpenTextsStayApart};

/// The client sees the open texts, and of a folder the files at whose paths none is open, in the
/// order of their paths; and no two texts are ever open at one path.
pub fn open_texts_are_seen()
    ensures seen { OpenTextsAreSeen }
    ensures apart { OpenTextsStayApart }
{}
