//! Laws of the definitions. None of these does anything.

ghost use Rattle.proto_answers.specs.Laws.{RenameLineEndsAreLone, StepsHavePositions};
ghost use Rattle.proto_answers.specs.LspFiles.{EditsPutFiles};

/// What changes put into files is what an editor makes of their text edits.
pub fn edits_put_files()
    ensures { EditsPutFiles }
{}

/// What an edit changes begins and ends at offsets that have positions of their own, so `LineEnds`
/// is answered for carriage returns alone; to a rename only where a file that changes has one
/// without a line feed behind it.
pub fn line_ends_are_returns()
    ensures positions { StepsHavePositions }
    ensures renames { RenameLineEndsAreLone }
{}
