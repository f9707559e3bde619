//! Laws of the definitions. None of these does anything.

ghost use Rattle.proto_positions.specs.Lines.{ColumnsEndWithTheCharacter, ColumnsEndWithTheLine, LinesEndWithTheText, PositionsCountLines};
ghost use Rattle.proto_positions.specs.TextEdits.{AsciiHasPositions, OffsetsHavePositions, PositionsLeadBack, TextEditsAreInOrder, TextEditsPut, UnitsAreUtf16};

/// An offset that has a position of its own is found from its position, each position leads to such
/// an offset, and both ends of an ASCII word are such offsets.
pub fn positions_lead_back()
    ensures back { PositionsLeadBack }
    ensures offsets { OffsetsHavePositions }
    ensures ascii { AsciiHasPositions }
{}

/// A position counts lines and units. A column within a character leads to the character's end, a
/// column past its line to the line's end, and a line past the text to the text's end.
pub fn positions_count_lines()
    ensures lines { PositionsCountLines }
    ensures characters { ColumnsEndWithTheCharacter }
    ensures columns { ColumnsEndWithTheLine }
    ensures end { LinesEndWithTheText }
{}

/// Columns in units of UTF-16 are those that UTF-16 has.
pub fn units_are_utf16()
    ensures { UnitsAreUtf16 }
{}

/// What edits of a text put is what an editor has that makes their text edits.
pub fn text_edits_put()
    ensures { TextEditsPut }
{}

/// No text edit overlaps another, or comes before one that it follows.
pub fn text_edits_are_in_order()
    ensures { TextEditsAreInOrder }
{}
