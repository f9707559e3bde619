//! Splices as the text edits of an editor.

ghost use Rattle.std.specs.Prelude.{◌≡◌, ◌+◌, ◌≤◌, All, IfOk, length, map};
ghost use Rattle.std.specs.List.{AllByRecursion};
ghost use Rattle.std.specs.String.{string_bytes};
ghost use Rattle.proto_base.specs.Texts.{Text, text_limit};
ghost use Rattle.proto_text.specs.Edits.{Puts};
ghost use Rattle.proto_text.specs.Splicing.{edit_of};
ghost use Rattle.proto_positions.specs.EditViews.{edit_view};
ghost use Rattle.proto_positions.specs.Positions.{IsCursorIn};
ghost use Rattle.proto_positions.specs.TextEdits.{AreInOrder, HavePositions, beginning, lsp_put, text_edit};

use crate::encoding::Encoding;
use crate::laws::{text_edits_are_in_order, text_edits_put};
use crate::position::{Cursor, Position};
use proto_text::{Splice, Splices};
use std::alloc::{AllocError, Global};

/// What an editor puts in the place of a range of its text: a TextEdit of the protocol.
#[derive(Drop)]
pub struct RangeEdit {
    /// Where the replaced text begins.
    pub start: Position,
    /// Where it ends.
    pub end: Position,
    /// What comes in its place.
    pub new: String,
}

// The text edit of a splice, and the cursor at its end.
fn range_edit(
    alloc: Global,
    text: &[u8],
    encoding: Encoding,
    cursor: Cursor,
    splice: &Splice,
) -> Result<(RangeEdit, Cursor), AllocError>
    requires limit { length text.now ≤ text_limit }
    requires cursor { IsCursorIn encoding text.now cursor }
    requires within { splice.now.at + length (string_bytes splice.now.old) ≤ length text.now }
    ensures edit { IfOk result (λ x.
        edit_view x.0 ≡ text_edit encoding text.now (edit_of splice.now)) }
    ensures there { IfOk result (λ x. IsCursorIn encoding text.now x.1) }
{
    let at = splice.at as usize;
    let start = cursor.moved_to(text, encoding, at);
    let end = start.moved_to(text, encoding, at + splice.old.len());
    let new = String::from_str(alloc, splice.new.as_str())?;
    let edit = RangeEdit {
        start: start.position(),
        end: end.position(),
        new,
    };
    Ok((edit, end))
}

/// The text edits of splices of the text, in their order, of which none overlaps another. Where
/// both ends of each splice have positions of their own, an editor that makes these edits has the
/// text that the splices put.
pub fn text_edits(
    alloc: Global,
    text: &[u8],
    encoding: Encoding,
    splices: &Splices,
) -> Result<Vec<RangeEdit>, AllocError>
    requires limit { length text.now ≤ text_limit }
    requires within { All (λ d. d.at + length d.old ≤ length text.now) splices.now }
    ensures exact { IfOk result (λ v.
        map edit_view v.items ≡ map (text_edit encoding text.now) splices.now) }
    ensures order { IfOk result (λ v. AreInOrder beginning (map edit_view v.items)) }
    ensures put { (new : Text) → Puts 0 text.now splices.now new
        → AllByRecursion (HavePositions text.now) splices.now
        → IfOk result (λ v. lsp_put encoding text.now (map edit_view v.items) ≡ new) }
{
    text_edits_put();
    text_edits_are_in_order();
    let mut edits = Vec::new(alloc);
    let mut cursor = Cursor::new();
    for splice in splices.as_slice() {
        let made = range_edit(alloc, text, encoding, cursor, splice)?;
        edits.push(made.0)?;
        cursor = made.1;
    }
    Ok(edits)
}
