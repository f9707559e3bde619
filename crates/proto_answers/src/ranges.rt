//! Where tokens stand, as editors count.

ghost use Rattle.std.specs.Prelude.{◌≡◌, ◌<◌, ◌≤◌, List, length};
ghost use Rattle.proto_base.specs.Texts.{text_limit};
ghost use Rattle.proto_files.specs.FilesRead.{AreRead, ReadOf};
ghost use Rattle.proto_names_rules.specs.Grown.{at};
ghost use Rattle.proto_positions.specs.Positions.{IsCursorIn};
ghost use Rattle.proto_answers.specs.Ranges.{location_of, range_of, span_of};

use proto_edit::Files;
use proto_positions::{Cursor, Encoding, Position};
use proto_text::{Span, Token};

/// A range of a text, in units of an encoding.
#[derive(Clone, Copy, Debug, PartialEq, Eq)]
pub struct Range {
    /// Where it begins.
    pub start: Position,
    /// Where it ends.
    pub end: Position,
}

/// A range of the text of a file.
#[derive(Clone, Copy, Debug, PartialEq, Eq)]
pub struct Location {
    /// The number of the file, from 0.
    pub file: u32,
    /// The range.
    pub range: Range,
}

/// The span of the token with this index; of no bytes at 0, where there is none.
pub(crate) fn span_of(tokens: &[Token], token: u32) -> Span
    ensures { result ≡ span_of tokens.now token }
{
    if (token as usize) < tokens.len() {
        tokens[token as usize].span
    } else {
        Span { start: 0, end: 0 }
    }
}

/// The range of a span of the text, and the cursor at its end.
pub(crate) fn range_from(
    text: &[u8],
    encoding: Encoding,
    cursor: Cursor,
    span: Span,
) -> (Range, Cursor)
    requires limit { length text.now ≤ text_limit }
    requires cursor { IsCursorIn encoding text.now cursor }
    requires start { span.start ≤ length text.now }
    requires end { span.end ≤ length text.now }
    ensures range { result.0 ≡ range_of encoding text.now span }
    ensures there { IsCursorIn encoding text.now result.1 }
{
    let at_start = cursor.moved_to(text, encoding, span.start as usize);
    let at_end = at_start.moved_to(text, encoding, span.end as usize);
    let range = Range {
        start: at_start.position(),
        end: at_end.position(),
    };
    (range, at_end)
}

/// Where the token of this file with this index stands.
pub(crate) fn location_of(files: &Files, encoding: Encoding, file: u32, token: u32) -> Location
    requires { file < length files.now }
    ensures { (reads : List ReadOf) → AreRead files.now reads
        → result ≡ location_of encoding files.now reads (at file token) }
{
    let text = files.source(file).as_bytes();
    let span = span_of(files.tokens(file), token);
    let (range, _) = range_from(text, encoding, Cursor::new(), span);
    Location { file, range }
}
