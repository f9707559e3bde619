//! Positions and URIs, as the client has them.

ghost use Rattle.std.specs.Prelude.{◌≡◌, IfOk, find, map, option_map, string_bytes};
ghost use Rattle.proto_positions.specs.Positions.{IsCursorIn};
ghost use Rattle.proto_session_files.specs.Places.{position_in, sent_position};
ghost use Rattle.proto_session_files.specs.Views.{is_at, open_of, uri_at, version_at, view_at};

use crate::open_text::OpenText;
use crate::view::View;
use proto_base::{MAX_LEN, NoMemory};
use proto_messages::Position as SentPosition;
use proto_positions::{Cursor, Encoding, Position};
use proto_uris::uri_of;
use std::alloc::Global;

/// A position as the protocol's messages have it.
pub fn sent_position(position: Position) -> SentPosition
    ensures { result ≡ sent_position position }
{
    SentPosition {
        line: position.line,
        character: position.character,
    }
}

/// The position of an offset of a text, as `position_in` answers it, and a cursor to go on from.
/// Where offsets rise, they take one walk through the text. Takes no memory.
pub fn position_from(
    text: &[u8],
    encoding: Encoding,
    cursor: Cursor,
    offset: usize,
) -> (Position, Cursor)
    requires { IsCursorIn encoding text.now cursor }
    ensures position { result.0 ≡ position_in encoding text.now offset }
    ensures there { IsCursorIn encoding text.now result.1 }
{
    if text.len() <= MAX_LEN && offset <= text.len() {
        let there = cursor.moved_to(text, encoding, offset);
        (there.position(), there)
    } else {
        let beginning = Position {
            line: 0,
            character: 0,
        };
        (beginning, cursor)
    }
}

/// The position of an offset of a text; the beginning, where the text is too large or ends before.
/// Takes no memory.
pub fn position_in(text: &[u8], encoding: Encoding, offset: usize) -> Position
    ensures { result ≡ position_in encoding text.now offset }
{
    let (position, _) = position_from(text, encoding, Cursor::new(), offset);
    position
}

// The text that is open at a path.
fn open_at<'a>(opened: &'a [OpenText], path: &str) -> Option<&'a OpenText>
    ensures { option_map (λ o. open_of o.now) result
        ≡ find (is_at path.now) (map open_of opened.now) }
{
    for open in opened {
        if open.path.as_str() == path {
            return Some(open);
        }
    }
    None
}

/// The URI of the file at a path: the client's own where its text is open. Fails only when out of
/// memory.
pub fn uri_at(alloc: Global, view: &View, path: &str) -> Result<String, NoMemory>
    ensures { IfOk result (λ uri. string_bytes uri ≡ uri_at (view_at view.now) path.now) }
{
    if let Some(open) = open_at(view.opened, path) {
        return Ok(String::from_str(alloc, open.uri.as_str())?);
    }
    let root = match view.home {
        Some(home) => home.root.as_slice(),
        None => &[],
    };
    Ok(uri_of(alloc, root, path.as_bytes())?)
}

/// The version of the text that is open at a path. Takes no memory.
pub fn version_at(view: &View, path: &str) -> Option<u64>
    ensures { result ≡ version_at (view_at view.now) path.now }
{
    match open_at(view.opened, path) {
        Some(open) => Some(open.version),
        None => None,
    }
}
