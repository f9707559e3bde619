//! What stands in the parameters of a message.

ghost use Rattle.std.specs.Prelude.{◌≡◌, IfOk, map, option_map, option_and_then, string_bytes};
ghost use Rattle.serde_json.specs.Find.{pointer};
ghost use Rattle.serde_json.specs.View.{view};
ghost use Rattle.proto_messages.specs.Messages.{document_position_view};
ghost use Rattle.proto_messages.specs.Reading.{bool_at, both, document_position, document_position_of, items_at, natural_at, number_at, position_of, range_of, text_at};

use crate::message::DocumentPosition;
use crate::position::{Position, Range};
use serde_json::Value;
use std::alloc::{AllocError, Global};

/// Where the URI of a document stands.
pub(crate) const URI: &str = "/textDocument/uri";

/// The text at a pointer.
pub(crate) fn text_at(
    alloc: Global,
    params: &Value,
    path: &str,
) -> Result<Option<String>, AllocError>
    ensures { IfOk result
        (λ text. option_map string_bytes text ≡ text_at path.now (view params.now)) }
{
    match params.pointer(path).and_then(Value::as_str) {
        Some(text) => Ok(Some(String::from_str(alloc, text)?)),
        None => Ok(None),
    }
}

/// The truth value at a pointer.
pub(crate) fn bool_at(params: &Value, path: &str) -> Option<bool>
    ensures { result ≡ bool_at path.now (view params.now) }
{
    params.pointer(path).and_then(Value::as_bool)
}

/// The number below 2^64 at a pointer.
pub(crate) fn natural_at(params: &Value, path: &str) -> Option<u64>
    ensures { result ≡ natural_at path.now (view params.now) }
{
    params.pointer(path).and_then(Value::as_u64)
}

/// The items of the array at a pointer.
#[tactic(auto, using(crate::proofs::Items::items_in_order))]
pub(crate) fn items_at<'a>(params: &'a Value, path: &str) -> Option<&'a [Value]>
    ensures { option_map (λ items. map view items.now) result
        ≡ items_at path.now (view params.now) }
{
    match params.pointer(path).and_then(Value::as_array) {
        Some(items) => Some(items.as_slice()),
        None => None,
    }
}

// The number below 2^32 at a pointer.
fn number_at(params: &Value, path: &str) -> Option<u32>
    ensures { result ≡ number_at path.now (view params.now) }
{
    let number = params.pointer(path).and_then(Value::as_u64)?;
    u32::try_from(number).ok()
}

// The position that an object says.
fn position_of(object: &Value) -> Option<Position>
    ensures { result ≡ position_of (view object.now) }
{
    let line = number_at(object, "/line")?;
    let character = number_at(object, "/character")?;
    Some(Position { line, character })
}

/// The position at a pointer.
pub(crate) fn position_at(params: &Value, path: &str) -> Option<Position>
    ensures { result ≡ option_and_then position_of (pointer path.now (view params.now)) }
{
    position_of(params.pointer(path)?)
}

// The range that an object says.
fn range_of(object: &Value) -> Option<Range>
    ensures { result ≡ range_of (view object.now) }
{
    let start = position_at(object, "/start")?;
    let end = position_at(object, "/end")?;
    Some(Range { start, end })
}

/// The range at a pointer.
pub(crate) fn range_at(params: &Value, path: &str) -> Option<Range>
    ensures { result ≡ option_and_then range_of (pointer path.now (view params.now)) }
{
    range_of(params.pointer(path)?)
}

// A position in a document, where both are there.
fn position_in(uri: Option<String>, position: Option<Position>) -> Option<DocumentPosition>
    ensures { option_map document_position_view result
        ≡ both document_position (option_map string_bytes uri) position }
{
    let uri = uri?;
    let position = position?;
    Some(DocumentPosition { uri, position })
}

/// The position and the document that a request speaks of.
pub(crate) fn document_position(
    alloc: Global,
    params: &Value,
) -> Result<Option<DocumentPosition>, AllocError>
    ensures { IfOk result (λ at. option_map document_position_view at
        ≡ document_position_of (view params.now)) }
{
    let uri = text_at(alloc, params, URI)?;
    Ok(position_in(uri, position_at(params, "/position")))
}
