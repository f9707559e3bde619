//! Reading a message.

ghost use Rattle.std.specs.Prelude.{◌≡◌, IfOk, codes, option_map};
ghost use Rattle.serde_json.specs.Find.{get};
ghost use Rattle.serde_json.specs.View.{view};
ghost use Rattle.proto_messages.specs.Messages.{id_view, message_view, notification as said_by};
ghost use Rattle.proto_messages.specs.Parameters.{message_with, request_with};
ghost use Rattle.proto_messages.specs.Reading.{IsMessageOf, id_of, message_of, notification_of, with_method, without_method};

use crate::message::{Id, Message};
use crate::notifications::notification;
use crate::requests::request;
use serde_json::Value;
use std::alloc::{AllocError, Global};

// An id is a text or an integer.
fn id(alloc: Global, value: &Value) -> Result<Option<Id>, AllocError>
    ensures { IfOk result (λ id. option_map id_view id ≡ id_of (view value.now)) }
{
    if let Some(text) = value.as_str() {
        return Ok(Some(Id::Text(String::from_str(alloc, text)?)));
    }
    match value.as_i64() {
        Some(number) => Ok(Some(Id::Number(number))),
        None => Ok(None),
    }
}

// A request with these parameters, under this id.
fn request_under(
    alloc: Global,
    method: &str,
    params: &Value,
    under: &Value,
) -> Result<Message, AllocError>
    ensures { IfOk result (λ message. message_view message
        ≡ request_with method.now (view params.now) (view under.now)) }
{
    match id(alloc, under)? {
        Some(id) => Ok(Message::Request(id, request(alloc, method, params)?)),
        None => Ok(Message::NoMessage),
    }
}

// A notification with these parameters.
fn notified(alloc: Global, method: &str, params: &Value) -> Result<Message, AllocError>
    ensures { IfOk result (λ message. message_view message
        ≡ said_by (notification_of method.now (view params.now))) }
{
    Ok(Message::Notification(notification(alloc, method, params)?))
}

// A message with a method and these parameters.
fn said(alloc: Global, method: &str, params: &Value, value: &Value) -> Result<Message, AllocError>
    ensures { IfOk result (λ message. message_view message
        ≡ message_with method.now (view params.now) (get (codes "id") (view value.now))) }
{
    match value.get("id") {
        Some(under) => request_under(alloc, method, params, under),
        None => notified(alloc, method, params),
    }
}

// A message with a method.
fn with_method(alloc: Global, value: &Value, method: &str) -> Result<Message, AllocError>
    ensures { IfOk result
        (λ message. message_view message ≡ with_method (view value.now) method.now) }
{
    let null = Value::Null;
    said(alloc, method, value.get("params").unwrap_or(&null), value)
}

// A message with no method.
fn without_method(value: &Value) -> Message
    ensures { message_view result ≡ without_method (view value.now) }
{
    if value.get("result").is_some() || value.get("error").is_some() {
        return Message::Response;
    }
    Message::NoMessage
}

/// What a JSON value says as a message. The member `jsonrpc` is passed over. Fails only when out of
/// memory.
pub fn message_of_value(alloc: Global, value: &Value) -> Result<Message, AllocError>
    ensures { IfOk result (λ message. message_view message ≡ message_of (view value.now)) }
{
    match value.get("method").and_then(Value::as_str) {
        Some(method) => with_method(alloc, value, method),
        None => Ok(without_method(value)),
    }
}

/// The message that a JSON text says; none where the bytes are no JSON text in UTF-8. Fails only
/// when out of memory.
pub fn read_message(alloc: Global, bytes: &[u8]) -> Result<Option<Message>, AllocError>
    ensures { IfOk result (IsMessageOf bytes.now) }
{
    match Value::from_slice(alloc, bytes) {
        Ok(value) => {
            let message = message_of_value(alloc, &value)?;
            Ok(Some(message))
        }
        Err(fault) => {
            if fault.is_memory() {
                return Err(AllocError);
            }
            Ok(None)
        }
    }
}
