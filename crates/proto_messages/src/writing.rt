//! Writing messages.

ghost use Rattle.std.specs.Prelude.{◌≡◌, IfOk, codes, map, option_map, string_bytes};
ghost use Rattle.serde_json.specs.Data.{string};
ghost use Rattle.serde_json.specs.View.{view};
ghost use Rattle.serde_json.specs.Written.{compact_text};
ghost use Rattle.proto_messages.specs.Messages.{id_view};
ghost use Rattle.proto_messages.specs.Objects.{Fills, Puts, PutsVersion, made};
ghost use Rattle.proto_messages.specs.Results.{answer_data, array_of, diagnostic_data, integer, renameable_data};
ghost use Rattle.proto_messages.specs.Writing.{answered_id, diagnostics_data, error_data, error_number, failure_data, id_data, logged_data, notification_data, published_data, result_data, shown_data, type_number, user_message_data, version};

use crate::capabilities::Capabilities;
use crate::lists::{array, put_array};
use crate::message::Id;
use crate::objects::{Object, ToJson, object_of, object_text};
use crate::parts::{WorkspaceEdit, symbols};
use crate::position::Range;
use crate::results::{Answer, DocumentDiagnostics, ErrorCode, MessageType};
use serde_json::Value;
use std::alloc::{AllocError, Global};

fn id_value(alloc: Global, id: &Id) -> Result<Value, AllocError>
    ensures { IfOk result (λ value. view value ≡ id_data (id_view id.now)) }
{
    match id {
        Id::Number(number) => Ok(Value::from(*number)),
        Id::Text(text) => Value::try_from_str(alloc, text.as_str()),
    }
}

// The id of the request that is answered.
fn answered_id(alloc: Global, id: Option<&Id>) -> Result<Value, AllocError>
    ensures { IfOk result (λ value. view value
        ≡ answered_id (option_map (λ asked. id_view asked.now) id.entry)) }
{
    match id {
        Some(id) => id_value(alloc, id),
        None => Ok(Value::Null),
    }
}

// A name that may be changed, and where it stands.
#[derive(Drop)]
struct Renameable<'a> {
    part: Range,
    name: &'a str,
}

impl ToJson for Renameable<'_> {
    ghost json = { λ found. renameable_data found.part found.name.now };

    fn put_members(&self, out: &mut Object) {
        out.put_text("placeholder", self.name);
        out.put_object("range", &self.part);
    }
}

fn answer_value(alloc: Global, answer: &Answer) -> Result<Value, AllocError>
    ensures { IfOk result (λ value. view value ≡ answer_data answer.now) }
{
    match answer {
        Answer::Capabilities(encoding) => {
            let capabilities = Capabilities {
                encoding: *encoding,
            };
            object_of(alloc, &capabilities)
        }
        Answer::Null => Ok(Value::Null),
        Answer::Locations(locations) => array(alloc, locations),
        Answer::Symbols(all) => symbols(alloc, all),
        Answer::Renameable(part, name) => {
            let found = Renameable {
                part: *part,
                name: name.as_str(),
            };
            object_of(alloc, &found)
        }
        Answer::Edits(documents) => {
            let edit = WorkspaceEdit {
                documents: documents.as_slice(),
            };
            object_of(alloc, &edit)
        }
        Answer::Actions(actions) => array(alloc, actions),
    }
}

// The version of JSON-RPC.
fn put_version_of_protocol(out: &mut Object)
    ensures { Puts (codes "jsonrpc") version (made out.old) (made out.new) }
{
    out.put_text("jsonrpc", "2.0");
}

// A result under the id of its request.
#[derive(Drop)]
struct Answered<'a> {
    id: &'a Id,
    answer: &'a Answer,
}

impl ToJson for Answered<'_> {
    ghost json = { λ answered. result_data
        (id_view answered.id.now) (answer_data answered.answer.now) };

    fn put_members(&self, out: &mut Object) {
        let id = id_value(out.alloc, self.id);
        out.put("id", id);
        put_version_of_protocol(out);
        let result = answer_value(out.alloc, self.answer);
        out.put("result", result);
    }
}

/// The text of a result, under the id of its request. Fails only when out of memory.
pub fn result_message(alloc: Global, id: &Id, answer: &Answer) -> Result<Vec<u8>, AllocError>
    ensures { IfOk result (λ text. text.items
        ≡ compact_text (result_data (id_view id.now) (answer_data answer.now))) }
{
    object_text(alloc, &Answered { id, answer })
}

fn error_number(code: ErrorCode) -> i64
    ensures { result ≡ error_number code }
{
    match code {
        ErrorCode::ParseError => -32700,
        ErrorCode::InvalidRequest => -32600,
        ErrorCode::MethodNotFound => -32601,
        ErrorCode::InvalidParams => -32602,
        ErrorCode::ServerNotInitialized => -32002,
        ErrorCode::RequestFailed => -32803,
    }
}

fn code_value(code: ErrorCode) -> Value
    ensures { view result ≡ integer (error_number code) }
{
    Value::from(error_number(code))
}

// An error and what a user reads of it.
#[derive(Drop)]
struct Fault<'a> {
    code: ErrorCode,
    text: &'a str,
}

impl ToJson for Fault<'_> {
    ghost json = { λ fault. error_data fault.code fault.text.now };

    fn put_members(&self, out: &mut Object) {
        out.put("code", Ok(code_value(self.code)));
        out.put_text("message", self.text);
    }
}

// An error in the place of a result.
#[derive(Drop)]
struct Failed<'a> {
    id: Option<&'a Id>,
    fault: Fault<'a>,
}

impl ToJson for Failed<'_> {
    ghost json = { λ failed. failure_data (option_map (λ asked. id_view asked.now) failed.id)
        failed.fault.code failed.fault.text.now };

    fn put_members(&self, out: &mut Object) {
        out.put_object("error", &self.fault);
        let id = answered_id(out.alloc, self.id);
        out.put("id", id);
        put_version_of_protocol(out);
    }
}

/// The text of an error, under the id of its request; with no id where none could be read. Fails
/// only when out of memory.
pub fn error_message(
    alloc: Global,
    id: Option<&Id>,
    code: ErrorCode,
    text: &str,
) -> Result<Vec<u8>, AllocError>
    ensures { IfOk result (λ message. message.items
        ≡ compact_text (failure_data
        (option_map (λ asked. id_view asked.now) id.entry) code text.now)) }
{
    let fault = Fault { code, text };
    object_text(alloc, &Failed { id, fault })
}

// The members of a notification.
fn put_notification<T: ToJson>(out: &mut Object, method: &str, params: &T)
    ensures { Fills (notification_data method.now (T.json params.now))
        (made out.old) (made out.new) }
{
    put_version_of_protocol(out);
    out.put_text("method", method);
    out.put_object("params", params);
}

// The version of a document, where it is open.
fn put_version(out: &mut Object, version: Option<u64>)
    ensures { PutsVersion version (made out.old) (made out.new) }
{
    if let Some(number) = version {
        out.put("version", Ok(Value::from(number)));
    }
}

// What is wrong with a document.
#[derive(Drop)]
struct Published<'a> {
    document: &'a DocumentDiagnostics,
}

impl ToJson for Published<'_> {
    ghost json = { λ published. diagnostics_data
        (array_of (map diagnostic_data published.document.now.diagnostics.items))
        (string (string_bytes published.document.now.uri)) published.document.now.version };

    fn put_members(&self, out: &mut Object) {
        put_array(out, "diagnostics", &self.document.diagnostics);
        out.put_text("uri", self.document.uri.as_str());
        put_version(out, self.document.version);
    }
}

impl ToJson for DocumentDiagnostics {
    ghost json = { λ document. published_data document };

    fn put_members(&self, out: &mut Object) {
        let published = Published { document: self };
        put_notification(out, "textDocument/publishDiagnostics", &published);
    }
}

/// The text of the notification of a document's diagnostics. Fails only when out of memory.
pub fn diagnostics_message(
    alloc: Global,
    document: &DocumentDiagnostics,
) -> Result<Vec<u8>, AllocError>
    ensures { IfOk result (λ text. text.items ≡ compact_text (published_data document.now)) }
{
    object_text(alloc, document)
}

fn type_number(kind: MessageType) -> u32
    ensures { result ≡ type_number kind }
{
    match kind {
        MessageType::Error => 1,
        MessageType::Warning => 2,
        MessageType::Info => 3,
        MessageType::Log => 4,
    }
}

// A message for a user.
#[derive(Drop)]
struct UserMessage<'a> {
    kind: MessageType,
    text: &'a str,
}

impl ToJson for UserMessage<'_> {
    ghost json = { λ message. user_message_data message.kind message.text.now };

    fn put_members(&self, out: &mut Object) {
        out.put_text("message", self.text);
        out.put_number("type", type_number(self.kind));
    }
}

// A message for a user, under the method that says where it is shown.
#[derive(Drop)]
struct Shown<'a> {
    method: &'a str,
    message: UserMessage<'a>,
}

impl ToJson for Shown<'_> {
    ghost json = { λ shown. notification_data shown.method.now
        (user_message_data shown.message.kind shown.message.text.now) };

    fn put_members(&self, out: &mut Object) {
        put_notification(out, self.method, &self.message);
    }
}

/// The text of the notification that shows a message to the user. Fails only when out of memory.
pub fn show_message(alloc: Global, kind: MessageType, text: &str) -> Result<Vec<u8>, AllocError>
    ensures { IfOk result (λ message. message.items ≡ compact_text (shown_data kind text.now)) }
{
    let message = UserMessage { kind, text };
    let method = "window/showMessage";
    object_text(alloc, &Shown { method, message })
}

/// The text of the notification that logs a message. Fails only when out of memory.
pub fn log_message(alloc: Global, kind: MessageType, text: &str) -> Result<Vec<u8>, AllocError>
    ensures { IfOk result (λ message. message.items ≡ compact_text (logged_data kind text.now)) }
{
    let message = UserMessage { kind, text };
    let method = "window/logMessage";
    object_text(alloc, &Shown { method, message })
}
