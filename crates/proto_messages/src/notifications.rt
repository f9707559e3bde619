//! What a notification says.

ghost use Rattle.std.specs.Prelude.{◌≡◌, IfOk, map, option_map, string_bytes};
ghost use Rattle.std.specs.List.{list_any};
ghost use Rattle.serde_json.specs.View.{view};
ghost use Rattle.proto_messages.specs.Messages.{did_change, did_change_nothing, did_close, did_open, did_save, document_view, notification_view};
ghost use Rattle.proto_messages.specs.Reading.{both, changes_of, did_change_of, did_open_of, document, document_notification_of, document_of, has_range, last_text, nothing_of, notification_of, or_malformed, three, uri_of};

use crate::fields::{URI, items_at, natural_at, text_at};
use crate::message::{Document, Notification};
use serde_json::Value;
use std::alloc::{AllocError, Global};

// Where the version of a document stands.
const VERSION: &str = "/textDocument/version";

// Whether a change says which range it replaces.
fn has_range(change: &Value) -> bool
    ensures { result ≡ has_range (view change.now) }
{
    match change.get("range") {
        Some(range) => !range.is_null(),
        None => false,
    }
}

// Whether one of these says which range it replaces.
fn have_range(changes: &[Value]) -> bool
    ensures { result ≡ list_any has_range (map view changes.now) }
{
    for change in changes {
        if has_range(change) {
            return true;
        }
    }
    false
}

// The text of the last change.
fn last_text(alloc: Global, changes: &[Value]) -> Result<Option<String>, AllocError>
    ensures { IfOk result
        (λ text. option_map string_bytes text ≡ last_text (map view changes.now)) }
{
    match changes.last() {
        Some(change) => text_at(alloc, change, "/text"),
        None => Ok(None),
    }
}

// A document of this version, where all of it is said.
fn document_of(uri: Option<String>, version: Option<u64>, text: Option<String>) -> Option<Document>
    ensures { option_map document_view result
        ≡ three document (option_map string_bytes uri) version (option_map string_bytes text) }
{
    let text = text?;
    let uri = uri?;
    let version = version?;
    Some(Document { uri, version, text })
}

// The document whose version a notification says, with this text.
fn document(
    alloc: Global,
    params: &Value,
    text: Option<String>,
) -> Result<Option<Document>, AllocError>
    ensures { IfOk result (λ document. option_map document_view document
        ≡ document_of (view params.now) (option_map string_bytes text)) }
{
    let uri = text_at(alloc, params, URI)?;
    Ok(document_of(uri, natural_at(params, VERSION), text))
}

// A document is opened, where all of it is said.
fn opened(document: Option<Document>) -> Notification
    ensures { notification_view result
        ≡ or_malformed (option_map did_open (option_map document_view document)) }
{
    match document {
        Some(document) => Notification::DidOpen(document),
        None => Notification::Malformed,
    }
}

fn did_open(alloc: Global, params: &Value) -> Result<Notification, AllocError>
    ensures { IfOk result (λ said. notification_view said ≡ did_open_of (view params.now)) }
{
    let text = text_at(alloc, params, "/textDocument/text")?;
    let document = document(alloc, params, text)?;
    Ok(opened(document))
}

// The version of a document whose text stays, where both are there.
fn unchanged(uri: Option<String>, version: Option<u64>) -> Notification
    ensures { notification_view result
        ≡ or_malformed (both did_change_nothing (option_map string_bytes uri) version) }
{
    let Some(uri) = uri else {
        return Notification::Malformed;
    };
    match version {
        Some(version) => Notification::DidChangeNothing(uri, version),
        None => Notification::Malformed,
    }
}

fn nothing(alloc: Global, params: &Value) -> Result<Notification, AllocError>
    ensures { IfOk result (λ said. notification_view said ≡ nothing_of (view params.now)) }
{
    let uri = text_at(alloc, params, URI)?;
    Ok(unchanged(uri, natural_at(params, VERSION)))
}

// A document is changed, where all of it is said.
fn changed_to(document: Option<Document>) -> Notification
    ensures { notification_view result
        ≡ or_malformed (option_map did_change (option_map document_view document)) }
{
    match document {
        Some(document) => Notification::DidChange(document),
        None => Notification::Malformed,
    }
}

// The document has the text that the last change gives.
fn last_changed(
    alloc: Global,
    params: &Value,
    changes: &[Value],
) -> Result<Notification, AllocError>
    ensures { IfOk result (λ said. notification_view said ≡ or_malformed
        (option_map did_change (document_of (view params.now) (last_text (map view changes.now))))) }
{
    let text = last_text(alloc, changes)?;
    let document = document(alloc, params, text)?;
    Ok(changed_to(document))
}

// What a list of changes says.
#[tactic(auto, using(crate::proofs::Items::none_listed))]
fn changed(alloc: Global, params: &Value, changes: &[Value]) -> Result<Notification, AllocError>
    ensures { IfOk result (λ said. notification_view said
        ≡ changes_of (view params.now) (map view changes.now)) }
{
    if changes.is_empty() {
        return nothing(alloc, params);
    }
    if have_range(changes) {
        return Ok(Notification::DidChangeInRange);
    }
    last_changed(alloc, params, changes)
}

fn did_change(alloc: Global, params: &Value) -> Result<Notification, AllocError>
    ensures { IfOk result (λ said. notification_view said ≡ did_change_of (view params.now)) }
{
    match items_at(params, "/contentChanges") {
        Some(changes) => changed(alloc, params, changes),
        None => Ok(Notification::Malformed),
    }
}

fn did_save(alloc: Global, params: &Value) -> Result<Notification, AllocError>
    ensures { IfOk result (λ said. notification_view said
        ≡ or_malformed (option_map did_save (uri_of (view params.now)))) }
{
    match text_at(alloc, params, URI)? {
        Some(uri) => Ok(Notification::DidSave(uri)),
        None => Ok(Notification::Malformed),
    }
}

fn did_close(alloc: Global, params: &Value) -> Result<Notification, AllocError>
    ensures { IfOk result (λ said. notification_view said
        ≡ or_malformed (option_map did_close (uri_of (view params.now)))) }
{
    match text_at(alloc, params, URI)? {
        Some(uri) => Ok(Notification::DidClose(uri)),
        None => Ok(Notification::Malformed),
    }
}

// What a notification about a document says, by its method.
#[tactic(auto, unfolding(crate::specs::Reading::document_notification_of))]
fn document_notification(
    alloc: Global,
    method: &str,
    params: &Value,
) -> Result<Notification, AllocError>
    ensures { IfOk result (λ said. notification_view said
        ≡ document_notification_of method.now (view params.now)) }
{
    if method == "textDocument/didOpen" {
        return did_open(alloc, params);
    }
    if method == "textDocument/didChange" {
        return did_change(alloc, params);
    }
    if method == "textDocument/didSave" {
        return did_save(alloc, params);
    }
    if method == "textDocument/didClose" {
        return did_close(alloc, params);
    }
    Ok(Notification::Other)
}

/// What a notification says, by its method.
#[tactic(auto, unfolding(crate::specs::Reading::notification_of))]
pub(crate) fn notification(
    alloc: Global,
    method: &str,
    params: &Value,
) -> Result<Notification, AllocError>
    ensures { IfOk result
        (λ said. notification_view said ≡ notification_of method.now (view params.now)) }
{
    if method == "initialized" {
        return Ok(Notification::Initialized);
    }
    if method == "exit" {
        return Ok(Notification::Exit);
    }
    document_notification(alloc, method, params)
}
