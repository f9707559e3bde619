//! What a request asks for.

ghost use Rattle.std.specs.Prelude.{◌≡◌, IfOk, map, option_map, string_bytes};
ghost use Rattle.std.specs.List.{list_any};
ghost use Rattle.serde_json.specs.View.{view};
ghost use Rattle.proto_messages.specs.Messages.{code_action, definition, document_position_view, document_symbol, prepare_rename, references, rename, request_view};
ghost use Rattle.proto_messages.specs.Reading.{both, code_action_of, document_position_of, name_request_of, names_utf8, offers_utf8, or_invalid_params, references_of, rename_of, request_of, root_of, uri_of};

use crate::fields::{URI, bool_at, document_position, items_at, range_at, text_at};
use crate::message::{DocumentPosition, Request};
use crate::position::Range;
use serde_json::Value;
use std::alloc::{AllocError, Global};

// Whether a text is the name of the encoding UTF-8.
fn names_utf8(name: &Value) -> bool
    ensures { result ≡ names_utf8 (view name.now) }
{
    match name.as_str() {
        Some(name) => name == "utf-8",
        None => false,
    }
}

// Whether one of these is the name of UTF-8.
fn has_utf8(names: &[Value]) -> bool
    ensures { result ≡ list_any names_utf8 (map view names.now) }
{
    for name in names {
        if names_utf8(name) {
            return true;
        }
    }
    false
}

// Whether positions may count the bytes of UTF-8, as the client says.
fn offers_utf8(params: &Value) -> bool
    ensures { result ≡ offers_utf8 (view params.now) }
{
    match items_at(params, "/capabilities/general/positionEncodings") {
        Some(names) => has_utf8(names),
        None => false,
    }
}

// The root of the workspace.
fn root(alloc: Global, params: &Value) -> Result<Option<String>, AllocError>
    ensures { IfOk result (λ root. option_map string_bytes root ≡ root_of (view params.now)) }
{
    match text_at(alloc, params, "/rootUri")? {
        Some(uri) => Ok(Some(uri)),
        None => text_at(alloc, params, "/workspaceFolders/0/uri"),
    }
}

fn definition(alloc: Global, params: &Value) -> Result<Request, AllocError>
    ensures { IfOk result (λ asked. request_view asked
        ≡ or_invalid_params (option_map definition (document_position_of (view params.now)))) }
{
    match document_position(alloc, params)? {
        Some(at) => Ok(Request::Definition(at)),
        None => Ok(Request::InvalidParams),
    }
}

fn prepare_rename(alloc: Global, params: &Value) -> Result<Request, AllocError>
    ensures { IfOk result (λ asked. request_view asked
        ≡ or_invalid_params (option_map prepare_rename (document_position_of (view params.now)))) }
{
    match document_position(alloc, params)? {
        Some(at) => Ok(Request::PrepareRename(at)),
        None => Ok(Request::InvalidParams),
    }
}

// The references to what stands at a position, where all is said.
fn references_of(at: Option<DocumentPosition>, includes_declaration: Option<bool>) -> Request
    ensures { request_view result ≡ or_invalid_params
        (both references (option_map document_position_view at) includes_declaration) }
{
    let Some(at) = at else {
        return Request::InvalidParams;
    };
    match includes_declaration {
        Some(includes_declaration) => Request::References(at, includes_declaration),
        None => Request::InvalidParams,
    }
}

fn references(alloc: Global, params: &Value) -> Result<Request, AllocError>
    ensures { IfOk result
        (λ asked. request_view asked ≡ or_invalid_params (references_of (view params.now))) }
{
    let at = document_position(alloc, params)?;
    Ok(references_of(at, bool_at(params, "/context/includeDeclaration")))
}

// Another name for what stands at a position, where both are there.
fn rename_of(at: Option<DocumentPosition>, name: Option<String>) -> Request
    ensures { request_view result ≡ or_invalid_params
        (both rename (option_map document_position_view at) (option_map string_bytes name)) }
{
    let Some(at) = at else {
        return Request::InvalidParams;
    };
    match name {
        Some(name) => Request::Rename(at, name),
        None => Request::InvalidParams,
    }
}

fn rename(alloc: Global, params: &Value) -> Result<Request, AllocError>
    ensures { IfOk result
        (λ asked. request_view asked ≡ or_invalid_params (rename_of (view params.now))) }
{
    let at = document_position(alloc, params)?;
    let name = text_at(alloc, params, "/newName")?;
    Ok(rename_of(at, name))
}

fn document_symbol(alloc: Global, params: &Value) -> Result<Request, AllocError>
    ensures { IfOk result (λ asked. request_view asked
        ≡ or_invalid_params (option_map document_symbol (uri_of (view params.now)))) }
{
    match text_at(alloc, params, URI)? {
        Some(uri) => Ok(Request::DocumentSymbol(uri)),
        None => Ok(Request::InvalidParams),
    }
}

// What may be done in a range of a document, where both are there.
fn actions_in(uri: Option<String>, range: Option<Range>) -> Request
    ensures { request_view result
        ≡ or_invalid_params (both code_action (option_map string_bytes uri) range) }
{
    let Some(uri) = uri else {
        return Request::InvalidParams;
    };
    match range {
        Some(range) => Request::CodeAction(uri, range),
        None => Request::InvalidParams,
    }
}

fn code_action(alloc: Global, params: &Value) -> Result<Request, AllocError>
    ensures { IfOk result
        (λ asked. request_view asked ≡ or_invalid_params (code_action_of (view params.now))) }
{
    let uri = text_at(alloc, params, URI)?;
    Ok(actions_in(uri, range_at(params, "/range")))
}

// What a request about names asks for, by its method.
#[tactic(auto, unfolding(crate::specs::Reading::name_request_of))]
fn name_request(alloc: Global, method: &str, params: &Value) -> Result<Request, AllocError>
    ensures { IfOk result
        (λ asked. request_view asked ≡ name_request_of method.now (view params.now)) }
{
    if method == "textDocument/definition" {
        return definition(alloc, params);
    }
    if method == "textDocument/references" {
        return references(alloc, params);
    }
    if method == "textDocument/prepareRename" {
        return prepare_rename(alloc, params);
    }
    if method == "textDocument/rename" {
        return rename(alloc, params);
    }
    Ok(Request::UnknownMethod)
}

/// What a request asks for, by its method.
#[tactic(auto, unfolding(crate::specs::Reading::request_of))]
pub(crate) fn request(alloc: Global, method: &str, params: &Value) -> Result<Request, AllocError>
    ensures { IfOk result
        (λ asked. request_view asked ≡ request_of method.now (view params.now)) }
{
    if method == "initialize" {
        let root = root(alloc, params)?;
        return Ok(Request::Initialize(root, offers_utf8(params)));
    }
    if method == "shutdown" {
        return Ok(Request::Shutdown);
    }
    if method == "textDocument/documentSymbol" {
        return document_symbol(alloc, params);
    }
    if method == "textDocument/codeAction" {
        return code_action(alloc, params);
    }
    name_request(alloc, method, params)
}
