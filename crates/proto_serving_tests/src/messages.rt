//! JSON texts, and what they say as messages: a message a row.

use crate::editors::{EMACS, NEOVIM, NEOVIM_ESCAPES, NEOVIM_RANGES};
use crate::expecting::{expect_text, parts};
use proto_messages::{
    Document, DocumentPosition, Id, Message, Notification, Range, Request, read_message,
};
use std::alloc::{AllocError, Global};
use std::process::Abort;

/// What a server cannot take as it stands.
const NO_MESSAGES: &str = r#" => no JSON
{ => no JSON
{}} => no JSON
{"method":"exit",} => no JSON
{'method':'exit'} => no JSON
{"method":"\ud83d"} => no JSON
null => no message
5 => no message
[] => no message
[{"method":"exit"}] => no message
{} => no message
{"id":1} => no message
{"method":5} => no message
{"method":null,"id":1} => no message
{"Method":"exit"} => no message
{"id":null,"method":"shutdown"} => no message
{"id":true,"method":"shutdown"} => no message
{"id":1.5,"method":"shutdown"} => no message
{"id":1.0,"method":"shutdown"} => no message
{"id":[1],"method":"shutdown"} => no message
{"id":9223372036854775808,"method":"shutdown"} => no message
{"id":-9223372036854775809,"method":"shutdown"} => no message"#;

/// Requests that need no parameters, and what else a client may send.
const MESSAGES: &str =
    r#"{"id":9223372036854775807,"method":"shutdown"} => request 9223372036854775807: shutdown
{"id":-9223372036854775808,"method":"shutdown"} => request -9223372036854775808: shutdown
{"id":0,"method":"shutdown","params":[]} => request 0: shutdown
{"id":"","method":"shutdown"} => request "": shutdown
{"id":"a 😀","method":"shutdown","jsonrpc":"1.0"} => request "a 😀": shutdown
{"id":1,"method":""} => request 1: unknown method
{"id":1,"method":"Shutdown"} => request 1: unknown method
{"id":1,"method":"shutdown "} => request 1: unknown method
{"id":1,"method":"exit"} => request 1: unknown method
{"id":1,"method":"$/cancelRequest"} => request 1: unknown method
{"method":"exit","method":"initialized"} => initialized
{"method":"\u0065xit"} => exit
{"method":"shutdown"} => other
{"method":"$/cancelRequest","params":{"id":1}} => other
{"id":1,"result":null} => response
{"id":1,"error":{"code":-32601,"message":""}} => response
{"method":5,"result":[]} => response"#;

/// The parameters of `initialize`, and what they say.
const INITIALIZE: &str =
    r#"{"id":1,"method":"initialize","params":null} => request 1: initialize - false
{"id":1,"method":"initialize","params":5} => request 1: initialize - false
{"id":1,"method":"initialize","params":{"processId":null,"rootUri":null,"capabilities":{}}} => request 1: initialize - false
{"id":1,"method":"initialize","params":{"rootUri":5}} => request 1: initialize - false
{"id":1,"method":"initialize","params":{"rootUri":"file:///w","workspaceFolders":[{"uri":"file:///v"}]}} => request 1: initialize file:///w false
{"id":1,"method":"initialize","params":{"rootUri":null,"workspaceFolders":[{"name":"v","uri":"file:///v"},{"uri":"file:///u"}]}} => request 1: initialize file:///v false
{"id":1,"method":"initialize","params":{"workspaceFolders":[]}} => request 1: initialize - false
{"id":1,"method":"initialize","params":{"workspaceFolders":[{"name":"v"}]}} => request 1: initialize - false
{"id":1,"method":"initialize","params":{"capabilities":{"general":{"positionEncodings":["utf-16","utf-8"]}}}} => request 1: initialize - true
{"id":1,"method":"initialize","params":{"capabilities":{"general":{"positionEncodings":["utf-8"]}}}} => request 1: initialize - true
{"id":1,"method":"initialize","params":{"capabilities":{"general":{"positionEncodings":["utf-16","utf-32"]}}}} => request 1: initialize - false
{"id":1,"method":"initialize","params":{"capabilities":{"general":{"positionEncodings":["UTF-8",8,null]}}}} => request 1: initialize - false
{"id":1,"method":"initialize","params":{"capabilities":{"general":{"positionEncodings":[]}}}} => request 1: initialize - false
{"id":1,"method":"initialize","params":{"capabilities":{"general":{"positionEncodings":"utf-8"}}}} => request 1: initialize - false
{"id":1,"method":"initialize","params":{"capabilities":{"positionEncodings":["utf-8"]}}} => request 1: initialize - false"#;

/// Lines and columns, in the place of a position, and what they say.
const POSITIONS: &str =
    r#"{"id":1,"method":"textDocument/definition","params":{"textDocument":{"uri":"u"},"position":{"line":0,"character":0}}} => request 1: definition u 0:0 -
{"id":1,"method":"textDocument/definition","params":{"textDocument":{"uri":"u"},"position":{"character":4294967295,"line":4294967295}}} => request 1: definition u 4294967295:4294967295 -
{"id":1,"method":"textDocument/definition","params":{"textDocument":{"uri":"u"},"position":{"line":4294967296,"character":0}}} => request 1: invalid parameters
{"id":1,"method":"textDocument/definition","params":{"textDocument":{"uri":"u"},"position":{"line":0,"character":4294967296}}} => request 1: invalid parameters
{"id":1,"method":"textDocument/definition","params":{"textDocument":{"uri":"u"},"position":{"line":18446744073709551616,"character":0}}} => request 1: invalid parameters
{"id":1,"method":"textDocument/definition","params":{"textDocument":{"uri":"u"},"position":{"line":-1,"character":0}}} => request 1: invalid parameters
{"id":1,"method":"textDocument/definition","params":{"textDocument":{"uri":"u"},"position":{"line":0,"character":-1}}} => request 1: invalid parameters
{"id":1,"method":"textDocument/definition","params":{"textDocument":{"uri":"u"},"position":{"line":1.0,"character":0}}} => request 1: invalid parameters
{"id":1,"method":"textDocument/definition","params":{"textDocument":{"uri":"u"},"position":{"line":1e1,"character":0}}} => request 1: invalid parameters
{"id":1,"method":"textDocument/definition","params":{"textDocument":{"uri":"u"},"position":{"line":"1","character":0}}} => request 1: invalid parameters
{"id":1,"method":"textDocument/definition","params":{"textDocument":{"uri":"u"},"position":{"line":null,"character":0}}} => request 1: invalid parameters
{"id":1,"method":"textDocument/definition","params":{"textDocument":{"uri":"u"},"position":{"line":0}}} => request 1: invalid parameters
{"id":1,"method":"textDocument/definition","params":{"textDocument":{"uri":"u"},"position":{"character":0}}} => request 1: invalid parameters
{"id":1,"method":"textDocument/definition","params":{"textDocument":{"uri":"u"},"position":[0,0]}} => request 1: invalid parameters
{"id":1,"method":"textDocument/definition","params":{"textDocument":{"uri":"u"},"position":null}} => request 1: invalid parameters"#;

/// Methods with their parameters, and what they say.
const REQUESTS: &str =
    r#"{"id":1,"method":"textDocument/definition","params":null} => request 1: invalid parameters
{"id":1,"method":"textDocument/definition","params":[]} => request 1: invalid parameters
{"id":1,"method":"textDocument/definition","params":{"textDocument":{"uri":"u"}}} => request 1: invalid parameters
{"id":1,"method":"textDocument/definition","params":{"position":{"line":1,"character":2}}} => request 1: invalid parameters
{"id":1,"method":"textDocument/definition","params":{"textDocument":{"uri":5},"position":{"line":1,"character":2}}} => request 1: invalid parameters
{"id":1,"method":"textDocument/definition","params":{"textDocument":{"uri":""},"position":{"line":1,"character":2}}} => request 1: definition  1:2 -
{"id":1,"method":"textDocument/prepareRename","params":{"textDocument":{"uri":"u"},"position":{"line":1,"character":2}}} => request 1: prepareRename u 1:2 -
{"id":1,"method":"textDocument/prepareRename","params":{"textDocument":{"uri":"u"}}} => request 1: invalid parameters
{"id":1,"method":"textDocument/references","params":{"textDocument":{"uri":"u"},"position":{"line":1,"character":2},"context":{"includeDeclaration":false}}} => request 1: references u 1:2 false
{"id":1,"method":"textDocument/references","params":{"textDocument":{"uri":"u"},"position":{"line":1,"character":2},"context":{}}} => request 1: invalid parameters
{"id":1,"method":"textDocument/references","params":{"textDocument":{"uri":"u"},"position":{"line":1,"character":2},"context":{"includeDeclaration":"true"}}} => request 1: invalid parameters
{"id":1,"method":"textDocument/references","params":{"textDocument":{"uri":"u"},"position":{"line":1,"character":2}}} => request 1: invalid parameters
{"id":1,"method":"textDocument/references","params":{"textDocument":{"uri":"u"},"context":{"includeDeclaration":true}}} => request 1: invalid parameters
{"id":1,"method":"textDocument/rename","params":{"textDocument":{"uri":"u"},"position":{"line":1,"character":2},"newName":""}} => request 1: rename u 1:2 
{"id":1,"method":"textDocument/rename","params":{"textDocument":{"uri":"u"},"position":{"line":1,"character":2},"newName":"N"}} => request 1: rename u 1:2 N
{"id":1,"method":"textDocument/rename","params":{"textDocument":{"uri":"u"},"position":{"line":1,"character":2},"newName":null}} => request 1: invalid parameters
{"id":1,"method":"textDocument/rename","params":{"textDocument":{"uri":"u"},"newName":"N"}} => request 1: invalid parameters
{"id":1,"method":"textDocument/documentSymbol","params":{"textDocument":{"uri":"u"}}} => request 1: documentSymbol u
{"id":1,"method":"textDocument/documentSymbol","params":{"textDocument":"u"}} => request 1: invalid parameters
{"id":1,"method":"textDocument/codeAction","params":{"textDocument":{"uri":"u"},"range":{"start":{"line":1,"character":2},"end":{"line":3,"character":4}}}} => request 1: codeAction u 1:2 to u 3:4 -
{"id":1,"method":"textDocument/codeAction","params":{"textDocument":{"uri":"u"},"range":{"start":{"line":1,"character":2}}}} => request 1: invalid parameters
{"id":1,"method":"textDocument/codeAction","params":{"textDocument":{"uri":"u"},"range":{"end":{"line":1,"character":2}}}} => request 1: invalid parameters
{"id":1,"method":"textDocument/codeAction","params":{"range":{"start":{"line":1,"character":2},"end":{"line":3,"character":4}}}} => request 1: invalid parameters
{"id":1,"method":"textDocument/hover","params":{"textDocument":{"uri":"u"},"position":{"line":1,"character":2}}} => request 1: unknown method
{"id":1,"method":"textDocument/didOpen","params":{}} => request 1: unknown method"#;

/// Notifications about documents with their parameters, and what they say.
const NOTIFICATIONS: &str =
    r#"{"method":"textDocument/didOpen","params":{"textDocument":{"uri":"u","version":7,"text":"a\u0000\n"}}} => didOpen u 7 "a\0\n"
{"method":"textDocument/didOpen","params":{"textDocument":{"uri":"u","version":-1,"text":""}}} => malformed
{"method":"textDocument/didOpen","params":{"textDocument":{"uri":"u","version":1.5,"text":""}}} => malformed
{"method":"textDocument/didOpen","params":{"textDocument":{"uri":"u","text":""}}} => malformed
{"method":"textDocument/didOpen","params":{"textDocument":{"uri":"u","version":1}}} => malformed
{"method":"textDocument/didOpen","params":{"textDocument":{"version":1,"text":""}}} => malformed
{"method":"textDocument/didOpen","params":null} => malformed
{"method":"textDocument/didChange","params":{"textDocument":{"uri":"u","version":8},"contentChanges":[{"text":"a"},{"text":"b"}]}} => didChange u 8 "b"
{"method":"textDocument/didChange","params":{"textDocument":{"uri":"u","version":8},"contentChanges":[{"text":"a","range":null}]}} => didChange u 8 "a"
{"method":"textDocument/didChange","params":{"textDocument":{"uri":"u","version":8},"contentChanges":[{"text":"a","range":{}},{"text":"b"}]}} => didChange of a range
{"method":"textDocument/didChange","params":{"textDocument":{"uri":"u","version":8},"contentChanges":[{"text":"a"},{"text":"b","range":{}}]}} => didChange of a range
{"method":"textDocument/didChange","params":{"textDocument":{"uri":"u","version":8},"contentChanges":[]}} => unchanged u 8 ""
{"method":"textDocument/didChange","params":{"textDocument":{"uri":"u"},"contentChanges":[]}} => malformed
{"method":"textDocument/didChange","params":{"textDocument":{"version":8},"contentChanges":[]}} => malformed
{"method":"textDocument/didChange","params":{"textDocument":{"uri":"u","version":8},"contentChanges":[{"text":"a"},{}]}} => malformed
{"method":"textDocument/didChange","params":{"textDocument":{"uri":"u","version":8},"contentChanges":{"text":"a"}}} => malformed
{"method":"textDocument/didChange","params":{"textDocument":{"uri":"u","version":8}}} => malformed
{"method":"textDocument/didChange","params":{"textDocument":{"uri":"u"},"contentChanges":[{"text":"a"}]}} => malformed
{"method":"textDocument/didChange","params":{"textDocument":{"version":8},"contentChanges":[{"text":"a"}]}} => malformed
{"method":"textDocument/didSave","params":{"textDocument":{"uri":"u"},"text":"a"}} => didSave u
{"method":"textDocument/didSave","params":{"text":"a"}} => malformed
{"method":"textDocument/didClose","params":{"textDocument":{"uri":"u"}}} => didClose u
{"method":"textDocument/didClose","params":{"textDocument":{}}} => malformed
{"method":"textDocument/willSave","params":{}} => other
{"method":"textDocument/rename","params":{}} => other"#;

fn at_text(
    alloc: Global,
    method: &str,
    at: &DocumentPosition,
    more: &str,
) -> Result<String, AllocError> {
    let (uri, place) = (at.uri.as_str(), at.position);
    format!(in alloc; "{method} {uri} {}:{} {more}", place.line, place.character)
}

fn range_text(alloc: Global, uri: &str, range: Range) -> Result<String, AllocError> {
    let (start, end) = (range.start, range.end);
    format!(in alloc;
        "codeAction {uri} {}:{} to {uri} {}:{} -",
        start.line, start.character, end.line, end.character
    )
}

fn yes_or_no(is_so: bool) -> &'static str {
    if is_so { "true" } else { "false" }
}

// A method, and one text.
fn with_text(alloc: Global, method: &str, text: &str) -> Result<String, AllocError> {
    format!(in alloc; "{method} {text}")
}

fn initialize_text(
    alloc: Global,
    root: &Option<String>,
    offers_utf8: bool,
) -> Result<String, AllocError> {
    let root = match root {
        Some(root) => root.as_str(),
        None => "-",
    };
    format!(in alloc; "initialize {root} {offers_utf8}")
}

fn request_text(alloc: Global, request: &Request) -> Result<String, AllocError> {
    match request {
        Request::Initialize(root, offers_utf8) => initialize_text(alloc, root, *offers_utf8),
        Request::Shutdown => String::from_str(alloc, "shutdown"),
        Request::Definition(at) => at_text(alloc, "definition", at, "-"),
        Request::References(at, includes_declaration) => {
            at_text(alloc, "references", at, yes_or_no(*includes_declaration))
        }
        Request::DocumentSymbol(uri) => with_text(alloc, "documentSymbol", uri.as_str()),
        Request::PrepareRename(at) => at_text(alloc, "prepareRename", at, "-"),
        Request::Rename(at, name) => at_text(alloc, "rename", at, name.as_str()),
        Request::CodeAction(uri, range) => range_text(alloc, uri.as_str(), *range),
        Request::UnknownMethod => String::from_str(alloc, "unknown method"),
        Request::InvalidParams => String::from_str(alloc, "invalid parameters"),
    }
}

// The text is escaped, so that a row is a line.
fn version_text(
    alloc: Global,
    method: &str,
    uri: &str,
    version: u64,
    text: &str,
) -> Result<String, AllocError> {
    format!(in alloc; "{method} {uri} {version} {text:?}")
}

fn document_text(alloc: Global, method: &str, document: &Document) -> Result<String, AllocError> {
    let text = document.text.as_str();
    version_text(alloc, method, document.uri.as_str(), document.version, text)
}

fn notification_text(alloc: Global, notification: &Notification) -> Result<String, AllocError> {
    match notification {
        Notification::Initialized => String::from_str(alloc, "initialized"),
        Notification::DidOpen(document) => document_text(alloc, "didOpen", document),
        Notification::DidChange(document) => document_text(alloc, "didChange", document),
        Notification::DidChangeNothing(uri, version) => {
            version_text(alloc, "unchanged", uri.as_str(), *version, "")
        }
        Notification::DidChangeInRange => String::from_str(alloc, "didChange of a range"),
        Notification::DidSave(uri) => with_text(alloc, "didSave", uri.as_str()),
        Notification::DidClose(uri) => with_text(alloc, "didClose", uri.as_str()),
        Notification::Exit => String::from_str(alloc, "exit"),
        Notification::Malformed => String::from_str(alloc, "malformed"),
        Notification::Other => String::from_str(alloc, "other"),
    }
}

fn under_id(alloc: Global, id: &Id, request: &str) -> Result<String, AllocError> {
    match id {
        Id::Number(number) => format!(in alloc; "request {number}: {request}"),
        Id::Text(text) => format!(in alloc; "request \"{text}\": {request}"),
    }
}

fn message_text(alloc: Global, message: &Message) -> Result<String, AllocError> {
    match message {
        Message::Request(id, request) => {
            let request = request_text(alloc, request)?;
            under_id(alloc, id, request.as_str())
        }
        Message::Notification(notification) => notification_text(alloc, notification),
        Message::Response => String::from_str(alloc, "response"),
        Message::NoMessage => String::from_str(alloc, "no message"),
    }
}

fn read_text(alloc: Global, message: Option<&Message>) -> Result<String, AllocError> {
    match message {
        Some(message) => message_text(alloc, message),
        None => String::from_str(alloc, "no JSON"),
    }
}

// What the bytes say.
fn said(alloc: Global, bytes: &[u8]) -> Result<String, AllocError> {
    let message = read_message(alloc, bytes)?;
    read_text(alloc, message.as_ref())
}

// Fails only when memory is refused.
fn expect<R: AllocGlobal + Abort>(rt: &R, bytes: &[u8], wanted: &str) -> Result<(), AllocError> {
    let found = said(rt.alloc(), bytes)?;
    expect_text(rt, found.as_str(), wanted);
    Ok(())
}

// Fails only when memory is refused.
fn expect_rows<R: AllocGlobal + Abort>(rt: &R, rows: &str) -> Result<(), AllocError> {
    for row in rows.lines() {
        let (text, wanted) = parts(rt, row);
        expect(rt, text.as_bytes(), wanted)?;
    }
    Ok(())
}

fn expect_all<R: AllocGlobal + Abort>(rt: &R, rows: &str) {
    assert!(rt; expect_rows(rt, rows).is_ok());
}

#[test]
fn what_editors_send(rt: HostRuntime) {
    expect_all(&rt, NEOVIM_RANGES);
    expect_all(&rt, NEOVIM_ESCAPES);
    expect_all(&rt, EMACS);
}

#[test]
fn messages_and_parameters(rt: HostRuntime) {
    expect_all(&rt, NO_MESSAGES);
    expect_all(&rt, MESSAGES);
    expect_all(&rt, INITIALIZE);
    expect_all(&rt, POSITIONS);
    expect_all(&rt, REQUESTS);
    expect_all(&rt, NOTIFICATIONS);
}

fn expect_one<R: AllocGlobal + Abort>(rt: &R, bytes: &[u8], wanted: &str) {
    assert!(rt; expect(rt, bytes, wanted).is_ok());
}

#[test]
fn bytes_of_messages(rt: HostRuntime) {
    expect_one(&rt, b"\t{ \"method\" : \"exit\" }\r\n", "exit");
    expect_one(&rt, b"{\"method\":\"\xff\"}", "no JSON");
    expect_one(&rt, b"\xef\xbb\xbf{\"method\":\"exit\"}", "no JSON");
    expect_one(&rt, b"{\"method\":\"exit\"}\0", "no JSON");
}

// So many arrays, one in the other, as parameters of `exit`.
fn expect_nested<R: AllocGlobal + Abort>(rt: &R, depth: usize, wanted: &str) {
    let open = "[".repeat(rt.alloc(), depth).expect(rt, "memory");
    let close = "]".repeat(rt.alloc(), depth).expect(rt, "memory");
    let text = format!(in rt.alloc(); "{{\"method\":\"exit\",\"params\":{open}{close}}}").expect(
        rt, "memory",
    );
    expect_one(rt, text.as_bytes(), wanted);
}

#[test]
fn depths(rt: HostRuntime) {
    expect_nested(&rt, 126, "exit");
    expect_nested(&rt, 127, "no JSON");
    expect_nested(&rt, 100_000, "no JSON");
}

// Also where none is refused, all that neovim sent is read.
#[test]
fn one_is_refused(rt: HostRuntime) {
    let rows = NEOVIM;
    assert!(rt; expect_rows(&rt, rows).is_ok() || expect_rows(&rt, rows).is_ok());
}
