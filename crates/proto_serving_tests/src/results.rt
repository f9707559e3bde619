//! What a server writes: each text counted by hand, as `json.dumps` of Python writes it with its keys
//! sorted and no spaces.

use crate::expecting::{expect_bytes, expect_that};
use proto_messages::{
    ActionKind, Answer, CodeAction, Diagnostic, DocumentDiagnostics, DocumentEdit, ErrorCode, Id,
    Location, MessageType, Position, PositionEncoding, Range, Severity, Symbol, SymbolKind,
    TextEdit, diagnostics_message, error_message, log_message, result_message, show_message,
};
use std::alloc::{AllocError, Global};
use std::process::Abort;

/// Results, by name.
enum Sample {
    Capabilities(PositionEncoding),
    Null,
    Location,
    NoLocations,
    Renameable,
    Edits(Option<u64>),
    Symbols,
    Action(ActionKind),
    NoActions,
}

/// What a server sends.
enum Sent {
    /// A result under the id 7.
    Result(Sample),
    /// The null result of a request whose id is a text.
    UnderText,
    /// An error under the number of its request, if it has one.
    Error(ErrorCode, Option<i64>),
    /// A document with one diagnostic, of this name.
    Diagnostic(Option<u64>, Severity, &'static str),
    /// One with none.
    NoDiagnostics,
    Shown(MessageType),
    Logged(MessageType),
}

/// Messages.
const MESSAGES: &[Sent] = &[
    Sent::Result(Sample::Capabilities(PositionEncoding::Utf16)),
    Sent::Result(Sample::Capabilities(PositionEncoding::Utf8)),
    Sent::Result(Sample::Null),
    Sent::Result(Sample::Location),
    Sent::Result(Sample::NoLocations),
    Sent::Result(Sample::Renameable),
    Sent::Result(Sample::Edits(None)),
    Sent::Result(Sample::Edits(Some(10))),
    Sent::Result(Sample::Symbols),
    Sent::Result(Sample::Action(ActionKind::QuickFix)),
    Sent::Result(Sample::Action(ActionKind::Refactor)),
    Sent::Result(Sample::NoActions),
    Sent::UnderText,
    Sent::Error(ErrorCode::ParseError, None),
    Sent::Error(ErrorCode::InvalidRequest, None),
    Sent::Error(ErrorCode::MethodNotFound, Some(1)),
    Sent::Error(ErrorCode::InvalidParams, Some(-1)),
    Sent::Error(ErrorCode::ServerNotInitialized, Some(i64::MAX)),
    Sent::Error(ErrorCode::RequestFailed, Some(i64::MIN)),
    Sent::Diagnostic(Some(10), Severity::Warning, "FIELD_NAMES"),
    Sent::Diagnostic(None, Severity::Error, "17 NumberRange"),
    Sent::NoDiagnostics,
    Sent::Shown(MessageType::Error),
    Sent::Logged(MessageType::Error),
    Sent::Shown(MessageType::Warning),
    Sent::Logged(MessageType::Warning),
    Sent::Shown(MessageType::Info),
    Sent::Logged(MessageType::Info),
    Sent::Shown(MessageType::Log),
    Sent::Logged(MessageType::Log),
];

/// Their texts, each on a line; that of a location is as the recorded server wrote it, but for the
/// order of the keys.
const TEXTS: &str =
    r#"{"id":7,"jsonrpc":"2.0","result":{"capabilities":{"codeActionProvider":{"codeActionKinds":["quickfix","refactor"]},"definitionProvider":true,"documentSymbolProvider":true,"positionEncoding":"utf-16","referencesProvider":true,"renameProvider":{"prepareProvider":true},"textDocumentSync":{"change":1,"openClose":true,"save":{"includeText":false}}},"serverInfo":{"name":"protoref_serve"}}}
{"id":7,"jsonrpc":"2.0","result":{"capabilities":{"codeActionProvider":{"codeActionKinds":["quickfix","refactor"]},"definitionProvider":true,"documentSymbolProvider":true,"positionEncoding":"utf-8","referencesProvider":true,"renameProvider":{"prepareProvider":true},"textDocumentSync":{"change":1,"openClose":true,"save":{"includeText":false}}},"serverInfo":{"name":"protoref_serve"}}}
{"id":7,"jsonrpc":"2.0","result":null}
{"id":7,"jsonrpc":"2.0","result":[{"range":{"end":{"character":13,"line":4},"start":{"character":8,"line":4}},"uri":"file:///ws/shop/a.proto"}]}
{"id":7,"jsonrpc":"2.0","result":[]}
{"id":7,"jsonrpc":"2.0","result":{"placeholder":"Order","range":{"end":{"character":27,"line":3},"start":{"character":22,"line":3}}}}
{"id":7,"jsonrpc":"2.0","result":{"documentChanges":[{"edits":[{"newText":"Purchase","range":{"end":{"character":27,"line":3},"start":{"character":22,"line":3}}}],"textDocument":{"uri":"file:///ws/shop/a.proto","version":null}}]}}
{"id":7,"jsonrpc":"2.0","result":{"documentChanges":[{"edits":[{"newText":"Purchase","range":{"end":{"character":27,"line":3},"start":{"character":22,"line":3}}}],"textDocument":{"uri":"file:///ws/shop/a.proto","version":10}}]}}
{"id":7,"jsonrpc":"2.0","result":[{"children":[{"children":[],"kind":8,"name":"id","range":{"end":{"character":2,"line":1},"start":{"character":1,"line":1}},"selectionRange":{"end":{"character":2,"line":1},"start":{"character":1,"line":1}}}],"kind":23,"name":"M","range":{"end":{"character":9,"line":2},"start":{"character":0,"line":0}},"selectionRange":{"end":{"character":9,"line":0},"start":{"character":8,"line":0}}},{"children":[],"kind":10,"name":"E","range":{"end":{"character":2,"line":1},"start":{"character":1,"line":1}},"selectionRange":{"end":{"character":2,"line":1},"start":{"character":1,"line":1}}},{"children":[],"kind":4,"name":"E","range":{"end":{"character":2,"line":1},"start":{"character":1,"line":1}},"selectionRange":{"end":{"character":2,"line":1},"start":{"character":1,"line":1}}},{"children":[],"kind":6,"name":"E","range":{"end":{"character":2,"line":1},"start":{"character":1,"line":1}},"selectionRange":{"end":{"character":2,"line":1},"start":{"character":1,"line":1}}},{"children":[],"kind":11,"name":"E","range":{"end":{"character":2,"line":1},"start":{"character":1,"line":1}},"selectionRange":{"end":{"character":2,"line":1},"start":{"character":1,"line":1}}},{"children":[],"kind":22,"name":"E","range":{"end":{"character":2,"line":1},"start":{"character":1,"line":1}},"selectionRange":{"end":{"character":2,"line":1},"start":{"character":1,"line":1}}}]}
{"id":7,"jsonrpc":"2.0","result":[{"edit":{"documentChanges":[{"edits":[{"newText":"Purchase","range":{"end":{"character":27,"line":3},"start":{"character":22,"line":3}}}],"textDocument":{"uri":"file:///ws/shop/a.proto","version":0}}]},"kind":"quickfix","title":"a \"title\""}]}
{"id":7,"jsonrpc":"2.0","result":[{"edit":{"documentChanges":[{"edits":[{"newText":"Purchase","range":{"end":{"character":27,"line":3},"start":{"character":22,"line":3}}}],"textDocument":{"uri":"file:///ws/shop/a.proto","version":0}}]},"kind":"refactor","title":"a \"title\""}]}
{"id":7,"jsonrpc":"2.0","result":[]}
{"id":"a/\"\u001f😀","jsonrpc":"2.0","result":null}
{"error":{"code":-32700,"message":"é\n"},"id":null,"jsonrpc":"2.0"}
{"error":{"code":-32600,"message":"é\n"},"id":null,"jsonrpc":"2.0"}
{"error":{"code":-32601,"message":"é\n"},"id":1,"jsonrpc":"2.0"}
{"error":{"code":-32602,"message":"é\n"},"id":-1,"jsonrpc":"2.0"}
{"error":{"code":-32002,"message":"é\n"},"id":9223372036854775807,"jsonrpc":"2.0"}
{"error":{"code":-32803,"message":"é\n"},"id":-9223372036854775808,"jsonrpc":"2.0"}
{"jsonrpc":"2.0","method":"textDocument/publishDiagnostics","params":{"diagnostics":[{"code":"FIELD_NAMES","message":"a finding","range":{"end":{"character":6,"line":0},"start":{"character":0,"line":0}},"severity":2,"source":"protoref"}],"uri":"file:///ws/shop/a.proto","version":10}}
{"jsonrpc":"2.0","method":"textDocument/publishDiagnostics","params":{"diagnostics":[{"code":"17 NumberRange","message":"a finding","range":{"end":{"character":6,"line":0},"start":{"character":0,"line":0}},"severity":1,"source":"protoref"}],"uri":"file:///ws/shop/a.proto"}}
{"jsonrpc":"2.0","method":"textDocument/publishDiagnostics","params":{"diagnostics":[],"uri":"file:///ws/shop/a.proto","version":0}}
{"jsonrpc":"2.0","method":"window/showMessage","params":{"message":"m","type":1}}
{"jsonrpc":"2.0","method":"window/logMessage","params":{"message":"m","type":1}}
{"jsonrpc":"2.0","method":"window/showMessage","params":{"message":"m","type":2}}
{"jsonrpc":"2.0","method":"window/logMessage","params":{"message":"m","type":2}}
{"jsonrpc":"2.0","method":"window/showMessage","params":{"message":"m","type":3}}
{"jsonrpc":"2.0","method":"window/logMessage","params":{"message":"m","type":3}}
{"jsonrpc":"2.0","method":"window/showMessage","params":{"message":"m","type":4}}
{"jsonrpc":"2.0","method":"window/logMessage","params":{"message":"m","type":4}}"#;

const URI: &str = "file:///ws/shop/a.proto";

fn range(start: (u32, u32), end: (u32, u32)) -> Range {
    Range {
        start: Position {
            line: start.0,
            character: start.1,
        },
        end: Position {
            line: end.0,
            character: end.1,
        },
    }
}

fn locations(alloc: Global) -> Result<Vec<Location>, AllocError> {
    let mut list = Vec::new(alloc);
    let uri = String::from_str(alloc, URI)?;
    let range = range((4, 8), (4, 13));
    list.push(Location { uri, range })?;
    Ok(list)
}

fn edits(alloc: Global, version: Option<u64>) -> Result<Vec<DocumentEdit>, AllocError> {
    let mut edits = Vec::new(alloc);
    let text = String::from_str(alloc, "Purchase")?;
    let range = range((3, 22), (3, 27));
    edits.push(TextEdit { range, text })?;
    let mut list = Vec::new(alloc);
    let uri = String::from_str(alloc, URI)?;
    list.push(DocumentEdit {
        uri,
        version,
        edits,
    })?;
    Ok(list)
}

fn actions(alloc: Global, kind: ActionKind) -> Result<Vec<CodeAction>, AllocError> {
    let mut list = Vec::new(alloc);
    let title = String::from_str(alloc, "a \"title\"")?;
    let edits = edits(alloc, Some(0))?;
    list.push(CodeAction { title, kind, edits })?;
    Ok(list)
}

// A symbol with none in it.
fn leaf(alloc: Global, name: &str, kind: SymbolKind) -> Result<Symbol, AllocError> {
    Ok(Symbol {
        name: String::from_str(alloc, name)?,
        kind,
        range: range((1, 1), (1, 2)),
        selection: range((1, 1), (1, 2)),
        children: Vec::new(alloc),
    })
}

/// The kinds of the symbols that stand last, with none in them.
const KINDS: &[SymbolKind] = &[
    SymbolKind::Enum,
    SymbolKind::Package,
    SymbolKind::Method,
    SymbolKind::Interface,
    SymbolKind::EnumMember,
];

fn symbols(alloc: Global) -> Result<Vec<Symbol>, AllocError> {
    let mut list = Vec::new(alloc);
    list.push(message(alloc)?)?;
    for kind in KINDS {
        list.push(leaf(alloc, "E", *kind)?)?;
    }
    Ok(list)
}

// A symbol with one in it.
fn message(alloc: Global) -> Result<Symbol, AllocError> {
    let mut symbol = leaf(alloc, "M", SymbolKind::Struct)?;
    symbol.range = range((0, 0), (2, 9));
    symbol.selection = range((0, 8), (0, 9));
    symbol.children.push(leaf(alloc, "id", SymbolKind::Field)?)?;
    Ok(symbol)
}

fn answer(alloc: Global, sample: &Sample) -> Result<Answer, AllocError> {
    match sample {
        Sample::Capabilities(encoding) => Ok(Answer::Capabilities(*encoding)),
        Sample::Null => Ok(Answer::Null),
        Sample::Location => Ok(Answer::Locations(locations(alloc)?)),
        Sample::NoLocations => Ok(Answer::Locations(Vec::new(alloc))),
        Sample::Renameable => {
            let name = String::from_str(alloc, "Order")?;
            Ok(Answer::Renameable(range((3, 22), (3, 27)), name))
        }
        Sample::Edits(version) => Ok(Answer::Edits(edits(alloc, *version)?)),
        Sample::Symbols => Ok(Answer::Symbols(symbols(alloc)?)),
        Sample::Action(kind) => Ok(Answer::Actions(actions(alloc, *kind)?)),
        Sample::NoActions => Ok(Answer::Actions(Vec::new(alloc))),
    }
}

fn result(alloc: Global, sample: &Sample) -> Result<Vec<u8>, AllocError> {
    let answer = answer(alloc, sample)?;
    result_message(alloc, &Id::Number(7), &answer)
}

fn under_text(alloc: Global) -> Result<Vec<u8>, AllocError> {
    let id = Id::Text(String::from_str(alloc, "a/\"\u{1f}😀")?);
    result_message(alloc, &id, &Answer::Null)
}

fn error(alloc: Global, code: ErrorCode, number: Option<i64>) -> Result<Vec<u8>, AllocError> {
    match number {
        Some(number) => error_message(alloc, Some(&Id::Number(number)), code, "é\n"),
        None => error_message(alloc, None, code, "é\n"),
    }
}

fn diagnostic(alloc: Global, severity: Severity, code: &str) -> Result<Diagnostic, AllocError> {
    Ok(Diagnostic {
        range: range((0, 0), (0, 6)),
        severity,
        code: String::from_str(alloc, code)?,
        message: String::from_str(alloc, "a finding")?,
    })
}

fn one_diagnostic(
    alloc: Global,
    version: Option<u64>,
    severity: Severity,
    code: &str,
) -> Result<Vec<u8>, AllocError> {
    let mut diagnostics = Vec::new(alloc);
    diagnostics.push(diagnostic(alloc, severity, code)?)?;
    published(alloc, version, diagnostics)
}

fn published(
    alloc: Global,
    version: Option<u64>,
    diagnostics: Vec<Diagnostic>,
) -> Result<Vec<u8>, AllocError> {
    let uri = String::from_str(alloc, URI)?;
    let document = DocumentDiagnostics {
        uri,
        version,
        diagnostics,
    };
    diagnostics_message(alloc, &document)
}

fn written(alloc: Global, message: &Sent) -> Result<Vec<u8>, AllocError> {
    match message {
        Sent::Result(sample) => result(alloc, sample),
        Sent::UnderText => under_text(alloc),
        Sent::Error(code, number) => error(alloc, *code, *number),
        Sent::Diagnostic(version, severity, code) => {
            one_diagnostic(alloc, *version, *severity, code)
        }
        Sent::NoDiagnostics => published(alloc, Some(0), Vec::new(alloc)),
        Sent::Shown(kind) => show_message(alloc, *kind, "m"),
        Sent::Logged(kind) => log_message(alloc, *kind, "m"),
    }
}

// Each of them, unless memory is refused.
fn expect_messages<R: AllocGlobal + Abort>(rt: &R) -> Result<(), AllocError> {
    let mut rows = TEXTS.lines();
    for message in MESSAGES {
        let wanted = rows.next().expect(rt, "a row");
        let text = written(rt.alloc(), message)?;
        expect_bytes(rt, text.as_slice(), wanted);
    }
    expect_that(rt, rows.next().is_none(), "as many rows");
    Ok(())
}

#[test]
fn messages_are_written(rt: HostRuntime) {
    assert!(rt; expect_messages(&rt).is_ok());
}

#[test]
fn one_is_refused(rt: HostRuntime) {
    assert!(rt; expect_messages(&rt).is_ok() || expect_messages(&rt).is_ok());
}
