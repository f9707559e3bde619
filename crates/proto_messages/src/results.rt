//! What a server answers and says.

use crate::position::Range;

/// How the columns of positions count.
#[derive(Clone, Copy, Debug, PartialEq, Eq)]
pub enum PositionEncoding {
    /// Bytes of UTF-8.
    Utf8,
    /// Units of UTF-16.
    Utf16,
}

/// A part of a document.
#[derive(Drop)]
pub struct Location {
    /// The document's URI.
    pub uri: String,
    /// The part.
    pub range: Range,
}

/// What a symbol is.
#[derive(Clone, Copy, Debug, PartialEq, Eq)]
pub enum SymbolKind {
    /// 4.
    Package,
    /// 6.
    Method,
    /// 8.
    Field,
    /// 10.
    Enum,
    /// 11.
    Interface,
    /// 22.
    EnumMember,
    /// 23.
    Struct,
}

/// A declaration in a document.
#[derive(Drop)]
pub struct Symbol {
    /// Its name.
    pub name: String,
    /// What it is.
    pub kind: SymbolKind,
    /// All of it.
    pub range: Range,
    /// Its name, within `range`.
    pub selection: Range,
    /// The declarations right in it, in order.
    pub children: Vec<Symbol>,
}

/// A text in the place of a part of a document.
#[derive(Drop)]
pub struct TextEdit {
    /// The part that it replaces.
    pub range: Range,
    /// The new text.
    pub text: String,
}

/// The edits of one document.
#[derive(Drop)]
pub struct DocumentEdit {
    /// The document's URI.
    pub uri: String,
    /// The version that the edits are of, where the document is open.
    pub version: Option<u64>,
    /// The edits. No two of them overlap.
    pub edits: Vec<TextEdit>,
}

/// Where an editor offers an action.
#[derive(Clone, Copy, Debug, PartialEq, Eq)]
pub enum ActionKind {
    /// As the cure of a diagnostic: `quickfix`.
    QuickFix,
    /// As a change of what is well: `refactor`.
    Refactor,
}

/// An edit of several documents, offered under a title.
#[derive(Drop)]
pub struct CodeAction {
    /// What a user reads.
    pub title: String,
    /// Where it is offered.
    pub kind: ActionKind,
    /// The edits, one for each document.
    pub edits: Vec<DocumentEdit>,
}

/// The result of a request.
#[derive(Drop)]
pub enum Answer {
    /// Of `initialize`: what the server can do, and how positions count from now on.
    Capabilities(PositionEncoding),
    /// Of `shutdown`; of others where there is nothing to answer.
    Null,
    /// Of `textDocument/definition` and `textDocument/references`.
    Locations(Vec<Location>),
    /// Of `textDocument/documentSymbol`.
    Symbols(Vec<Symbol>),
    /// Of `textDocument/prepareRename`: the part that has the name, and the name.
    Renameable(Range, String),
    /// Of `textDocument/rename`: the edits, one for each document.
    Edits(Vec<DocumentEdit>),
    /// Of `textDocument/codeAction`.
    Actions(Vec<CodeAction>),
}

/// Why a request has no result.
#[derive(Clone, Copy, Debug, PartialEq, Eq)]
pub enum ErrorCode {
    /// -32700: what came is no JSON.
    ParseError,
    /// -32600: what came is no message.
    InvalidRequest,
    /// -32601: the method is not known.
    MethodNotFound,
    /// -32602: the parameters are not there, or not as they have to be.
    InvalidParams,
    /// -32002: `initialize` has not come yet.
    ServerNotInitialized,
    /// -32803: the request is understood, and cannot be fulfilled.
    RequestFailed,
}

/// How grave a diagnostic is.
#[derive(Clone, Copy, Debug, PartialEq, Eq)]
pub enum Severity {
    /// 1.
    Error,
    /// 2.
    Warning,
}

/// What is wrong with a part of a document.
#[derive(Drop)]
pub struct Diagnostic {
    /// The part.
    pub range: Range,
    /// How grave it is.
    pub severity: Severity,
    /// The name of the fault or of the lint rule.
    pub code: String,
    /// What a user reads.
    pub message: String,
}

/// All that is wrong with a document.
#[derive(Drop)]
pub struct DocumentDiagnostics {
    /// The document's URI.
    pub uri: String,
    /// The version that this is of, where the document is open.
    pub version: Option<u64>,
    /// The list, in the place of the one before.
    pub diagnostics: Vec<Diagnostic>,
}

/// Where a client shows a message to its user.
#[derive(Clone, Copy, Debug, PartialEq, Eq)]
pub enum MessageType {
    /// 1.
    Error,
    /// 2.
    Warning,
    /// 3.
    Info,
    /// 4.
    Log,
}
