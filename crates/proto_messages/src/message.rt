//! What a client sends.

use crate::position::{Position, Range};

/// What names a request. Its answer has the same.
#[derive(Drop)]
pub enum Id {
    /// An integer of 64 bits.
    Number(i64),
    /// A text.
    Text(String),
}

/// A position in a document.
#[derive(Drop)]
pub struct DocumentPosition {
    /// The document's URI, as the client writes it.
    pub uri: String,
    /// The position.
    pub position: Position,
}

/// A document, as the client has it.
#[derive(Drop)]
pub struct Document {
    /// Its URI, as the client writes it.
    pub uri: String,
    /// Its version. Of two, the later one is greater, not always by one.
    pub version: u64,
    /// Its whole text.
    pub text: String,
}

/// What a request asks for.
#[derive(Drop)]
pub enum Request {
    /// `initialize`: the root of the workspace, if one is named, and whether the client offers
    /// positions that count bytes of UTF-8.
    Initialize(Option<String>, bool),
    /// `shutdown`.
    Shutdown,
    /// `textDocument/definition`.
    Definition(DocumentPosition),
    /// `textDocument/references`, and whether the declaration is wanted among them.
    References(DocumentPosition, bool),
    /// `textDocument/documentSymbol` of the document of this URI.
    DocumentSymbol(String),
    /// `textDocument/prepareRename`.
    PrepareRename(DocumentPosition),
    /// `textDocument/rename`, and the new name.
    Rename(DocumentPosition, String),
    /// `textDocument/codeAction` for a range of the document of this URI.
    CodeAction(String, Range),
    /// Any other method.
    UnknownMethod,
    /// One of these methods, whose parameters are not there or not as they have to be.
    InvalidParams,
}

/// What a notification says.
#[derive(Drop)]
pub enum Notification {
    /// `initialized`.
    Initialized,
    /// `textDocument/didOpen`.
    DidOpen(Document),
    /// `textDocument/didChange`, with the text that the last change gives.
    DidChange(Document),
    /// `textDocument/didChange` that lists no change: the document of this URI has this version,
    /// and its text stays.
    DidChangeNothing(String, u64),
    /// `textDocument/didChange`, where a change gives the text of a range alone.
    DidChangeInRange,
    /// `textDocument/didSave` of the document of this URI.
    DidSave(String),
    /// `textDocument/didClose` of the document of this URI.
    DidClose(String),
    /// `exit`.
    Exit,
    /// One about a document, whose parameters are not there or not as they have to be.
    Malformed,
    /// Any other method.
    Other,
}

/// What a client sends.
#[derive(Drop)]
pub enum Message {
    /// A request, which is answered under its id.
    Request(Id, Request),
    /// A notification, which is not answered.
    Notification(Notification),
    /// An answer to a request of the server's.
    Response,
    /// JSON that is none of these, or a request whose id is no text and no integer of 64 bits.
    NoMessage,
}
