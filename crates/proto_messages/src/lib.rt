//! Messages of the Language Server Protocol: what a client sends, read from JSON, and what a server
//! answers and says, written as JSON.
#![tactic(auto)]

mod capabilities;
mod fields;
mod lists;
mod message;
mod notifications;
mod objects;
mod parts;
mod position;
mod reading;
mod requests;
mod results;
mod writing;

pub use message::{Document, DocumentPosition, Id, Message, Notification, Request};
pub use position::{Position, Range};
pub use reading::{message_of_value, read_message};
pub use results::{
    ActionKind, Answer, CodeAction, Diagnostic, DocumentDiagnostics, DocumentEdit, ErrorCode,
    Location, MessageType, PositionEncoding, Severity, Symbol, SymbolKind, TextEdit,
};
pub use writing::{diagnostics_message, error_message, log_message, result_message, show_message};
