//! Faults of texts and their grammar, as faults of the files at their paths.

ghost use Rattle.std.specs.Prelude.{◌≡◌};
ghost use Rattle.proto_files.specs.Reading.{lex_kind, text_error, grammar_error};

use proto_base::{Fault, FaultKind, SchemaFault};
use proto_text::{LexFault, TextFault};
use proto_tree::ParseFault;

fn lex_kind(fault: LexFault) -> FaultKind
    ensures { result ≡ lex_kind fault }
{
    match fault {
        LexFault::BadChar => FaultKind::BadChar,
        LexFault::OpenComment => FaultKind::OpenComment,
        LexFault::OpenString => FaultKind::OpenString,
        LexFault::BadEscape => FaultKind::BadEscape,
        LexFault::BadNumber => FaultKind::BadNumber,
    }
}

/// A fault of the text of the file at a path.
pub fn text_error(path: String, fault: TextFault) -> SchemaFault
    ensures { result ≡ text_error path fault }
{
    let (offset, kind) = match fault {
        TextFault::TooLarge => (0, FaultKind::TooLarge),
        TextFault::NotUtf8 => (0, FaultKind::NotUtf8),
        TextFault::At { offset, fault } => (offset, lex_kind(fault)),
        TextFault::NoMemory => return SchemaFault::NoMemory,
    };
    SchemaFault::Schema(Fault { path, offset, kind })
}

/// A fault of the grammar of the file at a path.
pub fn grammar_error(path: String, fault: ParseFault) -> SchemaFault
    ensures { result ≡ grammar_error path fault }
{
    let (offset, kind) = match fault {
        ParseFault::Syntax { offset } => (offset, FaultKind::Syntax),
        ParseFault::TooDeep { offset } => (offset, FaultKind::TooDeep),
        ParseFault::NoMemory => return SchemaFault::NoMemory,
    };
    SchemaFault::Schema(Fault { path, offset, kind })
}
