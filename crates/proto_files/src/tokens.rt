//! Where the tokens of files stand, and faults at them.

ghost use Rattle.std.specs.Prelude.{◌≡◌, ◌<◌, length};
ghost use Rattle.proto_text.specs.Texts.{offset_at};
ghost use Rattle.proto_files.specs.FileTokens.{IsAtToken};

use crate::files::Files;
use proto_base::{Fault, FaultKind, SchemaFault};
use proto_text::Token;
use std::alloc::Global;

/// Where the token with this index begins, in bytes from 0; 0 where there is no such token.
pub fn offset_of(tokens: &[Token], token: u32) -> u32
    ensures { result ≡ offset_at tokens.now token }
{
    match tokens.get(token as usize) {
        Some(there) => there.span.start,
        None => 0,
    }
}

/// A fault at a token of the file at a place: at its first byte, or at 0 where there is no such
/// token. Out of memory is answered where the path cannot be copied.
pub fn fault_at_token(
    alloc: Global,
    files: &Files,
    file: u32,
    token: u32,
    kind: FaultKind,
) -> SchemaFault
    requires { file < length files.now }
    ensures { IsAtToken files.now file token kind result }
{
    match String::from_str(alloc, files.path(file)) {
        Ok(path) => SchemaFault::Schema(Fault {
            path,
            offset: offset_of(files.tokens(file), token),
            kind,
        }),
        Err(_) => SchemaFault::NoMemory,
    }
}
