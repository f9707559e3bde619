//! The refusal for a captured reference.

ghost use Rattle.std.specs.Prelude.{◌<◌, length, IfOk};
ghost use Rattle.proto_edit_captures.specs.CapturedPlaces.{IsCapturedPlace};

use proto_base::NoMemory;
use proto_edit_entries::Refusal;
use proto_files::{Files, offset_of};
use std::alloc::Global;

/// The refusal for a captured reference, with the place of its first token. Fails only when out
/// of memory.
pub fn captured_refusal(
    alloc: Global,
    files: &Files,
    file: u32,
    token: u32,
) -> Result<Refusal, NoMemory>
    requires { file < length files.now }
    ensures { IfOk result (IsCapturedPlace files.now file token) }
{
    Ok(Refusal::Captured {
        path: files.path(file).to_string(alloc)?,
        offset: offset_of(files.tokens(file), token),
    })
}
