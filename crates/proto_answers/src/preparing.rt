//! What a rename at an offset would replace there.

ghost use Rattle.std.specs.Prelude.{◌≡◌, ◌<◌, List, IfOk, length};
ghost use Rattle.std.specs.String.{string_bytes};
ghost use Rattle.proto_files.specs.FilesRead.{AreRead, ReadOf};
ghost use Rattle.proto_names_imports.specs.Links.{text_of};
ghost use Rattle.proto_names_rules.specs.Grown.{at};
ghost use Rattle.proto_answers.specs.Answers.{IsPreparedAt};
ghost use Rattle.proto_answers.specs.Ranges.{location_of};

use crate::ranges::{Location, location_of};
use crate::standing::{FileOffset, named_token_at};
use proto_edit::{Files, NoMemory, Workspace};
use proto_files::Words;
use proto_positions::Encoding;
use std::alloc::Global;

/// A token that stands for a name.
#[derive(Drop)]
pub struct Prepared {
    /// Where it stands.
    pub location: Location,
    /// Its word.
    pub word: String,
}

/// Where the token of this file with this index stands, and its word.
fn prepared_at(
    alloc: Global,
    files: &Files,
    encoding: Encoding,
    file: u32,
    token: u32,
) -> Result<Prepared, NoMemory>
    requires { file < length files.now }
    ensures { IfOk result (λ p. (reads : List ReadOf) → AreRead files.now reads
        → (p.location ≡ location_of encoding files.now reads (at file token))
        × (string_bytes p.word ≡ text_of files.now reads (at file token))) }
{
    let location = location_of(files, encoding, file, token);
    let word = Words::new(files, file).get(token).to_string(alloc)?;
    Ok(Prepared { location, word })
}

/// Where the word stands that covers the offset or, where no word does, ends there, and its text.
/// None where it stands for no name of a symbol that may be renamed, and where there is no such
/// word or file. Fails only when out of memory.
pub fn prepare_rename(
    alloc: Global,
    workspace: &Workspace,
    encoding: Encoding,
    spot: FileOffset,
) -> Result<Option<Prepared>, NoMemory>
    ensures { IfOk result (IsPreparedAt workspace.now encoding spot) }
{
    let Some(found) = named_token_at(alloc, workspace, spot)? else {
        return Ok(None);
    };
    let word = prepared_at(alloc, workspace.files(), encoding, spot.file, found.token)?;
    Ok(Some(word))
}
