//! Where what stands at an offset is declared and used.

ghost use Rattle.std.specs.Prelude.{◌≡◌, ◌<◌, ◌++◌, List, [], ◌∷◌, Bool, All, IfOk, OnOk, if◌then◌else◌, length, map};
ghost use Rattle.std.specs.List.{filter};
ghost use Rattle.proto_files.specs.FilesRead.{AreRead, ReadOf};
ghost use Rattle.proto_names_rules.specs.Grown.{At, at};
ghost use Rattle.proto_answers.specs.Declaring.{MayBeRenamed};
ghost use Rattle.proto_answers.specs.Ranges.{location_of};
ghost use Rattle.proto_answers.specs.References.{AreReferences, AreReferencesAt, IsLeftOut, is_listed, listed_tokens};

use crate::declaring::{FileToken, declaring_token};
use crate::ranges::{Location, range_from, span_of};
use crate::standing::{FileOffset, named_token_at};
use proto_edit::{Files, NoMemory, Workspace};
use proto_edit_rename::{FileOccurrences, occurrences};
use proto_names_at::laws::names_occur;
use proto_positions::{Cursor, Encoding};
use std::alloc::Global;

/// Whether the token is not the one that is left out.
fn is_listed(left_out: Option<FileToken>, file: u32, token: u32) -> bool
    ensures { result ≡ is_listed left_out (at file token) }
{
    match left_out {
        Some(other) => !(file == other.file && token == other.token),
        None => true,
    }
}

/// Adds a location, if it is listed.
fn push_listed(all: &mut Vec<Location>, listed: bool, location: Location) -> Result<(), NoMemory>
    ensures { OnOk result (all.new.items
        ≡ all.old.items ++ (if listed then location ∷ [] else [])) }
{
    if listed {
        all.push(location)?;
    }
    Ok(())
}

/// Adds where the tokens of a file stand, without the one that is left out. As they rise, the text
/// is gone through once.
fn add_locations(
    all: &mut Vec<Location>,
    files: &Files,
    encoding: Encoding,
    found: &FileOccurrences,
    left_out: Option<FileToken>,
) -> Result<(), NoMemory>
    requires { found.now.file < length files.now }
    ensures { OnOk result ((reads : List ReadOf) → AreRead files.now reads
        → all.new.items ≡ all.old.items ++ map (location_of encoding files.now reads)
        (filter (is_listed left_out) (map (at found.now.file) found.now.tokens.items))) }
{
    let file = found.file;
    let text = files.source(file).as_bytes();
    let tokens = files.tokens(file);
    let mut cursor = Cursor::new();
    for token in found.tokens.as_slice() {
        let (range, next) = range_from(text, encoding, cursor, span_of(tokens, *token));
        cursor = next;
        push_listed(
            all,
            is_listed(left_out, file, *token),
            Location { file, range },
        )?;
    }
    Ok(())
}

/// Where the tokens of files stand, without the one that is left out.
fn all_locations(
    alloc: Global,
    files: &Files,
    encoding: Encoding,
    found: &[FileOccurrences],
    left_out: Option<FileToken>,
) -> Result<Vec<Location>, NoMemory>
    requires { All (λ o. o.file < length files.now) found.now }
    ensures { IfOk result (λ all. (reads : List ReadOf) → AreRead files.now reads
        → all.items ≡ map (location_of encoding files.now reads)
        (listed_tokens left_out found.now)) }
{
    let mut all = Vec::new(alloc);
    for occurrences in found {
        add_locations(&mut all, files, encoding, occurrences, left_out)?;
    }
    Ok(all)
}

/// Where the references to a name stand, without the token that is left out.
fn locations_of_name(
    alloc: Global,
    workspace: &Workspace,
    encoding: Encoding,
    name: &str,
    left_out: Option<FileToken>,
) -> Result<Vec<Location>, NoMemory>
    requires { MayBeRenamed workspace.now name.now }
    ensures { IfOk result (λ all. (reads : List ReadOf) → AreRead workspace.now reads
        → (with_declaration : Bool) → IsLeftOut workspace.now name.now with_declaration left_out
        → (tokens : List At) × AreReferences workspace.now reads name.now with_declaration tokens
        × (all.items ≡ map (location_of encoding workspace.now reads) tokens)) }
{
    names_occur();
    let files = workspace.files();
    match occurrences(alloc, files, workspace.link(), name)? {
        Some(found) => all_locations(alloc, files, encoding, &found, left_out),
        None => unreachable!(),
    }
}

/// The token that declares what has the name, where the declaration is not asked for.
fn left_out_token(
    alloc: Global,
    workspace: &Workspace,
    name: &str,
    with_declaration: bool,
) -> Result<Option<FileToken>, NoMemory>
    requires { MayBeRenamed workspace.now name.now }
    ensures { IfOk result (IsLeftOut workspace.now name.now with_declaration) }
{
    if with_declaration {
        return Ok(None);
    }
    let declaring = declaring_token(alloc, workspace, name)?;
    Ok(Some(declaring))
}

/// Where the tokens stand that a rename of what stands at the offset of a file of the workspace
/// would change, in the order of files and tokens, each once: the one that declares it, where the
/// declaration is asked for, the words of references, and for a value the defaults that mean it.
/// None where no name of a symbol that may be renamed stands there. Fails only when out of memory.
pub fn references_at(
    alloc: Global,
    workspace: &Workspace,
    encoding: Encoding,
    spot: FileOffset,
    with_declaration: bool,
) -> Result<Option<Vec<Location>>, NoMemory>
    ensures { IfOk result (AreReferencesAt workspace.now encoding spot with_declaration) }
{
    let Some(found) = named_token_at(alloc, workspace, spot)? else {
        return Ok(None);
    };
    let name = found.name.as_str();
    let left_out = left_out_token(alloc, workspace, name, with_declaration)?;
    let locations = locations_of_name(alloc, workspace, encoding, name, left_out)?;
    Ok(Some(locations))
}
