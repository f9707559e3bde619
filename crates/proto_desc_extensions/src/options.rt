//! What is wrong with the custom options of a file: the extension that one means may extend the
//! options message of another element.

ghost use Rattle.std.specs.Prelude.{◌≡◌, ◌<◌, ◌++◌, List, length, map, option_map, IfOk, OnOk};
ghost use Rattle.std.specs.List.{All, list_any};
ghost use Rattle.std.specs.Str.{bytes_eq};
ghost use Rattle.proto_files.specs.FilesRead.{AreRead, ReadOf, read_at};
ghost use Rattle.proto_custom_options.specs.CustomOptions.{customs_in, options_text};
ghost use Rattle.proto_custom_options.specs.Views.{custom_of};
ghost use Rattle.proto_desc_extensions.specs.Extensions.{is_an_option, not_an_option, option_extends, custom_flaws};
ghost use Rattle.proto_desc_extensions.specs.ExtendedTables.{AreRowsOfFiles, meant_text, told_text};
ghost use Rattle.proto_desc_extensions.specs.Listed.{AreNumberFlaws, AreWorkspaceFlaws};
ghost use Rattle.proto_desc_extensions.specs.Options.{IsOfOneWord, IsPlaceMeant, is_as_written, is_written};

use crate::extended_table::{Extended, PlaceAt, extended_at};
use indexmap::IndexMap;
use proto_base::{FaultKind, NoMemory, Profile};
use proto_custom_options::laws::core_trees_have_no_custom;
use proto_custom_options::{CustomAt, customs};
use proto_desc_numbers::{Flaw, add_if};
use proto_files::Files;
use proto_resolved::Linked;
use proto_tree::Reference;
use std::alloc::Global;

// ---- whether there may be options

fn is_as_written(profile: Profile) -> bool
    ensures { result ≡ is_as_written profile }
{
    matches!(profile, Profile::AsWritten)
}

/// Whether some file is as written.
pub(crate) fn some_is_written(files: &Files) -> bool
    ensures { result ≡ list_any is_written files.now }
{
    for file in 0..files.len() as u32 {
        if is_as_written(files.profile(file)) {
            return true;
        }
    }
    false
}

/// The custom options of a file, in order. A file of the core language has none.
fn options_in<'a>(alloc: Global, files: &'a Files, file: u32) -> Result<Vec<CustomAt<'a>>, NoMemory>
    requires { file < length files.now }
    ensures { IfOk result (λ options. (reads : List ReadOf) → AreRead files.entry.now reads
        → map custom_of options.items ≡ customs_in (read_at reads file).tree) }
{
    core_trees_have_no_custom();
    match files.profile(file) {
        Profile::Core => Ok(Vec::new(alloc)),
        Profile::AsWritten => customs(alloc, files.tree(file)),
    }
}

// ---- options of one file

/// A file with the link.
#[derive(Clone, Copy)]
struct OptionsFile<'a> {
    linked: &'a Linked<'a>,
    file: u32,
}

/// Where the extension is declared that a reference means; none where it means nothing.
fn place_meant(at: &OptionsFile, name: &Reference) -> Option<PlaceAt>
    requires { at.now.file < length at.now.linked.now.files }
    ensures { (reads : List ReadOf) → AreRead at.now.linked.now.files reads
        → IsPlaceMeant at.now.linked.now.files reads at.now.file name.now result }
{
    let link = at.linked.link();
    let first = name.dot.unwrap_or(name.words.first);
    let meant = link.meaning(at.file, first)?;
    let file = link.file_of(meant)?;
    let token = link.token_of(meant)?;
    Some(PlaceAt { file, token })
}

/// What the extension extends that a reference means; none where it means nothing.
fn extended_by<'a>(
    alloc: Global,
    rows: &mut IndexMap<u32, IndexMap<u32, Extended<'a>>>,
    at: &OptionsFile<'a>,
    name: &Reference,
) -> Result<Option<&'a str>, NoMemory>
    requires file { at.now.file < length at.now.linked.now.files }
    requires rows { AreRowsOfFiles at.now.linked.now.files rows.old }
    ensures rows { OnOk result (AreRowsOfFiles at.now.linked.now.files rows.new) }
    ensures extended { IfOk result (λ found. (reads : List ReadOf)
        → AreRead at.now.linked.now.files reads
        → told_text (option_map (λ text. text.now) found)
        ≡ meant_text (option_extends at.now.linked.now.files reads at.now.file name.now)) }
{
    match place_meant(at, name) {
        Some(place) => extended_at(alloc, rows, at.linked, place),
        None => Ok(None),
    }
}

/// Whether a name is this front, and behind it the rest.
fn is_joined(name: &[u8], front: &[u8], rest: &[u8]) -> bool
    ensures { result ≡ bytes_eq name.now (front.now ++ rest.now) }
{
    match name.strip_prefix(front) {
        Some(behind) => behind == rest,
        None => false,
    }
}

/// Whether a full name is that of the options message with a simple name.
fn is_options_text(name: &str, message: &str) -> bool
    ensures { result ≡ bytes_eq name.now (options_text message.now) }
{
    is_joined(
        name.as_bytes(),
        "google.protobuf.".as_bytes(),
        message.as_bytes(),
    )
}

/// Whether what is extended is the options message with a simple name.
fn is_the_message(extended: Option<&str>, message: &str) -> bool
    ensures { result ≡ bytes_eq (told_text (option_map (λ text. text.now) extended.entry))
        (options_text message.now) }
{
    match extended {
        Some(name) => is_options_text(name, message),
        None => false,
    }
}

/// Whether the extension that an option means extends the options message of its element.
fn is_an_option<'a>(
    alloc: Global,
    rows: &mut IndexMap<u32, IndexMap<u32, Extended<'a>>>,
    at: &OptionsFile<'a>,
    option: CustomAt,
) -> Result<bool, NoMemory>
    requires file { at.now.file < length at.now.linked.now.files }
    requires rows { AreRowsOfFiles at.now.linked.now.files rows.old }
    ensures rows { OnOk result (AreRowsOfFiles at.now.linked.now.files rows.new) }
    ensures is { IfOk result (λ is. (reads : List ReadOf) → AreRead at.now.linked.now.files reads
        → IsOfOneWord (custom_of option.entry)
        → is ≡ is_an_option at.now.linked.now.files reads at.now.file (custom_of option.entry)) }
{
    // By this the names that are meant are plain.
    at.linked.link();
    let extended = extended_by(alloc, rows, at, &option.custom.name)?;
    Ok(is_the_message(extended, option.message))
}

/// Adds a flaw at the name of each option whose extension is one of another element.
fn add_flaws<'a>(
    alloc: Global,
    found: &mut Vec<Flaw>,
    rows: &mut IndexMap<u32, IndexMap<u32, Extended<'a>>>,
    at: &OptionsFile<'a>,
    options: &[CustomAt],
) -> Result<(), NoMemory>
    requires file { at.now.file < length at.now.linked.now.files }
    requires rows { AreRowsOfFiles at.now.linked.now.files rows.old }
    ensures rows { OnOk result (AreRowsOfFiles at.now.linked.now.files rows.new) }
    ensures flaws { OnOk result ((reads : List ReadOf) → AreRead at.now.linked.now.files reads
        → All IsOfOneWord (map custom_of options.now)
        → found.new.items ≡ found.old.items ++ not_an_option at.now.linked.now.files reads
        at.now.file (map custom_of options.now)) }
{
    for option in options {
        let is_wrong = !is_an_option(alloc, rows, at, *option)?;
        let name = &option.custom.name;
        let first = name.dot.unwrap_or(name.words.first);
        add_if(found, is_wrong, FaultKind::NotAnOption, first)?;
    }
    Ok(())
}

/// The flaws of a file's options, behind those that are given.
fn flaws_of_file<'a>(
    alloc: Global,
    rows: &mut IndexMap<u32, IndexMap<u32, Extended<'a>>>,
    at: &OptionsFile<'a>,
    numbers: &[Flaw],
) -> Result<Vec<Flaw>, NoMemory>
    requires file { at.now.file < length at.now.linked.now.files }
    requires rows { AreRowsOfFiles at.now.linked.now.files rows.old }
    ensures rows { OnOk result (AreRowsOfFiles at.now.linked.now.files rows.new) }
    ensures flaws { IfOk result (λ found. (reads : List ReadOf)
        → AreRead at.now.linked.now.files reads
        → found.items ≡ numbers.now ++ custom_flaws at.now.linked.now.files reads at.now.file) }
{
    let options = options_in(alloc, at.linked.files(), at.file)?;
    let mut found = Vec::new(alloc);
    found.extend_from_slice(numbers)?;
    add_flaws(alloc, &mut found, rows, at, &options)?;
    Ok(found)
}

/// What is wrong with the custom options of the file with this number: with each of which the
/// extension does not extend the options message of the element. Of other files only those are read
/// that declare an extension that an option means, and those of what such a one extends. Fails only
/// when out of memory.
pub fn option_flaws(alloc: Global, linked: &Linked<'_>, file: u32) -> Result<Vec<Flaw>, NoMemory>
    requires { file < length linked.now.files }
    ensures { IfOk result (λ found. (reads : List ReadOf) → AreRead linked.now.files reads
        → found.items ≡ custom_flaws linked.now.files reads file) }
{
    let mut rows = IndexMap::new(alloc);
    let at = OptionsFile { linked, file };
    flaws_of_file(alloc, &mut rows, &at, &[])
}

// ---- all files

/// The flaws of extensions' numbers, and behind them, file by file, those of options.
pub(crate) fn with_options(
    alloc: Global,
    linked: &Linked<'_>,
    numbers: &[Vec<Flaw>],
) -> Result<Vec<Vec<Flaw>>, NoMemory>
    requires { AreNumberFlaws linked.now.files numbers.now }
    ensures { IfOk result (λ found. AreWorkspaceFlaws linked.now.files found.items) }
{
    let mut found = Vec::new(alloc);
    let mut rows = IndexMap::new(alloc);
    for file in 0..linked.file_count() as u32 {
        let at = OptionsFile { linked, file };
        found.push(flaws_of_file(alloc, &mut rows, &at, &numbers[file as usize])?)?;
    }
    Ok(found)
}
