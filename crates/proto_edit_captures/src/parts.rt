//! The parts of a full name as text, and names beside it.

ghost use Rattle.std.specs.Prelude.{◌≡◌, ◌<◌, ◌++◌, List, ℕ, length, option_map, IfOk, None, Some, if◌then◌else◌};
ghost use Rattle.std.specs.String.{string_bytes};
ghost use Rattle.proto_case.specs.Camel.{entry_name};
ghost use Rattle.proto_files.specs.FilesRead.{ReadOf, AreRead};
ghost use Rattle.proto_names_imports.specs.Links.{text_of};
ghost use Rattle.proto_names_rules.specs.Grown.{at};

use proto_base::NoMemory;
use proto_case::entry_name;
use proto_files::{Files, Words};
use std::alloc::Global;

/// The text of a token, as a name is spelled by it.
pub(crate) fn word<'a>(files: &'a Files, file: u32, token: u32) -> &'a str
    requires { file < length files.now }
    ensures { (reads : List ReadOf) → AreRead files.entry.now reads
        → result.now ≡ text_of files.entry.now reads (at file token) }
{
    Words::new(files, file).get(token)
}

/// What stands before the last word of a full name: nothing, or what it is declared in and a dot.
pub fn front<'a>(name: &'a str, word: &str) -> &'a str
    requires { (front : List ℕ) × (name.now ≡ front ++ word.now) }
    ensures { name.entry.now ≡ result.now ++ word.now }
{
    match name.strip_suffix(word) {
        Some(front) => front,
        None => unreachable!(),
    }
}

/// The full name of a word behind a front.
pub fn beside(alloc: Global, front: &str, word: &str) -> Result<String, NoMemory>
    ensures { IfOk result (λ name. string_bytes name ≡ front.now ++ word.now) }
{
    let mut name = front.to_string(alloc)?;
    name.push_str(word)?;
    Ok(name)
}

/// The name of a map field's entry; none for what is no map field.
pub(crate) fn entry_of(alloc: Global, is_map: bool, word: &str) -> Result<Option<String>, NoMemory>
    ensures { IfOk result (λ entry.
        option_map string_bytes entry ≡ (if is_map then Some (entry_name word.now) else None)) }
{
    if is_map {
        Ok(Some(entry_name(alloc, word)?))
    } else {
        Ok(None)
    }
}
