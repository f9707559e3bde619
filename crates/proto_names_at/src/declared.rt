//! The name that a token declares.

ghost use Rattle.std.specs.Prelude.{◌≡◌, ◌↔◌, ◌<◌, ℕ, List, IfOk, Some, get_or, length, option_map};
ghost use Rattle.proto_files.specs.FilesRead.{AreRead, ReadOf};
ghost use Rattle.proto_names_at.specs.DeclaredAt.{text_declared_at};
ghost use Rattle.proto_names_at.specs.NamesAt.{DeclaresName, IsOnlyName, at_place};

use crate::place::Place;
use crate::targets::{is_at, target};
use proto_base::NoMemory;
use proto_names::{DeclaredNames, Link, SymbolId};
use proto_resolved::CleanLinked;
use std::alloc::Global;

/// One of these symbols.
fn declared_symbol(declared: &DeclaredNames, index: usize) -> SymbolId
    requires { index < length declared.now.rows.now }
    ensures { result.row ≡ get_or declared.now.rows.now index 0 }
{
    match declared.get(index) {
        Some(id) => id,
        None => unreachable!(),
    }
}

/// The full name of a symbol, if it is declared at the token of its file.
fn text_declared_at(link: &Link, id: SymbolId, token: u32) -> Option<&str>
    ensures { option_map (λ text. text.now) result ≡ text_declared_at link.now id.row token }
{
    if link.token_of(id)? == token {
        link.name_of(id)
    } else {
        None
    }
}

/// The name, if there is one and the token declares what has it.
fn if_declared<'a>(
    alloc: Global,
    linked: &CleanLinked<'_>,
    name: Option<&'a str>,
    place: Place,
) -> Result<Option<&'a str>, NoMemory>
    ensures { IfOk result (λ found. (reads : List ReadOf) → AreRead linked.now.files reads
        → (n : List ℕ) → (option_map (λ text. text.now) found ≡ Some n)
        ↔ ((option_map (λ text. text.now) name.entry ≡ Some n)
        × DeclaresName linked.now.files reads (at_place place) n)) }
{
    let Some(name) = name else {
        return Ok(None);
    };
    // The files have no fault.
    linked.files();
    match target(alloc, linked, name)? {
        Some(target) => {
            if is_at(target, place) {
                Ok(Some(name))
            } else {
                Ok(None)
            }
        }
        None => Ok(None),
    }
}

/// The name of what the token declares, if that may be renamed. Where a map field's entry, with its
/// key and its value, is declared at the same token, it is the field's.
pub(crate) fn declared_name<'a>(
    alloc: Global,
    linked: &CleanLinked<'a>,
    place: Place,
) -> Result<Option<&'a str>, NoMemory>
    ensures { IfOk result (λ found. IsOnlyName linked.now.files
        (λ reads. DeclaresName linked.now.files reads (at_place place))
        (option_map (λ text. text.now) found)) }
{
    let link = linked.link();
    let declared = link.declared_in(place.file);
    for index in 0..declared.len() {
        let name = text_declared_at(link, declared_symbol(&declared, index), place.token);
        let found = if_declared(alloc, linked, name, place)?;
        if found.is_some() {
            return Ok(found);
        }
    }
    Ok(None)
}
