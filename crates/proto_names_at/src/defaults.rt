//! The value that a default means.

ghost use Rattle.std.specs.Prelude.{◌≡◌, ◌↔◌, ◌<◌, ℕ, List, IfOk, Some, length, option_map};
ghost use Rattle.proto_files.specs.FilesRead.{AreRead, ReadOf};
ghost use Rattle.proto_names_imports.specs.Links.{text_of};
ghost use Rattle.proto_names_rules.specs.Joined.{ArePlain, joined};
ghost use Rattle.proto_names.specs.Linking.{name_text};
ghost use Rattle.proto_edit_rules.specs.Rename.{IsNamed, Target};
ghost use Rattle.proto_names_at.specs.Defaults.{row_of_type};
ghost use Rattle.proto_names_at.specs.NamesAt.{DefaultsToName, IsOnlyName, at_place};

use crate::declared::declared_name;
use crate::fields::defaulted_type;
use crate::place::Place;
use crate::values::{place_of, value_of_enum};
use proto_base::NoMemory;
use proto_files::Words;
use proto_names::{Link, SymbolId};
use proto_resolved::CleanLinked;
use proto_tree::FieldType;
use std::alloc::Global;

/// What the type means, where it is a reference.
fn type_meant(link: &Link, file: u32, kind: &FieldType) -> Option<SymbolId>
    ensures { option_map (λ id. id.row) result ≡ row_of_type link.now file kind.now }
{
    match kind {
        FieldType::Scalar(_) => None,
        FieldType::Reference(reference) => {
            let first = reference.dot.unwrap_or(reference.words.first);
            link.meaning(file, first)
        }
    }
}

/// The name of the value that is the word, of the enum that is this symbol.
fn value_name<'a>(
    alloc: Global,
    linked: &CleanLinked<'a>,
    id: SymbolId,
    word: &str,
) -> Result<Option<&'a str>, NoMemory>
    ensures { IfOk result (λ found. (reads : List ReadOf) → AreRead linked.now.files reads
        → (enum : List (List ℕ)) → ArePlain enum
        → name_text linked.now.link id.row ≡ Some (joined enum)
        → (n : List ℕ) → (option_map (λ text. text.now) found ≡ Some n)
        ↔ ((t : Target) × IsNamed linked.now.files reads n t × (t.enum ≡ Some enum)
        × (text_of linked.now.files reads t.token ≡ word.now))) }
{
    let Some(place) = place_of(linked.link(), id) else {
        return Ok(None);
    };
    let file = place.file;
    match value_of_enum(alloc, linked.files(), place, word)? {
        Some(token) => declared_name(alloc, linked, Place { file, token }),
        None => Ok(None),
    }
}

/// The name of the value that the token means, if it is a default.
pub(crate) fn default_name<'a>(
    alloc: Global,
    linked: &CleanLinked<'a>,
    place: Place,
) -> Result<Option<&'a str>, NoMemory>
    requires { place.file < length linked.now.files }
    ensures { IfOk result (λ found. IsOnlyName linked.now.files
        (λ reads. DefaultsToName linked.now.files reads (at_place place))
        (option_map (λ text. text.now) found)) }
{
    let files = linked.files();
    let Some(kind) = defaulted_type(alloc, files, place)? else {
        return Ok(None);
    };
    let Some(id) = type_meant(linked.link(), place.file, kind) else {
        return Ok(None);
    };
    let word = Words::new(files, place.file).get(place.token);
    value_name(alloc, linked, id, word)
}
