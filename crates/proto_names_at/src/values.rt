//! The value of an enum that a word is.

ghost use Rattle.std.specs.Prelude.{◌≡◌, ◌<◌, List, IfOk, IfNone, IfSome, Some, None, false, true, find, get_or, if◌then◌else◌, length, map, option_map};
ghost use Rattle.std.specs.Str.{bytes_eq};
ghost use Rattle.proto_text.specs.Texts.{word_at};
ghost use Rattle.proto_files.specs.FilesRead.{AreRead, ReadOf, read_at};
ghost use Rattle.proto_names_imports.specs.Links.{text_of};
ghost use Rattle.proto_names_rules.specs.Grown.{at};
ghost use Rattle.proto_names_rules.specs.Linked.{is_package};
ghost use Rattle.proto_names.specs.Linking.{NameOf, name_at};
ghost use Rattle.proto_ast.specs.Parts.{blocks_in};
ghost use Rattle.proto_resolved.specs.Blocks.{block_of, enum_block};
ghost use Rattle.proto_resolved.specs.SceneOf.{is_enum_at};
ghost use Rattle.proto_names_at.specs.Defaults.{value_in, value_of_enum};
ghost use Rattle.proto_names_at.specs.NamesAt.{at_place};

use crate::place::Place;
use proto_ast::values;
use proto_base::NoMemory;
use proto_files::{Files, Words};
use proto_names::{Link, SymbolId};
use proto_resolved::{BlockAt, blocks_of};
use proto_tree::{Enum, Value};
use std::alloc::Global;

/// Where a symbol is declared; none for a package.
pub(crate) fn place_of(link: &Link, id: SymbolId) -> Option<Place>
    ensures some { IfSome result (λ p. (n : NameOf) × (name_at link.now id.row ≡ Some n)
        × (is_package n.kind ≡ false) × (at (get_or n.files 0 0) n.token ≡ at_place p)) }
    ensures none { IfNone result ((n : NameOf) → name_at link.now id.row ≡ Some n
        → is_package n.kind ≡ true) }
{
    let file = link.file_of(id)?;
    let token = link.token_of(id)?;
    Some(Place { file, token })
}

/// The token of the first of these values that is the word.
fn value_with(words: &Words, values: &[&Value], word: &str) -> Option<u32>
    ensures { result ≡ option_map (λ v. v.name)
        (find (λ v. bytes_eq (word_at words.now v.name) word.now) (map (λ v. v.now) values.now)) }
{
    for value in values {
        if words.get(value.name) == word {
            return Some(value.name);
        }
    }
    None
}

/// The block, if it is the enum whose name is at the token.
fn enum_at(block: BlockAt<'_>, token: u32) -> Option<&Enum>
    ensures { option_map (λ e. enum_block e.now) result
        ≡ (if is_enum_at token (block_of block.entry).header then Some (block_of block.entry)
        else None) }
{
    match block {
        BlockAt::Enum(enumeration) => {
            if enumeration.name == token {
                Some(enumeration)
            } else {
                None
            }
        }
        BlockAt::Message(_) | BlockAt::Oneof(_) | BlockAt::Extend(_) => None,
    }
}

/// The first enum whose name is at the token.
fn enum_among<'a>(blocks: &[BlockAt<'a>], token: u32) -> Option<&'a Enum>
    ensures { option_map (λ e. enum_block e.now) result
        ≡ find (λ b. is_enum_at token b.header) (map block_of blocks.now) }
{
    for block in blocks {
        if let Some(found) = enum_at(*block, token) {
            return Some(found);
        }
    }
    None
}

/// The token of the first value of an enum that is the word.
fn value_in(
    alloc: Global,
    words: &Words,
    enumeration: &Enum,
    word: &str,
) -> Result<Option<u32>, NoMemory>
    ensures { IfOk result (λ found. found
        ≡ value_in (word_at words.now) word.now (enum_block enumeration.now).within) }
{
    let values = values(alloc, &enumeration.members)?;
    Ok(value_with(words, &values, word))
}

/// The token of the first value that is the word, in the enum whose name is at the place.
pub(crate) fn value_of_enum(
    alloc: Global,
    files: &Files,
    place: Place,
    word: &str,
) -> Result<Option<u32>, NoMemory>
    requires { place.file < length files.now }
    ensures { IfOk result (λ found. (reads : List ReadOf) → AreRead files.now reads
        → found ≡ value_of_enum (λ t. text_of files.now reads (at place.file t)) word.now
        place.token (blocks_in (read_at reads place.file).tree)) }
{
    let blocks = blocks_of(alloc, files.tree(place.file))?;
    let words = Words::new(files, place.file);
    match enum_among(&blocks, place.token) {
        Some(found) => value_in(alloc, &words, found, word),
        None => Ok(None),
    }
}
