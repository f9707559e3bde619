//! The field that has a token as its default.

ghost use Rattle.std.specs.Prelude.{◌≡◌, ◌<◌, List, IfOk, find, length, map, option_map};
ghost use Rattle.std.specs.List.{list_any};
ghost use Rattle.proto_files.specs.FilesRead.{AreRead, ReadOf, read_at};
ghost use Rattle.proto_names_imports.specs.Links.{text_of};
ghost use Rattle.proto_names_rules.specs.Grown.{at};
ghost use Rattle.proto_ast.specs.Parts.{blocks_in};
ghost use Rattle.proto_ast.specs.Scenes.{text};
ghost use Rattle.proto_ast.specs.Views.{field_of, option_of};
ghost use Rattle.proto_resolved.specs.Blocks.{block_of};
ghost use Rattle.proto_names_at.specs.Defaults.{field_in, first_field, has_default, is_default, is_word};

use crate::place::Place;
use proto_ast::{FieldAt, OptionAt, Scene, extension_fields, fields_of, options_between};
use proto_base::NoMemory;
use proto_edit_rename::scene;
use proto_files::Files;
use proto_resolved::{BlockAt, blocks_of};
use proto_tree::{Constant, FieldType};
use std::alloc::Global;

fn is_word(value: &Constant, token: u32) -> bool
    ensures { result ≡ is_word token value.now }
{
    match value {
        Constant::Word(word) => *word == token,
        Constant::Number(_) | Constant::Text(_) => false,
    }
}

/// Whether the option is a default, the word at the token.
fn is_default(scene: &Scene, option: OptionAt, token: u32) -> bool
    ensures { result ≡ is_default (text scene.now) token (option_of option.entry) }
{
    scene.text(option.name) == "default" && is_word(option.value, token)
}

fn one_is_default(scene: &Scene, options: &[OptionAt], token: u32) -> bool
    ensures { result ≡ list_any (is_default (text scene.now) token) (map option_of options.now) }
{
    for option in options {
        if is_default(scene, *option, token) {
            return true;
        }
    }
    false
}

fn has_default(alloc: Global, scene: &Scene, field: FieldAt, token: u32) -> Result<bool, NoMemory>
    ensures { IfOk result (λ b. b ≡ has_default (text scene.now) token (field_of field.entry)) }
{
    let options = options_between(alloc, field.settings)?;
    Ok(one_is_default(scene, &options, token))
}

/// The first of these fields that has the default.
fn field_with<'a>(
    alloc: Global,
    scene: &Scene,
    fields: &[FieldAt<'a>],
    token: u32,
) -> Result<Option<FieldAt<'a>>, NoMemory>
    ensures { IfOk result (λ found. option_map field_of found
        ≡ find (has_default (text scene.now) token) (map field_of fields.now)) }
{
    for field in fields {
        if has_default(alloc, scene, *field, token)? {
            return Ok(Some(*field));
        }
    }
    Ok(None)
}

/// That of a message or of an `extend`. The fields of a oneof are its message's.
fn field_in<'a>(
    alloc: Global,
    scene: &Scene,
    block: BlockAt<'a>,
    token: u32,
) -> Result<Option<FieldAt<'a>>, NoMemory>
    ensures { IfOk result (λ found. option_map field_of found
        ≡ field_in (text scene.now) token (block_of block.entry)) }
{
    match block {
        BlockAt::Message(message) => {
            let fields = fields_of(alloc, &message.members)?;
            field_with(alloc, scene, &fields, token)
        }
        BlockAt::Extend(extend) => {
            let fields = extension_fields(alloc, &extend.fields)?;
            field_with(alloc, scene, &fields, token)
        }
        BlockAt::Oneof(_) | BlockAt::Enum(_) => Ok(None),
    }
}

/// That of the first block that has one.
fn first_field<'a>(
    alloc: Global,
    scene: &Scene,
    blocks: &[BlockAt<'a>],
    token: u32,
) -> Result<Option<FieldAt<'a>>, NoMemory>
    ensures { IfOk result (λ found. option_map field_of found
        ≡ first_field (text scene.now) token (map block_of blocks.now)) }
{
    for block in blocks {
        if let Some(field) = field_in(alloc, scene, *block, token)? {
            return Ok(Some(field));
        }
    }
    Ok(None)
}

/// The type of the field or extension that has the token as its default.
pub(crate) fn defaulted_type<'a>(
    alloc: Global,
    files: &'a Files,
    place: Place,
) -> Result<Option<&'a FieldType>, NoMemory>
    requires { place.file < length files.now }
    ensures { IfOk result (λ found. (reads : List ReadOf) → AreRead files.entry.now reads
        → option_map (λ kind. kind.now) found ≡ option_map (λ f. f.kind)
        (first_field (λ t. text_of files.entry.now reads (at place.file t)) place.token
        (blocks_in (read_at reads place.file).tree))) }
{
    let scene = scene(alloc, files, place.file);
    let blocks = blocks_of(alloc, files.tree(place.file))?;
    match first_field(alloc, &scene, &blocks, place.token)? {
        Some(field) => Ok(Some(field.kind)),
        None => Ok(None),
    }
}
