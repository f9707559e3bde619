//! Defaults that mean a value of an enum.

ghost use Rattle.std.specs.Prelude.{◌≡◌, ◌<◌, ◌++◌, ℕ, List, [], Some, flat_map, map, length, option_to_list, if◌then◌else◌, codes, IfOk, OnOk};
ghost use Rattle.std.specs.List.{list_any};
ghost use Rattle.proto_tree.specs.declared.tree.FieldType.TheVariants as field_type;
ghost use Rattle.proto_files.specs.FilesRead.{AreRead, ReadOf, read_at};
ghost use Rattle.proto_names_rules.specs.Joined.{ArePlain, joined};
ghost use Rattle.proto_names.specs.Linking.{name_text};
ghost use Rattle.proto_ast.specs.Options.{is_named};
ghost use Rattle.proto_ast.specs.Scenes.{text};
ghost use Rattle.proto_ast.specs.Views.{field_of, option_of};
ghost use Rattle.proto_edit_rename_laws.specs.Renamed.{constant_tokens};
ghost use Rattle.proto_edit_rules.specs.Rename.{fields_of_file, renamed_default};
ghost use Rattle.proto_edit_rename.specs.Blocks.{block_of};
ghost use Rattle.proto_edit_rename.specs.Defaults.{asked_defaults, asked_type, defaults_in, is_found_name, spelled, text_meant};

use crate::scenes::scene;
use crate::{BlockAt, blocks_of};
use proto_ast::{FieldAt, OptionAt, Scene, extension_fields, fields_of, options_between};
use proto_base::NoMemory;
use proto_names::{Link, Meant, SymbolId};
use proto_resolved::CleanLinked;
use proto_tree::{Constant, FieldType, Reference};
use std::alloc::Global;

/// What is asked of the fields of a file: a type that means the enum,
/// and a default that is the old word.
#[derive(Clone, Copy)]
pub(crate) struct Asked<'a> {
    link: &'a Link,
    file: u32,
    enum_name: &'a str,
    old: &'a str,
}

// ---- types

fn has_name(link: &Link, id: SymbolId, name: &str) -> bool
    ensures { result ≡ is_found_name name.now (name_text link.now id.row) }
{
    match link.name_of(id) {
        Some(text) => text == name,
        None => false,
    }
}

/// Whether one of these means the name.
fn one_means(link: &Link, name: &str, meant: &[Meant]) -> bool
    ensures { result ≡ list_any (λ m. is_found_name name.now (name_text link.now m.row)) meant.now }
{
    meant.iter().any(|m| has_name(link, m.symbol(), name))
}

/// Whether the reference with this first token means the name.
fn means(link: &Link, file: u32, first: u32, name: &str) -> bool
    ensures { result ≡ is_found_name name.now (text_meant link.now file first) }
{
    match link.meaning(file, first) {
        Some(id) => has_name(link, id, name),
        None => false,
    }
}

fn means_enum(asked: &Asked, reference: &Reference) -> bool
    ensures { result ≡ asked_type asked.now (field_type.Reference reference.now) }
{
    let first = reference.dot.unwrap_or(reference.words.first);
    means(asked.link, asked.file, first, asked.enum_name)
}

fn is_asked(asked: &Asked, kind: &FieldType) -> bool
    ensures { result ≡ asked_type asked.now kind.now }
{
    match kind {
        FieldType::Scalar(_) => false,
        FieldType::Reference(reference) => means_enum(asked, reference),
    }
}

// ---- words

fn constant_word(value: &Constant) -> Option<u32>
    ensures { option_to_list result ≡ constant_tokens value.now }
{
    match value {
        Constant::Word(word) => Some(*word),
        Constant::Number(_) | Constant::Text(_) => None,
    }
}

/// The word of an option, if it is a default.
fn default_word(scene: &Scene, option: OptionAt) -> Option<u32>
    ensures { option_to_list result
        ≡ (if is_named (text scene.now) (codes "default") (option_of option.entry)
        then constant_tokens (option_of option.entry).value
        else []) }
{
    if scene.text(option.name) != "default" {
        return None;
    }
    constant_word(option.value)
}

/// Adds the word of an option, if it is a default with the text.
fn push_default(
    found: &mut Vec<u32>,
    scene: &Scene,
    option: OptionAt,
    old: &str,
) -> Result<(), NoMemory>
    ensures { OnOk result (found.new.items ≡ found.old.items ++ spelled (text scene.now) old.now
        (if is_named (text scene.now) (codes "default") (option_of option.entry)
        then constant_tokens (option_of option.entry).value
        else [])) }
{
    let Some(word) = default_word(scene, option) else {
        return Ok(());
    };
    if scene.text(word) == old {
        found.push(word)?;
    }
    Ok(())
}

/// Adds the defaults among the options that have the text.
fn push_defaults(
    found: &mut Vec<u32>,
    scene: &Scene,
    options: &[OptionAt],
    old: &str,
) -> Result<(), NoMemory>
    ensures { OnOk result (found.new.items ≡ found.old.items ++ spelled (text scene.now) old.now
        (flat_map (λ o. if is_named (text scene.now) (codes "default") o
        then constant_tokens o.value
        else []) (map option_of options.now))) }
{
    for option in options {
        push_default(found, scene, *option, old)?;
    }
    Ok(())
}

// ---- fields

fn push_field(
    alloc: Global,
    found: &mut Vec<u32>,
    scene: &Scene,
    asked: &Asked,
    field: FieldAt,
) -> Result<(), NoMemory>
    ensures { OnOk result (found.new.items ≡ found.old.items
        ++ asked_defaults (text scene.now) asked.now (field_of field.entry)) }
{
    if !is_asked(asked, field.kind) {
        return Ok(());
    }
    let options = options_between(alloc, field.settings)?;
    push_defaults(found, scene, &options, asked.old)
}

fn push_fields(
    alloc: Global,
    found: &mut Vec<u32>,
    scene: &Scene,
    asked: &Asked,
    fields: &[FieldAt],
) -> Result<(), NoMemory>
    ensures { OnOk result (found.new.items ≡ found.old.items
        ++ flat_map (asked_defaults (text scene.now) asked.now) (map field_of fields.now)) }
{
    for field in fields {
        push_field(alloc, found, scene, asked, *field)?;
    }
    Ok(())
}

/// Adds those of a message or of an `extend`. The fields of a oneof are its message's.
fn push_block(
    alloc: Global,
    found: &mut Vec<u32>,
    scene: &Scene,
    asked: &Asked,
    block: BlockAt,
) -> Result<(), NoMemory>
    ensures { OnOk result (found.new.items ≡ found.old.items ++ defaults_in
        (text scene.now) (asked_type asked.now) asked.now.old.now (block_of block.entry)) }
{
    match block {
        BlockAt::Message(message) => {
            let fields = fields_of(alloc, &message.members)?;
            push_fields(alloc, found, scene, asked, &fields)
        }
        BlockAt::Extend(extend) => {
            let fields = extension_fields(alloc, &extend.fields)?;
            push_fields(alloc, found, scene, asked, &fields)
        }
        BlockAt::Oneof(_) | BlockAt::Enum(_) => Ok(()),
    }
}

fn defaults(
    alloc: Global,
    scene: &Scene,
    asked: &Asked,
    blocks: &[BlockAt],
) -> Result<Vec<u32>, NoMemory>
    ensures { IfOk result (λ found. found.items ≡ flat_map
        (defaults_in (text scene.now) (asked_type asked.now) asked.now.old.now)
        (map block_of blocks.now)) }
{
    let mut found = Vec::new(alloc);
    for block in blocks {
        push_block(alloc, &mut found, scene, asked, *block)?;
    }
    Ok(found)
}

/// The defaults of a file, by their tokens in order, that mean the value with the old word of the
/// enum with this full name: those of the fields and extensions whose type means the enum.
pub(crate) fn renamed_defaults_in<'a>(
    alloc: Global,
    linked: &CleanLinked<'a>,
    file: u32,
    enum_name: &'a str,
    old: &'a str,
) -> Result<Vec<u32>, NoMemory>
    requires { file < length linked.now.files }
    ensures { IfOk result (λ found. (reads : List ReadOf) → AreRead linked.now.files reads
        → (enum : List (List ℕ)) → ArePlain enum → joined enum ≡ enum_name.now
        → found.items ≡ flat_map (renamed_default linked.now.files reads (Some enum) old.now file)
        (fields_of_file (read_at reads file).tree)) }
{
    let files = linked.files();
    let link = linked.link();
    let scene = scene(alloc, files, file);
    let tree = files.tree(file);
    // Most files do not use the enum: their fields are not gone through.
    if !one_means(link, enum_name, link.meant_in(file)) {
        return Ok(Vec::new(alloc));
    }
    let blocks = blocks_of(alloc, tree)?;
    let asked = Asked {
        link,
        file,
        enum_name,
        old,
    };
    defaults(alloc, &scene, &asked, &blocks)
}
