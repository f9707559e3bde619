//! JSON names that would clash.

ghost use Rattle.std.specs.Prelude.{◌≡◌, ◌↔◌, List, map, IfOk, IsTrue};
ghost use Rattle.std.specs.List.{list_any};
ghost use Rattle.proto_files.specs.FilesRead.{AreRead, ReadOf};
ghost use Rattle.proto_ast.specs.Views.{field_of};
ghost use Rattle.proto_edit_rules.specs.Rename.{JsonNameClashes, Target};
ghost use Rattle.proto_edit_captures.specs.FoundTargets.{IsTargetOf, IsFoundTarget};
ghost use Rattle.proto_edit_rename.specs.Blocks.{block_of};
ghost use Rattle.proto_edit_rename.specs.Members.{clash_in, fields_clash, is_made, is_other};

use crate::members::oneof_fields;
use crate::scenes::scene;
use crate::{BlockAt, blocks_of};
use proto_ast::{FieldAt, Scene, fields_of, json_name, options_between, text_option};
use proto_base::NoMemory;
use proto_case::camel_from;
use proto_edit_captures::RenameTarget;
use proto_resolved::CleanLinked;
use std::alloc::Global;

/// Whether it is the field of the name token, and its JSON name is made of its word.
fn is_made(alloc: Global, scene: &Scene, field: FieldAt, token: u32) -> Result<bool, NoMemory>
    ensures { IfOk result (λ b. b ≡ is_made scene.now token (field_of field.entry)) }
{
    if field.name != token {
        return Ok(false);
    }
    let options = options_between(alloc, field.settings)?;
    let written = text_option(alloc, scene, &options, "json_name")?;
    Ok(written.is_none())
}

fn has_made(alloc: Global, scene: &Scene, fields: &[FieldAt], token: u32) -> Result<bool, NoMemory>
    ensures { IfOk result (λ b. b ≡ list_any (is_made scene.now token) (map field_of fields.now)) }
{
    for field in fields {
        if is_made(alloc, scene, *field, token)? {
            return Ok(true);
        }
    }
    Ok(false)
}

/// Whether it is another field, with this JSON name.
fn is_other(
    alloc: Global,
    scene: &Scene,
    field: FieldAt,
    token: u32,
    name: &str,
) -> Result<bool, NoMemory>
    ensures { IfOk result (λ b. b ≡ is_other scene.now token name.now (field_of field.entry)) }
{
    if field.name == token {
        return Ok(false);
    }
    let other = json_name(alloc, scene, field)?;
    Ok(other.as_str() == name)
}

// As `has_made`, with the name of the other field.
fn has_other(
    alloc: Global,
    scene: &Scene,
    fields: &[FieldAt],
    token: u32,
    name: &str,
) -> Result<bool, NoMemory>
    ensures { IfOk result (λ b. b ≡ list_any
        (is_other scene.now token name.now) (map field_of fields.now)) }
{
    for field in fields {
        if is_other(alloc, scene, *field, token, name)? {
            return Ok(true);
        }
    }
    Ok(false)
}

fn fields_clash(
    alloc: Global,
    scene: &Scene,
    fields: &[FieldAt],
    token: u32,
    name: &str,
) -> Result<bool, NoMemory>
    ensures { IfOk result (λ b. b ≡ fields_clash scene.now token name.now
        (map field_of fields.now)) }
{
    if !has_made(alloc, scene, fields, token)? {
        return Ok(false);
    }
    has_other(alloc, scene, fields, token, name)
}

fn clash_in(
    alloc: Global,
    scene: &Scene,
    block: BlockAt,
    token: u32,
    name: &str,
) -> Result<bool, NoMemory>
    ensures { IfOk result (λ b. b ≡ clash_in scene.now token name.now (block_of block.entry)) }
{
    let fields = match block {
        BlockAt::Message(message) => fields_of(alloc, &message.members)?,
        BlockAt::Oneof(oneof) => oneof_fields(alloc, &oneof.members)?,
        BlockAt::Extend(_) => return Ok(false),
        BlockAt::Enum(_) => return Ok(false),
    };
    fields_clash(alloc, scene, &fields, token, name)
}

// As `one_reserves` of proto_edit_rename, with another test of a block.
fn one_clashes(
    alloc: Global,
    scene: &Scene,
    blocks: &[BlockAt],
    token: u32,
    name: &str,
) -> Result<bool, NoMemory>
    ensures { IfOk result (λ b. b ≡ list_any
        (clash_in scene.now token name.now) (map block_of blocks.now)) }
{
    for block in blocks {
        if clash_in(alloc, scene, *block, token, name)? {
            return Ok(true);
        }
    }
    Ok(false)
}

/// Whether the field of a proto3 file, no JSON name being written for it, would get that of another
/// field of its message by the new word.
pub(crate) fn clashes(
    alloc: Global,
    linked: &CleanLinked<'_>,
    target: RenameTarget,
    word: &str,
) -> Result<bool, NoMemory>
    requires { IsTargetOf linked.now.files target }
    ensures { IfOk result (λ b. (reads : List ReadOf)
        → AreRead linked.now.files reads → (t : Target)
        → IsFoundTarget linked.now.files reads target.entry t
        → IsTrue b ↔ JsonNameClashes linked.now.files reads t.token word.now) }
{
    let files = linked.files();
    let scene = scene(alloc, files, target.file);
    if !scene.is_proto3() {
        return Ok(false);
    }
    let name = camel_from(alloc, false, word)?;
    let blocks = blocks_of(alloc, files.tree(target.file))?;
    one_clashes(alloc, &scene, &blocks, target.token, &name)
}
