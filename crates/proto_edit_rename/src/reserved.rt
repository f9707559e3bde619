//! Names that a message or an enum reserves.

ghost use Rattle.std.specs.Prelude.{◌≡◌, ◌↔◌, ◌&&◌, List, map, IfOk, IsTrue};
ghost use Rattle.std.specs.List.{list_any};
ghost use Rattle.proto_tree.specs.File.{enum_item_tree, member_tree, trees};
ghost use Rattle.proto_files.specs.FilesRead.{AreRead, ReadOf};
ghost use Rattle.proto_ast.specs.Parts.{fields_in, reserved_names_in, values_in};
ghost use Rattle.proto_resolved.specs.Blocks.{block_of};
ghost use Rattle.proto_edit_rules.specs.Rename.{ReservesWord, Target};
ghost use Rattle.proto_edit_captures.specs.FoundTargets.{IsTargetOf, IsFoundTarget};
ghost use Rattle.proto_edit_rename.specs.Members.{has_field, has_value, reserves, says_word};

use crate::members::{has_field, has_value};
use crate::scenes::scene;
use proto_ast::{Scene, enum_reserved_names, fields_of, reserved_names, values};
use proto_base::NoMemory;
use proto_edit_captures::RenameTarget;
use proto_resolved::{BlockAt, CleanLinked, blocks_of};
use proto_tree::{EnumItem, Member};
use std::alloc::Global;

/// Whether one of the strings is the word.
fn says(alloc: Global, scene: &Scene, tokens: &[u32], word: &str) -> Result<bool, NoMemory>
    ensures { IfOk result (λ b. b ≡ says_word scene.now word.now tokens.now) }
{
    for token in tokens {
        let name = scene.string(alloc, *token)?;
        if name.as_str() == word {
            return Ok(true);
        }
    }
    Ok(false)
}

/// Whether a message has the field and reserves the word.
fn message_reserves(
    alloc: Global,
    scene: &Scene,
    members: &[Member],
    token: u32,
    word: &str,
) -> Result<bool, NoMemory>
    ensures { IfOk result (λ b. b ≡
        (has_field token (fields_in (trees member_tree members.now)) && says_word scene.now word.now
        (reserved_names_in (trees member_tree members.now)))) }
{
    let fields = fields_of(alloc, members)?;
    if !has_field(&fields, token) {
        return Ok(false);
    }
    let names = reserved_names(alloc, members)?;
    says(alloc, scene, &names, word)
}

/// Whether an enum has the value and reserves the word.
// As `message_reserves`, over the items of an enum.
fn enum_reserves(
    alloc: Global,
    scene: &Scene,
    items: &[EnumItem],
    token: u32,
    word: &str,
) -> Result<bool, NoMemory>
    ensures { IfOk result (λ b. b ≡
        (has_value token (values_in (trees enum_item_tree items.now))
        && says_word scene.now word.now
        (reserved_names_in (trees enum_item_tree items.now)))) }
{
    let values = values(alloc, items)?;
    if !has_value(&values, token) {
        return Ok(false);
    }
    let names = enum_reserved_names(alloc, items)?;
    says(alloc, scene, &names, word)
}

/// Whether a block has the member and reserves the word. A oneof reserves nothing, and neither does
/// an `extend`.
fn reserves(
    alloc: Global,
    scene: &Scene,
    block: BlockAt,
    token: u32,
    word: &str,
) -> Result<bool, NoMemory>
    ensures { IfOk result (λ b. b ≡ reserves scene.now token word.now (block_of block.entry)) }
{
    match block {
        BlockAt::Message(message) => message_reserves(alloc, scene, &message.members, token, word),
        BlockAt::Oneof(_) => Ok(false),
        BlockAt::Extend(_) => Ok(false),
        BlockAt::Enum(values) => enum_reserves(alloc, scene, &values.members, token, word),
    }
}

fn one_reserves(
    alloc: Global,
    scene: &Scene,
    blocks: &[BlockAt],
    token: u32,
    word: &str,
) -> Result<bool, NoMemory>
    ensures { IfOk result (λ b. b ≡ list_any
        (reserves scene.now token word.now) (map block_of blocks.now)) }
{
    for block in blocks {
        if reserves(alloc, scene, *block, token, word)? {
            return Ok(true);
        }
    }
    Ok(false)
}

/// Whether the message of the field, or the enum of the value, reserves the word. Fails only when
/// out of memory, here and below.
pub(crate) fn is_reserved(
    alloc: Global,
    linked: &CleanLinked<'_>,
    target: RenameTarget,
    word: &str,
) -> Result<bool, NoMemory>
    requires { IsTargetOf linked.now.files target }
    ensures { IfOk result (λ b. (reads : List ReadOf)
        → AreRead linked.now.files reads → (t : Target)
        → IsFoundTarget linked.now.files reads target.entry t
        → IsTrue b ↔ ReservesWord linked.now.files reads t.token word.now) }
{
    let files = linked.files();
    let scene = scene(alloc, files, target.file);
    let blocks = blocks_of(alloc, files.tree(target.file))?;
    one_reserves(alloc, &scene, &blocks, target.token, word)
}
