//! The full name of a value's enum.

ghost use Rattle.std.specs.Prelude.{◌≡◌, List, true, false, find, map, option_map, IfOk};
ghost use Rattle.std.specs.String.{string_bytes};
ghost use Rattle.proto_tree.specs.File.{tree_of_file};
ghost use Rattle.proto_files.specs.FilesRead.{AreRead, ReadOf};
ghost use Rattle.proto_names_rules.specs.Joined.{joined};
ghost use Rattle.proto_names_rules.specs.declared.kind.Kind.TheVariants.{Value};
ghost use Rattle.proto_resolved.specs.Blocks.{block_of, holders_in};
ghost use Rattle.proto_edit_rules.specs.Rename.{Target};
ghost use Rattle.proto_edit_captures.specs.FoundTargets.{IsTargetOf, IsFoundTarget};
ghost use Rattle.proto_edit_rename.specs.Members.{holds_value, name_token};

use crate::members::has_value;
use proto_ast::values;
use proto_base::NoMemory;
use proto_edit_captures::{RenameTarget, beside, front};
use proto_files::Words;
use proto_names_rules::Kind;
use proto_resolved::{BlockAt, CleanLinked, blocks_of};
use proto_tree::File;
use std::alloc::Global;

fn is_value(kind: Kind) -> bool
    ensures is { result ≡ true → kind ≡ Value }
    ensures none { result ≡ false → kind ≡ Value → ⊥ }
{
    matches!(kind, Kind::Value)
}

fn holds_value(alloc: Global, block: BlockAt, token: u32) -> Result<bool, NoMemory>
    ensures { IfOk result (λ b. b ≡ holds_value token
        (block_of block.entry).header (block_of block.entry).within) }
{
    match block {
        BlockAt::Enum(enumeration) => Ok(has_value(&values(alloc, &enumeration.members)?, token)),
        BlockAt::Message(_) | BlockAt::Oneof(_) | BlockAt::Extend(_) => Ok(false),
    }
}

/// The token of a block's name; an `extend` has none, and gives its keyword.
fn name_token(block: BlockAt) -> u32
    ensures { result ≡ name_token (block_of block.entry).header }
{
    match block {
        BlockAt::Message(message) => message.name,
        BlockAt::Oneof(oneof) => oneof.name,
        BlockAt::Enum(enumeration) => enumeration.name,
        BlockAt::Extend(extend) => extend.keyword,
    }
}

/// The name token of the enum that has the value; none where there is none.
fn enum_of_value(alloc: Global, blocks: &[BlockAt], token: u32) -> Result<Option<u32>, NoMemory>
    ensures { IfOk result (λ o. o ≡ option_map (λ b. name_token b.header)
        (find (λ b. holds_value token b.header b.within) (map block_of blocks.now))) }
{
    for block in blocks {
        if holds_value(alloc, *block, token)? {
            return Ok(Some(name_token(*block)));
        }
    }
    Ok(None)
}

/// The same of the blocks of a file.
fn enum_in(alloc: Global, file: &File, token: u32) -> Result<Option<u32>, NoMemory>
    ensures { IfOk result (λ o. o ≡ option_map (λ b. name_token b.header)
        (find (λ b. holds_value token b.header b.within) (holders_in (tree_of_file file.now)))) }
{
    let blocks = blocks_of(alloc, file)?;
    enum_of_value(alloc, &blocks, token)
}

/// The full name of the enum that has the value, which stands beside it; none for what is no value.
pub(crate) fn enum_name(
    alloc: Global,
    linked: &CleanLinked<'_>,
    target: RenameTarget,
) -> Result<Option<String>, NoMemory>
    requires { IsTargetOf linked.now.files target }
    ensures { IfOk result (λ name. (reads : List ReadOf)
        → AreRead linked.now.files reads → (t : Target)
        → IsFoundTarget linked.now.files reads target.entry t
        → option_map string_bytes name ≡ option_map joined t.enum) }
{
    let files = linked.files();
    if !is_value(target.kind) {
        return Ok(None);
    }
    let words = Words::new(files, target.file);
    match enum_in(alloc, files.tree(target.file), target.token)? {
        Some(token) => {
            let front = front(target.name, words.get(target.token));
            let name = beside(alloc, front, words.get(token))?;
            Ok(Some(name))
        }
        None => Ok(None),
    }
}
