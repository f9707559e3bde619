//! The ranges that messages leave to extensions, by the tokens of the messages' names.

ghost use Rattle.std.specs.Prelude.{◌≡◌, ◌++◌, ◌∷◌, [], List, Some, map, nat_eq, option_map, slice_get, IfOk, OnOk};
ghost use Rattle.std.specs.Option.{option_and_then};
ghost use Rattle.indexmap.specs.IndexMap.{get};
ghost use Rattle.proto_tree.specs.File.{tree_of_file};
ghost use Rattle.proto_names_rules.specs.Grown.{at};
ghost use Rattle.proto_ast.specs.Parts.{BlockOf, blocks_in};
ghost use Rattle.proto_desc_numbers.specs.RangeIndex.{IsRangeIndexOf};
ghost use Rattle.proto_resolved.specs.Blocks.{block_of, message_block};
ghost use Rattle.proto_resolved.specs.Scenes.{AreScenes};
ghost use Rattle.proto_desc_extensions.specs.Extensions.{ranges_within};
ghost use Rattle.proto_desc_extensions.specs.OpenTables.{AreRowsOf, IsOpenTable, index_in};

use indexmap::IndexMap;
use proto_ast::{Scene, extension_ranges};
use proto_base::NoMemory;
use proto_desc_numbers::{RangeAt, field_ranges, index_of};
use proto_files::Files;
use proto_resolved::{BlockAt, blocks_of};
use proto_tree::{File, Message};
use std::alloc::Global;

/// An index of the ranges that a message leaves to extensions.
fn row(alloc: Global, scene: &Scene, message: &Message) -> Result<Vec<RangeAt>, NoMemory>
    ensures { IfOk result (λ index. IsRangeIndexOf
        (ranges_within scene.now (Some (message_block message.now))) index.items) }
{
    let written = extension_ranges(alloc, &message.members)?;
    let ranges = field_ranges(alloc, scene, &written)?;
    index_of(alloc, &ranges)
}

/// Adds a message, where none has its token.
#[tactic(auto, using(crate::proofs::OpenRows::row_kept, crate::proofs::OpenRows::row_added))]
fn add_message(
    alloc: Global,
    rows: &mut IndexMap<u32, Vec<RangeAt>>,
    scene: &Scene,
    message: &Message,
) -> Result<(), NoMemory>
    ensures { OnOk result ((blocks : List BlockOf) → AreRowsOf scene.now blocks rows.old
        → AreRowsOf scene.now (blocks ++ message_block message.now ∷ []) rows.new) }
{
    if !rows.contains_key(&message.name) {
        let row = row(alloc, scene, message)?;
        rows.insert(message.name, row)?;
    }
    Ok(())
}

/// Adds a block, if it is a message.
fn add(
    alloc: Global,
    rows: &mut IndexMap<u32, Vec<RangeAt>>,
    scene: &Scene,
    block: BlockAt,
) -> Result<(), NoMemory>
    ensures { OnOk result ((blocks : List BlockOf) → AreRowsOf scene.now blocks rows.old
        → AreRowsOf scene.now (blocks ++ block_of block.entry ∷ []) rows.new) }
{
    match block {
        BlockAt::Message(message) => add_message(alloc, rows, scene, message),
        BlockAt::Oneof(_) => Ok(()),
        BlockAt::Enum(_) => Ok(()),
        BlockAt::Extend(_) => Ok(()),
    }
}

/// The messages of a file.
#[tactic(auto, using(crate::proofs::OpenRows::rows_of_blocks, crate::proofs::OpenRows::no_rows))]
fn rows_of(
    alloc: Global,
    scene: &Scene,
    file: &File,
) -> Result<IndexMap<u32, Vec<RangeAt>>, NoMemory>
    ensures { IfOk result (λ rows. AreRowsOf scene.now (blocks_in (tree_of_file file.now)) rows) }
{
    let blocks = blocks_of(alloc, file)?;
    let mut rows = IndexMap::new(alloc);
    for block in &blocks {
        add(alloc, &mut rows, scene, *block)?;
    }
    Ok(rows)
}

/// For each file, in the order of their paths, an index of the ranges that each of its messages
/// leaves to extensions, by the token of the message's name.
pub(crate) fn open_table(
    alloc: Global,
    files: &Files,
    scenes: &[Scene],
) -> Result<Vec<IndexMap<u32, Vec<RangeAt>>>, NoMemory>
    requires { AreScenes files.now scenes.now }
    ensures { IfOk result (λ table. IsOpenTable files.now table.items) }
{
    let mut table = Vec::new(alloc);
    for file in 0..files.len() as u32 {
        table.push(rows_of(alloc, &scenes[file as usize], files.tree(file))?)?;
    }
    Ok(table)
}

fn row_at<'a>(
    table: &'a [IndexMap<u32, Vec<RangeAt>>],
    file: u32,
    token: u32,
) -> Option<&'a Vec<RangeAt>>
    ensures { option_map (λ row. row.now) result
        ≡ option_and_then (λ rows. get nat_eq rows token) (slice_get table.now file) }
{
    table.get(file as usize)?.get(&token)
}

/// The index of the ranges that the message whose name is this token of the file leaves to
/// extensions; empty for another token.
pub(crate) fn index_at<'a>(
    table: &'a [IndexMap<u32, Vec<RangeAt>>],
    file: u32,
    token: u32,
) -> &'a [RangeAt]
    ensures { result.now ≡ index_in table.now (at file token) }
{
    match row_at(table, file, token) {
        Some(row) => row.as_slice(),
        None => &[],
    }
}
