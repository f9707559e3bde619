//! The blocks of a file that have fields or values.

ghost use Rattle.std.specs.Prelude.{◌≡◌, ◌++◌, map, IfOk, OnOk};
ghost use Rattle.proto_tree.specs.File.{item_tree, member_tree, message_tree, tree_of_file, trees};
ghost use Rattle.proto_resolved.specs.Blocks.{block_of, holders_in};

use proto_base::NoMemory;
use proto_tree::{Enum, Extend, File, Item, Member, Message, Oneof};
use std::alloc::Global;

/// A block that has fields or values.
#[derive(Clone, Copy)]
pub enum BlockAt<'a> {
    Message(&'a Message),
    Oneof(&'a Oneof),
    Enum(&'a Enum),
    Extend(&'a Extend),
}

#[cycle(blocks)]
#[tactic(auto, using(crate::proofs::BlockTrees::message_holders))]
fn push_message<'a>(found: &mut Vec<BlockAt<'a>>, message: &'a Message) -> Result<(), NoMemory>
    ensures { OnOk result (map block_of found.new.items
        ≡ map block_of found.old.items ++ holders_in (message_tree message.now)) }
{
    found.push(BlockAt::Message(message))?;
    push_members(found, &message.members)
}

#[cycle(blocks)]
fn push_members<'a>(found: &mut Vec<BlockAt<'a>>, members: &'a [Member]) -> Result<(), NoMemory>
    ensures { OnOk result (map block_of found.new.items
        ≡ map block_of found.old.items ++ holders_in (trees member_tree members.now)) }
{
    for member in members {
        push_member(found, member)?;
    }
    Ok(())
}

#[cycle(blocks)]
#[tactic(auto, using(crate::proofs::BlockTrees::enum_alone, crate::proofs::BlockTrees::extend_alone, crate::proofs::BlockTrees::oneof_alone))]
fn push_member<'a>(found: &mut Vec<BlockAt<'a>>, member: &'a Member) -> Result<(), NoMemory>
    ensures { OnOk result (map block_of found.new.items
        ≡ map block_of found.old.items ++ holders_in (member_tree member.now)) }
{
    match member {
        Member::Message(message) => push_message(found, message)?,
        Member::Oneof(oneof) => found.push(BlockAt::Oneof(oneof))?,
        Member::Enum(enumeration) => found.push(BlockAt::Enum(enumeration))?,
        Member::Extend(extend) => found.push(BlockAt::Extend(extend))?,
        _ => {}
    }
    Ok(())
}

// As `push_member`: what stands in a file is a type of its own.
#[tactic(auto, using(crate::proofs::BlockTrees::enum_alone, crate::proofs::BlockTrees::extend_alone, crate::proofs::BlockTrees::no_holders))]
fn push_item<'a>(found: &mut Vec<BlockAt<'a>>, item: &'a Item) -> Result<(), NoMemory>
    ensures { OnOk result (map block_of found.new.items
        ≡ map block_of found.old.items ++ holders_in (item_tree item.now)) }
{
    match item {
        Item::Message(message) => push_message(found, message)?,
        Item::Enum(enumeration) => found.push(BlockAt::Enum(enumeration))?,
        Item::Extend(extend) => found.push(BlockAt::Extend(extend))?,
        Item::Service(_) => {}
        _ => {}
    }
    Ok(())
}

/// The messages, oneofs, enums and `extend` blocks of a file, each before those in it. Fails only
/// when out of memory.
pub fn blocks_of<'a>(alloc: Global, file: &'a File) -> Result<Vec<BlockAt<'a>>, NoMemory>
    ensures { IfOk result (λ found. map block_of found.items ≡ holders_in (tree_of_file file.now)) }
{
    let mut found = Vec::new(alloc);
    for item in &file.items {
        push_item(&mut found, item)?;
    }
    Ok(found)
}
