//! The blocks of a file: messages with those in them, oneofs, enums and services.

ghost use Rattle.std.specs.Prelude.{◌≡◌, ◌++◌, OnOk};
ghost use Rattle.proto_tree.specs.File.{item_tree, member_tree, message_tree, tree_of_file, trees};
ghost use Rattle.proto_names_rules.specs.Joined.{joined};
ghost use Rattle.proto_lint_names.specs.Readings.{package_words, reading_of};
ghost use Rattle.proto_lint_names.specs.Blocks.{file_blocks};
ghost use Rattle.proto_lint_names.specs.BlockFinds.{blocks_finds};
ghost use Rattle.proto_lint_names.specs.Walks.{walk_finds};

use crate::RuleSet;
use crate::enums::add_enum;
use crate::found::{FileFindings, under};
use crate::messages::{add_message, add_oneof};
use crate::reading::LintFile;
use crate::services::add_service;
use crate::shared::Messages;
use proto_base::NoMemory;
use proto_tree::{File, Item, Member, Message};
use std::alloc::Global;

/// What a file is walked with: the rules, the file as they read it, and the messages of all methods
/// of the workspace.
#[derive(Clone, Copy)]
pub struct Walk<'a> {
    pub rules: &'a RuleSet,
    pub reading: &'a LintFile<'a>,
    pub messages: &'a Messages<'a>,
}

#[cycle(members)]
#[tactic(auto, using(crate::proofs::BlockTrees::finds_of_message))]
fn add_message_block(
    alloc: Global,
    found: &mut FileFindings,
    walk: &Walk,
    scope: &str,
    message: &Message,
) -> Result<(), NoMemory>
    ensures { OnOk result (found.new ≡ found.old
        ++ walk_finds walk.now scope.now (message_tree message.now)) }
{
    add_message(alloc, found, walk, scope, message)?;
    let full_name = under(alloc, scope, walk.reading.text(message.name))?;
    add_members(alloc, found, walk, &full_name, &message.members)
}

#[cycle(members)]
fn add_members(
    alloc: Global,
    found: &mut FileFindings,
    walk: &Walk,
    scope: &str,
    members: &[Member],
) -> Result<(), NoMemory>
    ensures { OnOk result (found.new ≡ found.old
        ++ walk_finds walk.now scope.now (trees member_tree members.now)) }
{
    for member in members {
        add_member(alloc, found, walk, scope, member)?;
    }
    Ok(())
}

#[cycle(members)]
#[tactic(auto, using(crate::proofs::BlockTrees::finds_of_oneof, crate::proofs::BlockTrees::finds_of_enum, crate::proofs::BlockTrees::finds_of_extend))]
fn add_member(
    alloc: Global,
    found: &mut FileFindings,
    walk: &Walk,
    scope: &str,
    member: &Member,
) -> Result<(), NoMemory>
    ensures { OnOk result (found.new
        ≡ found.old ++ walk_finds walk.now scope.now (member_tree member.now)) }
{
    match member {
        Member::Message(message) => add_message_block(alloc, found, walk, scope, message),
        Member::Oneof(oneof) => add_oneof(found, walk, scope, oneof),
        Member::Enum(names) => add_enum(alloc, found, walk, scope, names),
        Member::Extend(_) => Ok(()),
        _ => Ok(()),
    }
}

#[tactic(auto, using(crate::proofs::BlockTrees::finds_of_enum, crate::proofs::BlockTrees::finds_of_service, crate::proofs::BlockTrees::finds_of_extend))]
fn add_item(
    alloc: Global,
    found: &mut FileFindings,
    walk: &Walk,
    scope: &str,
    item: &Item,
) -> Result<(), NoMemory>
    ensures { OnOk result (found.new
        ≡ found.old ++ walk_finds walk.now scope.now (item_tree item.now)) }
{
    match item {
        Item::Message(message) => add_message_block(alloc, found, walk, scope, message),
        Item::Enum(names) => add_enum(alloc, found, walk, scope, names),
        Item::Service(service) => add_service(alloc, found, walk, scope, service),
        Item::Extend(_) => Ok(()),
        _ => Ok(()),
    }
}

/// Adds what the rules find at the blocks of a file, each before those in it. The scope is the
/// package, empty for none. Fails only when out of memory.
pub fn add_blocks(
    alloc: Global,
    found: &mut FileFindings,
    walk: &Walk,
    scope: &str,
    file: &File,
) -> Result<(), NoMemory>
    requires { scope.now ≡ joined (package_words
        (reading_of walk.now.reading.now) (tree_of_file file.now)) }
    ensures { OnOk result (found.new ≡ found.old
        ++ blocks_finds walk.now.rules.now.chosen
        (reading_of walk.now.reading.now) walk.now.messages.now
        (file_blocks (reading_of walk.now.reading.now) (tree_of_file file.now))) }
{
    for item in &file.items {
        add_item(alloc, found, walk, scope, item)?;
    }
    Ok(())
}
