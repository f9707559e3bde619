//! Whether files have `extend` blocks: without one, nothing is asked of extensions.

ghost use Rattle.std.specs.Prelude.{◌≡◌, List};
ghost use Rattle.proto_tree.specs.File.{item_tree, member_tree, message_tree, tree_of_file, trees};
ghost use Rattle.proto_files.specs.FilesRead.{AreRead, ReadOf};
ghost use Rattle.proto_desc_extensions.specs.Extends.{has_extend, some_has_extend};

use proto_files::Files;
use proto_tree::{File, Item, Member, Message};

#[cycle(extends)]
#[tactic(auto, using(crate::proofs::ExtendTrees::in_message))]
fn has_extend_in_message(message: &Message) -> bool
    ensures { result ≡ has_extend (message_tree message.now) }
{
    has_extend_in_members(&message.members)
}

#[cycle(extends)]
#[tactic(auto, using(crate::proofs::ExtendTrees::in_joined))]
fn has_extend_in_members(members: &[Member]) -> bool
    ensures { result ≡ has_extend (trees member_tree members.now) }
{
    for member in members {
        if has_extend_in_member(member) {
            return true;
        }
    }
    false
}

#[cycle(extends)]
#[tactic(auto, using(crate::proofs::ExtendTrees::not_in_enum, crate::proofs::ExtendTrees::not_in_oneof))]
fn has_extend_in_member(member: &Member) -> bool
    ensures { result ≡ has_extend (member_tree member.now) }
{
    match member {
        Member::Message(message) => has_extend_in_message(message),
        Member::Extend(_) => true,
        Member::Enum(_) => false,
        Member::Oneof(_) => false,
        _ => false,
    }
}

#[tactic(auto, using(crate::proofs::ExtendTrees::not_in_enum, crate::proofs::ExtendTrees::not_in_service))]
fn has_extend_in_item(item: &Item) -> bool
    ensures { result ≡ has_extend (item_tree item.now) }
{
    match item {
        Item::Message(message) => has_extend_in_message(message),
        Item::Extend(_) => true,
        Item::Enum(_) => false,
        Item::Service(_) => false,
        _ => false,
    }
}

/// Whether a file has an `extend` block, at any depth. Takes no memory.
#[tactic(auto, using(crate::proofs::ExtendTrees::in_joined))]
pub fn has_extend(file: &File) -> bool
    ensures { result ≡ has_extend (tree_of_file file.now) }
{
    for item in &file.items {
        if has_extend_in_item(item) {
            return true;
        }
    }
    false
}

/// Whether one of the files has an `extend` block.
pub(crate) fn some_has_extend(files: &Files) -> bool
    ensures { (reads : List ReadOf) → AreRead files.now reads → result ≡ some_has_extend reads }
{
    for file in 0..files.len() as u32 {
        if has_extend(files.tree(file)) {
            return true;
        }
    }
    false
}
