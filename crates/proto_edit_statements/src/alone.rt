//! Whether a field is the only one of its oneof.

ghost use Rattle.std.specs.Prelude.{◌≡◌};
ghost use Rattle.proto_ast.specs.Parts.{fields_in};
ghost use Rattle.proto_edit_statements.specs.FieldPlaces.{alone_in, is_only};
ghost use Rattle.proto_tree.specs.File.{item_tree, member_tree, message_tree, oneof_item_tree, tree_of_file, trees};

use proto_ast::next_field;
use proto_tree::{File, Item, Member, Message, OneofItem};

/// Whether there is one field, and it has this name token.
fn is_only(items: &[OneofItem], name: u32) -> bool
    ensures { result ≡ is_only name (fields_in (trees oneof_item_tree items.now)) }
{
    let Some((field, rest)) = next_field(items) else {
        return false;
    };
    match next_field(rest) {
        Some(_) => false,
        None => field.name == name,
    }
}

#[cycle(messages)]
#[tactic(auto, using(crate::proofs::AloneTrees::alone_message))]
fn is_alone_in_message(message: &Message, name: u32) -> bool
    ensures { result ≡ alone_in name (message_tree message.now) }
{
    is_alone_in_members(&message.members, name)
}

#[cycle(messages)]
#[tactic(auto, using(crate::proofs::AloneTrees::alone_joined))]
fn is_alone_in_members(members: &[Member], name: u32) -> bool
    ensures { result ≡ alone_in name (trees member_tree members.now) }
{
    for member in members {
        if is_alone_in_member(member, name) {
            return true;
        }
    }
    false
}

#[cycle(messages)]
#[tactic(auto, using(crate::proofs::AloneTrees::alone_oneof))]
fn is_alone_in_member(member: &Member, name: u32) -> bool
    ensures { result ≡ alone_in name (member_tree member.now) }
{
    match member {
        Member::Oneof(oneof) => is_only(&oneof.members, name),
        Member::Message(message) => is_alone_in_message(message, name),
        _ => false,
    }
}

fn is_alone_in_item(item: &Item, name: u32) -> bool
    ensures { result ≡ alone_in name (item_tree item.now) }
{
    match item {
        Item::Message(message) => is_alone_in_message(message, name),
        _ => false,
    }
}

/// Whether a oneof of the file has the field of this name token, and no other.
#[tactic(auto, using(crate::proofs::AloneTrees::alone_joined))]
pub fn is_alone(file: &File, name: u32) -> bool
    ensures { result ≡ alone_in name (tree_of_file file.now) }
{
    for item in &file.items {
        if is_alone_in_item(item, name) {
            return true;
        }
    }
    false
}
