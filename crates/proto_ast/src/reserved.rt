//! The names that are reserved.

ghost use Rattle.std.specs.Prelude.{◌≡◌, ◌++◌, IfOk, OnOk};
ghost use Rattle.proto_tree.specs.File.{enum_item_tree, member_tree, trees};
ghost use Rattle.proto_ast.specs.Parts.{reserved_names_of, reserved_names_in};

use crate::separated::push_tokens;
use proto_base::NoMemory;
use proto_tree::{EnumItem, Member, ReservedList};
use std::alloc::Global;

fn push_names<N: Drop>(found: &mut Vec<u32>, list: &ReservedList<N>) -> Result<(), NoMemory>
    ensures { OnOk result (found.new.items ≡ found.old.items ++ reserved_names_of list.now) }
{
    match list {
        ReservedList::Names(names) => push_tokens(found, names),
        ReservedList::Ranges(_) => Ok(()),
    }
}

fn push_reserved_names(found: &mut Vec<u32>, member: &Member) -> Result<(), NoMemory>
    ensures { OnOk result (found.new.items ≡ found.old.items
        ++ reserved_names_in (member_tree member.now)) }
{
    match member {
        Member::Reserved(reserved) => push_names(found, &reserved.list),
        _ => Ok(()),
    }
}

/// The tokens of the names that a message reserves, in order.
pub fn reserved_names(alloc: Global, members: &[Member]) -> Result<Vec<u32>, NoMemory>
    ensures { IfOk result (λ found. found.items
        ≡ reserved_names_in (trees member_tree members.now)) }
{
    let mut found = Vec::new(alloc);
    for member in members {
        push_reserved_names(&mut found, member)?;
    }
    Ok(found)
}

fn push_enum_reserved_names(found: &mut Vec<u32>, item: &EnumItem) -> Result<(), NoMemory>
    ensures { OnOk result (found.new.items ≡ found.old.items
        ++ reserved_names_in (enum_item_tree item.now)) }
{
    match item {
        EnumItem::Reserved(reserved) => push_names(found, &reserved.list),
        _ => Ok(()),
    }
}

/// The tokens of the names that an enum reserves, in order.
pub fn enum_reserved_names(alloc: Global, items: &[EnumItem]) -> Result<Vec<u32>, NoMemory>
    ensures { IfOk result (λ found. found.items
        ≡ reserved_names_in (trees enum_item_tree items.now)) }
{
    let mut found = Vec::new(alloc);
    for item in items {
        push_enum_reserved_names(&mut found, item)?;
    }
    Ok(found)
}
