//! The values of enums.

ghost use Rattle.std.specs.Prelude.{◌≡◌, ◌++◌, map, IfOk, OnOk};
ghost use Rattle.proto_tree.specs.File.{enum_item_tree, trees};
ghost use Rattle.proto_ast.specs.Parts.{values_in};

use crate::separated::push;
use proto_base::NoMemory;
use proto_tree::{EnumItem, Value};
use std::alloc::Global;

fn push_value<'a>(found: &mut Vec<&'a Value>, item: &'a EnumItem) -> Result<(), NoMemory>
    ensures { OnOk result (map (λ v. v.now) found.new.items
        ≡ map (λ v. v.now) found.old.items ++ values_in (enum_item_tree item.now)) }
{
    match item {
        EnumItem::Value(value) => push(found, value),
        _ => Ok(()),
    }
}

/// The values of an enum, in order.
pub fn values<'a>(alloc: Global, items: &'a [EnumItem]) -> Result<Vec<&'a Value>, NoMemory>
    ensures { IfOk result (λ found. map (λ v. v.now) found.items
        ≡ values_in (trees enum_item_tree items.now)) }
{
    let mut found = Vec::new(alloc);
    for item in items {
        push_value(&mut found, item)?;
    }
    Ok(found)
}
