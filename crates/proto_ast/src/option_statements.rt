//! The option statements of files, messages, enums, services and methods.

ghost use Rattle.std.specs.Prelude.{◌≡◌, ◌++◌, map, IfOk, OnOk};
ghost use Rattle.proto_tree.specs.File.{enum_item_tree, item_tree, member_tree, method_item_tree, service_item_tree, tree_of_file, trees};
ghost use Rattle.proto_ast.specs.Parts.{options_in, setting_options};
ghost use Rattle.proto_ast.specs.Views.{option_of};

use crate::fields::{OptionAt, push_setting};
use proto_base::NoMemory;
use proto_tree::{EnumItem, File, Item, Member, MethodItem, Option_, ServiceItem};
use std::alloc::Global;

fn push_option<'a>(found: &mut Vec<OptionAt<'a>>, option: &'a Option_) -> Result<(), NoMemory>
    ensures { OnOk result (map option_of found.new.items ≡ map option_of found.old.items
        ++ setting_options option.now.setting) }
{
    push_setting(found, &option.setting)
}

fn push_message_option<'a>(
    found: &mut Vec<OptionAt<'a>>,
    member: &'a Member,
) -> Result<(), NoMemory>
    ensures { OnOk result (map option_of found.new.items
        ≡ map option_of found.old.items ++ options_in (member_tree member.now)) }
{
    match member {
        Member::Option(option) => push_option(found, option),
        _ => Ok(()),
    }
}

/// The options right in a message that are set by their words, in order.
pub fn message_options<'a>(
    alloc: Global,
    members: &'a [Member],
) -> Result<Vec<OptionAt<'a>>, NoMemory>
    ensures { IfOk result (λ found. map option_of found.items
        ≡ options_in (trees member_tree members.now)) }
{
    let mut found = Vec::new(alloc);
    for member in members {
        push_message_option(&mut found, member)?;
    }
    Ok(found)
}

// One loop for each kind of block: what stands in each is a type of its own, and a trait over these
// would be as long as the loops.

fn push_enum_option<'a>(found: &mut Vec<OptionAt<'a>>, item: &'a EnumItem) -> Result<(), NoMemory>
    ensures { OnOk result (map option_of found.new.items
        ≡ map option_of found.old.items ++ options_in (enum_item_tree item.now)) }
{
    match item {
        EnumItem::Option(option) => push_option(found, option),
        _ => Ok(()),
    }
}

/// The options right in an enum that are set by their words, in order.
pub fn enum_options<'a>(alloc: Global, items: &'a [EnumItem]) -> Result<Vec<OptionAt<'a>>, NoMemory>
    ensures { IfOk result (λ found. map option_of found.items
        ≡ options_in (trees enum_item_tree items.now)) }
{
    let mut found = Vec::new(alloc);
    for item in items {
        push_enum_option(&mut found, item)?;
    }
    Ok(found)
}

fn push_service_option<'a>(
    found: &mut Vec<OptionAt<'a>>,
    item: &'a ServiceItem,
) -> Result<(), NoMemory>
    ensures { OnOk result (map option_of found.new.items
        ≡ map option_of found.old.items ++ options_in (service_item_tree item.now)) }
{
    match item {
        ServiceItem::Option(option) => push_option(found, option),
        _ => Ok(()),
    }
}

/// The options right in a service that are set by their words, in order.
pub fn service_options<'a>(
    alloc: Global,
    items: &'a [ServiceItem],
) -> Result<Vec<OptionAt<'a>>, NoMemory>
    ensures { IfOk result (λ found. map option_of found.items
        ≡ options_in (trees service_item_tree items.now)) }
{
    let mut found = Vec::new(alloc);
    for item in items {
        push_service_option(&mut found, item)?;
    }
    Ok(found)
}

fn push_method_option<'a>(
    found: &mut Vec<OptionAt<'a>>,
    item: &'a MethodItem,
) -> Result<(), NoMemory>
    ensures { OnOk result (map option_of found.new.items
        ≡ map option_of found.old.items ++ options_in (method_item_tree item.now)) }
{
    match item {
        MethodItem::Option(option) => push_option(found, option),
        _ => Ok(()),
    }
}

/// The options right in a method that are set by their words, in order.
pub fn method_options<'a>(
    alloc: Global,
    items: &'a [MethodItem],
) -> Result<Vec<OptionAt<'a>>, NoMemory>
    ensures { IfOk result (λ found. map option_of found.items
        ≡ options_in (trees method_item_tree items.now)) }
{
    let mut found = Vec::new(alloc);
    for item in items {
        push_method_option(&mut found, item)?;
    }
    Ok(found)
}

fn push_file_option<'a>(found: &mut Vec<OptionAt<'a>>, item: &'a Item) -> Result<(), NoMemory>
    ensures { OnOk result (map option_of found.new.items
        ≡ map option_of found.old.items ++ options_in (item_tree item.now)) }
{
    match item {
        Item::Option(option) => push_option(found, option),
        _ => Ok(()),
    }
}

/// The options right in a file that are set by their words, in order.
pub fn file_options<'a>(alloc: Global, file: &'a File) -> Result<Vec<OptionAt<'a>>, NoMemory>
    ensures { IfOk result (λ found. map option_of found.items
        ≡ options_in (tree_of_file file.now)) }
{
    let mut found = Vec::new(alloc);
    for item in &file.items {
        push_file_option(&mut found, item)?;
    }
    Ok(found)
}
