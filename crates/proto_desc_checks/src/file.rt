//! What is wrong with a file, block by block.

ghost use Rattle.std.specs.Prelude.{◌≡◌, ◌++◌, IfOk, OnOk};
ghost use Rattle.proto_tree.specs.File.{enum_tree, extend_tree, item_tree, member_tree, message_tree, method_tree, oneof_item_tree, oneof_tree, service_item_tree, service_tree, tree_of_file, trees};
ghost use Rattle.proto_desc_checks.specs.FileFlaws.{file_flaws, flaws_in_blocks, is_empty};
ghost use Rattle.proto_ast.specs.Parts.{fields_in};

use crate::enums::add_enum_flaws;
use crate::extends::add_extend_flaws;
use crate::messages::add_message_flaws;
use crate::options::add_option_flaws;
use proto_ast::{Element, Scene, file_options, method_options, next_field, service_options};
use proto_base::{FaultKind, NoMemory};
use proto_desc_numbers::{Flaw, add_if};
use proto_tree::{
    Enum, Extend, File, Item, Member, Message, Method, MethodEnd, Oneof, OneofItem, Service,
    ServiceItem,
};
use std::alloc::Global;

// ---- enums and oneofs

fn add_enum(
    alloc: Global,
    found: &mut Vec<Flaw>,
    scene: &Scene,
    enumeration: &Enum,
) -> Result<(), NoMemory>
    ensures { OnOk result (found.new.items ≡ found.old.items
        ++ flaws_in_blocks scene.now (enum_tree enumeration.now)) }
{
    add_enum_flaws(alloc, found, scene, enumeration)
}

fn has_no_field(items: &[OneofItem]) -> bool
    ensures { result ≡ is_empty (fields_in (trees oneof_item_tree items.now)) }
{
    match next_field(items) {
        Some(_) => false,
        None => true,
    }
}

fn add_oneof(found: &mut Vec<Flaw>, scene: &Scene, oneof: &Oneof) -> Result<(), NoMemory>
    ensures { OnOk result (found.new.items ≡ found.old.items
        ++ flaws_in_blocks scene.now (oneof_tree oneof.now)) }
{
    add_if(
        found,
        has_no_field(&oneof.members),
        FaultKind::EmptyOneof,
        oneof.name,
    )
}

// ---- `extend` blocks

fn add_extend(
    alloc: Global,
    found: &mut Vec<Flaw>,
    scene: &Scene,
    extend: &Extend,
) -> Result<(), NoMemory>
    ensures { OnOk result (found.new.items ≡ found.old.items
        ++ flaws_in_blocks scene.now (extend_tree extend.now)) }
{
    add_extend_flaws(alloc, found, scene, extend)
}

// ---- services

fn add_method(
    alloc: Global,
    found: &mut Vec<Flaw>,
    scene: &Scene,
    method: &Method,
) -> Result<(), NoMemory>
    ensures { OnOk result (found.new.items ≡ found.old.items
        ++ flaws_in_blocks scene.now (method_tree method.now)) }
{
    match &method.end {
        MethodEnd::Semicolon(_) => Ok(()),
        MethodEnd::Block { items, .. } => {
            let options = method_options(alloc, items)?;
            add_option_flaws(alloc, found, scene, Element::Method, &options)
        }
    }
}

fn add_service_item(
    alloc: Global,
    found: &mut Vec<Flaw>,
    scene: &Scene,
    item: &ServiceItem,
) -> Result<(), NoMemory>
    ensures { OnOk result (found.new.items ≡ found.old.items
        ++ flaws_in_blocks scene.now (service_item_tree item.now)) }
{
    match item {
        ServiceItem::Method(method) => add_method(alloc, found, scene, method),
        _ => Ok(()),
    }
}

fn add_service_items(
    alloc: Global,
    found: &mut Vec<Flaw>,
    scene: &Scene,
    items: &[ServiceItem],
) -> Result<(), NoMemory>
    ensures { OnOk result (found.new.items ≡ found.old.items
        ++ flaws_in_blocks scene.now (trees service_item_tree items.now)) }
{
    for item in items {
        add_service_item(alloc, found, scene, item)?;
    }
    Ok(())
}

fn add_service(
    alloc: Global,
    found: &mut Vec<Flaw>,
    scene: &Scene,
    service: &Service,
) -> Result<(), NoMemory>
    ensures { OnOk result (found.new.items ≡ found.old.items
        ++ flaws_in_blocks scene.now (service_tree service.now)) }
{
    let options = service_options(alloc, &service.members)?;
    add_option_flaws(alloc, found, scene, Element::Service, &options)?;
    add_service_items(alloc, found, scene, &service.members)
}

// ---- messages

#[cycle(messages)]
fn add_message(
    alloc: Global,
    found: &mut Vec<Flaw>,
    scene: &Scene,
    message: &Message,
) -> Result<(), NoMemory>
    ensures { OnOk result (found.new.items ≡ found.old.items
        ++ flaws_in_blocks scene.now (message_tree message.now)) }
{
    add_message_flaws(alloc, found, scene, &message.members)?;
    add_members(alloc, found, scene, &message.members)
}

#[cycle(messages)]
fn add_members(
    alloc: Global,
    found: &mut Vec<Flaw>,
    scene: &Scene,
    members: &[Member],
) -> Result<(), NoMemory>
    ensures { OnOk result (found.new.items ≡ found.old.items
        ++ flaws_in_blocks scene.now (trees member_tree members.now)) }
{
    for member in members {
        add_member(alloc, found, scene, member)?;
    }
    Ok(())
}

#[cycle(messages)]
fn add_member(
    alloc: Global,
    found: &mut Vec<Flaw>,
    scene: &Scene,
    member: &Member,
) -> Result<(), NoMemory>
    ensures { OnOk result (found.new.items ≡ found.old.items
        ++ flaws_in_blocks scene.now (member_tree member.now)) }
{
    match member {
        Member::Message(message) => add_message(alloc, found, scene, message),
        Member::Enum(enumeration) => add_enum(alloc, found, scene, enumeration),
        Member::Oneof(oneof) => add_oneof(found, scene, oneof),
        Member::Extend(extend) => add_extend(alloc, found, scene, extend),
        _ => Ok(()),
    }
}

// ---- files

fn add_item(
    alloc: Global,
    found: &mut Vec<Flaw>,
    scene: &Scene,
    item: &Item,
) -> Result<(), NoMemory>
    ensures { OnOk result (found.new.items ≡ found.old.items
        ++ flaws_in_blocks scene.now (item_tree item.now)) }
{
    match item {
        Item::Message(message) => add_message(alloc, found, scene, message),
        Item::Enum(enumeration) => add_enum(alloc, found, scene, enumeration),
        Item::Service(service) => add_service(alloc, found, scene, service),
        Item::Extend(extend) => add_extend(alloc, found, scene, extend),
        _ => Ok(()),
    }
}

fn add_items(
    alloc: Global,
    found: &mut Vec<Flaw>,
    scene: &Scene,
    items: &[Item],
) -> Result<(), NoMemory>
    ensures { OnOk result (found.new.items ≡ found.old.items
        ++ flaws_in_blocks scene.now (trees item_tree items.now)) }
{
    for item in items {
        add_item(alloc, found, scene, item)?;
    }
    Ok(())
}

/// What is wrong with a file that is linked, each by its token: first its options, then block by
/// block. Fails only when out of memory.
pub fn file_flaws(alloc: Global, scene: &Scene, file: &File) -> Result<Vec<Flaw>, NoMemory>
    ensures { IfOk result (λ found. found.items ≡ file_flaws scene.now (tree_of_file file.now)) }
{
    let options = file_options(alloc, file)?;
    let mut found = Vec::new(alloc);
    add_option_flaws(alloc, &mut found, scene, Element::File, &options)?;
    add_items(alloc, &mut found, scene, &file.items)?;
    Ok(found)
}
