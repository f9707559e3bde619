//! The custom options of a file, each with the options message of the element that has it.

ghost use Rattle.std.specs.Prelude.{◌≡◌, [], ◌++◌, map, flat_map, codes, IfOk, OnOk};
ghost use Rattle.proto_tree.specs.File.{enum_item_tree, extension_tree, item_tree, member_tree, method_item_tree, oneof_item_tree, service_item_tree, tree_of_file, trees};
ghost use Rattle.proto_custom_options.specs.CustomOptions.{customs_below, customs_in, setting_customs, settings_customs};
ghost use Rattle.proto_ast.specs.Parts.{separated};
ghost use Rattle.proto_custom_options.specs.Views.{custom_of};

use crate::gather::push;
use proto_base::NoMemory;
use proto_tree::{
    Custom, EnumItem, Extension, File, Item, Member, Message, MethodEnd, MethodItem, OnHeap,
    OneofItem, Separated, ServiceItem, Setting, Settings,
};
use std::alloc::Global;

/// A custom option, and the simple name of the options message of the element that has it.
#[derive(Clone, Copy)]
pub struct CustomAt<'a> {
    pub message: &'static str,
    pub custom: &'a Custom,
}

// ---- settings

fn push_setting<'a>(
    found: &mut Vec<CustomAt<'a>>,
    message: &'static str,
    setting: &'a Setting,
) -> Result<(), NoMemory>
    ensures { OnOk result (map custom_of found.new.items
        ≡ map custom_of found.old.items ++ setting_customs message.now setting.now) }
{
    match setting {
        Setting::Plain(_) => Ok(()),
        Setting::Custom(custom) => {
            let custom = custom.get();
            push(found, CustomAt { message, custom })
        }
    }
}

fn push_list<'a>(
    found: &mut Vec<CustomAt<'a>>,
    message: &'static str,
    list: &'a Separated<Setting>,
) -> Result<(), NoMemory>
    ensures { OnOk result (map custom_of found.new.items ≡ map custom_of found.old.items
        ++ flat_map (setting_customs message.now) (separated list.now)) }
{
    push_setting(found, message, &list.first)?;
    for behind in list.rest.as_slice() {
        push_setting(found, message, &behind.item)?;
    }
    Ok(())
}

fn push_settings<'a>(
    found: &mut Vec<CustomAt<'a>>,
    message: &'static str,
    settings: &'a Option<OnHeap<Settings>>,
) -> Result<(), NoMemory>
    ensures { OnOk result (map custom_of found.new.items
        ≡ map custom_of found.old.items ++ settings_customs message.now settings.now) }
{
    match settings {
        Some(settings) => push_list(found, message, &settings.get().list),
        None => Ok(()),
    }
}

// ---- services

fn push_method_item<'a>(found: &mut Vec<CustomAt<'a>>, item: &'a MethodItem) -> Result<(), NoMemory>
    ensures { OnOk result (map custom_of found.new.items ≡ map custom_of found.old.items
        ++ customs_below (codes "MethodOptions") (method_item_tree item.now)) }
{
    match item {
        MethodItem::Option(option) => push_setting(found, "MethodOptions", &option.setting),
        MethodItem::Empty(_) => Ok(()),
    }
}

fn push_method_items<'a>(
    found: &mut Vec<CustomAt<'a>>,
    items: &'a [MethodItem],
) -> Result<(), NoMemory>
    ensures { OnOk result (map custom_of found.new.items ≡ map custom_of found.old.items
        ++ customs_below (codes "MethodOptions") (trees method_item_tree items.now)) }
{
    for item in items {
        push_method_item(found, item)?;
    }
    Ok(())
}

fn push_service_item<'a>(
    found: &mut Vec<CustomAt<'a>>,
    item: &'a ServiceItem,
) -> Result<(), NoMemory>
    ensures { OnOk result (map custom_of found.new.items ≡ map custom_of found.old.items
        ++ customs_below (codes "ServiceOptions") (service_item_tree item.now)) }
{
    match item {
        ServiceItem::Method(method) => match &method.end {
            MethodEnd::Semicolon(_) => Ok(()),
            MethodEnd::Block { items, .. } => push_method_items(found, items),
        },
        ServiceItem::Option(option) => push_setting(found, "ServiceOptions", &option.setting),
        ServiceItem::Empty(_) => Ok(()),
    }
}

fn push_service_items<'a>(
    found: &mut Vec<CustomAt<'a>>,
    items: &'a [ServiceItem],
) -> Result<(), NoMemory>
    ensures { OnOk result (map custom_of found.new.items ≡ map custom_of found.old.items
        ++ customs_below (codes "ServiceOptions") (trees service_item_tree items.now)) }
{
    for item in items {
        push_service_item(found, item)?;
    }
    Ok(())
}

// ---- enums, oneofs and `extend` blocks

fn push_enum_item<'a>(found: &mut Vec<CustomAt<'a>>, item: &'a EnumItem) -> Result<(), NoMemory>
    ensures { OnOk result (map custom_of found.new.items ≡ map custom_of found.old.items
        ++ customs_below (codes "EnumOptions") (enum_item_tree item.now)) }
{
    match item {
        EnumItem::Value(value) => push_settings(found, "EnumValueOptions", &value.settings),
        EnumItem::Option(option) => push_setting(found, "EnumOptions", &option.setting),
        _ => Ok(()),
    }
}

fn push_enum_items<'a>(found: &mut Vec<CustomAt<'a>>, items: &'a [EnumItem]) -> Result<(), NoMemory>
    ensures { OnOk result (map custom_of found.new.items ≡ map custom_of found.old.items
        ++ customs_below (codes "EnumOptions") (trees enum_item_tree items.now)) }
{
    for item in items {
        push_enum_item(found, item)?;
    }
    Ok(())
}

fn push_oneof_item<'a>(found: &mut Vec<CustomAt<'a>>, item: &'a OneofItem) -> Result<(), NoMemory>
    ensures { OnOk result (map custom_of found.new.items ≡ map custom_of found.old.items
        ++ customs_below (codes "OneofOptions") (oneof_item_tree item.now)) }
{
    match item {
        OneofItem::Field(field) => push_settings(found, "FieldOptions", &field.settings),
        OneofItem::Option(option) => push_setting(found, "OneofOptions", &option.setting),
    }
}

fn push_oneof_items<'a>(
    found: &mut Vec<CustomAt<'a>>,
    items: &'a [OneofItem],
) -> Result<(), NoMemory>
    ensures { OnOk result (map custom_of found.new.items ≡ map custom_of found.old.items
        ++ customs_below (codes "OneofOptions") (trees oneof_item_tree items.now)) }
{
    for item in items {
        push_oneof_item(found, item)?;
    }
    Ok(())
}

fn push_extensions<'a>(
    found: &mut Vec<CustomAt<'a>>,
    extensions: &'a [Extension],
) -> Result<(), NoMemory>
    ensures { OnOk result (map custom_of found.new.items ≡ map custom_of found.old.items
        ++ customs_below [] (trees extension_tree extensions.now)) }
{
    for extension in extensions {
        push_settings(found, "FieldOptions", &extension.field.settings)?;
    }
    Ok(())
}

// ---- messages

#[cycle(messages)]
fn push_message<'a>(found: &mut Vec<CustomAt<'a>>, message: &'a Message) -> Result<(), NoMemory>
    ensures { OnOk result (map custom_of found.new.items ≡ map custom_of found.old.items
        ++ customs_below (codes "MessageOptions") (trees member_tree message.now.members.items)) }
{
    push_members(found, &message.members)
}

#[cycle(messages)]
fn push_members<'a>(found: &mut Vec<CustomAt<'a>>, members: &'a [Member]) -> Result<(), NoMemory>
    ensures { OnOk result (map custom_of found.new.items ≡ map custom_of found.old.items
        ++ customs_below (codes "MessageOptions") (trees member_tree members.now)) }
{
    for member in members {
        push_member(found, member)?;
    }
    Ok(())
}

#[cycle(messages)]
fn push_member<'a>(found: &mut Vec<CustomAt<'a>>, member: &'a Member) -> Result<(), NoMemory>
    ensures { OnOk result (map custom_of found.new.items ≡ map custom_of found.old.items
        ++ customs_below (codes "MessageOptions") (member_tree member.now)) }
{
    match member {
        Member::Field(field) => push_settings(found, "FieldOptions", &field.settings),
        Member::MapField(field) => push_settings(found, "FieldOptions", &field.settings),
        Member::Oneof(oneof) => push_oneof_items(found, &oneof.members),
        Member::Message(message) => push_message(found, message),
        Member::Enum(enumeration) => push_enum_items(found, &enumeration.members),
        Member::Extend(extend) => push_extensions(found, &extend.fields),
        Member::Option(option) => push_setting(found, "MessageOptions", &option.setting),
        _ => Ok(()),
    }
}

// ---- files

fn push_item<'a>(found: &mut Vec<CustomAt<'a>>, item: &'a Item) -> Result<(), NoMemory>
    ensures { OnOk result (map custom_of found.new.items ≡ map custom_of found.old.items
        ++ customs_below (codes "FileOptions") (item_tree item.now)) }
{
    match item {
        Item::Option(option) => push_setting(found, "FileOptions", &option.setting),
        Item::Message(message) => push_message(found, message),
        Item::Enum(enumeration) => push_enum_items(found, &enumeration.members),
        Item::Service(service) => push_service_items(found, &service.members),
        Item::Extend(extend) => push_extensions(found, &extend.fields),
        _ => Ok(()),
    }
}

/// The custom options of a file, in the order of their offsets.
pub fn customs<'a>(alloc: Global, file: &'a File) -> Result<Vec<CustomAt<'a>>, NoMemory>
    ensures { IfOk result (λ found. map custom_of found.items ≡ customs_in (tree_of_file file.now)) }
{
    let mut found = Vec::new(alloc);
    for item in &file.items {
        push_item(&mut found, item)?;
    }
    Ok(found)
}
