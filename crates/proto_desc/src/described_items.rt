//! The messages, enums, services and extensions right in a file, and what stands before their
//! names.

ghost use Rattle.std.specs.Prelude.{◌≡◌, ◌++◌, map, option_map, option_to_list, string_bytes, IfOk, OnOk};
ghost use Rattle.proto_tree.specs.File.{item_tree, trees};
ghost use Rattle.proto_desc_build.specs.Described.{enums_described, extensions_described, messages_described, package_prefix, services_described};
ghost use Rattle.proto_descriptors.specs.Views.{enum_desc, field_desc, messages_desc, service_desc};

use proto_ast::Scene;
use proto_base::NoMemory;
use proto_desc_build::{
    absolute, message_descriptor, push_enum, push_extensions, service_descriptor,
};
use proto_descriptors::{EnumDescriptor, FieldDescriptor, MessageDescriptor, ServiceDescriptor};
use proto_tree::Item;
use std::alloc::Global;

fn item_message(
    alloc: Global,
    scene: &Scene,
    around: &str,
    item: &Item,
) -> Result<Option<MessageDescriptor>, NoMemory>
    ensures { IfOk result (λ d. messages_desc
        (option_to_list d) ≡ messages_described scene.now around.now (item_tree item.now)) }
{
    match item {
        Item::Message(message) => { Ok(Some(message_descriptor(alloc, scene, around, message)?)) }
        _ => Ok(None),
    }
}

/// The messages right in a file, each with those nested in it; `around` is what stands before their
/// names. Fails only when out of memory, as do all of these.
pub(crate) fn message_descriptors(
    alloc: Global,
    scene: &Scene,
    around: &str,
    items: &[Item],
) -> Result<Vec<MessageDescriptor>, NoMemory>
    ensures { IfOk result (λ ds. messages_desc ds.items
        ≡ messages_described scene.now around.now (trees item_tree items.now)) }
{
    let mut descriptors = Vec::new(alloc);
    for item in items {
        if let Some(descriptor) = item_message(alloc, scene, around, item)? {
            descriptors.push(descriptor)?;
        }
    }
    descriptors.shrink_to_fit();
    Ok(descriptors)
}

// One push and one loop for each kind of descriptor, here and in proto_desc_build: the items and the
// descriptors are types of their own, and a trait over both would be as long as the loops.

fn push_item_enum(
    alloc: Global,
    scene: &Scene,
    found: &mut Vec<EnumDescriptor>,
    item: &Item,
) -> Result<(), NoMemory>
    ensures { OnOk result (map enum_desc found.new.items
        ≡ map enum_desc found.old.items ++ enums_described scene.now (item_tree item.now)) }
{
    match item {
        Item::Enum(enumeration) => push_enum(alloc, scene, found, enumeration),
        _ => Ok(()),
    }
}

/// The enums right in a file.
// As `enum_descriptors` of proto_desc_build, over items in place of members.
pub(crate) fn enum_descriptors(
    alloc: Global,
    scene: &Scene,
    items: &[Item],
) -> Result<Vec<EnumDescriptor>, NoMemory>
    ensures { IfOk result (λ ds. map enum_desc ds.items
        ≡ enums_described scene.now (trees item_tree items.now)) }
{
    let mut descriptors = Vec::new(alloc);
    for item in items {
        push_item_enum(alloc, scene, &mut descriptors, item)?;
    }
    descriptors.shrink_to_fit();
    Ok(descriptors)
}

fn push_service(
    alloc: Global,
    scene: &Scene,
    found: &mut Vec<ServiceDescriptor>,
    item: &Item,
) -> Result<(), NoMemory>
    ensures { OnOk result (map service_desc found.new.items
        ≡ map service_desc found.old.items ++ services_described scene.now (item_tree item.now)) }
{
    match item {
        Item::Service(service) => Ok(found.push(service_descriptor(alloc, scene, service)?)?),
        _ => Ok(()),
    }
}

/// The services of a file.
pub(crate) fn service_descriptors(
    alloc: Global,
    scene: &Scene,
    items: &[Item],
) -> Result<Vec<ServiceDescriptor>, NoMemory>
    ensures { IfOk result (λ ds. map service_desc ds.items
        ≡ services_described scene.now (trees item_tree items.now)) }
{
    let mut descriptors = Vec::new(alloc);
    for item in items {
        push_service(alloc, scene, &mut descriptors, item)?;
    }
    Ok(descriptors)
}

// As `push_item_enum`, but that a block gives a descriptor for each of its fields.
fn push_item_extensions(
    alloc: Global,
    scene: &Scene,
    found: &mut Vec<FieldDescriptor>,
    item: &Item,
) -> Result<(), NoMemory>
    ensures { OnOk result (map field_desc found.new.items
        ≡ map field_desc found.old.items ++ extensions_described scene.now (item_tree item.now)) }
{
    match item {
        Item::Extend(extend) => push_extensions(alloc, scene, found, extend),
        _ => Ok(()),
    }
}

/// The extensions right in a file.
// As `extension_descriptors` of proto_desc_build, over items in place of members.
pub(crate) fn extension_descriptors(
    alloc: Global,
    scene: &Scene,
    items: &[Item],
) -> Result<Vec<FieldDescriptor>, NoMemory>
    ensures { IfOk result (λ ds. map field_desc ds.items
        ≡ extensions_described scene.now (trees item_tree items.now)) }
{
    let mut descriptors = Vec::new(alloc);
    for item in items {
        push_item_extensions(alloc, scene, &mut descriptors, item)?;
    }
    Ok(descriptors)
}

/// What stands before the names of a package's symbols: the package's full name behind a dot, and
/// nothing where there is no package.
pub(crate) fn prefix(alloc: Global, name: &Option<String>) -> Result<String, NoMemory>
    ensures { IfOk result (λ s. string_bytes s
        ≡ package_prefix (option_map string_bytes name.now)) }
{
    match name {
        Some(name) => absolute(alloc, name),
        None => Ok(String::new(alloc)),
    }
}
