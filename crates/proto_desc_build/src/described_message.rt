//! The descriptors of messages, with those nested in them.

ghost use Rattle.std.specs.Prelude.{◌≡◌, false, [], ◌∷◌, ◌++◌, flat_map, map, option_to_list, string_bytes, IfOk, OnOk};
ghost use Rattle.proto_tree.specs.File.{member_tree, trees, message_tree as written_message};
ghost use Rattle.proto_ast.specs.Parts.{extension_ranges, fields_in, options_in, reserved_names_in, reserved_ranges, statements};
ghost use Rattle.proto_ast.specs.Scenes.{value};
ghost use Rattle.proto_desc_numbers.specs.NumberFlaws.{range_of};
ghost use Rattle.proto_desc_build.specs.Described.{enums_described, extensions_described, field_described, message_described, message_options, messages_described, number_range, oneof_names};
ghost use Rattle.proto_descriptors.specs.Views.{enum_desc, field_desc, descriptor_tree, messages_desc, oneof_desc};

use crate::described_entry::entry_descriptor;
use crate::described_enum::push_enum;
use crate::described_extensions::push_extensions;
use crate::described_field::field_descriptor;
use crate::described_names::strings;
use crate::described_numbers::number_range;
use proto_ast::{
    Scene, extension_ranges, fields_of, message_options, reserved_names, reserved_ranges,
    truth_option,
};
use proto_base::NoMemory;
use proto_desc_numbers::field_ranges;
use proto_descriptors::{
    EnumDescriptor, FieldDescriptor, MessageDescriptor, MessageOptions, NumberRange,
    OneofDescriptor,
};
use proto_names_rules::below;
use proto_tree::{Member, Message, Range};
use std::alloc::Global;

/// The message, and those nested in it, right below the name around it. Fails only when out of
/// memory, as do all of this crate.
#[cycle(messages)]
pub fn message_descriptor(
    alloc: Global,
    scene: &Scene,
    around: &str,
    message: &Message,
) -> Result<MessageDescriptor, NoMemory>
    ensures { IfOk result (λ d. messages_desc
        (d ∷ []) ≡ messages_described scene.now around.now (written_message message.now)) }
{
    let full = below(alloc, around, scene.text(message.name))?;
    let nested = nested_messages(alloc, scene, &full, &message.members)?;
    message_around(alloc, scene, &full, message, nested)
}

#[cycle(messages)]
fn nested_messages(
    alloc: Global,
    scene: &Scene,
    full: &str,
    members: &[Member],
) -> Result<Vec<MessageDescriptor>, NoMemory>
    ensures { IfOk result (λ ds. messages_desc ds.items
        ≡ messages_described scene.now full.now (trees member_tree members.now)) }
{
    let mut nested = Vec::new(alloc);
    for member in members {
        if let Some(message) = nested_message(alloc, scene, full, member)? {
            nested.push(message)?;
        }
    }
    Ok(nested)
}

#[cycle(messages)]
fn nested_message(
    alloc: Global,
    scene: &Scene,
    full: &str,
    member: &Member,
) -> Result<Option<MessageDescriptor>, NoMemory>
    ensures { IfOk result (λ d. messages_desc
        (option_to_list d) ≡ messages_described scene.now full.now (member_tree member.now)) }
{
    match member {
        Member::MapField(field) => Ok(Some(entry_descriptor(alloc, scene, field)?)),
        Member::Message(message) => { Ok(Some(message_descriptor(alloc, scene, full, message)?)) }
        _ => Ok(None),
    }
}

// The fields, the extensions, the enums and the oneofs right in a message.
fn declared_parts(
    alloc: Global,
    scene: &Scene,
    full: &str,
    members: &[Member],
) -> Result<
    (
        Vec<FieldDescriptor>,
        Vec<FieldDescriptor>,
        Vec<EnumDescriptor>,
        Vec<OneofDescriptor>,
    ),
    NoMemory,
>
    ensures fields { IfOk result (λ d. map field_desc d.0.items
        ≡ map (field_described scene.now full.now) (fields_in (trees member_tree members.now))) }
    ensures extensions { IfOk result (λ d. map field_desc d.1.items
        ≡ extensions_described scene.now (trees member_tree members.now)) }
    ensures enums { IfOk result (λ d. map enum_desc d.2.items
        ≡ enums_described scene.now (trees member_tree members.now)) }
    ensures oneofs { IfOk result (λ d. map oneof_desc d.3.items
        ≡ oneof_names scene.now (trees member_tree members.now)) }
{
    let fields = field_descriptors(alloc, scene, full, members)?;
    let extensions = extension_descriptors(alloc, scene, members)?;
    let enums = enum_descriptors(alloc, scene, members)?;
    let oneofs = oneof_descriptors(alloc, scene, members)?;
    Ok((fields, extensions, enums, oneofs))
}

// The numbers that are left to extensions, and the numbers and the names that no field may have.
fn reserved_parts(
    alloc: Global,
    scene: &Scene,
    members: &[Member],
) -> Result<(Vec<NumberRange>, Vec<NumberRange>, Vec<String>), NoMemory>
    ensures extensions { IfOk result (λ r. r.0.items
        ≡ map (λ n. number_range (range_of scene.now n))
        (flat_map extension_ranges (statements (trees member_tree members.now)))) }
    ensures numbers { IfOk result (λ r. r.1.items
        ≡ map (λ n. number_range (range_of scene.now n))
        (flat_map reserved_ranges (statements (trees member_tree members.now)))) }
    ensures names { IfOk result (λ r. map string_bytes r.2.items
        ≡ map (value scene.now) (reserved_names_in (trees member_tree members.now))) }
{
    let names = reserved_names(alloc, members)?;
    let extensions = extensions(alloc, scene, members)?;
    let numbers = reserved_numbers(alloc, scene, members)?;
    Ok((extensions, numbers, strings(alloc, scene, &names)?))
}

/// The message of this full name, with the descriptors of those nested in it.
fn message_around(
    alloc: Global,
    scene: &Scene,
    full: &str,
    message: &Message,
    nested: Vec<MessageDescriptor>,
) -> Result<MessageDescriptor, NoMemory>
    ensures { IfOk result (λ d. descriptor_tree d
        ≡ record {
          message = message_described scene.now full.now message.now.name
              (trees member_tree message.now.members.items);
          nested_type = messages_desc nested.items;
        }) }
{
    let members = message.members.as_slice();
    let (field, extension, enum_type, oneof_decl) = declared_parts(alloc, scene, full, members)?;
    let (extension_range, reserved_range, reserved_name) = reserved_parts(alloc, scene, members)?;
    Ok(MessageDescriptor {
        name: String::from_str(alloc, scene.text(message.name))?,
        field,
        extension,
        nested_type: nested,
        enum_type,
        extension_range,
        oneof_decl,
        reserved_range,
        reserved_name,
        options: options_of_message(alloc, scene, members)?,
    })
}

// One push and one loop for each kind of descriptor: each is a type of its own, and a trait over
// them would be as long as the loops.

fn field_descriptors(
    alloc: Global,
    scene: &Scene,
    full: &str,
    members: &[Member],
) -> Result<Vec<FieldDescriptor>, NoMemory>
    ensures { IfOk result (λ ds. map field_desc ds.items
        ≡ map (field_described scene.now full.now) (fields_in (trees member_tree members.now))) }
{
    let fields = fields_of(alloc, members)?;
    let mut descriptors = Vec::with_capacity(alloc, fields.len())?;
    for field in &fields {
        descriptors.push(field_descriptor(alloc, scene, full, *field)?)?;
    }
    Ok(descriptors)
}

// As `push_member_enum`, but that a block gives a descriptor for each of its fields.
fn push_member_extensions(
    alloc: Global,
    scene: &Scene,
    found: &mut Vec<FieldDescriptor>,
    member: &Member,
) -> Result<(), NoMemory>
    ensures { OnOk result (map field_desc found.new.items ≡ map field_desc found.old.items
        ++ extensions_described scene.now (member_tree member.now)) }
{
    match member {
        Member::Extend(extend) => push_extensions(alloc, scene, found, extend),
        _ => Ok(()),
    }
}

fn extension_descriptors(
    alloc: Global,
    scene: &Scene,
    members: &[Member],
) -> Result<Vec<FieldDescriptor>, NoMemory>
    ensures { IfOk result (λ ds. map field_desc ds.items
        ≡ extensions_described scene.now (trees member_tree members.now)) }
{
    let mut descriptors = Vec::new(alloc);
    for member in members {
        push_member_extensions(alloc, scene, &mut descriptors, member)?;
    }
    Ok(descriptors)
}

fn push_member_enum(
    alloc: Global,
    scene: &Scene,
    found: &mut Vec<EnumDescriptor>,
    member: &Member,
) -> Result<(), NoMemory>
    ensures { OnOk result (map enum_desc found.new.items
        ≡ map enum_desc found.old.items ++ enums_described scene.now (member_tree member.now)) }
{
    match member {
        Member::Enum(enumeration) => push_enum(alloc, scene, found, enumeration),
        _ => Ok(()),
    }
}

fn enum_descriptors(
    alloc: Global,
    scene: &Scene,
    members: &[Member],
) -> Result<Vec<EnumDescriptor>, NoMemory>
    ensures { IfOk result (λ ds. map enum_desc ds.items
        ≡ enums_described scene.now (trees member_tree members.now)) }
{
    let mut descriptors = Vec::new(alloc);
    for member in members {
        push_member_enum(alloc, scene, &mut descriptors, member)?;
    }
    Ok(descriptors)
}

fn push_oneof(
    alloc: Global,
    scene: &Scene,
    found: &mut Vec<OneofDescriptor>,
    member: &Member,
) -> Result<(), NoMemory>
    ensures { OnOk result (map oneof_desc found.new.items
        ≡ map oneof_desc found.old.items ++ oneof_names scene.now (member_tree member.now)) }
{
    match member {
        Member::Oneof(oneof) => {
            let name = String::from_str(alloc, scene.text(oneof.name))?;
            Ok(found.push(OneofDescriptor { name })?)
        }
        _ => Ok(()),
    }
}

fn oneof_descriptors(
    alloc: Global,
    scene: &Scene,
    members: &[Member],
) -> Result<Vec<OneofDescriptor>, NoMemory>
    ensures { IfOk result (λ ds. map oneof_desc ds.items
        ≡ oneof_names scene.now (trees member_tree members.now)) }
{
    let mut descriptors = Vec::new(alloc);
    for member in members {
        push_oneof(alloc, scene, &mut descriptors, member)?;
    }
    Ok(descriptors)
}

fn number_ranges(
    alloc: Global,
    scene: &Scene,
    written: &[&Range<u32>],
) -> Result<Vec<NumberRange>, NoMemory>
    ensures { IfOk result (λ found. found.items
        ≡ map (λ r. number_range (range_of scene.now r)) (map (λ r. r.now) written.now)) }
{
    let ranges = field_ranges(alloc, scene, written)?;
    let mut found = Vec::new(alloc);
    for range in &ranges {
        found.push(number_range(*range))?;
    }
    Ok(found)
}

fn extensions(
    alloc: Global,
    scene: &Scene,
    members: &[Member],
) -> Result<Vec<NumberRange>, NoMemory>
    ensures { IfOk result (λ found. found.items ≡ map (λ r. number_range (range_of scene.now r))
        (flat_map extension_ranges (statements (trees member_tree members.now)))) }
{
    number_ranges(alloc, scene, &extension_ranges(alloc, members)?)
}

fn reserved_numbers(
    alloc: Global,
    scene: &Scene,
    members: &[Member],
) -> Result<Vec<NumberRange>, NoMemory>
    ensures { IfOk result (λ found. found.items ≡ map (λ r. number_range (range_of scene.now r))
        (flat_map reserved_ranges (statements (trees member_tree members.now)))) }
{
    number_ranges(alloc, scene, &reserved_ranges(alloc, members)?)
}

fn options_of_message(
    alloc: Global,
    scene: &Scene,
    members: &[Member],
) -> Result<MessageOptions, NoMemory>
    ensures { IfOk result (λ o. o ≡ message_options scene.now false
        (options_in (trees member_tree members.now))) }
{
    let options = message_options(alloc, members)?;
    Ok(MessageOptions {
        deprecated: truth_option(scene, &options, "deprecated"),
        no_standard_descriptor_accessor: truth_option(
            scene,
            &options,
            "no_standard_descriptor_accessor",
        ),
        map_entry: false,
    })
}
