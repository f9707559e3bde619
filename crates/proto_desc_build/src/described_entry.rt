//! The descriptors of the messages that are made for map fields.

ghost use Rattle.std.specs.Prelude.{◌≡◌, map, option_map, IfOk};
ghost use Rattle.std.specs.String.{string_bytes};
ghost use Rattle.proto_desc_build.specs.Described.{entry_field, entry_described};
ghost use Rattle.proto_descriptors.specs.Descriptors.{NoMessages};
ghost use Rattle.proto_descriptors.specs.Views.{field_desc, descriptor_tree};

use crate::described_type::{scalar_type, type_name, type_of};
use proto_ast::Scene;
use proto_base::NoMemory;
use proto_case::entry_name;
use proto_descriptors::{
    FieldDescriptor, FieldOptions, FieldRole, FieldType, Label, MessageDescriptor, MessageOptions,
};
use proto_tree::MapField;
use std::alloc::Global;

fn entry_field(
    alloc: Global,
    word: &str,
    number: u32,
    kind: FieldType,
    type_name: Option<String>,
) -> Result<FieldDescriptor, NoMemory>
    ensures { IfOk result (λ d. field_desc d
        ≡ entry_field word.now number kind (option_map string_bytes type_name)) }
{
    Ok(FieldDescriptor {
        name: String::from_str(alloc, word)?,
        number,
        label: Label::Optional,
        field_type: kind,
        type_name,
        default_value: None,
        oneof_index: None,
        role: FieldRole::Regular {
            json_name: String::from_str(alloc, word)?,
        },
        proto3_optional: false,
        options: FieldOptions {
            ctype: None,
            packed: None,
            jstype: None,
            lazy: None,
            unverified_lazy: None,
            deprecated: None,
            weak: None,
        },
    })
}

/// The fields `key` and `value` of a map field's entry.
fn entry_fields(
    alloc: Global,
    scene: &Scene,
    field: &MapField,
) -> Result<Vec<FieldDescriptor>, NoMemory>
    ensures { IfOk result (λ ds. map field_desc ds.items
        ≡ (entry_described scene.now field.now).field) }
{
    let key_type = scalar_type(scene.text(field.key));
    let value_type = type_of(scene, &field.value);
    let mut fields = Vec::with_capacity(alloc, 2)?;
    fields.push(entry_field(alloc, "key", 1, key_type, None)?)?;
    let value_name = type_name(alloc, scene, &field.value)?;
    fields.push(entry_field(alloc, "value", 2, value_type, value_name)?)?;
    Ok(fields)
}

/// The message that stands for the pairs of a map field.
pub(crate) fn entry_descriptor(
    alloc: Global,
    scene: &Scene,
    field: &MapField,
) -> Result<MessageDescriptor, NoMemory>
    ensures { IfOk result (λ d. descriptor_tree d
        ≡ record { message = entry_described scene.now field.now; nested_type = NoMessages }) }
{
    Ok(MessageDescriptor {
        name: entry_name(alloc, scene.text(field.name))?,
        field: entry_fields(alloc, scene, field)?,
        extension: Vec::new(alloc),
        nested_type: Vec::new(alloc),
        enum_type: Vec::new(alloc),
        extension_range: Vec::new(alloc),
        oneof_decl: Vec::new(alloc),
        reserved_range: Vec::new(alloc),
        reserved_name: Vec::new(alloc),
        options: MessageOptions {
            deprecated: None,
            no_standard_descriptor_accessor: None,
            map_entry: true,
        },
    })
}
