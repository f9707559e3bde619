//! The descriptors of enums.

ghost use Rattle.std.specs.Prelude.{◌≡◌, [], ◌∷◌, ◌++◌, flat_map, map, string_bytes, IfOk, OnOk};
ghost use Rattle.proto_tree.specs.File.{enum_item_tree, trees};
ghost use Rattle.proto_ast.specs.Parts.{enum_ranges, reserved_names_in, statements};
ghost use Rattle.proto_ast.specs.Scenes.{value};
ghost use Rattle.proto_ast.specs.Views.{option_of};
ghost use Rattle.proto_desc_numbers.specs.NumberFlaws.{enum_range_of};
ghost use Rattle.proto_desc_build.specs.Described.{value_described, value_range, enum_options, enum_described};
ghost use Rattle.proto_descriptors.specs.Views.{enum_value_desc, enum_desc};

use crate::described_names::strings;
use crate::described_numbers::{value_number, value_range};
use proto_ast::{
    OptionAt, Scene, enum_ranges, enum_reserved_names, options_between, truth_option, values,
};
use proto_base::NoMemory;
use proto_desc_numbers::value_ranges;
use proto_descriptors::{
    EnumDescriptor, EnumOptions, EnumReservedRange, EnumValueDescriptor, EnumValueOptions,
};
use proto_tree::{Enum, EnumItem, Range, Signed, Value};
use std::alloc::Global;

fn value_descriptor(
    alloc: Global,
    scene: &Scene,
    value: &Value,
) -> Result<EnumValueDescriptor, NoMemory>
    ensures { IfOk result (λ d. enum_value_desc d ≡ value_described scene.now value.now) }
{
    let options = options_between(alloc, value.settings.as_ref())?;
    Ok(EnumValueDescriptor {
        name: String::from_str(alloc, scene.text(value.name))?,
        number: value_number(scene.signed_number(value.number)),
        options: EnumValueOptions {
            deprecated: truth_option(scene, &options, "deprecated"),
        },
    })
}

fn value_descriptors(
    alloc: Global,
    scene: &Scene,
    values: &[&Value],
) -> Result<Vec<EnumValueDescriptor>, NoMemory>
    ensures { IfOk result (λ ds. map enum_value_desc ds.items
        ≡ map (value_described scene.now) (map (λ v. v.now) values.now)) }
{
    let mut descriptors = Vec::with_capacity(alloc, values.len())?;
    for value in values {
        descriptors.push(value_descriptor(alloc, scene, value)?)?;
    }
    Ok(descriptors)
}

fn reserved_ranges(
    alloc: Global,
    scene: &Scene,
    written: &[&Range<Signed>],
) -> Result<Vec<EnumReservedRange>, NoMemory>
    ensures { IfOk result (λ found. found.items
        ≡ map (λ r. value_range (enum_range_of scene.now r)) (map (λ r. r.now) written.now)) }
{
    let ranges = value_ranges(alloc, scene, written)?;
    let mut found = Vec::new(alloc);
    for range in &ranges {
        found.push(value_range(*range))?;
    }
    Ok(found)
}

fn enum_options(scene: &Scene, options: &[OptionAt]) -> EnumOptions
    ensures { result ≡ enum_options scene.now (map option_of options.now) }
{
    EnumOptions {
        allow_alias: truth_option(scene, options, "allow_alias"),
        deprecated: truth_option(scene, options, "deprecated"),
    }
}

// The numbers and the names that no value may have.
fn reserved_of_enum(
    alloc: Global,
    scene: &Scene,
    items: &[EnumItem],
) -> Result<(Vec<EnumReservedRange>, Vec<String>), NoMemory>
    ensures numbers { IfOk result (λ r. r.0.items
        ≡ map (λ n. value_range (enum_range_of scene.now n))
        (flat_map enum_ranges (statements (trees enum_item_tree items.now)))) }
    ensures names { IfOk result (λ r. map string_bytes r.1.items
        ≡ map (value scene.now) (reserved_names_in (trees enum_item_tree items.now))) }
{
    let ranges = enum_ranges(alloc, items)?;
    let names = enum_reserved_names(alloc, items)?;
    let numbers = reserved_ranges(alloc, scene, &ranges)?;
    Ok((numbers, strings(alloc, scene, &names)?))
}

/// Puts the descriptor of an enum behind those found. Fails only when out of memory.
pub fn push_enum(
    alloc: Global,
    scene: &Scene,
    found: &mut Vec<EnumDescriptor>,
    enumeration: &Enum,
) -> Result<(), NoMemory>
    ensures { OnOk result (map enum_desc found.new.items ≡ map enum_desc found.old.items
        ++ enum_described scene.now enumeration.now.name
        (trees enum_item_tree enumeration.now.members.items) ∷ []) }
{
    Ok(found.push(enum_descriptor(alloc, scene, enumeration)?)?)
}

/// The descriptor of an enum.
fn enum_descriptor(
    alloc: Global,
    scene: &Scene,
    enumeration: &Enum,
) -> Result<EnumDescriptor, NoMemory>
    ensures { IfOk result (λ d. enum_desc d ≡ enum_described scene.now enumeration.now.name
        (trees enum_item_tree enumeration.now.members.items)) }
{
    let items = &enumeration.members;
    let (reserved_range, reserved_name) = reserved_of_enum(alloc, scene, items)?;
    let options = proto_ast::enum_options(alloc, items)?;
    let values = values(alloc, items)?;
    Ok(EnumDescriptor {
        name: String::from_str(alloc, scene.text(enumeration.name))?,
        value: value_descriptors(alloc, scene, &values)?,
        reserved_range,
        reserved_name,
        options: enum_options(scene, &options),
    })
}
