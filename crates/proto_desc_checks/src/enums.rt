//! What is wrong with an enum: its numbers, names and options.

ghost use Rattle.std.specs.Prelude.{◌≡◌, ◌++◌, ◌&&◌, List, [], codes, if◌then◌else◌, flat_map, map, IfOk, OnOk};
ghost use Rattle.proto_base.specs.declared.fault.FaultKind.TheVariants as kind;
ghost use Rattle.proto_tree.specs.File.{enum_item_tree, trees};
ghost use Rattle.proto_tree.specs.declared.tree.EnumItem as item;
ghost use Rattle.proto_ast.specs.Options.{is_named, truth_of, is_true};
ghost use Rattle.proto_ast.specs.Parts.{enum_ranges, options_in, reserved_names_in, statements, values_in};
ghost use Rattle.proto_ast.specs.Scenes.{text};
ghost use Rattle.proto_ast.specs.Views.{option_of};
ghost use Rattle.proto_desc_numbers.specs.Flaws.{marked};
ghost use Rattle.proto_desc_numbers.specs.NumberFlaws.{enum_range_of, is_value_number, number_of_value, outside, repeated_numbers};
ghost use Rattle.proto_desc_checks.specs.FileFlaws.{allows_alias, enum_flaws, first_value_flaws, name_flaws, value_number_flaws, value_option_flaws};

use crate::names::add_name_flaws;
use crate::options::add_option_flaws;
use proto_ast::{
    Element, OptionAt, Scene, enum_options, enum_ranges, enum_reserved_names, options_between,
    truth, values,
};
use proto_base::{FaultKind, NoMemory};
use proto_desc_numbers::{
    Flaw, NumberAt, add_if, add_marked, add_outside_values, add_value_ranges, number_tokens,
    repeated_flags, value_numbers, value_ranges,
};
use proto_tree::{Enum, EnumItem, Value};
use std::alloc::Global;
use std::marker::Model;

/// The items of an enum, with the values and the options among them.
#[derive(Drop)]
struct EnumParts<'a> {
    items: &'a [EnumItem],
    values: Vec<&'a Value>,
    options: Vec<OptionAt<'a>>,
}

impl<'a> Model for EnumParts<'a> {
    ghost Value = { List item.EnumItem };

    ghost view = { λ p. p.items.now };

    ghost invariant = { λ p. (map (λ v. v.now) p.values.items
        ≡ values_in (trees enum_item_tree p.items.now))
        × (map option_of p.options.items ≡ options_in (trees enum_item_tree p.items.now)) };
}

impl<'a> EnumParts<'a> {
    fn new(alloc: Global, items: &'a [EnumItem]) -> Result<EnumParts<'a>, NoMemory>
        ensures { IfOk result (λ p. p ≡ items.entry.now) }
    {
        let values = values(alloc, items)?;
        let options = enum_options(alloc, items)?;
        Ok(EnumParts {
            items,
            values,
            options,
        })
    }

    fn items(&self) -> &[EnumItem]
        ensures { result.now ≡ self.now }
    {
        self.items
    }

    fn values(&self) -> &[&'a Value]
        ensures { map (λ v. v.now) result.now ≡ values_in (trees enum_item_tree self.now) }
    {
        &self.values
    }

    fn options(&self) -> &[OptionAt<'a>]
        ensures { map option_of result.now ≡ options_in (trees enum_item_tree self.now) }
    {
        &self.options
    }
}

// ---- numbers

fn add_first_value(
    found: &mut Vec<Flaw>,
    scene: &Scene,
    numbers: &[NumberAt],
) -> Result<(), NoMemory>
    ensures { OnOk result (found.new.items ≡ found.old.items
        ++ first_value_flaws scene.now numbers.now) }
{
    match numbers {
        [first, ..] => {
            let is_wrong = scene.is_proto3() && first.number != 0;
            add_if(found, is_wrong, FaultKind::FirstNotZero, first.token)
        }
        [] => Ok(()),
    }
}

fn is_alias_option(scene: &Scene, option: OptionAt) -> bool
    ensures { result ≡ (is_named (text scene.now) (codes "allow_alias") (option_of option.entry)
        && is_true (truth_of (text scene.now) option.entry.value.now)) }
{
    scene.text(option.name) == "allow_alias" && truth(scene, option.value) == Some(true)
}

fn allows_alias(scene: &Scene, options: &[OptionAt]) -> bool
    ensures { result ≡ allows_alias scene.now (map option_of options.now) }
{
    options.iter().any(|option| is_alias_option(scene, *option))
}

fn add_aliases(
    alloc: Global,
    found: &mut Vec<Flaw>,
    scene: &Scene,
    options: &[OptionAt],
    numbers: &[NumberAt],
) -> Result<(), NoMemory>
    ensures { OnOk result (found.new.items ≡ found.old.items ++
        (if allows_alias scene.now (map option_of options.now) then [] else marked
        kind.AliasNotAllowed (map (λ n. n.token) numbers.now) (repeated_numbers numbers.now))) }
{
    if allows_alias(scene, options) {
        return Ok(());
    }
    let tokens = number_tokens(alloc, numbers)?;
    let flags = repeated_flags(alloc, numbers)?;
    add_marked(found, FaultKind::AliasNotAllowed, &tokens, &flags)
}

// What is wrong with the numbers of values, beside what is reserved.
fn add_numbers(
    alloc: Global,
    found: &mut Vec<Flaw>,
    scene: &Scene,
    options: &[OptionAt],
    numbers: &[NumberAt],
) -> Result<(), NoMemory>
    ensures { OnOk result (found.new.items ≡ found.old.items
        ++ (outside is_value_number numbers.now
        ++ (first_value_flaws scene.now numbers.now
        ++ (if allows_alias scene.now (map option_of options.now) then [] else marked
        kind.AliasNotAllowed (map (λ n. n.token) numbers.now) (repeated_numbers numbers.now))))) }
{
    add_outside_values(found, numbers)?;
    add_first_value(found, scene, numbers)?;
    add_aliases(alloc, found, scene, options, numbers)
}

fn add_number_flaws(
    alloc: Global,
    found: &mut Vec<Flaw>,
    scene: &Scene,
    parts: &EnumParts,
) -> Result<(), NoMemory>
    ensures { OnOk result (found.new.items ≡ found.old.items
        ++ value_number_flaws scene.now (trees enum_item_tree parts.now)
        (map (enum_range_of scene.now)
        (flat_map enum_ranges (statements (trees enum_item_tree parts.now))))
        (map (number_of_value scene.now) (values_in (trees enum_item_tree parts.now)))) }
{
    let closed = enum_ranges(alloc, parts.items())?;
    let ranges = value_ranges(alloc, scene, &closed)?;
    let numbers = value_numbers(alloc, scene, parts.values())?;
    add_numbers(alloc, found, scene, parts.options(), &numbers)?;
    add_value_ranges(alloc, found, &ranges, &numbers)
}

// ---- names

fn value_names(alloc: Global, values: &[&Value]) -> Result<Vec<u32>, NoMemory>
    ensures { IfOk result (λ names. names.items ≡ map (λ v. v.name) (map (λ v. v.now) values.now)) }
{
    let mut names = Vec::new(alloc);
    for value in values {
        names.push(value.name)?;
    }
    Ok(names)
}

fn add_names(
    alloc: Global,
    found: &mut Vec<Flaw>,
    scene: &Scene,
    parts: &EnumParts,
) -> Result<(), NoMemory>
    ensures { OnOk result (found.new.items ≡ found.old.items ++ name_flaws scene.now
        (reserved_names_in (trees enum_item_tree parts.now))
        (map (λ v. v.name) (values_in (trees enum_item_tree parts.now)))) }
{
    let reserved = enum_reserved_names(alloc, parts.items())?;
    let names = value_names(alloc, parts.values())?;
    add_name_flaws(alloc, found, scene, &reserved, &names)
}

// ---- options

fn add_value_options(
    alloc: Global,
    found: &mut Vec<Flaw>,
    scene: &Scene,
    value: &Value,
) -> Result<(), NoMemory>
    ensures { OnOk result (found.new.items ≡ found.old.items
        ++ value_option_flaws scene.now value.now) }
{
    let options = options_between(alloc, value.settings.as_ref())?;
    add_option_flaws(alloc, found, scene, Element::EnumValue, &options)
}

fn add_each_value(
    alloc: Global,
    found: &mut Vec<Flaw>,
    scene: &Scene,
    values: &[&Value],
) -> Result<(), NoMemory>
    ensures { OnOk result (found.new.items ≡ found.old.items
        ++ flat_map (value_option_flaws scene.now) (map (λ v. v.now) values.now)) }
{
    for value in values {
        add_value_options(alloc, found, scene, value)?;
    }
    Ok(())
}

// ---- all of it

// What is wrong with an enum of this name and these parts.
fn add_flaws_of_parts(
    alloc: Global,
    found: &mut Vec<Flaw>,
    scene: &Scene,
    name: u32,
    parts: &EnumParts,
) -> Result<(), NoMemory>
    ensures { OnOk result (found.new.items ≡ found.old.items
        ++ enum_flaws scene.now name (trees enum_item_tree parts.now)) }
{
    let is_empty = parts.values().is_empty();
    add_if(found, is_empty, FaultKind::EmptyEnum, name)?;
    add_number_flaws(alloc, found, scene, parts)?;
    add_names(alloc, found, scene, parts)?;
    add_each_value(alloc, found, scene, parts.values())?;
    add_option_flaws(alloc, found, scene, Element::Enum, parts.options())
}

/// Adds what is wrong with an enum.
pub(crate) fn add_enum_flaws(
    alloc: Global,
    found: &mut Vec<Flaw>,
    scene: &Scene,
    enumeration: &Enum,
) -> Result<(), NoMemory>
    ensures { OnOk result (found.new.items ≡ found.old.items
        ++ enum_flaws scene.now enumeration.now.name
        (trees enum_item_tree enumeration.now.members.items)) }
{
    let parts = EnumParts::new(alloc, &enumeration.members)?;
    add_flaws_of_parts(alloc, found, scene, enumeration.name, &parts)
}
