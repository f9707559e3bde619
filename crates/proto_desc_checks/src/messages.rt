//! What is wrong with a message: its fields, numbers, names and options.

ghost use Rattle.std.specs.Prelude.{◌≡◌, ◌++◌, flat_map, map, OnOk};
ghost use Rattle.proto_base.specs.declared.fault.FaultKind.TheVariants as kind;
ghost use Rattle.proto_tree.specs.File.{member_tree, trees};
ghost use Rattle.proto_ast.specs.Parts.{closed_ranges, fields_in, options_in, reserved_names_in, statements};
ghost use Rattle.proto_ast.specs.Views.{field_of};
ghost use Rattle.proto_ast.specs.declared.options.Element.TheVariants as element;
ghost use Rattle.proto_desc_numbers.specs.Flaws.{flaw_if};
ghost use Rattle.proto_desc_checks.specs.FieldFlaws.{field_flaws, option_flaws};
ghost use Rattle.proto_desc_numbers.specs.NumberFlaws.{number_of_field, range_of, field_number_flaws};
ghost use Rattle.proto_desc_checks.specs.FileFlaws.{extension_flaws, message_flaws, name_flaws};

use crate::fields::add_field_flaws;
use crate::json_clashes::{add_json_clashes, name_tokens};
use crate::names::add_name_flaws;
use crate::options::add_option_flaws;
use proto_ast::{
    Element, FieldAt, Scene, closed_ranges, extension_words, fields_of, message_options,
    reserved_names,
};
use proto_base::{FaultKind, NoMemory};
use proto_desc_numbers::{Flaw, add_field_numbers, add_if, field_numbers, field_ranges};
use proto_tree::Member;
use std::alloc::Global;

fn add_each_field(
    alloc: Global,
    found: &mut Vec<Flaw>,
    scene: &Scene,
    fields: &[FieldAt],
) -> Result<(), NoMemory>
    ensures { OnOk result (found.new.items ≡ found.old.items
        ++ flat_map (field_flaws scene.now element.Field) (map field_of fields.now)) }
{
    for field in fields {
        add_field_flaws(alloc, found, scene, Element::Field, *field)?;
    }
    Ok(())
}

fn add_numbers(
    alloc: Global,
    found: &mut Vec<Flaw>,
    scene: &Scene,
    members: &[Member],
    fields: &[FieldAt],
) -> Result<(), NoMemory>
    ensures { OnOk result (found.new.items ≡ found.old.items ++ field_number_flaws
        (map (range_of scene.now) (flat_map closed_ranges
        (statements (trees member_tree members.now))))
        (map (number_of_field scene.now) (map field_of fields.now))) }
{
    let closed = closed_ranges(alloc, members)?;
    let ranges = field_ranges(alloc, scene, &closed)?;
    let numbers = field_numbers(alloc, scene, fields)?;
    add_field_numbers(alloc, found, &ranges, &numbers)
}

fn add_names(
    alloc: Global,
    found: &mut Vec<Flaw>,
    scene: &Scene,
    members: &[Member],
    fields: &[FieldAt],
) -> Result<(), NoMemory>
    ensures { OnOk result (found.new.items ≡ found.old.items ++ name_flaws scene.now
        (reserved_names_in (trees member_tree members.now))
        (map (λ f. f.name) (map field_of fields.now))) }
{
    let reserved = reserved_names(alloc, members)?;
    let names = name_tokens(alloc, fields)?;
    add_name_flaws(alloc, found, scene, &reserved, &names)
}

fn add_extensions(found: &mut Vec<Flaw>, scene: &Scene, words: &[u32]) -> Result<(), NoMemory>
    ensures { OnOk result (found.new.items ≡ found.old.items
        ++ flat_map (λ t. flaw_if scene.now.is_proto3 kind.NotInProto3 t) words.now) }
{
    for word in words {
        add_if(found, scene.is_proto3(), FaultKind::NotInProto3, *word)?;
    }
    Ok(())
}

fn add_extension_flaws(
    alloc: Global,
    found: &mut Vec<Flaw>,
    scene: &Scene,
    members: &[Member],
) -> Result<(), NoMemory>
    ensures { OnOk result (found.new.items ≡ found.old.items
        ++ extension_flaws scene.now (trees member_tree members.now)) }
{
    let words = extension_words(alloc, members)?;
    add_extensions(found, scene, &words)
}

fn add_message_options(
    alloc: Global,
    found: &mut Vec<Flaw>,
    scene: &Scene,
    members: &[Member],
) -> Result<(), NoMemory>
    ensures { OnOk result (found.new.items ≡ found.old.items
        ++ option_flaws scene.now element.Message (options_in (trees member_tree members.now))) }
{
    let options = message_options(alloc, members)?;
    add_option_flaws(alloc, found, scene, Element::Message, &options)
}

// What is wrong with a message of these fields.
fn add_flaws_with_fields(
    alloc: Global,
    found: &mut Vec<Flaw>,
    scene: &Scene,
    members: &[Member],
    fields: &[FieldAt],
) -> Result<(), NoMemory>
    requires { map field_of fields.now ≡ fields_in (trees member_tree members.now) }
    ensures { OnOk result (found.new.items ≡ found.old.items
        ++ message_flaws scene.now (trees member_tree members.now)) }
{
    add_each_field(alloc, found, scene, fields)?;
    add_numbers(alloc, found, scene, members, fields)?;
    add_names(alloc, found, scene, members, fields)?;
    add_json_clashes(alloc, found, scene, fields)?;
    add_extension_flaws(alloc, found, scene, members)?;
    add_message_options(alloc, found, scene, members)
}

/// Adds what is wrong with a message, without what is nested in it.
pub(crate) fn add_message_flaws(
    alloc: Global,
    found: &mut Vec<Flaw>,
    scene: &Scene,
    members: &[Member],
) -> Result<(), NoMemory>
    ensures { OnOk result (found.new.items ≡ found.old.items
        ++ message_flaws scene.now (trees member_tree members.now)) }
{
    let fields = fields_of(alloc, members)?;
    add_flaws_with_fields(alloc, found, scene, members, &fields)
}
