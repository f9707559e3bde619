//! What is wrong with an `extend` block: its keyword in a proto3 file that may not have it, and its
//! extensions.

ghost use Rattle.std.specs.Prelude.{◌≡◌, ◌++◌, flat_map, map, OnOk};
ghost use Rattle.proto_tree.specs.File.{extension_tree, trees};
ghost use Rattle.proto_ast.specs.Parts.{fields_in};
ghost use Rattle.proto_ast.specs.Scenes.{meant_by};
ghost use Rattle.proto_ast.specs.Views.{field_of};
ghost use Rattle.proto_desc_numbers.specs.NumberFlaws.{is_field_number, number_of_field, outside};
ghost use Rattle.proto_desc_checks.specs.FieldFlaws.{flaws_of_extension, required_extensions};
ghost use Rattle.proto_desc_checks.specs.FileFlaws.{bars_extend, extend_flaws, is_of_options};

use crate::fields::add_field_flaws;
use proto_ast::{Element, FieldAt, Scene, extension_fields};
use proto_base::{FaultKind, NoMemory, Profile};
use proto_custom_options::is_options_message;
use proto_desc_numbers::{Flaw, add_if, add_outside_fields, field_numbers};
use proto_tree::{Extend, Reference};
use std::alloc::Global;

fn add_required(found: &mut Vec<Flaw>, scene: &Scene, label: Option<u32>) -> Result<(), NoMemory>
    ensures { OnOk result (found.new.items ≡ found.old.items
        ++ required_extensions scene.now label) }
{
    match label {
        Some(token) => {
            let is_wrong = scene.text(token) == "required";
            add_if(found, is_wrong, FaultKind::RequiredExtension, token)
        }
        None => Ok(()),
    }
}

fn add_extension(
    alloc: Global,
    found: &mut Vec<Flaw>,
    scene: &Scene,
    field: FieldAt,
) -> Result<(), NoMemory>
    ensures { OnOk result (found.new.items ≡ found.old.items
        ++ flaws_of_extension scene.now (field_of field.entry)) }
{
    add_required(found, scene, field.label)?;
    add_field_flaws(alloc, found, scene, Element::Extension, field)
}

fn add_extensions(
    alloc: Global,
    found: &mut Vec<Flaw>,
    scene: &Scene,
    fields: &[FieldAt],
) -> Result<(), NoMemory>
    ensures { OnOk result (found.new.items ≡ found.old.items
        ++ flat_map (flaws_of_extension scene.now) (map field_of fields.now)) }
{
    for field in fields {
        add_extension(alloc, found, scene, *field)?;
    }
    Ok(())
}

fn add_numbers(
    alloc: Global,
    found: &mut Vec<Flaw>,
    scene: &Scene,
    fields: &[FieldAt],
) -> Result<(), NoMemory>
    ensures { OnOk result (found.new.items ≡ found.old.items
        ++ outside is_field_number (map (number_of_field scene.now) (map field_of fields.now))) }
{
    let numbers = field_numbers(alloc, scene, fields)?;
    add_outside_fields(found, &numbers)
}

// Whether a reference means one of the nine options messages.
fn is_of_options(scene: &Scene, reference: &Reference) -> bool
    ensures { result ≡ is_of_options (meant_by scene.now reference.now) }
{
    match scene.meaning(reference) {
        Some(meant) => is_options_message(meant.name),
        None => false,
    }
}

// Whether the file may have no `extend` block of this message.
fn bars_extend(scene: &Scene, extendee: &Reference) -> bool
    ensures { result ≡ bars_extend scene.now.profile scene.now.is_proto3
        (meant_by scene.now extendee.now) }
{
    match scene.profile() {
        Profile::Core => scene.is_proto3(),
        Profile::AsWritten => scene.is_proto3() && !is_of_options(scene, extendee),
    }
}

// What is wrong with an `extend` block of these fields.
fn add_flaws_with_fields(
    alloc: Global,
    found: &mut Vec<Flaw>,
    scene: &Scene,
    extend: &Extend,
    fields: &[FieldAt],
) -> Result<(), NoMemory>
    requires { map field_of fields.now
        ≡ fields_in (trees extension_tree extend.now.fields.items) }
    ensures { OnOk result (found.new.items ≡ found.old.items
        ++ extend_flaws scene.now extend.now.keyword extend.now.extendee
        (trees extension_tree extend.now.fields.items)) }
{
    let is_barred = bars_extend(scene, &extend.extendee);
    add_if(found, is_barred, FaultKind::NotInProto3, extend.keyword)?;
    add_numbers(alloc, found, scene, fields)?;
    add_extensions(alloc, found, scene, fields)
}

/// Adds what is wrong with an `extend` block.
pub(crate) fn add_extend_flaws(
    alloc: Global,
    found: &mut Vec<Flaw>,
    scene: &Scene,
    extend: &Extend,
) -> Result<(), NoMemory>
    ensures { OnOk result (found.new.items ≡ found.old.items
        ++ extend_flaws scene.now extend.now.keyword extend.now.extendee
        (trees extension_tree extend.now.fields.items)) }
{
    let fields = extension_fields(alloc, &extend.fields)?;
    add_flaws_with_fields(alloc, found, scene, extend, &fields)
}
