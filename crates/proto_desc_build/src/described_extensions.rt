//! The descriptors of the extensions of a block.

ghost use Rattle.std.specs.Prelude.{◌≡◌, ◌++◌, map, OnOk};
ghost use Rattle.proto_tree.specs.File.{extend_tree};
ghost use Rattle.proto_ast.specs.Views.{field_of};
ghost use Rattle.proto_desc_build.specs.Described.{extension_described, extensions_described};
ghost use Rattle.proto_descriptors.specs.Views.{field_desc};

use crate::described_field::extension_descriptor;
use proto_ast::{FieldAt, Scene, extension_fields};
use proto_base::NoMemory;
use proto_descriptors::FieldDescriptor;
use proto_tree::{Extend, Reference};
use std::alloc::Global;

fn push_each(
    alloc: Global,
    scene: &Scene,
    found: &mut Vec<FieldDescriptor>,
    extendee: &Reference,
    fields: &[FieldAt],
) -> Result<(), NoMemory>
    ensures { OnOk result (map field_desc found.new.items ≡ map field_desc found.old.items
        ++ map (extension_described scene.now extendee.now) (map field_of fields.now)) }
{
    for field in fields {
        found.push(extension_descriptor(alloc, scene, extendee, *field)?)?;
    }
    Ok(())
}

/// Puts the descriptors of the extensions of a block behind those found. Fails only when out of
/// memory.
pub fn push_extensions(
    alloc: Global,
    scene: &Scene,
    found: &mut Vec<FieldDescriptor>,
    extend: &Extend,
) -> Result<(), NoMemory>
    ensures { OnOk result (map field_desc found.new.items ≡ map field_desc found.old.items
        ++ extensions_described scene.now (extend_tree extend.now)) }
{
    let fields = extension_fields(alloc, &extend.fields)?;
    push_each(alloc, scene, found, &extend.extendee, &fields)
}
