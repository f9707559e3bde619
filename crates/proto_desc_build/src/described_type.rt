//! The types of fields, and the full names of what they mean.

ghost use Rattle.std.specs.Prelude.{◌≡◌, option_map, IfOk};
ghost use Rattle.std.specs.String.{string_bytes};
ghost use Rattle.proto_ast.specs.Scenes.{meant_by};
ghost use Rattle.proto_desc_build.specs.Described.{scalar_type, type_of, absolute, type_name_of};

use crate::described_names::absolute;
use proto_ast::Scene;
use proto_base::NoMemory;
use proto_descriptors::FieldType;
use proto_tree::{FieldType as WrittenType, Reference};
use std::alloc::Global;

/// The type of a scalar's name.
pub(crate) fn scalar_type(word: &str) -> FieldType
    ensures { result ≡ scalar_type word.now }
{
    // The most frequent first.
    match word {
        "string" => FieldType::String,
        "bool" => FieldType::Bool,
        "double" => FieldType::Double,
        "float" => FieldType::Float,
        "int32" => FieldType::Int32,
        "int64" => FieldType::Int64,
        "uint32" => FieldType::Uint32,
        "uint64" => FieldType::Uint64,
        "sint32" => FieldType::Sint32,
        "sint64" => FieldType::Sint64,
        "fixed32" => FieldType::Fixed32,
        "fixed64" => FieldType::Fixed64,
        "sfixed32" => FieldType::Sfixed32,
        "sfixed64" => FieldType::Sfixed64,
        _ => FieldType::Bytes,
    }
}

/// The type that is written.
pub(crate) fn type_of(scene: &Scene, kind: &WrittenType) -> FieldType
    ensures { result ≡ type_of scene.now kind.now }
{
    match kind {
        WrittenType::Scalar(word) => scalar_type(scene.text(*word)),
        WrittenType::Reference(reference) => match scene.enum_meant(reference) {
            Some(_) => FieldType::Enum,
            None => FieldType::Message,
        },
    }
}

/// The full name that a reference means, behind a dot; none where it means none.
pub(crate) fn meant_name(
    alloc: Global,
    scene: &Scene,
    reference: &Reference,
) -> Result<Option<String>, NoMemory>
    ensures { IfOk result (λ name. option_map string_bytes name
        ≡ option_map (λ m. absolute m.name) (meant_by scene.now reference.now)) }
{
    match scene.meaning(reference) {
        Some(meant) => Ok(Some(absolute(alloc, meant.name)?)),
        None => Ok(None),
    }
}

/// The full name of a type that is a reference, behind a dot.
pub(crate) fn type_name(
    alloc: Global,
    scene: &Scene,
    kind: &WrittenType,
) -> Result<Option<String>, NoMemory>
    ensures { IfOk result (λ name. option_map string_bytes name ≡ type_name_of scene.now kind.now) }
{
    match kind {
        WrittenType::Scalar(_) => Ok(None),
        WrittenType::Reference(reference) => meant_name(alloc, scene, reference),
    }
}
