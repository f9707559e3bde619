//! The names of fields in JSON.

ghost use Rattle.std.specs.Prelude.{◌≡◌, codes, is_some, not, option_map, IfOk, IfSome};
ghost use Rattle.std.specs.String.{string_bytes};
ghost use Rattle.proto_ast.specs.JsonNames.{json_name_of, name_digest, writes_json_name};
ghost use Rattle.proto_ast.specs.Options.{text_option, value_named};
ghost use Rattle.proto_ast.specs.Scenes.{text, value};
ghost use Rattle.proto_ast.specs.Views.{field_of};

use crate::fields::FieldAt;
use crate::option_values::{text_value, value_between};
use crate::scene::Scene;
use proto_base::NoMemory;
use proto_case::{camel_digest, written_or};
use proto_tree::Constant;
use std::alloc::Global;

fn json_option<'a>(scene: &Scene, field: FieldAt<'a>) -> Option<&'a Constant>
    ensures { option_map (λ v. v.now) result
        ≡ value_named (text scene.now) (codes "json_name") (field_of field.entry).options }
{
    value_between(scene, field.settings, "json_name")
}

fn written_name(alloc: Global, scene: &Scene, field: FieldAt) -> Result<Option<String>, NoMemory>
    ensures { IfOk result (λ name. option_map string_bytes name ≡ text_option
        (text scene.now) (value scene.now) (codes "json_name") (field_of field.entry).options) }
{
    match json_option(scene, field) {
        Some(value) => text_value(alloc, scene, value),
        None => Ok(None),
    }
}

/// The name of a field in JSON: the text of its option `json_name`, where it has one; else its word
/// without each `_`, the character after one in upper case.
pub fn json_name(alloc: Global, scene: &Scene, field: FieldAt) -> Result<String, NoMemory>
    ensures { IfOk result (λ name. string_bytes name
        ≡ json_name_of scene.now (field_of field.entry)) }
{
    let written = written_name(alloc, scene, field)?;
    written_or(alloc, written, scene.text(field.name))
}

/// A number of a field's JSON name: fields of the same name have the same number, others seldom do.
/// None where the field has an option `json_name`. Takes no memory.
pub fn json_digest(scene: &Scene, field: FieldAt) -> Option<u64>
    ensures digest { IfSome result (λ digest. digest
        ≡ name_digest (json_name_of scene.now (field_of field.entry))) }
    ensures plain { is_some result ≡ not (writes_json_name scene.now (field_of field.entry)) }
{
    match json_option(scene, field) {
        Some(_) => None,
        None => Some(camel_digest(scene.text(field.name))),
    }
}
