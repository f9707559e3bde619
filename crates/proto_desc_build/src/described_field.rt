//! The descriptors of fields and of extensions.

ghost use Rattle.std.specs.Prelude.{◌≡◌, codes, map, option_map, IfOk};
ghost use Rattle.std.specs.String.{string_bytes};
ghost use Rattle.proto_ast.specs.Options.{value_named};
ghost use Rattle.proto_ast.specs.Scenes.{text};
ghost use Rattle.proto_ast.specs.Views.{field_of, option_of};
ghost use Rattle.proto_ast.specs.Labels.{has_label};
ghost use Rattle.proto_desc_build.specs.Described.{c_type_named, js_type_named, label_of, field_type_of, field_type_name, default_text, field_options, field_with, field_described, extension_described};
ghost use Rattle.proto_descriptors.specs.Views.{field_desc, role_extendee, role_json_name};

use crate::described_names::type_text;
use crate::described_numbers::{default_number, field_number};
use crate::described_type::{type_name, type_of};
use proto_ast::{
    FieldAt, OptionAt, Scene, has_label, json_name, option_named, options_between, text_value,
    truth_option, word_option,
};
use proto_base::NoMemory;
use proto_case::entry_name;
use proto_descriptors::{
    CType, FieldDescriptor, FieldOptions, FieldRole, FieldType, JsType, Label,
};
use proto_names_rules::below;
use proto_tree::{Constant, Reference};
use std::alloc::Global;

fn label_of(scene: &Scene, field: FieldAt) -> Label
    ensures { result ≡ label_of scene.now (field_of field.entry) }
{
    if field.map_key.is_some() || has_label(scene, "repeated", field) {
        Label::Repeated
    } else if has_label(scene, "required", field) {
        Label::Required
    } else {
        Label::Optional
    }
}

fn field_type_of(scene: &Scene, field: FieldAt) -> FieldType
    ensures { result ≡ field_type_of scene.now (field_of field.entry) }
{
    if field.map_key.is_some() {
        FieldType::Message
    } else {
        type_of(scene, field.kind)
    }
}

// The entry of a map field is nested in the field's own message.
fn field_type_name(
    alloc: Global,
    scene: &Scene,
    full: &str,
    field: FieldAt,
) -> Result<Option<String>, NoMemory>
    ensures { IfOk result (λ name. option_map string_bytes name
        ≡ field_type_name scene.now full.now (field_of field.entry)) }
{
    if field.map_key.is_some() {
        let entry = entry_name(alloc, scene.text(field.name))?;
        Ok(Some(below(alloc, full, &entry)?))
    } else {
        type_name(alloc, scene, field.kind)
    }
}

fn default_text(alloc: Global, scene: &Scene, constant: &Constant) -> Result<String, NoMemory>
    ensures { IfOk result (λ d. string_bytes d ≡ default_text scene.now constant.now) }
{
    match constant {
        Constant::Number(number) => {
            Ok(default_number(scene.signed_number(*number)).to_string(alloc)?)
        }
        Constant::Word(word) => Ok(String::from_str(alloc, scene.text(*word))?),
        Constant::Text(_) => Ok(text_value(alloc, scene, constant)?.unwrap_or(String::new(alloc))),
    }
}

fn default_value(
    alloc: Global,
    scene: &Scene,
    options: &[OptionAt],
) -> Result<Option<String>, NoMemory>
    ensures { IfOk result (λ d. option_map string_bytes d
        ≡ option_map (default_text scene.now)
        (value_named (text scene.now) (codes "default") (map option_of options.now))) }
{
    match option_named(scene, options, "default") {
        Some(option) => Ok(Some(default_text(alloc, scene, option.value)?)),
        None => Ok(None),
    }
}

fn c_type_named(word: &str) -> CType
    ensures { result ≡ c_type_named word.now }
{
    match word {
        "CORD" => CType::Cord,
        "STRING_PIECE" => CType::StringPiece,
        _ => CType::String,
    }
}

fn js_type_named(word: &str) -> JsType
    ensures { result ≡ js_type_named word.now }
{
    match word {
        "JS_STRING" => JsType::String,
        "JS_NUMBER" => JsType::Number,
        _ => JsType::Normal,
    }
}

fn field_options(scene: &Scene, options: &[OptionAt]) -> FieldOptions
    ensures { result ≡ field_options scene.now (map option_of options.now) }
{
    let c_type = word_option(scene, options, "ctype");
    let js_type = word_option(scene, options, "jstype");
    FieldOptions {
        ctype: c_type.map(c_type_named),
        packed: truth_option(scene, options, "packed"),
        jstype: js_type.map(js_type_named),
        lazy: truth_option(scene, options, "lazy"),
        unverified_lazy: truth_option(scene, options, "unverified_lazy"),
        deprecated: truth_option(scene, options, "deprecated"),
        weak: truth_option(scene, options, "weak"),
    }
}

/// The descriptor of a field of the message with this full name, which stands behind a dot.
pub(crate) fn field_descriptor(
    alloc: Global,
    scene: &Scene,
    full: &str,
    field: FieldAt,
) -> Result<FieldDescriptor, NoMemory>
    ensures { IfOk result (λ d. field_desc d
        ≡ field_described scene.now full.now (field_of field.entry)) }
{
    let json_name = json_name(alloc, scene, field)?;
    field_with(alloc, scene, full, FieldRole::Regular { json_name }, field)
}

/// The descriptor of an extension of the message that the reference means.
pub(crate) fn extension_descriptor(
    alloc: Global,
    scene: &Scene,
    extendee: &Reference,
    field: FieldAt,
) -> Result<FieldDescriptor, NoMemory>
    ensures { IfOk result (λ d. field_desc d
        ≡ extension_described scene.now extendee.now (field_of field.entry)) }
{
    let extendee = type_text(alloc, scene, extendee)?;
    field_with(alloc, scene, "", FieldRole::Extension { extendee }, field)
}

// The default of a field, and the options of its descriptor.
fn default_and_options(
    alloc: Global,
    scene: &Scene,
    field: FieldAt,
) -> Result<(Option<String>, FieldOptions), NoMemory>
    ensures default { IfOk result (λ d. option_map string_bytes d.0
        ≡ option_map (default_text scene.now)
        (value_named (text scene.now) (codes "default") (field_of field.entry).options)) }
    ensures options { IfOk result (λ d. d.1
        ≡ field_options scene.now (field_of field.entry).options) }
{
    let options = options_between(alloc, field.settings)?;
    let default = default_value(alloc, scene, &options)?;
    Ok((default, field_options(scene, &options)))
}

// A field, with the full name of its message and with its role.
fn field_with(
    alloc: Global,
    scene: &Scene,
    full: &str,
    role: FieldRole,
    field: FieldAt,
) -> Result<FieldDescriptor, NoMemory>
    ensures { IfOk result (λ d. field_desc d
        ≡ field_with scene.now full.now (role_extendee role) (role_json_name role)
        (field_of field.entry)) }
{
    let (default_value, options) = default_and_options(alloc, scene, field)?;
    Ok(FieldDescriptor {
        name: String::from_str(alloc, scene.text(field.name))?,
        number: field_number(scene.number(field.number)),
        label: label_of(scene, field),
        field_type: field_type_of(scene, field),
        type_name: field_type_name(alloc, scene, full, field)?,
        default_value,
        oneof_index: field.oneof,
        role,
        proto3_optional: scene.is_proto3() && has_label(scene, "optional", field),
        options,
    })
}
