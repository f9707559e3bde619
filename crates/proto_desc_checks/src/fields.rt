//! What is wrong with one field, or one extension: its label, its type, its options and its
//! default.

ghost use Rattle.std.specs.Prelude.{◌≡◌, ◌++◌, map, option_map, IfOk, OnOk};
ghost use Rattle.proto_ast.specs.Options.{is_one_of, is_word_of};
ghost use Rattle.proto_ast.specs.Parts.{FieldOf};
ghost use Rattle.proto_ast.specs.Scenes.{text};
ghost use Rattle.proto_ast.specs.Views.{enum_of, field_of, option_of};
ghost use Rattle.proto_desc_checks.specs.FieldFlaws.{type_token, enum_of_type, lacks_label, required_flaws, map_key_flaws, starts_wrong, has_closed_enum, is_unpackable, is_packable_type, may_be_packed, is_packed_misfit, other_js_types, asks_js_type, long_types, is_long_type, may_have_js_type, is_js_type_misfit, lazy_options, asks_lazy, is_message_type, may_be_lazy, is_lazy_misfit, is_misfit, default_flaws, misfit_flaws, option_flaws, proto3_defaults, type_flaws, field_flaws};

use crate::defaults::{add_default_flaws, add_proto3_defaults};
use crate::options::add_option_flaws;
use proto_ast::{
    Element, EnumAt, FieldAt, OptionAt, Scene, has_label, options_between, truth, word,
};
use proto_base::{FaultKind, NoMemory};
use proto_desc_numbers::{Flaw, add_if};
use proto_tree::FieldType;
use std::alloc::Global;
use std::marker::Model;

/// A field, with the options that are written at it.
#[derive(Drop)]
pub(crate) struct FieldWithOptions<'a> {
    at: FieldAt<'a>,
    options: Vec<OptionAt<'a>>,
}

impl<'a> Model for FieldWithOptions<'a> {
    ghost Value = { FieldOf };

    ghost view = { λ f. field_of f.at };

    ghost invariant = { λ f. map option_of f.options.items ≡ (field_of f.at).options };
}

impl<'a> FieldWithOptions<'a> {
    fn new(alloc: Global, at: FieldAt<'a>) -> Result<FieldWithOptions<'a>, NoMemory>
        ensures { IfOk result (λ f. f ≡ field_of at.entry) }
    {
        let options = options_between(alloc, at.settings)?;
        Ok(FieldWithOptions { at, options })
    }

    /// The field alone.
    pub(crate) fn at(&self) -> FieldAt<'a>
        ensures { field_of result ≡ self.now }
    {
        self.at
    }

    /// Its options.
    pub(crate) fn options(&self) -> &[OptionAt<'a>]
        ensures { map option_of result.now ≡ self.now.options }
    {
        &self.options
    }
}

// ---- labels

fn lacks_label(scene: &Scene, field: FieldAt) -> bool
    ensures { result ≡ lacks_label scene.now (field_of field.entry) }
{
    !scene.is_proto3() && field.label.is_none() && field.map_key.is_none() && field.oneof.is_none()
}

fn add_required_flaws(
    found: &mut Vec<Flaw>,
    scene: &Scene,
    label: Option<u32>,
) -> Result<(), NoMemory>
    ensures { OnOk result (found.new.items ≡ found.old.items ++ required_flaws scene.now label) }
{
    match label {
        Some(token) => {
            let is_wrong = scene.is_proto3() && scene.text(token) == "required";
            add_if(found, is_wrong, FaultKind::NotInProto3, token)
        }
        None => Ok(()),
    }
}

// ---- types

// The type's first token.
fn type_token(kind: &FieldType) -> u32
    ensures { result ≡ type_token kind.now }
{
    match kind {
        FieldType::Scalar(token) => *token,
        FieldType::Reference(reference) => reference.dot.unwrap_or(reference.words.first),
    }
}

fn enum_of_type<'a>(scene: &Scene<'a>, kind: &FieldType) -> Option<EnumAt<'a>>
    ensures { option_map enum_of result ≡ enum_of_type scene.now kind.now }
{
    match kind {
        FieldType::Scalar(_) => None,
        FieldType::Reference(reference) => scene.enum_meant(reference),
    }
}

fn add_map_key_flaws(
    found: &mut Vec<Flaw>,
    scene: &Scene,
    map_key: Option<u32>,
) -> Result<(), NoMemory>
    ensures { OnOk result (found.new.items ≡ found.old.items ++ map_key_flaws scene.now map_key) }
{
    match map_key {
        Some(token) => {
            let is_wrong = matches!(scene.text(token), "float" | "double" | "bytes");
            add_if(found, is_wrong, FaultKind::BadMap, token)
        }
        None => Ok(()),
    }
}

fn starts_wrong(scene: &Scene, field: FieldAt) -> bool
    ensures { result ≡ starts_wrong scene.now (field_of field.entry) }
{
    match enum_of_type(scene, field.kind) {
        Some(enumeration) => field.map_key.is_some() && enumeration.starts_past_zero,
        None => false,
    }
}

fn has_closed_enum(scene: &Scene, field: FieldAt) -> bool
    ensures { result ≡ has_closed_enum scene.now (field_of field.entry) }
{
    match enum_of_type(scene, field.kind) {
        Some(enumeration) => scene.is_proto3() && !enumeration.is_proto3,
        None => false,
    }
}

fn add_type_flaws(found: &mut Vec<Flaw>, scene: &Scene, field: FieldAt) -> Result<(), NoMemory>
    ensures { OnOk result (found.new.items ≡ found.old.items
        ++ type_flaws scene.now (field_of field.entry)) }
{
    let token = type_token(field.kind);
    add_if(found, lacks_label(scene, field), FaultKind::Label, token)?;
    add_required_flaws(found, scene, field.label)?;
    add_map_key_flaws(found, scene, field.map_key)?;
    add_if(
        found,
        starts_wrong(scene, field),
        FaultKind::FirstNotZero,
        token,
    )?;
    add_if(
        found,
        has_closed_enum(scene, field),
        FaultKind::ClosedEnum,
        token,
    )
}

// ---- `packed`

fn is_unpackable(scalar: &str) -> bool
    ensures { result ≡ is_unpackable scalar.now }
{
    matches!(scalar, "string" | "bytes")
}

fn is_packable_type(scene: &Scene, kind: &FieldType) -> bool
    ensures { result ≡ is_packable_type scene.now kind.now }
{
    match kind {
        FieldType::Scalar(token) => !is_unpackable(scene.text(*token)),
        FieldType::Reference(reference) => scene.enum_meant(reference).is_some(),
    }
}

fn may_be_packed(scene: &Scene, field: FieldAt) -> bool
    ensures { result ≡ may_be_packed scene.now (field_of field.entry) }
{
    has_label(scene, "repeated", field) && is_packable_type(scene, field.kind)
}

fn is_packed_misfit(scene: &Scene, field: FieldAt, option: OptionAt) -> bool
    ensures { result ≡ is_packed_misfit scene.now (field_of field.entry) (option_of option.entry) }
{
    scene.text(option.name) == "packed" && !may_be_packed(scene, field)
}

// ---- `jstype`

fn is_other_js_type(word: Option<&str>) -> bool
    ensures { result ≡ is_word_of other_js_types (option_map (λ w. w.now) word.entry) }
{
    matches!(word, Some("JS_STRING" | "JS_NUMBER"))
}

fn asks_js_type(scene: &Scene, option: OptionAt) -> bool
    ensures { result ≡ asks_js_type (text scene.now) (option_of option.entry) }
{
    scene.text(option.name) == "jstype" && is_other_js_type(word(scene, option.value))
}

fn is_long(scalar: &str) -> bool
    ensures { result ≡ is_one_of long_types scalar.now }
{
    matches!(
        scalar,
        "int64" | "uint64" | "sint64" | "fixed64" | "sfixed64"
    )
}

fn is_long_type(scene: &Scene, kind: &FieldType) -> bool
    ensures { result ≡ is_long_type scene.now kind.now }
{
    match kind {
        FieldType::Scalar(token) => is_long(scene.text(*token)),
        FieldType::Reference(_) => false,
    }
}

fn may_have_js_type(scene: &Scene, field: FieldAt) -> bool
    ensures { result ≡ may_have_js_type scene.now (field_of field.entry) }
{
    field.map_key.is_none() && is_long_type(scene, field.kind)
}

fn is_js_type_misfit(scene: &Scene, field: FieldAt, option: OptionAt) -> bool
    ensures { result ≡ is_js_type_misfit scene.now (field_of field.entry) (option_of option.entry) }
{
    asks_js_type(scene, option) && !may_have_js_type(scene, field)
}

// ---- `lazy` and `unverified_lazy`

fn is_lazy_option(name: &str) -> bool
    ensures { result ≡ is_one_of lazy_options name.now }
{
    matches!(name, "lazy" | "unverified_lazy")
}

fn asks_lazy(scene: &Scene, option: OptionAt) -> bool
    ensures { result ≡ asks_lazy (text scene.now) (option_of option.entry) }
{
    is_lazy_option(scene.text(option.name)) && truth(scene, option.value) == Some(true)
}

fn is_message_type(scene: &Scene, kind: &FieldType) -> bool
    ensures { result ≡ is_message_type scene.now kind.now }
{
    match kind {
        FieldType::Scalar(_) => false,
        FieldType::Reference(reference) => !scene.enum_meant(reference).is_some(),
    }
}

fn may_be_lazy(scene: &Scene, field: FieldAt) -> bool
    ensures { result ≡ may_be_lazy scene.now (field_of field.entry) }
{
    field.map_key.is_some() || is_message_type(scene, field.kind)
}

fn is_lazy_misfit(scene: &Scene, field: FieldAt, option: OptionAt) -> bool
    ensures { result ≡ is_lazy_misfit scene.now (field_of field.entry) (option_of option.entry) }
{
    asks_lazy(scene, option) && !may_be_lazy(scene, field)
}

// ---- options that a field's type rules out

fn is_misfit(scene: &Scene, field: FieldAt, option: OptionAt) -> bool
    ensures { result ≡ is_misfit scene.now (field_of field.entry) (option_of option.entry) }
{
    is_packed_misfit(scene, field, option)
        || is_js_type_misfit(scene, field, option)
        || is_lazy_misfit(scene, field, option)
}

fn add_misfits(
    found: &mut Vec<Flaw>,
    scene: &Scene,
    field: &FieldWithOptions,
) -> Result<(), NoMemory>
    ensures { OnOk result (found.new.items ≡ found.old.items ++ misfit_flaws scene.now field.now) }
{
    for option in field.options() {
        let is_wrong = is_misfit(scene, field.at(), *option);
        add_if(found, is_wrong, FaultKind::BadOption, option.name)?;
    }
    Ok(())
}

// ---- all of it

// What is wrong with the options of a field or an extension.
fn add_flaws_of_options(
    alloc: Global,
    found: &mut Vec<Flaw>,
    scene: &Scene,
    element: Element,
    field: &FieldWithOptions,
) -> Result<(), NoMemory>
    ensures { OnOk result (found.new.items ≡ found.old.items
        ++ (option_flaws scene.now element field.now.options
        ++ (misfit_flaws scene.now field.now
        ++ (default_flaws scene.now field.now ++ proto3_defaults scene.now field.now)))) }
{
    add_option_flaws(alloc, found, scene, element, field.options())?;
    add_misfits(found, scene, field)?;
    add_default_flaws(found, scene, field)?;
    add_proto3_defaults(found, scene, field)
}

/// Adds what is wrong with a field, or with an extension, which may have other options.
pub(crate) fn add_field_flaws(
    alloc: Global,
    found: &mut Vec<Flaw>,
    scene: &Scene,
    element: Element,
    field: FieldAt,
) -> Result<(), NoMemory>
    ensures { OnOk result (found.new.items ≡ found.old.items
        ++ field_flaws scene.now element (field_of field.entry)) }
{
    add_type_flaws(found, scene, field)?;
    let field = FieldWithOptions::new(alloc, field)?;
    add_flaws_of_options(alloc, found, scene, element, &field)
}
