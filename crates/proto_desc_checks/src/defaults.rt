//! What is wrong with the default of a field.

ghost use Rattle.std.specs.Prelude.{◌≡◌, ◌++◌, option_map, OnOk};
ghost use Rattle.proto_ast.specs.Views.{enum_of, field_of, option_of};
ghost use Rattle.proto_desc_checks.specs.FieldFlaws.{holds_number, is_scalar_default, is_value_of, is_default_of, may_default, wrong_default, default_flaws, proto3_defaults};

use crate::fields::FieldWithOptions;
use proto_ast::{EnumAt, FieldAt, OptionAt, Scene, has_label, option_named, truth, word};
use proto_base::{FaultKind, NoMemory};
use proto_desc_numbers::{Flaw, LEAST_VALUE, MOST_VALUE, add_if, is_within};
use proto_tree::{Constant, FieldType};

fn holds_number(scalar: &str, number: i128) -> bool
    ensures { result ≡ holds_number scalar.now number }
{
    match scalar {
        "int32" | "sint32" | "sfixed32" => is_within(LEAST_VALUE, MOST_VALUE, number),
        "int64" | "sint64" | "sfixed64" => is_within(i64::MIN as i128, i64::MAX as i128, number),
        "uint32" | "fixed32" => is_within(0, u32::MAX as i128, number),
        "uint64" | "fixed64" => is_within(0, u64::MAX as i128, number),
        _ => false,
    }
}

fn is_scalar_default(scene: &Scene, scalar: &str, value: &Constant) -> bool
    ensures { result ≡ is_scalar_default scene.now scalar.now value.now }
{
    match value {
        Constant::Number(number) => holds_number(scalar, scene.signed_number(*number)),
        Constant::Word(_) => scalar == "bool" && truth(scene, value).is_some(),
        Constant::Text(_) => scalar == "string",
    }
}

fn is_value_of(enumeration: Option<EnumAt>, word: Option<&str>) -> bool
    ensures { result ≡ is_value_of (option_map enum_of enumeration.entry)
        (option_map (λ w. w.now) word.entry) }
{
    match (enumeration, word) {
        (Some(enumeration), Some(word)) => enumeration.values.has(word),
        _ => false,
    }
}

fn is_default_of(scene: &Scene, kind: &FieldType, value: &Constant) -> bool
    ensures { result ≡ is_default_of scene.now kind.now value.now }
{
    match kind {
        FieldType::Scalar(token) => is_scalar_default(scene, scene.text(*token), value),
        FieldType::Reference(reference) => {
            is_value_of(scene.enum_meant(reference), word(scene, value))
        }
    }
}

fn may_default(scene: &Scene, field: FieldAt, option: OptionAt) -> bool
    ensures { result ≡ may_default scene.now (field_of field.entry) (option_of option.entry) }
{
    !has_label(scene, "repeated", field)
        && field.map_key.is_none()
        && is_default_of(scene, field.kind, option.value)
}

fn add_wrong_default(
    found: &mut Vec<Flaw>,
    scene: &Scene,
    field: FieldAt,
    default: Option<OptionAt>,
) -> Result<(), NoMemory>
    ensures { OnOk result (found.new.items ≡ found.old.items
        ++ wrong_default scene.now (field_of field.entry) (option_map option_of default.entry)) }
{
    match default {
        Some(option) => {
            let is_wrong = !may_default(scene, field, option);
            add_if(found, is_wrong, FaultKind::BadDefault, option.name)
        }
        None => Ok(()),
    }
}

/// Adds a proto2 default that does not fit its field.
pub(crate) fn add_default_flaws(
    found: &mut Vec<Flaw>,
    scene: &Scene,
    field: &FieldWithOptions,
) -> Result<(), NoMemory>
    ensures { OnOk result (found.new.items ≡ found.old.items
        ++ default_flaws scene.now field.now) }
{
    if scene.is_proto3() {
        return Ok(());
    }
    let default = option_named(scene, field.options(), "default");
    add_wrong_default(found, scene, field.at(), default)
}

/// Adds the defaults of a proto3 field.
pub(crate) fn add_proto3_defaults(
    found: &mut Vec<Flaw>,
    scene: &Scene,
    field: &FieldWithOptions,
) -> Result<(), NoMemory>
    ensures { OnOk result (found.new.items ≡ found.old.items
        ++ proto3_defaults scene.now field.now) }
{
    for option in field.options() {
        let is_wrong = scene.is_proto3() && scene.text(option.name) == "default";
        add_if(found, is_wrong, FaultKind::NotInProto3, option.name)?;
    }
    Ok(())
}
