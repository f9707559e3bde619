//! What options say.

ghost use Rattle.std.specs.Prelude.{◌≡◌, ◌∷◌, ◌++◌, find, flat_map, map, option_map, IfOk, OnOk};
ghost use Rattle.std.specs.String.{string_bytes};
ghost use Rattle.proto_ast.specs.Options.{c_types, is_allowed, is_named, idempotency_levels, is_of_kind, is_word_of, js_types, optimize_modes, text_of_constant, text_option, truth_named, truth_of, truth_option, value_named, word_of, word_option};
ghost use Rattle.proto_ast.specs.Parts.{separated, setting_options, settings_of};
ghost use Rattle.proto_ast.specs.Scenes.{text, value};
ghost use Rattle.proto_ast.specs.Views.{option_of};

use crate::fields::OptionAt;
use crate::options::{Element, ValueKind, value_kind};
use crate::scene::Scene;
use proto_base::NoMemory;
use proto_tree::{Constant, Joined, OnHeap, Separated, Setting, Settings};
use std::alloc::Global;

/// The word that a value is; none for a number or a text.
pub fn word<'a>(scene: &Scene<'a>, value: &Constant) -> Option<&'a str>
    ensures { option_map (λ w. w.now) result ≡ word_of (text scene.now) value.now }
{
    match value {
        Constant::Word(token) => Some(scene.text(*token)),
        Constant::Number(_) => None,
        Constant::Text(_) => None,
    }
}

fn truth_named(word: &str) -> Option<bool>
    ensures { result ≡ truth_named word.now }
{
    match word {
        "true" => Some(true),
        "false" => Some(false),
        _ => None,
    }
}

/// What a value of `true` or `false` is; none for another.
pub fn truth(scene: &Scene, value: &Constant) -> Option<bool>
    ensures { result ≡ truth_of (text scene.now) value.now }
{
    truth_named(word(scene, value)?)
}

/// The first option of a name; none where there is none.
pub fn option_named<'a>(scene: &Scene, options: &[OptionAt<'a>], name: &str) -> Option<OptionAt<'a>>
    ensures { option_map option_of result ≡ find
        (is_named (text scene.now) name.now) (map option_of options.now) }
{
    for option in options {
        if scene.text(option.name) == name {
            return Some(*option);
        }
    }
    None
}

fn is_optimize_mode(word: Option<&str>) -> bool
    ensures { result ≡ is_word_of optimize_modes (option_map (λ w. w.now) word.entry) }
{
    matches!(word, Some("SPEED" | "CODE_SIZE" | "LITE_RUNTIME"))
}

fn is_idempotency_level(word: Option<&str>) -> bool
    ensures { result ≡ is_word_of idempotency_levels (option_map (λ w. w.now) word.entry) }
{
    matches!(
        word,
        Some("IDEMPOTENCY_UNKNOWN" | "NO_SIDE_EFFECTS" | "IDEMPOTENT")
    )
}

fn is_c_type(word: Option<&str>) -> bool
    ensures { result ≡ is_word_of c_types (option_map (λ w. w.now) word.entry) }
{
    matches!(word, Some("STRING" | "CORD" | "STRING_PIECE"))
}

fn is_js_type(word: Option<&str>) -> bool
    ensures { result ≡ is_word_of js_types (option_map (λ w. w.now) word.entry) }
{
    matches!(word, Some("JS_NORMAL" | "JS_STRING" | "JS_NUMBER"))
}

fn is_of_kind(scene: &Scene, kind: ValueKind, value: &Constant) -> bool
    ensures { result ≡ is_of_kind (text scene.now) kind value.now }
{
    match kind {
        ValueKind::Text => matches!(value, Constant::Text(_)),
        ValueKind::Truth => truth(scene, value).is_some(),
        ValueKind::OptimizeMode => is_optimize_mode(word(scene, value)),
        ValueKind::IdempotencyLevel => is_idempotency_level(word(scene, value)),
        ValueKind::CType => is_c_type(word(scene, value)),
        ValueKind::JsType => is_js_type(word(scene, value)),
        ValueKind::Default => true,
    }
}

/// Whether an element may have the option in the file's language, with such a value. What may be a
/// default, the field's type says.
pub fn is_allowed(scene: &Scene, element: Element, option: OptionAt) -> bool
    ensures { result ≡ is_allowed scene.now.profile (text scene.now) element
        (option_of option.entry) }
{
    match value_kind(scene.profile(), element, scene.text(option.name)) {
        Some(kind) => is_of_kind(scene, kind, option.value),
        None => false,
    }
}

// ---- texts

fn push_string(alloc: Global, scene: &Scene, text: &mut String, token: u32) -> Result<(), NoMemory>
    ensures { OnOk result (string_bytes text.new
        ≡ string_bytes text.old ++ value scene.now token) }
{
    let string = scene.string(alloc, token)?;
    text.push_str(string.as_str())?;
    Ok(())
}

fn joined_text(alloc: Global, scene: &Scene, joined: &Joined) -> Result<String, NoMemory>
    ensures { IfOk result (λ text. string_bytes text
        ≡ flat_map (value scene.now) (joined.now.first ∷ joined.now.rest)) }
{
    let mut text = scene.string(alloc, joined.first)?;
    for token in joined.rest.as_slice() {
        push_string(alloc, scene, &mut text, *token)?;
    }
    Ok(text)
}

/// The text of a constant, of all its strings; none for a word or a number.
pub fn text_value(
    alloc: Global,
    scene: &Scene,
    constant: &Constant,
) -> Result<Option<String>, NoMemory>
    ensures { IfOk result (λ text. option_map string_bytes text
        ≡ text_of_constant (value scene.now) constant.now) }
{
    match constant {
        Constant::Text(joined) => Ok(Some(joined_text(alloc, scene, joined)?)),
        Constant::Word(_) | Constant::Number(_) => Ok(None),
    }
}

// ---- of a list of options

/// What the first option of the name says, where it is `true` or `false`.
pub fn truth_option(scene: &Scene, options: &[OptionAt], name: &str) -> Option<bool>
    ensures { result ≡ truth_option (text scene.now) name.now (map option_of options.now) }
{
    truth(scene, option_named(scene, options, name)?.value)
}

/// The word of the first option of the name.
pub fn word_option<'a>(scene: &Scene<'a>, options: &[OptionAt], name: &str) -> Option<&'a str>
    ensures { option_map (λ w. w.now) result
        ≡ word_option (text scene.now) name.now (map option_of options.now) }
{
    word(scene, option_named(scene, options, name)?.value)
}

/// The text of the first option of the name.
pub fn text_option(
    alloc: Global,
    scene: &Scene,
    options: &[OptionAt],
    name: &str,
) -> Result<Option<String>, NoMemory>
    ensures { IfOk result (λ o. option_map string_bytes o
        ≡ text_option (text scene.now) (value scene.now) name.now (map option_of options.now)) }
{
    match option_named(scene, options, name) {
        Some(option) => text_value(alloc, scene, option.value),
        None => Ok(None),
    }
}

// ---- between brackets

fn value_set<'a>(scene: &Scene, setting: &'a Setting, name: &str) -> Option<&'a Constant>
    ensures { option_map (λ v. v.now) result
        ≡ value_named (text scene.now) name.now (setting_options setting.now) }
{
    match setting {
        Setting::Plain(plain) if scene.text(plain.name) == name => Some(&plain.value),
        _ => None,
    }
}

fn value_listed<'a>(scene: &Scene, list: &'a Separated<Setting>, name: &str) -> Option<&'a Constant>
    ensures { option_map (λ v. v.now) result ≡ value_named
        (text scene.now) name.now (flat_map setting_options (separated list.now)) }
{
    if let Some(value) = value_set(scene, &list.first, name) {
        return Some(value);
    }
    for behind in list.rest.as_slice() {
        if let Some(value) = value_set(scene, &behind.item, name) {
            return Some(value);
        }
    }
    None
}

/// The value of the first option of the name between brackets; none where there is none.
pub(crate) fn value_between<'a>(
    scene: &Scene,
    settings: Option<&'a OnHeap<Settings>>,
    name: &str,
) -> Option<&'a Constant>
    ensures { option_map (λ v. v.now) result ≡ value_named
        (text scene.now) name.now (settings_of (option_map (λ s. s.now) settings.entry)) }
{
    value_listed(scene, &settings?.get().list, name)
}
