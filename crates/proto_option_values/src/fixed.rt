//! Whether a full name is that of an options message, or of what is in one or around it; and
//! whether a file is as written, so that its options may be fields of it.

ghost use Rattle.std.specs.Prelude.{◌≡◌, ◌↔◌, ◌&&◌, true, ◌∷◌, codes, option_map};
ghost use Rattle.std.specs.List.{list_any};
ghost use Rattle.std.specs.Str.{bytes_eq};
ghost use Rattle.proto_names_rules.specs.Joined.{ArePlain, joined};
ghost use Rattle.proto_names_rules.specs.Names.{Name, Word};
ghost use Rattle.proto_ast.specs.Options.{is_one_of};
ghost use Rattle.proto_custom_options.specs.CustomOptions.{options_messages};
ghost use Rattle.proto_edit_rules.specs.Options.{HasWritten, is_fixed};
ghost use Rattle.proto_option_values.specs.FixedNames.{is_as_written, is_fixed_in_google, is_fixed_in_protobuf, is_written, rest_text};

use proto_base::Profile;
use proto_files::Files;

/// The first word of a name, and what follows it behind a dot.
fn cut(text: &str) -> (&str, Option<&str>)
    ensures { (word : Word) (rest : Name) → ArePlain (word ∷ rest)
        → joined (word ∷ rest) ≡ text.now
        → (result.0.now ≡ word) × (option_map (λ r. r.now) result.1 ≡ rest_text rest) }
{
    match text.split_once('.') {
        Some((word, rest)) => (word, Some(rest)),
        None => (text, None),
    }
}

/// Whether a simple name is that of an options message.
fn is_options_word(word: &str) -> bool
    ensures { result ≡ is_one_of options_messages word.now }
{
    matches!(
        word,
        "FileOptions"
            | "MessageOptions"
            | "FieldOptions"
            | "OneofOptions"
            | "ExtensionRangeOptions"
            | "EnumOptions"
            | "EnumValueOptions"
            | "ServiceOptions"
            | "MethodOptions"
    )
}

/// The same of what follows `google.protobuf`.
fn is_fixed_in_protobuf(text: Option<&str>) -> bool
    ensures { (name : Name) → ArePlain name
        → option_map (λ t. t.now) text.entry ≡ rest_text name
        → result ≡ is_fixed_in_protobuf name }
{
    let Some(text) = text else {
        return true;
    };
    let (word, _) = cut(text);
    is_options_word(word)
}

/// The same of what follows `google`.
fn is_fixed_in_google(text: Option<&str>) -> bool
    ensures { (name : Name) → ArePlain name
        → option_map (λ t. t.now) text.entry ≡ rest_text name
        → result ≡ is_fixed_in_google name }
{
    let Some(text) = text else {
        return true;
    };
    let (word, rest) = cut(text);
    word == "protobuf" && is_fixed_in_protobuf(rest)
}

/// The same of a whole name that is not empty.
fn is_fixed_with_words(name: &str) -> bool
    ensures { (word : Word) (rest : Name) → ArePlain (word ∷ rest)
        → joined (word ∷ rest) ≡ name.now
        → result ≡ bytes_eq word (codes "google") && is_fixed_in_google rest }
{
    let (word, rest) = cut(name);
    word == "google" && is_fixed_in_google(rest)
}

/// Whether a full name, of words joined by dots, is that of one of the nine options messages of
/// `google.protobuf`, or of what is in one or around it.
pub fn is_fixed(name: &str) -> bool
    ensures { (words : Name) → ArePlain words → joined words ≡ name.now
        → result ≡ is_fixed words }
{
    name.is_empty() || is_fixed_with_words(name)
}

fn is_as_written(profile: Profile) -> bool
    ensures { result ≡ is_as_written profile }
{
    matches!(profile, Profile::AsWritten)
}

fn some_is_written(files: &Files) -> bool
    ensures { result ≡ list_any is_written files.now }
{
    for file in 0..files.len() as u32 {
        if is_as_written(files.profile(file)) {
            return true;
        }
    }
    false
}

/// Whether some file is as written.
pub fn has_written(files: &Files) -> bool
    ensures { (result ≡ true) ↔ HasWritten files.now }
{
    some_is_written(files)
}
