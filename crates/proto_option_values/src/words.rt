//! The least word of a custom option that is asked for.

ghost use Rattle.std.specs.Prelude.{◌≡◌, flat_map, map};
ghost use Rattle.proto_custom_options.specs.CustomOptions.{atom_words, constant_words, custom_words, value_words};
ghost use Rattle.proto_option_values.specs.Words.{asks, if_passes, least_word, lesser};

use crate::asked::{OptionWords, is_asked};
use proto_files::Words;
use proto_tree::{Atom, Behind, Constant, Custom, CustomValue};

/// The lesser of two tokens, where both are there.
pub(crate) fn lesser(one: Option<u32>, other: Option<u32>) -> Option<u32>
    ensures { result ≡ lesser one other }
{
    match (one, other) {
        (Some(a), Some(b)) => Some(a.min(b)),
        (Some(a), None) => Some(a),
        (None, Some(b)) => Some(b),
        (None, None) => None,
    }
}

/// The token, if its word is asked for.
fn least_of_one(words: &Words, asked: &OptionWords, token: u32) -> Option<u32>
    ensures { result ≡ if_passes (asks asked.now words.now) token }
{
    if is_asked(asked, words.get(token)) {
        Some(token)
    } else {
        None
    }
}

/// The least token of a path whose word is asked for.
fn least_of_path(words: &Words, asked: &OptionWords, path: &[Behind<u32>]) -> Option<u32>
    ensures { result ≡ least_word (asks asked.now words.now) (map (λ b. b.item) path.now) }
{
    let mut found = None;
    for behind in path {
        found = lesser(found, least_of_one(words, asked, behind.item));
    }
    found
}

/// The same of a part of a value.
fn least_of_atom(words: &Words, asked: &OptionWords, atom: Atom) -> Option<u32>
    ensures { result ≡ least_word (asks asked.now words.now) (atom_words atom) }
{
    match atom {
        Atom::Word(token) => least_of_one(words, asked, token),
        _ => None,
    }
}

/// The same of all parts of a value.
fn least_of_atoms(words: &Words, asked: &OptionWords, atoms: &[Atom]) -> Option<u32>
    ensures { result ≡ least_word (asks asked.now words.now) (flat_map atom_words atoms.now) }
{
    let mut found = None;
    for atom in atoms {
        found = lesser(found, least_of_atom(words, asked, *atom));
    }
    found
}

fn least_of_constant(words: &Words, asked: &OptionWords, value: &Constant) -> Option<u32>
    ensures { result ≡ least_word (asks asked.now words.now) (constant_words value.now) }
{
    match value {
        Constant::Word(token) => least_of_one(words, asked, *token),
        _ => None,
    }
}

fn least_of_value(words: &Words, asked: &OptionWords, value: &CustomValue) -> Option<u32>
    ensures { result ≡ least_word (asks asked.now words.now) (value_words value.now) }
{
    match value {
        CustomValue::Constant(constant) => least_of_constant(words, asked, constant),
        CustomValue::Aggregate(aggregate) => {
            least_of_atoms(words, asked, aggregate.atoms.as_slice())
        }
    }
}

/// The least token of an option's path and value whose word is asked for.
pub(crate) fn least_word(words: &Words, asked: &OptionWords, custom: &Custom) -> Option<u32>
    ensures { result ≡ least_word (asks asked.now words.now) (custom_words custom.now) }
{
    let path = least_of_path(words, asked, custom.path.as_slice());
    let value = least_of_value(words, asked, &custom.value);
    lesser(path, value)
}
