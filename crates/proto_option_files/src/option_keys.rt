//! The keys of the words of a file's custom options.

ghost use Rattle.std.specs.Prelude.{◌≡◌, ◌<◌, ◌++◌, length, map, flat_map, IfOk, OnOk};
ghost use Rattle.proto_base.specs.Words.{word_key};
ghost use Rattle.proto_custom_options.specs.CustomOptions.{custom_words, customs_in};
ghost use Rattle.proto_custom_options.specs.Views.{custom_of};
ghost use Rattle.proto_files.specs.FilesRead.{ReadOf};
ghost use Rattle.proto_files.specs.GivenFiles.{file_at};
ghost use Rattle.proto_option_files.specs.OptionFiles.{IsReadOf, file_keys, option_keys};
ghost use Rattle.proto_text.specs.Texts.{word_at};

use proto_base::{NoMemory, Profile, word_key};
use proto_custom_options::laws::core_trees_have_no_custom;
use proto_custom_options::{CustomAt, custom_words, customs};
use proto_files::{Files, Words};
use std::alloc::Global;

/// The custom options of a file, in order. A file of the core language has none.
pub fn options_in<'a>(
    alloc: Global,
    files: &'a Files,
    file: u32,
) -> Result<Vec<CustomAt<'a>>, NoMemory>
    requires { file < length files.now }
    ensures { IfOk result (λ options. (r : ReadOf) → IsReadOf (file_at files.entry.now file) r
        → map custom_of options.items ≡ customs_in r.tree) }
{
    core_trees_have_no_custom();
    match files.profile(file) {
        Profile::Core => Ok(Vec::new(alloc)),
        Profile::AsWritten => customs(alloc, files.tree(file)),
    }
}

/// Puts the keys of these words of a file behind others.
fn push_keys(keys: &mut Vec<u32>, words: &Words, tokens: &[u32]) -> Result<(), NoMemory>
    ensures { OnOk result (keys.new.items ≡ keys.old.items
        ++ map (λ t. word_key (word_at words.now t)) tokens.now) }
{
    for token in tokens {
        keys.push(word_key(words.get(*token)))?;
    }
    Ok(())
}

/// The same of the words of an option.
fn push_option(
    keys: &mut Vec<u32>,
    alloc: Global,
    words: &Words,
    option: &CustomAt,
) -> Result<(), NoMemory>
    ensures { OnOk result (keys.new.items ≡ keys.old.items
        ++ option_keys (word_at words.now) (custom_of option.now)) }
{
    let tokens = custom_words(alloc, option.custom)?;
    push_keys(keys, words, &tokens)
}

/// The keys of the words of these options.
fn keys_of(alloc: Global, words: &Words, options: &[CustomAt]) -> Result<Vec<u32>, NoMemory>
    ensures { IfOk result (λ keys. keys.items
        ≡ flat_map (option_keys (word_at words.now)) (map custom_of options.now)) }
{
    let mut keys = Vec::new(alloc);
    for option in options {
        push_option(&mut keys, alloc, words, option)?;
    }
    Ok(keys)
}

/// The keys of the words of a file's options.
pub(crate) fn file_keys(alloc: Global, files: &Files, file: u32) -> Result<Vec<u32>, NoMemory>
    requires { file < length files.now }
    ensures { IfOk result (λ keys. (r : ReadOf) → IsReadOf (file_at files.now file) r
        → keys.items ≡ file_keys (file_at files.now file) r) }
{
    let words = Words::new(files, file);
    let options = options_in(alloc, files, file)?;
    keys_of(alloc, &words, &options)
}
