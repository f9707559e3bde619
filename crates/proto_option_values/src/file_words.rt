//! The words of the custom options of one file that are asked for.

ghost use Rattle.std.specs.Prelude.{◌≡◌, ◌<◌, List, length, false, is_some, map, IfOk};
ghost use Rattle.std.specs.List.{list_any};
ghost use Rattle.proto_custom_options.specs.CustomOptions.{custom_words};
ghost use Rattle.proto_custom_options.specs.Views.{custom_of};
ghost use Rattle.proto_files.specs.FilesRead.{AreRead, ReadOf};
ghost use Rattle.proto_option_values.specs.Extensions.{is_leading};
ghost use Rattle.proto_option_values.specs.FileWords.{HasNoWord, file_word, option_word};
ghost use Rattle.proto_option_values.specs.Noted.{AreNoted, noted_sets};
ghost use Rattle.proto_option_values.specs.OptionValues.{words_asked};
ghost use Rattle.proto_option_values.specs.Words.{asks, least, least_word};

use crate::asked::OptionWords;
use crate::extensions::is_leading;
use crate::noted::{Noted, may_have};
use crate::words::{least_word, lesser};
use proto_base::NoMemory;
use proto_custom_options::CustomAt;
use proto_file_sets::FileSet;
use proto_files::{Files, Words};
use proto_names::Link;
use proto_option_files::options_in;
use proto_tree::Custom;
use std::alloc::Global;

/// Which words are looked for, and where their options have to be declared.
#[derive(Clone, Copy)]
pub(crate) struct Search<'a> {
    pub(crate) link: &'a Link,
    /// The files in which extensions count.
    pub(crate) leading: &'a FileSet,
    pub(crate) asked: &'a OptionWords<'a>,
    /// The files that may have one of the words.
    pub(crate) noted: &'a Noted<'a>,
}

/// Whether one of these options has a word that is asked for.
fn has_word(words: &Words, asked: &OptionWords, options: &[CustomAt]) -> bool
    ensures { result ≡ list_any
        (λ c. is_some (least_word (asks asked.now words.now) (custom_words c.custom)))
        (map custom_of options.now) }
{
    for option in options {
        if least_word(words, asked, option.custom).is_some() {
            return true;
        }
    }
    false
}

/// Whether an option of the file has a word that is asked for.
pub(crate) fn has_word_in(
    alloc: Global,
    files: &Files,
    noted: &Noted,
    file: u32,
    asked: &OptionWords,
) -> Result<bool, NoMemory>
    requires noted { AreNoted files.now (words_asked asked.now) (noted_sets noted.now) }
    requires file { file < length files.now }
    ensures { IfOk result (λ has. (reads : List ReadOf) → AreRead files.now reads
        → has ≡ false → HasNoWord files.now reads (words_asked asked.now) file) }
{
    if !may_have(noted, file) {
        return Ok(false);
    }
    let words = Words::new(files, file);
    let options = options_in(alloc, files, file)?;
    Ok(has_word(&words, asked, &options))
}

/// The least word of an option that is asked for, where its extension counts.
fn word_of_option(search: &Search, words: &Words, file: u32, custom: &Custom) -> Option<u32>
    ensures { result ≡ option_word (is_leading search.now.link.now search.now.leading.now file)
        (asks search.now.asked.now words.now) custom.now }
{
    let token = least_word(words, search.asked, custom)?;
    if is_leading(search.link, search.leading, file, custom) {
        Some(token)
    } else {
        None
    }
}

/// The least of these options.
fn word_of_options(search: &Search, words: &Words, file: u32, options: &[CustomAt]) -> Option<u32>
    ensures { result ≡ least (λ c. option_word
        (is_leading search.now.link.now search.now.leading.now file)
        (asks search.now.asked.now words.now) c.custom) (map custom_of options.now) }
{
    let mut found = None;
    for option in options {
        found = lesser(found, word_of_option(search, words, file, option.custom));
    }
    found
}

/// The least of all options of a file.
pub(crate) fn word_of_file(
    alloc: Global,
    files: &Files,
    search: &Search,
    file: u32,
) -> Result<Option<u32>, NoMemory>
    requires noted { AreNoted files.now (words_asked search.now.asked.now)
        (noted_sets search.now.noted.now) }
    requires file { file < length files.now }
    ensures { IfOk result (λ found. (reads : List ReadOf) → AreRead files.now reads
        → found ≡ file_word search.now.link.now search.now.leading.now
        (words_asked search.now.asked.now) files.now reads file) }
{
    if !may_have(search.noted, file) {
        return Ok(None);
    }
    let words = Words::new(files, file);
    let options = options_in(alloc, files, file)?;
    Ok(word_of_options(search, &words, file, &options))
}
