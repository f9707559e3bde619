//! The files that may have an option with a word that is looked for.

ghost use Rattle.std.specs.Prelude.{◌≡◌, option_map, option_to_list};
ghost use Rattle.proto_option_values.specs.Noted.{may_have, noted_sets, sets_of};
ghost use Rattle.proto_option_values.specs.OptionValues.{words_asked};

use crate::asked::OptionWords;
use proto_base::word_key;
use proto_file_sets::FileSet;
use proto_option_files::OptionFiles;

/// The files that may have an option with the old word, and those of the new one, if there is one.
#[derive(Clone, Copy)]
pub(crate) struct Noted<'a> {
    old: &'a FileSet,
    new: Option<&'a FileSet>,
}

/// The files of a word, if there is one.
fn files_of_new<'a>(index: &'a OptionFiles, word: Option<&str>) -> Option<&'a FileSet>
    ensures { option_to_list (option_map (λ x. x.now) result) ≡ sets_of index.entry.now
        (option_to_list (option_map (λ x. x.now) word.entry)) }
{
    match word {
        Some(word) => Some(index.files_of(word_key(word))),
        None => None,
    }
}

/// Those of an index.
pub(crate) fn noted_by<'a>(index: &'a OptionFiles, asked: &OptionWords) -> Noted<'a>
    ensures { noted_sets result ≡ sets_of index.entry.now (words_asked asked.now) }
{
    Noted {
        old: index.files_of(word_key(asked.old)),
        new: files_of_new(index, asked.new),
    }
}

/// Whether there is a new word, and an option of the file may have it.
fn may_have_new(noted: &Noted, file: u32) -> bool
    ensures { result
        ≡ may_have (option_to_list (option_map (λ x. x.now) noted.now.new)) file }
{
    match noted.new {
        Some(files) => files.contains(file),
        None => false,
    }
}

/// Whether an option of the file may have one of the words.
pub(crate) fn may_have(noted: &Noted, file: u32) -> bool
    ensures { result ≡ may_have (noted_sets noted.now) file }
{
    noted.old.contains(file) || may_have_new(noted, file)
}
