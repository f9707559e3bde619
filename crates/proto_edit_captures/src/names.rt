//! The names that a rename changes, as text.

ghost use Rattle.std.specs.Prelude.{◌≡◌, ◌<◌, IfOk};
ghost use Rattle.proto_text.specs.Texts.{word_at};
ghost use Rattle.proto_edit_captures.specs.NewTexts.{entry_texts, entry_words, is_new_word, texts_of, texts_by};

use crate::rename_target::RenameTarget;
use proto_base::NoMemory;
use proto_case::entry_name;
use proto_files::Words;
use std::alloc::Global;

/// The simple names of a map field's entry, before and after.
#[derive(Drop)]
pub(crate) struct EntryNames {
    pub(crate) old: String,
    pub(crate) new: String,
}

/// The names that a rename changes: the target's full name, its simple names before and after, and
/// for a map field those of its entry.
#[derive(Drop)]
pub(crate) struct NewNames<'a> {
    pub(crate) target: &'a str,
    pub(crate) old: &'a str,
    pub(crate) new: &'a str,
    pub(crate) entry: Option<EntryNames>,
}

fn entry_names(
    alloc: Global,
    is_map: bool,
    old: &str,
    new: &str,
) -> Result<Option<EntryNames>, NoMemory>
    ensures { IfOk result (λ entry. entry_texts entry ≡ entry_words is_map old.now new.now) }
{
    if !is_map {
        return Ok(None);
    }
    let old = entry_name(alloc, old)?;
    let new = entry_name(alloc, new)?;
    Ok(Some(EntryNames { old, new }))
}

impl<'a> NewNames<'a> {
    /// What the rename of a declaration changes, by the words of its file.
    pub(crate) fn new(
        alloc: Global,
        words: &Words<'a>,
        target: &RenameTarget<'a>,
        to: &'a str,
    ) -> Result<NewNames<'a>, NoMemory>
        ensures { IfOk result (λ n. texts_of n ≡ texts_by target.now.name.now
            (word_at words.now target.now.token) target.now.is_map to.now) }
    {
        let old = words.get(target.token);
        let entry = entry_names(alloc, target.is_map, old, to)?;
        Ok(NewNames {
            target: target.name,
            old,
            new: to,
            entry,
        })
    }

    /// Whether it is the new word, or the new entry's name.
    pub(crate) fn has_new(&self, word: &str) -> bool
        ensures { result ≡ is_new_word (texts_of self.now) word.now }
    {
        if word == self.new {
            return true;
        }
        match &self.entry {
            Some(entry) => word == entry.new.as_str(),
            None => false,
        }
    }
}
