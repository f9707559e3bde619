//! Which files have to be asked for captured references, by the words that references begin with.

ghost use Rattle.std.specs.Prelude.{◌≡◌, ℕ, ◌<◌, ◌≤◌, ◌^◌, true, IfOk};
ghost use Rattle.std.specs.List.{All, AllPairs, Contains};
ghost use Rattle.proto_base.specs.Texts.{Text};
ghost use Rattle.proto_edit_captures.specs.FirstKeys.{entry_or_new, first_keys_of, has_to_be_asked};
ghost use Rattle.proto_edit_captures.specs.NewTexts.{entry_texts, texts_of};

use crate::names::{EntryNames, NewNames};
use proto_base::NoMemory;
use proto_file_sets::FileSet;
use proto_names::{Link, word_key};
use std::alloc::Global;

/// The keys of the words that a captured reference may begin with.
#[derive(Clone, Copy)]
pub(crate) struct FirstKeys {
    new: u32,
    old: u32,
    /// Of the entry's new name; where there is no entry, of the new word.
    entry: u32,
}

fn entry_or_new<'a>(entry: &'a Option<EntryNames>, new: &'a str) -> &'a str
    ensures { result.now ≡ entry_or_new (entry_texts entry.entry.now) new.entry.now }
{
    match entry {
        Some(entry) => entry.new.as_str(),
        None => new,
    }
}

impl FirstKeys {
    /// Those of a rename.
    pub(crate) fn new(names: &NewNames) -> FirstKeys
        ensures { result ≡ first_keys_of (texts_of names.now) }
    {
        let entry = entry_or_new(&names.entry, names.new);
        FirstKeys {
            new: word_key(names.new),
            old: word_key(names.old),
            entry: word_key(entry),
        }
    }

    /// The files in which a reference may begin with a word of one of these keys, in order: all that
    /// have to be asked, of so many. Fails only when out of memory.
    pub(crate) fn files(
        self,
        alloc: Global,
        link: &Link,
        file_count: usize,
    ) -> Result<Vec<u32>, NoMemory>
        requires few { file_count ≤ 2 ^ 32 }
        ensures within { IfOk result (λ listed. All (λ file. file < file_count) listed.items) }
        ensures rising { IfOk result (λ listed. AllPairs (λ f g. f < g) listed.items) }
        ensures whole { IfOk result (λ listed. (file : ℕ) (target : Text) → file < file_count
            → has_to_be_asked self link.now file target ≡ true → Contains listed.items file) }
    {
        let mut asked = FileSet::new(alloc, file_count)?;
        let none = FileSet::new(alloc, 0)?;
        asked.add_new(link.files_beginning_with(self.new), &none);
        asked.add_new(link.files_beginning_with(self.old), &none);
        asked.add_new(link.files_beginning_with(self.entry), &none);
        asked.files(alloc)
    }

    /// Whether the file has to be asked: a reference of it begins with a new word, or with the old
    /// one, and what is renamed, by its full name, is visible there.
    pub(crate) fn concern(self, link: &Link, file: u32, target: &str) -> bool
        ensures { result ≡ has_to_be_asked self link.now file target.now }
    {
        link.begins_with(file, self.new)
            || link.begins_with(file, self.entry)
            || (link.begins_with(file, self.old) && link.visible(file, target))
    }
}
