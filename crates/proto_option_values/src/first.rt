//! The first word of an option that may stand for what an edit renames or deletes.

ghost use Rattle.std.specs.Prelude.{◌≡◌, ℕ, ◌<◌, ◌≤◌, List, length, IfOk, IfSome};
ghost use Rattle.proto_edit_rules.specs.Options.{IsOptionWord};
ghost use Rattle.proto_files.specs.FilesRead.{AreRead, ReadOf};
ghost use Rattle.proto_option_files.specs.OptionFiles.{AreOptionFiles};
ghost use Rattle.proto_option_values.specs.FileWords.{HasNoWord, IsFirstFrom, file_word};
ghost use Rattle.proto_option_values.specs.Noted.{AreNoted, noted_sets};
ghost use Rattle.proto_option_values.specs.OptionValues.{IsFirstOf, IsOptionPlace, IsOptionValue, words_asked};

use crate::asked::OptionWords;
use crate::file_words::{Search, has_word_in, word_of_file};
use crate::leading::leading_to;
use crate::noted::{Noted, noted_by};
use proto_base::NoMemory;
use proto_edit_entries::Refusal;
use proto_files::{Files, offset_of};
use proto_option_files::OptionFiles;
use proto_resolved::CleanLinked;
use std::alloc::Global;

/// A word of an option: its file, and its token.
#[derive(Clone, Copy)]
pub struct WordAt {
    pub file: u32,
    pub token: u32,
}

/// How many files, from the first on, have no word of an option that is asked for.
fn files_without_word(
    alloc: Global,
    files: &Files,
    noted: &Noted,
    asked: &OptionWords,
) -> Result<u32, NoMemory>
    requires { AreNoted files.now (words_asked asked.now) (noted_sets noted.now) }
    ensures within { IfOk result (λ count. count ≤ length files.now) }
    ensures none { IfOk result (λ count. (reads : List ReadOf) → AreRead files.now reads
        → (file : ℕ) → file < count
        → HasNoWord files.now reads (words_asked asked.now) file) }
{
    for file in 0..files.len() as u32 {
        if has_word_in(alloc, files, noted, file, asked)? {
            return Ok(file);
        }
    }
    Ok(files.len() as u32)
}

/// The first word of the files from this one on.
fn first_from(
    alloc: Global,
    files: &Files,
    search: &Search,
    start: u32,
) -> Result<Option<WordAt>, NoMemory>
    requires { AreNoted files.now (words_asked search.now.asked.now)
        (noted_sets search.now.noted.now) }
    ensures { IfOk result (λ first. (reads : List ReadOf) → AreRead files.now reads
        → IsFirstFrom (file_word search.now.link.now search.now.leading.now
        (words_asked search.now.asked.now) files.now reads) start (length files.now) first) }
{
    for file in start..files.len() as u32 {
        if let Some(token) = word_of_file(alloc, files, search, file)? {
            return Ok(Some(WordAt { file, token }));
        }
    }
    Ok(None)
}

/// The first word, by file and token, in the path or the value of a custom option that is one of
/// these, where the option's extension is declared in the file or in one that leads to it by
/// imports. Of the files only those are asked that the index has noted for one of the words.
pub fn first_option_word(
    alloc: Global,
    linked: &CleanLinked<'_>,
    index: &OptionFiles,
    file: u32,
    words: OptionWords<'_>,
) -> Result<Option<WordAt>, NoMemory>
    requires index { AreOptionFiles linked.now.files index.now }
    requires file { file < length linked.now.files }
    ensures first { IfOk result (λ first. (reads : List ReadOf) → AreRead linked.now.files reads
        → IsFirstOf (IsOptionWord linked.now.files reads file (words_asked words.entry)) first) }
    ensures file { IfOk result (λ first. IfSome first (λ w. w.file < length linked.now.files)) }
{
    let files = linked.files();
    let noted = noted_by(index, &words);
    let start = files_without_word(alloc, files, &noted, &words)?;
    if start as usize == files.len() {
        return Ok(None);
    }
    let link = linked.link();
    let leading = leading_to(alloc, link.imports(), file)?;
    let search = Search {
        link,
        leading: &leading,
        asked: &words,
        noted: &noted,
    };
    first_from(alloc, files, &search, start)
}

/// The refusal for a word of an option, with its place.
fn option_refusal(alloc: Global, files: &Files, word: WordAt) -> Result<Refusal, NoMemory>
    requires { word.file < length files.now }
    ensures { IfOk result (λ refusal. (reads : List ReadOf) → AreRead files.now reads
        → IsOptionPlace files.now reads word refusal) }
{
    Ok(Refusal::OptionValue {
        path: files.path(word.file).to_string(alloc)?,
        offset: offset_of(files.tokens(word.file), word.token),
    })
}

/// The same as the refusal of case 19, with the place of the word.
pub fn option_value(
    alloc: Global,
    linked: &CleanLinked<'_>,
    index: &OptionFiles,
    file: u32,
    words: OptionWords<'_>,
) -> Result<Option<Refusal>, NoMemory>
    requires index { AreOptionFiles linked.now.files index.now }
    requires file { file < length linked.now.files }
    ensures { IfOk result (λ refusal. (reads : List ReadOf) → AreRead linked.now.files reads
        → IsOptionValue linked.now.files reads
        (IsOptionWord linked.now.files reads file (words_asked words.entry)) refusal) }
{
    match first_option_word(alloc, linked, index, file, words)? {
        Some(word) => Ok(Some(option_refusal(alloc, linked.files(), word)?)),
        None => Ok(None),
    }
}
