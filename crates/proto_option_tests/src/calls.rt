//! The public calls, with what tests say of their answers.

ghost use Rattle.std.specs.Prelude.{◌<◌, length};
ghost use Rattle.proto_option_files.specs.OptionFiles.{AreOptionFiles};

use proto_base::{NoMemory, Profile, SchemaFault};
use proto_edit_entries::Refusal;
use proto_files::{Files, Paths, offset_of};
use proto_names::Link;
use proto_option_files::OptionFiles;
use proto_option_values::{OptionWords, WordAt, first_option_word, option_value};
use proto_resolved::CleanLinked;
use std::alloc::Global;
use std::fmt::Write;
use std::process::Abort;

/// Files for a workspace: paths and bytes.
pub(crate) type Given = Vec<(String, Vec<u8>)>;

// The bytes of a text, without the mark.
fn unmarked(alloc: Global, text: &str) -> Result<Vec<u8>, NoMemory> {
    let mut bytes = Vec::new(alloc);
    for byte in text.as_bytes() {
        if *byte != b'^' {
            bytes.push(*byte)?;
        }
    }
    Ok(bytes)
}

/// Files that are written as one text, `|` between them: the path of each, a space, and its text,
/// in which a mark `^` is left out.
pub(crate) fn given(alloc: Global, texts: &str) -> Result<Given, NoMemory> {
    let mut files = Vec::new(alloc);
    for file in texts.split('|') {
        let (path, text) = file.split_once(' ').unwrap_or((file, ""));
        files.push((String::from_str(alloc, path)?, unmarked(alloc, text)?))?;
    }
    Ok(files)
}

/// The files of a language, read.
pub(crate) fn read(alloc: Global, profile: Profile, given: Given) -> Result<Files, SchemaFault> {
    let paths = Paths::new_as(alloc, given, profile)?;
    Files::read(alloc, paths)
}

/// The files as written, read.
pub(crate) fn read_texts(alloc: Global, texts: &str) -> Result<Files, SchemaFault> {
    read(alloc, Profile::AsWritten, given(alloc, texts)?)
}

// Where the mark stands in the files, as `path:offset`; `none` where there is none.
fn marked(alloc: Global, texts: &str) -> Result<String, NoMemory> {
    for file in texts.split('|') {
        let (path, text) = file.split_once(' ').unwrap_or((file, ""));
        if let Some(offset) = text.find('^') {
            return Ok(format!(in alloc; "{path}:{offset}")?);
        }
    }
    Ok(String::from_str(alloc, "none")?)
}

// The same of a word.
fn place_text(alloc: Global, files: &Files, word: WordAt) -> Result<String, NoMemory>
    requires { word.file < length files.now }
{
    let offset = offset_of(files.tokens(word.file), word.token);
    let path = files.path(word.file);
    Ok(format!(in alloc; "{path}:{offset}")?)
}

/// The first word, or `none`.
pub(crate) fn first_text(
    alloc: Global,
    linked: &CleanLinked<'_>,
    index: &OptionFiles,
    file: u32,
    words: OptionWords<'_>,
) -> Result<String, NoMemory>
    requires index { AreOptionFiles linked.now.files index.now }
    requires file { file < length linked.now.files }
{
    match first_option_word(alloc, linked, index, file, words)? {
        Some(word) => place_text(alloc, linked.files(), word),
        None => Ok(String::from_str(alloc, "none")?),
    }
}

fn refusal_text(alloc: Global, refusal: Refusal) -> Result<String, NoMemory> {
    match refusal {
        Refusal::OptionValue { path, offset } => {
            let path = path.as_str();
            Ok(format!(in alloc; "{path}:{offset}")?)
        }
        _ => Ok(String::from_str(alloc, "another refusal")?),
    }
}

/// The place in the refusal, or `none`.
pub(crate) fn refused_text(
    alloc: Global,
    linked: &CleanLinked<'_>,
    index: &OptionFiles,
    file: u32,
    words: OptionWords<'_>,
) -> Result<String, NoMemory>
    requires index { AreOptionFiles linked.now.files index.now }
    requires file { file < length linked.now.files }
{
    match option_value(alloc, linked, index, file, words)? {
        Some(refusal) => refusal_text(alloc, refusal),
        None => Ok(String::from_str(alloc, "none")?),
    }
}

/// Ends the test with the row unless this was found.
pub(crate) fn expect_text<R: Abort>(rt: &R, row: &str, found: &str, said: &str) {
    assert!(rt; found == said, "{row}: {found}, not {said}");
}

/// Files, the one in which the name stands, its old word, and its new one, if it has one.
pub(crate) type Row = (&'static str, u32, &'static str, Option<&'static str>);

// Both calls answer the word that is marked.
fn expect_word<R: AllocGlobal + Abort>(
    rt: &R,
    linked: &CleanLinked<'_>,
    index: &OptionFiles,
    row: Row,
) -> Result<(), NoMemory>
    requires { AreOptionFiles linked.now.files index.now }
{
    let (texts, file, old, new) = row;
    if file as usize >= linked.file_count() {
        assert!(rt; false, "{texts}: no such file");
        return Ok(());
    }
    let words = OptionWords { old, new };
    let said = marked(rt.alloc(), texts)?;
    let found = first_text(rt.alloc(), linked, index, file, words)?;
    expect_text(rt, texts, found.as_str(), said.as_str());
    let refused = refused_text(rt.alloc(), linked, index, file, words)?;
    expect_text(rt, texts, refused.as_str(), said.as_str());
    Ok(())
}

// The one owner of a link.
fn expect_linked<R: AllocGlobal + Abort>(
    rt: &R,
    files: &Files,
    row: Row,
) -> Result<(), SchemaFault> {
    let link = Link::new(rt.alloc(), files)?;
    let index = OptionFiles::new(rt.alloc(), files)?;
    expect_word(rt, &CleanLinked::new(files, &link), &index, row)?;
    link.release();
    Ok(())
}

// The one owner of files.
fn expect_row<R: AllocGlobal + Abort>(rt: &R, row: Row) -> Result<(), SchemaFault> {
    let files = read_texts(rt.alloc(), row.0)?;
    let answer = expect_linked(rt, &files, row);
    files.release();
    answer
}

/// In the files of each row the marked word is the first.
pub(crate) fn expect_words<R: AllocGlobal + Abort>(rt: &R, rows: &[Row]) {
    for row in rows {
        expect_row(rt, *row).expect(rt, row.0);
    }
}
