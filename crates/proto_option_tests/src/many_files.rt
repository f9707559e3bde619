//! More files than the index has sets, with more words than these: one word that a single file has, one that all have, and one that none has.

ghost use Rattle.std.specs.Prelude.{◌≡◌, length};
ghost use Rattle.proto_option_files.specs.OptionFiles.{AreOptionFiles};

use crate::calls::{Given, expect_text, first_text, read};
use proto_base::{NoMemory, Profile, SchemaFault};
use proto_files::Files;
use proto_names::Link;
use proto_option_files::OptionFiles;
use proto_option_values::OptionWords;
use proto_resolved::CleanLinked;
use std::alloc::Global;
use std::fmt::Write;
use std::process::Abort;

const COUNT: u32 = 1500;

// The options of a file with this number begin so.
fn text_of(alloc: Global, number: u32) -> Result<String, NoMemory> {
    let mut text = format!(in alloc; "import \"z.proto\"; message M{number} {{")?;
    for field in 1..11u32 {
        write!(
            text,
            " optional int32 f{field} = {field} [(google.protobuf.m).all.w{number}_{field} = v{number}];"
        )?;
    }
    write!(text, " }}")?;
    Ok(text)
}

fn add(files: &mut Given, path: String, text: String) -> Result<(), NoMemory> {
    files.push((path, text.into_bytes()))?;
    Ok(())
}

fn many(alloc: Global) -> Result<Given, NoMemory> {
    let mut files = Vec::new(alloc);
    for number in 0..COUNT {
        add(
            &mut files,
            format!(in alloc; "f{number:04}.proto")?,
            text_of(alloc, number)?,
        )?;
    }
    let options =
        "package google.protobuf; message FieldOptions { extensions 1000 to max; } message M { extensions 1 to max; } extend FieldOptions { optional M m = 1000; }";
    add(
        &mut files,
        String::from_str(alloc, "z.proto")?,
        String::from_str(alloc, options)?,
    )?;
    Ok(files)
}

// A word, and where it is found first.
const ROWS: &[(&str, &str)] = &[
    ("none", "none"),
    // import "z.proto"; message M0 { optional int32 f1 = 1 [(google.protobuf.m).
    ("all", "f0000.proto:74"),
    // import "z.proto"; message M1499 { optional int32 f1 = 1 [(google.protobuf.m).all.
    ("w1499_1", "f1499.proto:81"),
    // import "z.proto"; message M1498 { optional int32 f1 = 1 [(google.protobuf.m).all.w1498_1 =
    ("v1498", "f1498.proto:91"),
];

fn expect_words<R: AllocGlobal + Abort>(
    rt: &R,
    linked: &CleanLinked<'_>,
    index: &OptionFiles,
) -> Result<(), NoMemory>
    requires { AreOptionFiles linked.now.files index.now }
{
    if linked.file_count() != 1501 {
        assert!(rt; false, "another number of files");
        return Ok(());
    }
    for (old, said) in ROWS {
        let words = OptionWords { old, new: None };
        let found = first_text(rt.alloc(), linked, index, 1500, words)?;
        expect_text(rt, old, found.as_str(), said);
    }
    Ok(())
}

// The one owner of a link.
fn expect_linked<R: AllocGlobal + Abort>(rt: &R, files: &Files) -> Result<(), SchemaFault> {
    let link = Link::new(rt.alloc(), files)?;
    let index = OptionFiles::new(rt.alloc(), files)?;
    expect_words(rt, &CleanLinked::new(files, &link), &index)?;
    link.release();
    Ok(())
}

fn expect_many<R: AllocGlobal + Abort>(rt: &R) -> Result<(), SchemaFault> {
    let files = read(rt.alloc(), Profile::AsWritten, many(rt.alloc())?)?;
    let answer = expect_linked(rt, &files);
    files.release();
    answer
}

#[test]
fn a_word_of_many_files_is_found(rt: HostRuntime) {
    expect_many(&rt).expect(&rt, "files");
}
