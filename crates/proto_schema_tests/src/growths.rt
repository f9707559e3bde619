//! How often a link, descriptors and a schema ask for memory where one of 256 files is edited. In a run that refuses one allocation a
//! test here fails exactly where the call that follows the edit is what meets the refusal:
//! `tools/acceptance/refused_allocations --fewer` counts these runs. In a run that refuses none it passes.

ghost use Rattle.std.specs.Prelude.{◌≡◌, ◌≢◌, ◌<◌, ℕ, List, length, IfOk};
ghost use Rattle.proto_desc.specs.Edited.{AreCleanlyDescribed};
ghost use Rattle.proto_files.specs.Faults.{HasNoFault};
ghost use Rattle.proto_files.specs.FilesRead.{AreRead, ReadOf};
ghost use Rattle.proto_files.specs.GivenFiles.{file_at, paths_of};
ghost use Rattle.proto_names.specs.LinkOfFiles.{IsLinkOf};
ghost use Rattle.proto_names_imports.specs.Links.{LinkFaults};
ghost use Rattle.proto_tree.specs.File.{tree_of_file};
ghost use Rattle.proto_tree.specs.Reads.{ReadsIn};

use crate::calls::{Given, add};
use crate::names::calls::read;
use proto_base::{NoMemory, Profile, SchemaFault};
use proto_desc::{Descriptors, Schema, check};
use proto_files::Files;
use proto_names::Link;
use proto_text::{Source, Token, lex_as};
use proto_tree::{File, parse_as};
use std::alloc::Global;
use std::process::Abort;

// Files of one message each, with a name of its own, and no import.
fn given(alloc: Global) -> Result<Given, NoMemory> {
    let mut files = Vec::new(alloc);
    for k in 0..256 {
        let path = format!(in alloc; "f{k:03}.proto")?;
        let text = format!(in alloc; "message M{k} {{}}")?;
        add(alloc, &mut files, path.as_str(), text.as_bytes())?;
    }
    Ok(files)
}

fn many_files<R: AllocGlobal>(rt: &R) -> Result<Files, SchemaFault> {
    read(rt, given(rt.alloc())?)
}

// The text that one of them gets, of its language, in which its message has another name.
fn other_text(alloc: Global, profile: Profile) -> Result<(Source, Vec<Token>, File), NoMemory>
    ensures { IfOk result (λ r. ReadsIn profile r.0 r.1.items (tree_of_file r.2)) }
{
    let bytes = Vec::from_slice(alloc, b"message Other {}")?;
    let Ok(source) = Source::new(bytes) else {
        return Err(NoMemory);
    };
    let Ok(tokens) = lex_as(alloc, &source, profile) else {
        return Err(NoMemory);
    };
    match parse_as(alloc, &source, &tokens, profile) {
        Ok(tree) => Ok((source, tokens, tree)),
        Err(_fault) => Err(NoMemory),
    }
}

// Gives the file at place 128 this text. Takes no memory.
fn put(files: &mut Files, source: Source, tokens: Vec<Token>, tree: File)
    requires place { 128 < length files.old }
    requires read { ReadsIn (file_at files.old 128).profile source tokens.items (tree_of_file tree) }
    ensures len { length files.new ≡ length files.old }
    ensures paths { paths_of files.old ≡ paths_of files.new }
    ensures others { (file : ℕ) → file ≢ 128 → file_at files.old file ≡ file_at files.new file }
{
    let (_source, _tokens, old) = files.set(128, source, tokens, tree);
    old.release();
}

// Gives the file at place 128 the other text, if memory suffices.
fn edit(alloc: Global, files: &mut Files) -> Result<(), NoMemory>
    requires place { 128 < length files.old }
    ensures len { length files.new ≡ length files.old }
    ensures paths { paths_of files.old ≡ paths_of files.new }
    ensures others { (file : ℕ) → file ≢ 128 → file_at files.old file ≡ file_at files.new file }
{
    let (source, tokens, tree) = other_text(alloc, files.profile(128))?;
    put(files, source, tokens, tree);
    Ok(())
}

// Ends the test where the call wanted memory, or found a fault.
fn expect_memory<R: Abort>(rt: &R, answer: &Result<(), SchemaFault>) {
    let wants_memory = matches!(answer, Err(SchemaFault::NoMemory));
    assert!(rt; !wants_memory, "the call wants memory");
    assert!(rt; answer.is_ok(), "a fault");
}

// Ends the test where what comes before the call found a fault.
fn expect_made<R: Abort>(rt: &R, answer: &Result<(), SchemaFault>) {
    let is_faulty = matches!(answer, Err(SchemaFault::Schema(_)));
    assert!(rt; !is_faulty, "a fault before the call");
}

fn expect_link<R: AllocGlobal + Abort>(rt: &R, files: &mut Files) -> Result<(), SchemaFault> {
    if files.len() != 256 {
        assert!(rt; false, "another number of files");
        return Ok(());
    }
    let mut link = Link::new(rt.alloc(), files)?;
    let answer = relink(rt, files, &mut link);
    link.release();
    answer
}

// Edits the file, and has the link follow.
fn relink<R: AllocGlobal + Abort>(
    rt: &R,
    files: &mut Files,
    link: &mut Link,
) -> Result<(), SchemaFault>
    requires place { 128 < length files.old }
    requires link { IsLinkOf files.old link.old }
    requires clean { HasNoFault (LinkFaults files.old) }
    requires read { (reads : List ReadOf) × AreRead files.old reads }
{
    edit(rt.alloc(), files)?;
    let answer = link.replace(rt.alloc(), files, &[128]);
    expect_memory(rt, &answer);
    Ok(())
}

// This alone owns the files.
fn link_files<R: AllocGlobal + Abort>(rt: &R) -> Result<(), SchemaFault> {
    let mut files = many_files(rt)?;
    let answer = expect_link(rt, &mut files);
    files.release();
    answer
}

#[test]
fn a_link_follows_an_edited_file(rt: HostRuntime) {
    expect_made(&rt, &link_files(&rt));
}

fn expect_descriptors<R: AllocGlobal + Abort>(
    rt: &R,
    files: &mut Files,
) -> Result<(), SchemaFault> {
    if files.len() != 256 {
        assert!(rt; false, "another number of files");
        return Ok(());
    }
    let mut link = Link::new(rt.alloc(), files)?;
    let answer = redescribe(rt, files, &mut link);
    link.release();
    answer
}

// Describes the files, and has the descriptors follow an edit.
fn redescribe<R: AllocGlobal + Abort>(
    rt: &R,
    files: &mut Files,
    link: &mut Link,
) -> Result<(), SchemaFault>
    requires place { 128 < length files.old }
    requires link { IsLinkOf files.old link.old }
    requires clean { HasNoFault (LinkFaults files.old) }
    requires read { (reads : List ReadOf) × AreRead files.old reads }
{
    // Its contract says that the files can be read.
    files.len();
    let mut descriptors = check(rt.alloc(), files, link)?;
    follow_edit(rt, files, link, &mut descriptors)
}

// Edits the file, and has the link and the descriptors follow.
fn follow_edit<R: AllocGlobal + Abort>(
    rt: &R,
    files: &mut Files,
    link: &mut Link,
    descriptors: &mut Descriptors,
) -> Result<(), SchemaFault>
    requires place { 128 < length files.old }
    requires link { IsLinkOf files.old link.old }
    requires clean { HasNoFault (LinkFaults files.old) }
    requires read { (reads : List ReadOf) × AreRead files.old reads }
    requires descriptors { AreCleanlyDescribed files.old descriptors.old }
{
    edit(rt.alloc(), files)?;
    link.replace(rt.alloc(), files, &[128])?;
    let answer = descriptors.replace(rt.alloc(), files, link, &[128]);
    expect_memory(rt, &answer);
    Ok(())
}

// This alone owns the files.
fn describe_files<R: AllocGlobal + Abort>(rt: &R) -> Result<(), SchemaFault> {
    let mut files = many_files(rt)?;
    let answer = expect_descriptors(rt, &mut files);
    files.release();
    answer
}

#[test]
fn descriptors_follow_an_edited_file(rt: HostRuntime) {
    expect_made(&rt, &describe_files(&rt));
}

fn expect_schema<R: AllocGlobal + Abort>(rt: &R, schema: &mut Schema) -> Result<(), SchemaFault> {
    if schema.files().len() != 256 {
        assert!(rt; false, "another number of files");
        return Ok(());
    }
    let mut texts = Vec::new(rt.alloc());
    texts.push(Vec::from_slice(rt.alloc(), b"message Other {}")?)?;
    let answer = schema.replace(rt.alloc(), &[128], texts);
    expect_memory(rt, &answer);
    Ok(())
}

// This alone owns the schema.
fn open_files<R: AllocGlobal + Abort>(rt: &R) -> Result<(), SchemaFault> {
    let mut schema = Schema::open(rt.alloc(), given(rt.alloc())?)?;
    let answer = expect_schema(rt, &mut schema);
    schema.release();
    answer
}

// On the way that `apply` takes.
#[test]
fn a_schema_follows_an_edited_file(rt: HostRuntime) {
    expect_made(&rt, &open_files(&rt));
}
