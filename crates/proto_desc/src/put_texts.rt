//! Other texts put into files, and the way back.

ghost use Rattle.std.specs.Prelude.{◌≡◌, ◌<◌, length, map, All, IfOk, OnOk, OnErr};
ghost use Rattle.proto_desc.specs.NewTexts.{read_text, with_text, with_all, with_old, IsReadText};
ghost use Rattle.proto_files.specs.GivenFiles.{file_at};

use crate::texts::ReadText;
use proto_base::NoMemory;
use proto_files::Files;
use std::alloc::Global;

// Puts a text at its place; answers what stood there. Takes no memory.
fn put_text(files: &mut Files, text: ReadText) -> ReadText
    requires place { text.place < length files.old }
    requires read { IsReadText files.old text }
    ensures files { files.new ≡ with_text files.old (read_text text) }
    ensures place { result.place ≡ text.place }
    ensures source { result.source ≡ (file_at files.old text.place).bytes }
    ensures read { IsReadText files.old result }
{
    let ReadText {
        place,
        source,
        tokens,
        tree,
    } = text;
    let (source, tokens, tree) = files.set(place, source, tokens, tree);
    ReadText {
        place,
        source,
        tokens,
        tree,
    }
}

/// Puts texts at their places; answers what stood there, to be put back by `put_back`. Fails only
/// when out of memory; then the files have not changed.
pub fn put_texts(
    alloc: Global,
    files: &mut Files,
    texts: Vec<ReadText>,
) -> Result<Vec<ReadText>, NoMemory>
    requires places { All (λ t. t.place < length files.old) texts.items }
    requires read { All (IsReadText files.old) texts.items }
    ensures files { OnOk result (files.new ≡ with_all files.old (map read_text texts.items)) }
    ensures back { IfOk result
        (λ old. with_old (map read_text old.items) files.new ≡ files.old) }
    ensures places { IfOk result (λ old. All (λ t. t.place < length files.new) old.items) }
    ensures read { IfOk result (λ old. All (IsReadText files.new) old.items) }
    ensures kept { OnErr result (files.new ≡ files.old) }
{
    let mut old = Vec::with_capacity(alloc, texts.len())?;
    for text in texts {
        old.push(put_text(files, text)).unwrap();
    }
    Ok(old)
}

/// Puts back what stood there. Takes no memory.
pub fn put_back(files: &mut Files, old: Vec<ReadText>)
    requires places { All (λ t. t.place < length files.old) old.items }
    requires read { All (IsReadText files.old) old.items }
    ensures { files.new ≡ with_old (map read_text old.items) files.old }
{
    let mut old = old;
    while let Some(text) = old.pop() {
        put_text(files, text);
    }
}
