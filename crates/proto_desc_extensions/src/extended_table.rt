//! What extensions extend, by the tokens of their names.

ghost use Rattle.std.specs.Prelude.{◌≡◌, ◌<◌, ◌++◌, ◌∷◌, [], List, true, nat_eq, is_some, length, map, option_map, IfOk, OnOk};
ghost use Rattle.indexmap.specs.IndexMap.{get};
ghost use Rattle.proto_tree.specs.File.{extension_tree, trees};
ghost use Rattle.proto_files.specs.FilesRead.{AreRead, ReadOf};
ghost use Rattle.proto_names_rules.specs.Grown.{at};
ghost use Rattle.proto_names_rules.specs.Joined.{joined};
ghost use Rattle.proto_ast.specs.Parts.{fields_in};
ghost use Rattle.proto_ast.specs.Views.{field_of};
ghost use Rattle.proto_resolved.specs.Blocks.{block_of};
ghost use Rattle.proto_desc_extensions.specs.Extensions.{extended_at, name_meant};
ghost use Rattle.proto_desc_extensions.specs.ExtendedTables.{AreExtendedRows, AreRowsOfFiles, Extending, block_extending, extended_row, extending, file_extending, meant_text, told_text};

use indexmap::IndexMap;
use proto_ast::{FieldAt, extension_fields};
use proto_base::NoMemory;
use proto_resolved::{BlockAt, Linked, blocks_of};
use proto_tree::{Extension, Reference};
use std::alloc::Global;

/// What an extension extends: its full name; empty where it means nothing.
#[derive(Clone, Copy)]
pub(crate) struct Extended<'a> {
    pub name: &'a str,
}

/// The full name that a reference of a file means; none where it means nothing.
fn name_meant<'a>(linked: &Linked<'a>, file: u32, reference: &Reference) -> Option<&'a str>
    requires { file < length linked.now.files }
    ensures { (reads : List ReadOf) → AreRead linked.now.files reads
        → option_map (λ text. text.now) result
        ≡ option_map joined (name_meant linked.now.files reads file reference.now) }
{
    let link = linked.link();
    let first = reference.dot.unwrap_or(reference.words.first);
    let meant = link.meaning(file, first)?;
    link.name_of(meant)
}

/// What a reference of a file means, as what is extended.
fn text_of_meant<'a>(linked: &Linked<'a>, file: u32, reference: &Reference) -> Extended<'a>
    requires { file < length linked.now.files }
    ensures { (reads : List ReadOf) → AreRead linked.now.files reads
        → result.name.now ≡ meant_text (name_meant linked.now.files reads file reference.now) }
{
    match name_meant(linked, file, reference) {
        Some(name) => Extended { name },
        None => Extended { name: "" },
    }
}

/// Adds an extension, where none has its token.
#[tactic(auto, using(crate::proofs::ExtendedRows::row_kept))]
fn add_row<'a>(
    rows: &mut IndexMap<u32, Extended<'a>>,
    token: u32,
    extended: Extended<'a>,
) -> Result<(), NoMemory>
    ensures { OnOk result ((es : List Extending) → AreExtendedRows es rows.old
        → AreExtendedRows (es ++ record { token = token; extended = extended.entry.name.now } ∷ [])
        rows.new) }
{
    if !rows.contains_key(&token) {
        rows.insert(token, extended)?;
    }
    Ok(())
}

/// Adds fields as extensions of this.
fn add_rows<'a>(
    rows: &mut IndexMap<u32, Extended<'a>>,
    extended: Extended<'a>,
    fields: &[FieldAt],
) -> Result<(), NoMemory>
    ensures { OnOk result ((es : List Extending) → AreExtendedRows es rows.old
        → AreExtendedRows (es ++ map (extending extended.entry.name.now)
        (map field_of fields.now)) rows.new) }
{
    for field in fields {
        add_row(rows, field.name, extended)?;
    }
    Ok(())
}

/// Adds the fields of an `extend` block.
fn add_fields<'a>(
    alloc: Global,
    rows: &mut IndexMap<u32, Extended<'a>>,
    extended: Extended<'a>,
    extensions: &[Extension],
) -> Result<(), NoMemory>
    ensures { OnOk result ((es : List Extending) → AreExtendedRows es rows.old
        → AreExtendedRows (es ++ map (extending extended.entry.name.now)
        (fields_in (trees extension_tree extensions.now))) rows.new) }
{
    let fields = extension_fields(alloc, extensions)?;
    add_rows(rows, extended, &fields)
}

/// Adds the extensions of a block.
fn add_block<'a>(
    alloc: Global,
    rows: &mut IndexMap<u32, Extended<'a>>,
    linked: &Linked<'a>,
    file: u32,
    block: BlockAt,
) -> Result<(), NoMemory>
    requires { file < length linked.now.files }
    ensures { OnOk result ((reads : List ReadOf) → AreRead linked.now.files reads
        → (es : List Extending) → AreExtendedRows es rows.old
        → AreExtendedRows (es ++ block_extending linked.now.files reads file
        (block_of block.entry)) rows.new) }
{
    match block {
        BlockAt::Extend(extend) => {
            let extended = text_of_meant(linked, file, &extend.extendee);
            add_fields(alloc, rows, extended, &extend.fields)
        }
        BlockAt::Message(_) => Ok(()),
        BlockAt::Oneof(_) => Ok(()),
        BlockAt::Enum(_) => Ok(()),
    }
}

/// What each extension of a file extends, by the token of its name.
fn rows_of<'a>(
    alloc: Global,
    linked: &Linked<'a>,
    file: u32,
) -> Result<IndexMap<u32, Extended<'a>>, NoMemory>
    requires { file < length linked.now.files }
    ensures { IfOk result (λ rows. (reads : List ReadOf) → AreRead linked.now.files reads
        → AreExtendedRows (file_extending linked.now.files reads file) rows) }
{
    let tree = linked.files().tree(file);
    let blocks = blocks_of(alloc, tree)?;
    let mut rows = IndexMap::new(alloc);
    for block in &blocks {
        add_block(alloc, &mut rows, linked, file, *block)?;
    }
    Ok(rows)
}

/// Makes the rows of a file, where it has none.
fn make_rows<'a>(
    alloc: Global,
    rows: &mut IndexMap<u32, IndexMap<u32, Extended<'a>>>,
    linked: &Linked<'a>,
    file: u32,
) -> Result<(), NoMemory>
    requires file { file < length linked.now.files }
    requires rows { AreRowsOfFiles linked.now.files rows.old }
    ensures rows { OnOk result (AreRowsOfFiles linked.now.files rows.new) }
    ensures there { OnOk result (is_some (get nat_eq rows.new file) ≡ true) }
{
    if !rows.contains_key(&file) {
        let own = rows_of(alloc, linked, file)?;
        rows.insert(file, own)?;
    }
    Ok(())
}

/// What the rows have for a token of a file; none where they have none.
fn row_at<'a>(rows: &IndexMap<u32, IndexMap<u32, Extended<'a>>>, place: PlaceAt) -> Option<&'a str>
    ensures { option_map (λ text. text.now) result
        ≡ extended_row rows.now (at place.file place.token) }
{
    let row = rows.get(&place.file)?.get(&place.token)?;
    Some(row.name)
}

/// A token of a file, by its number.
#[derive(Clone, Copy)]
pub(crate) struct PlaceAt {
    pub file: u32,
    pub token: u32,
}

/// What the extension extends whose name is this token of the file; none for another token. The rows
/// of files are made as they are asked for.
pub(crate) fn extended_at<'a>(
    alloc: Global,
    rows: &mut IndexMap<u32, IndexMap<u32, Extended<'a>>>,
    linked: &Linked<'a>,
    place: PlaceAt,
) -> Result<Option<&'a str>, NoMemory>
    requires { AreRowsOfFiles linked.now.files rows.old }
    ensures rows { OnOk result (AreRowsOfFiles linked.now.files rows.new) }
    ensures extended { IfOk result (λ found. (reads : List ReadOf) → AreRead linked.now.files reads
        → told_text (option_map (λ text. text.now) found)
        ≡ meant_text (extended_at linked.now.files reads (at place.file place.token))) }
{
    if place.file as usize >= linked.file_count() {
        return Ok(None);
    }
    make_rows(alloc, rows, linked, place.file)?;
    Ok(row_at(rows, place))
}
