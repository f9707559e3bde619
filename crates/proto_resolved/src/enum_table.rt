//! The enums of files, by the tokens of their names.

ghost use Rattle.std.specs.Prelude.{◌≡◌, ◌↔◌, ◌<◌, ◌++◌, ◌∷◌, [], ℕ, List, length, map, option_map, IfOk, OnOk};
ghost use Rattle.std.specs.List.{All, Contains};
ghost use Rattle.proto_file_sets.specs.FileSets.{IsIn};
ghost use Rattle.proto_text.specs.Texts.{word_at};
ghost use Rattle.proto_tree.specs.File.{enum_item_tree, tree_of_file, trees};
ghost use Rattle.proto_files.specs.FilesRead.{AreRead, ReadOf};
ghost use Rattle.proto_names_rules.specs.Grown.{at};
ghost use Rattle.proto_ast.specs.Parts.{BlockOf, blocks_in};
ghost use Rattle.proto_ast.specs.Views.{enum_of};
ghost use Rattle.proto_resolved.specs.Blocks.{block_of, enum_block};
ghost use Rattle.proto_resolved.specs.Enums.{AreEnumsOf, IsEnumTable, IsEnumTableOf, IsEnumTableOfListed, enum_in, enum_of_row, enum_row_at};
ghost use Rattle.proto_resolved.specs.SceneOf.{enum_at, enum_within, is_proto3_file, starts_past_zero};

use crate::blocks::{BlockAt, blocks_of};
use indexmap::IndexMap;
use proto_ast::{EnumAt, ValueNames, is_proto3, number_of, values};
use proto_base::NoMemory;
use proto_file_sets::FileSet;
use proto_files::{Files, Words};
use proto_tree::{Enum, EnumItem, File, Value};
use std::alloc::Global;

/// What is read of an enum.
#[derive(Drop)]
pub struct EnumRow<'a> {
    /// Whether its file is proto3.
    pub is_proto3: bool,
    /// Whether it has a first value, and that is not 0.
    pub starts_past_zero: bool,
    /// The names of its values, in order.
    pub values: ValueNames<'a>,
}

/// What is read of the enums of files.
#[derive(Drop)]
pub struct EnumTable<'a> {
    /// For each file, by its number, its enums, by the tokens of their names.
    pub files: IndexMap<u32, IndexMap<u32, EnumRow<'a>>>,
}

/// Whether the number of a value is not 0.
fn is_past_zero(words: &Words, value: &Value) -> bool
    ensures { result ≡ starts_past_zero (word_at words.now) (value.now ∷ []) }
{
    let number = words.get(value.number.number);
    number_of(number) != 0
}

/// Whether there is a first value, and its number is not 0.
fn starts_past_zero(words: &Words, values: &[&Value]) -> bool
    ensures { result ≡ starts_past_zero (word_at words.now) (map (λ v. v.now) values.now) }
{
    match values.first() {
        Some(value) => is_past_zero(words, value),
        None => false,
    }
}

/// The names of these values.
fn names<'a>(alloc: Global, words: &Words<'a>, values: &[&Value]) -> Result<Vec<&'a str>, NoMemory>
    ensures { IfOk result (λ names. map (λ n. n.now) names.items
        ≡ map (λ v. word_at words.now v.name) (map (λ v. v.now) values.now)) }
{
    let mut names = Vec::new(alloc);
    for value in values {
        names.push(words.get(value.name))?;
    }
    Ok(names)
}

/// What is read of an enum with these items.
fn row<'a>(
    alloc: Global,
    words: &Words<'a>,
    is_proto3: bool,
    items: &[EnumItem],
) -> Result<EnumRow<'a>, NoMemory>
    ensures { IfOk result (λ r. enum_of_row r
        ≡ enum_within words.now is_proto3 (trees enum_item_tree items.now)) }
{
    let values = values(alloc, items)?;
    let starts_past_zero = starts_past_zero(words, &values);
    let names = names(alloc, words, &values)?;
    let values = ValueNames::new(alloc, names)?;
    Ok(EnumRow {
        is_proto3,
        starts_past_zero,
        values,
    })
}

/// Adds an enum, where none has its token.
#[tactic(auto, using(crate::proofs::EnumRows::row_kept, crate::proofs::EnumRows::row_added))]
fn add_enum<'a>(
    alloc: Global,
    rows: &mut IndexMap<u32, EnumRow<'a>>,
    words: &Words<'a>,
    is_proto3: bool,
    enumeration: &Enum,
) -> Result<(), NoMemory>
    ensures { OnOk result ((blocks : List BlockOf) → AreEnumsOf words.now is_proto3 blocks rows.old
        → AreEnumsOf words.now is_proto3 (blocks ++ enum_block enumeration.now ∷ []) rows.new) }
{
    if !rows.contains_key(&enumeration.name) {
        let row = row(alloc, words, is_proto3, &enumeration.members)?;
        rows.insert(enumeration.name, row)?;
    }
    Ok(())
}

/// Adds a block, if it is an enum.
fn add<'a>(
    alloc: Global,
    rows: &mut IndexMap<u32, EnumRow<'a>>,
    words: &Words<'a>,
    is_proto3: bool,
    block: BlockAt,
) -> Result<(), NoMemory>
    ensures { OnOk result ((blocks : List BlockOf) → AreEnumsOf words.now is_proto3 blocks rows.old
        → AreEnumsOf words.now is_proto3 (blocks ++ block_of block.entry ∷ []) rows.new) }
{
    match block {
        BlockAt::Enum(enumeration) => add_enum(alloc, rows, words, is_proto3, enumeration),
        BlockAt::Message(_) => Ok(()),
        BlockAt::Oneof(_) => Ok(()),
        BlockAt::Extend(_) => Ok(()),
    }
}

/// The enums of a file.
#[tactic(auto, using(crate::proofs::EnumRows::rows_of_blocks, crate::proofs::EnumRows::no_rows))]
fn file_enums<'a>(
    alloc: Global,
    words: &Words<'a>,
    is_proto3: bool,
    file: &File,
) -> Result<IndexMap<u32, EnumRow<'a>>, NoMemory>
    ensures { IfOk result (λ rows. AreEnumsOf words.now is_proto3
        (blocks_in (tree_of_file file.now)) rows) }
{
    let blocks = blocks_of(alloc, file)?;
    let mut rows = IndexMap::new(alloc);
    for block in &blocks {
        add(alloc, &mut rows, words, is_proto3, *block)?;
    }
    Ok(rows)
}

/// Whether the file with this number is proto3.
pub fn is_proto3_file(files: &Files, file: u32) -> bool
    requires { file < length files.now }
    ensures { (reads : List ReadOf) → AreRead files.now reads
        → result ≡ is_proto3_file files.now reads file }
{
    is_proto3(&Words::new(files, file), files.tree(file))
}

/// The enums of the file with this number, by the tokens of their names. Fails only when out of
/// memory.
pub fn enums_of_file<'a>(
    alloc: Global,
    files: &'a Files,
    file: u32,
) -> Result<IndexMap<u32, EnumRow<'a>>, NoMemory>
    requires { file < length files.now }
    ensures { IfOk result (λ rows. (reads : List ReadOf) → AreRead files.now reads → (token : ℕ)
        → enum_row_at rows token ≡ enum_at files.now reads (at file token)) }
{
    let words = Words::new(files, file);
    let tree = files.tree(file);
    file_enums(alloc, &words, is_proto3(&words, tree), tree)
}

/// The enums of these files. Fails only when out of memory.
fn enums_of_files<'a>(
    alloc: Global,
    files: &'a Files,
    listed: &[u32],
) -> Result<EnumTable<'a>, NoMemory>
    requires { All (λ file. file < length files.now) listed.now }
    ensures { IfOk result (IsEnumTableOfListed files.now listed.now) }
{
    let mut table = IndexMap::with_capacity(alloc, listed.len())?;
    for file in listed {
        let enums = enums_of_file(alloc, files, *file)?;
        table.insert(*file, enums)?;
    }
    Ok(EnumTable { files: table })
}

/// Those of the files that are in a set, which may be of more or fewer files, in order.
fn files_there(alloc: Global, files: &Files, set: &FileSet) -> Result<Vec<u32>, NoMemory>
    ensures below { IfOk result (λ there. All (λ file. file < length files.now) there.items) }
    ensures listed { IfOk result (λ there. (file : ℕ) → file < length files.now
        → (Contains there.items file ↔ IsIn set.now file)) }
{
    let count = files.len();
    let none = FileSet::new(alloc, count)?;
    let mut there = FileSet::new(alloc, count)?;
    there.add_new(set, &none);
    there.files(alloc)
}

/// The enums of the files of a set: for each of these what is read of each of its enums, by the
/// token of its name; nothing for another file. Fails only when out of memory.
pub fn enum_table_of<'a>(
    alloc: Global,
    files: &'a Files,
    set: &FileSet,
) -> Result<EnumTable<'a>, NoMemory>
    ensures { IfOk result (IsEnumTableOf files.now set.now) }
{
    let listed = files_there(alloc, files, set)?;
    enums_of_files(alloc, files, &listed)
}

/// The enums of all files: as `enum_table_of`, of the set of all.
pub fn enum_table<'a>(alloc: Global, files: &'a Files) -> Result<EnumTable<'a>, NoMemory>
    ensures { IfOk result (IsEnumTable files.now) }
{
    let all = FileSet::all(alloc, files.len())?;
    enum_table_of(alloc, files, &all)
}

/// The enum whose name is this token of the file, if it is an enum's.
pub(crate) fn enum_at<'a>(table: &'a EnumTable<'a>, file: u32, token: u32) -> Option<EnumAt<'a>>
    ensures { option_map enum_of result ≡ enum_in table.now (at file token) }
{
    let row = table.files.get(&file)?.get(&token)?;
    Some(EnumAt {
        is_proto3: row.is_proto3,
        starts_past_zero: row.starts_past_zero,
        values: &row.values,
    })
}
