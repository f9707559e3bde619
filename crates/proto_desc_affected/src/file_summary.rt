//! What is kept of a file that was checked.

ghost use Rattle.std.specs.Prelude.{◌≡◌, ◌<◌, ◌++◌, List, [], length, map, flat_map, get_or, slice_get, string_bytes, IfOk, IfSome, OnOk};
ghost use Rattle.proto_desc_extensions.specs.Extends.{has_extend};
ghost use Rattle.proto_files.specs.FilesRead.{AreRead, ReadOf, read_at};
ghost use Rattle.proto_desc_affected.specs.Checked.{AreKeptOf, IsKeptOf, enum_by_link, is_enum_kind, is_message_kind, kept_by_link, enum_summaries};
ghost use Rattle.proto_resolved.specs.Enums.{enum_of_row, enum_row_at};
ghost use Rattle.proto_desc_affected.specs.Kept.{enum_with_name, enum_summary_of, file_summary_of, file_summaries_of, type_use_of};

use crate::laws::links_have_what_is_kept;
use indexmap::IndexMap;
use proto_base::NoMemory;
use proto_desc_extensions::has_extend;
use proto_files::Files;
use proto_names::{DeclaredNames, Kind, Link, Meant, SymbolId};
use proto_resolved::Linked;
use proto_resolved::enum_table::{EnumRow, enums_of_file, is_proto3_file};
use std::alloc::Global;

/// What a reference meant.
#[derive(Drop)]
pub struct TypeUse {
    /// The full name, its words joined by dots.
    pub name: String,
    /// Whether it is a message's.
    pub is_message: bool,
}

/// An enum that a file declared.
#[derive(Drop)]
pub struct EnumSummary {
    /// The full name, its words joined by dots.
    pub name: String,
    /// Whether its file is proto3.
    pub is_proto3: bool,
    /// Whether it has a first value, and that is not 0.
    pub starts_past_zero: bool,
    /// The names of its values, in order.
    pub values: Vec<String>,
}

/// What is kept of a file that was checked, by which an edit of other files tells whether it has to
/// be checked again.
#[derive(Drop)]
pub struct FileSummary {
    /// What its references meant, in the order of their first tokens.
    pub means: Vec<TypeUse>,
    /// The enums that it declares, in order.
    pub enums: Vec<EnumSummary>,
    /// Whether it is proto3.
    pub is_proto3: bool,
    /// Whether it has an `extend` block.
    pub has_extend: bool,
}

/// Whether a kind is a message's.
pub(crate) fn is_message(kind: Option<Kind>) -> bool
    ensures { result ≡ is_message_kind kind }
{
    matches!(kind, Some(Kind::Message))
}

/// Whether a kind is an enum's.
fn is_enum(kind: Option<Kind>) -> bool
    ensures { result ≡ is_enum_kind kind }
{
    matches!(kind, Some(Kind::Enum))
}

/// What a reference means.
fn type_use(alloc: Global, link: &Link, meant: Meant) -> Result<TypeUse, NoMemory>
    ensures { IfOk result (λ k. type_use_of k ≡ kept_by_link link.now meant) }
{
    let name = meant.symbol();
    Ok(TypeUse {
        name: String::from_str(alloc, link.name_of(name).unwrap_or(""))?,
        is_message: is_message(link.kind_of(name)),
    })
}

/// What the references of a file mean.
fn types_used(alloc: Global, link: &Link, file: u32) -> Result<Vec<TypeUse>, NoMemory>
    ensures { IfOk result (λ ks. map type_use_of ks.items
        ≡ map (kept_by_link link.now) (get_or link.now.meant file [])) }
{
    let mut names = Vec::new(alloc);
    for meant in link.meant_in(file) {
        names.push(type_use(alloc, link, *meant)?)?;
    }
    Ok(names)
}

/// Copies of texts.
fn copies(alloc: Global, texts: &[&str]) -> Result<Vec<String>, NoMemory>
    ensures { IfOk result (λ all. map string_bytes all.items ≡ map (λ text. text.now) texts.now) }
{
    let mut all = Vec::with_capacity(alloc, texts.len())?;
    for text in texts {
        all.push(String::from_str(alloc, text)?)?;
    }
    Ok(all)
}

/// An enum of this name, by what is read of it.
fn enum_summary(alloc: Global, name: &str, row: &EnumRow) -> Result<EnumSummary, NoMemory>
    ensures { IfOk result (λ k. enum_summary_of k ≡ enum_with_name name.now (enum_of_row row.now)) }
{
    Ok(EnumSummary {
        name: String::from_str(alloc, name)?,
        is_proto3: row.is_proto3,
        starts_past_zero: row.starts_past_zero,
        values: copies(alloc, row.values.all())?,
    })
}

/// Adds what is kept of a name that a file declares, if it is an enum's, by the enums of the file.
#[tactic(auto, using(crate::proofs::EnumsByLink::other_by_link, crate::proofs::EnumsByLink::none_by_link, crate::proofs::EnumsByLink::one_by_link))]
fn add_enum(
    alloc: Global,
    enums: &mut Vec<EnumSummary>,
    link: &Link,
    rows: &IndexMap<u32, EnumRow>,
    name: SymbolId,
) -> Result<(), NoMemory>
    ensures { OnOk result (map enum_summary_of enums.new.items ≡ map enum_summary_of enums.old.items
        ++ enum_by_link link.now (enum_row_at rows.now) name.row) }
{
    if !is_enum(link.kind_of(name)) {
        return Ok(());
    }
    let Some(token) = link.token_of(name) else {
        return Ok(());
    };
    let Some(row) = rows.get(&token) else {
        return Ok(());
    };
    let text = link.name_of(name).unwrap_or("");
    enums.push(enum_summary(alloc, text, row)?)?;
    Ok(())
}

/// Adds so what is kept of the name at a place among these, if there is one.
fn add_enum_at(
    alloc: Global,
    enums: &mut Vec<EnumSummary>,
    link: &Link,
    rows: &IndexMap<u32, EnumRow>,
    names: &DeclaredNames<'_>,
    place: usize,
) -> Result<(), NoMemory>
    ensures { OnOk result (IfSome (slice_get names.now.rows.now place)
        (λ row. map enum_summary_of enums.new.items ≡ map enum_summary_of enums.old.items
        ++ enum_by_link link.now (enum_row_at rows.now) row)) }
{
    if let Some(name) = names.get(place) {
        add_enum(alloc, enums, link, rows, name)?;
    }
    Ok(())
}

/// The enums of the names that a file declares, in order, by the enums of the file.
fn enums_declared(
    alloc: Global,
    link: &Link,
    rows: &IndexMap<u32, EnumRow>,
    file: u32,
) -> Result<Vec<EnumSummary>, NoMemory>
    ensures { IfOk result (λ ks. map enum_summary_of ks.items
        ≡ flat_map (enum_by_link link.now (enum_row_at rows.now)) (get_or link.now.rows file [])) }
{
    let names = link.declared_in(file);
    let mut enums = Vec::new(alloc);
    for place in 0..names.len() {
        add_enum_at(alloc, &mut enums, link, rows, &names, place)?;
    }
    Ok(enums)
}

/// The enums that a file declares, in order.
pub(crate) fn enum_summaries(
    alloc: Global,
    linked: &Linked<'_>,
    file: u32,
) -> Result<Vec<EnumSummary>, NoMemory>
    requires { file < length linked.now.files }
    ensures { IfOk result (λ ks. (reads : List ReadOf) → AreRead linked.now.files reads
        → map enum_summary_of ks.items ≡ enum_summaries linked.now.files reads file) }
{
    links_have_what_is_kept();
    let rows = enums_of_file(alloc, linked.files(), file)?;
    enums_declared(alloc, linked.link(), &rows, file)
}

/// Whether the file with this number has an `extend` block.
pub(crate) fn has_extend_at(files: &Files, file: u32) -> bool
    requires { file < length files.now }
    ensures { (reads : List ReadOf) → AreRead files.now reads
        → result ≡ has_extend (read_at reads file).tree }
{
    has_extend(files.tree(file))
}

/// A copy of names.
fn copy_names(alloc: Global, names: &[TypeUse]) -> Result<Vec<TypeUse>, NoMemory>
    ensures { IfOk result (λ ks. map type_use_of ks.items ≡ map type_use_of names.now) }
{
    let mut copy = Vec::with_capacity(alloc, names.len())?;
    for kept in names {
        copy.push(TypeUse {
            name: String::from_str(alloc, &kept.name)?,
            is_message: kept.is_message,
        })?;
    }
    Ok(copy)
}

/// A copy of texts.
fn copy_texts(alloc: Global, texts: &[String]) -> Result<Vec<String>, NoMemory>
    ensures { IfOk result (λ all. map string_bytes all.items ≡ map string_bytes texts.now) }
{
    let mut copy = Vec::with_capacity(alloc, texts.len())?;
    for text in texts {
        copy.push(String::from_str(alloc, text)?)?;
    }
    Ok(copy)
}

/// A copy of enums.
fn copy_enums(alloc: Global, enums: &[EnumSummary]) -> Result<Vec<EnumSummary>, NoMemory>
    ensures { IfOk result (λ ks. map enum_summary_of ks.items ≡ map enum_summary_of enums.now) }
{
    let mut copy = Vec::with_capacity(alloc, enums.len())?;
    for kept in enums {
        copy.push(EnumSummary {
            name: String::from_str(alloc, &kept.name)?,
            is_proto3: kept.is_proto3,
            starts_past_zero: kept.starts_past_zero,
            values: copy_texts(alloc, &kept.values)?,
        })?;
    }
    Ok(copy)
}

impl FileSummary {
    /// What is kept of the file with this number, from 0. Fails only when out of memory.
    pub fn new(alloc: Global, linked: &Linked<'_>, file: u32) -> Result<FileSummary, NoMemory>
        requires { file < length linked.now.files }
        ensures { IfOk result (λ k. IsKeptOf linked.now.files file (file_summary_of k)) }
    {
        links_have_what_is_kept();
        let files = linked.files();
        Ok(FileSummary {
            means: types_used(alloc, linked.link(), file)?,
            enums: enum_summaries(alloc, linked, file)?,
            is_proto3: is_proto3_file(files, file),
            has_extend: has_extend_at(files, file),
        })
    }

    /// A copy. Fails only when out of memory.
    fn copy(&self, alloc: Global) -> Result<FileSummary, NoMemory>
        ensures { IfOk result (λ k. file_summary_of k ≡ file_summary_of self.now) }
    {
        Ok(FileSummary {
            means: copy_names(alloc, &self.means)?,
            enums: copy_enums(alloc, &self.enums)?,
            is_proto3: self.is_proto3,
            has_extend: self.has_extend,
        })
    }
}

/// What is kept of files, in the order of their paths. Fails only when out of memory.
pub fn file_summaries(alloc: Global, linked: &Linked<'_>) -> Result<Vec<FileSummary>, NoMemory>
    ensures { IfOk result (λ ks. AreKeptOf linked.now.files (file_summaries_of ks.items)) }
{
    let mut kept = Vec::with_capacity(alloc, linked.file_count())?;
    for file in 0..linked.file_count() as u32 {
        kept.push(FileSummary::new(alloc, linked, file)?)?;
    }
    Ok(kept)
}

/// A copy of what is kept of files. Fails only when out of memory.
pub fn copy_file_summaries(
    alloc: Global,
    files: &[FileSummary],
) -> Result<Vec<FileSummary>, NoMemory>
    ensures { IfOk result (λ ks. file_summaries_of ks.items ≡ file_summaries_of files.now) }
{
    let mut copy = Vec::with_capacity(alloc, files.len())?;
    for kept in files {
        copy.push(kept.copy(alloc)?)?;
    }
    Ok(copy)
}
