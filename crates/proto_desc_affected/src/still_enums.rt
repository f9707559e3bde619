//! Enums of edited files that are what is kept of them.

ghost use Rattle.std.specs.Prelude.{◌≡◌, ℕ, ◌<◌, List, true, not, length, map, get_or, nat_eq, Some, All, IfOk, IfSome, OnOk, string_bytes};
ghost use Rattle.indexmap.specs.IndexMap.{get};
ghost use Rattle.proto_files.specs.FilesRead.{AreRead, ReadOf};
ghost use Rattle.proto_files.specs.GivenFiles.{FileOf};
ghost use Rattle.proto_desc_affected.specs.Checked.{KeepsEnum, FileSummaryOf, file_summary, nothing_kept};
ghost use Rattle.proto_desc_affected.specs.Values.{IsSameEnum};
ghost use Rattle.proto_desc_affected.specs.Kept.{enum_kept, enum_summary_of, file_summary_of, file_summaries_of};
ghost use Rattle.proto_desc_affected.specs.StillEnums.{AreStillEnums, IsEnumAsKept, is_still_to};

use crate::file_summary::{EnumSummary, FileSummary, enum_summaries};
use indexmap::IndexMap;
use proto_base::NoMemory;
use proto_names::{Link, SymbolId};
use proto_resolved::Linked;
use std::alloc::Global;

/// Whether these texts are the same, one for one.
fn are_same(a: &[String], b: &[String]) -> bool
    ensures { result ≡ true → map string_bytes a.now ≡ map string_bytes b.now }
{
    if a.len() != b.len() {
        return false;
    }
    for k in 0..a.len() {
        if a[k] != b[k] {
            return false;
        }
    }
    true
}

/// Whether an enum is what is kept of it whole, or but for the names of its values; none where it is
/// another.
#[tactic(auto, using(crate::proofs::StillEnums::compared))]
fn compare(kept: &EnumSummary, current: &EnumSummary) -> Option<bool>
    ensures { IfSome result (λ whole. IsSameEnum (not whole) (Some (enum_kept kept.now))
        (Some (enum_kept current.now))) }
{
    if kept.is_proto3 != current.is_proto3 || kept.starts_past_zero != current.starts_past_zero {
        return None;
    }
    Some(are_same(&kept.values, &current.values))
}

/// The same by what is kept of a file; none also where it has no enum of the name.
fn compare_kept(kept: &FileSummary, current: &EnumSummary) -> Option<bool>
    ensures { IfSome result (IsEnumAsKept (file_summary_of kept.now) (enum_summary_of current.now)) }
{
    for one in &kept.enums {
        if one.name == current.name {
            return compare(one, current);
        }
    }
    None
}

/// Adds an enum of an edited file by the row of its name, if it is what is kept of it.
#[tactic(auto, using(crate::proofs::StillEnums::still_at, crate::proofs::StillEnums::still_more))]
fn add_enum(
    still: &mut IndexMap<usize, bool>,
    link: &Link,
    kept: &FileSummary,
    current: &EnumSummary,
) -> Result<(), NoMemory>
    ensures { OnOk result ((files : List FileOf) (ks : List FileSummaryOf) (file : ℕ)
        → file < length files → get_or ks file nothing_kept ≡ file_summary_of kept.now
        → ((reads : List ReadOf) → AreRead files reads
        → KeepsEnum (file_summary files reads file) (string_bytes current.now.name)
        (enum_kept current.now))
        → AreStillEnums files link.now ks (get nat_eq still.old)
        → AreStillEnums files link.now ks (get nat_eq still.new)) }
{
    let Some(whole) = compare_kept(kept, current) else {
        return Ok(());
    };
    let Some(name) = link.symbol(&current.name) else {
        return Ok(());
    };
    still.insert(name.row, whole)?;
    Ok(())
}

/// Adds so the enums that a file declares.
fn add_file(
    alloc: Global,
    still: &mut IndexMap<usize, bool>,
    linked: &Linked<'_>,
    kept: &[FileSummary],
    file: u32,
) -> Result<(), NoMemory>
    requires paired { length kept.now ≡ length linked.now.files }
    requires file { file < length linked.now.files }
    ensures { OnOk result (AreStillEnums linked.now.files linked.now.link
        (file_summaries_of kept.now) (get nat_eq still.old)
        → AreStillEnums linked.now.files linked.now.link
        (file_summaries_of kept.now) (get nat_eq still.new)) }
{
    let link = linked.link();
    let enums = enum_summaries(alloc, linked, file)?;
    for current in &enums {
        add_enum(still, link, &kept[file as usize], current)?;
    }
    Ok(())
}

/// The enums of the files at these places that are what is kept of them, by the rows of their names:
/// whole, or but for the names of their values. Fails only when out of memory.
pub(crate) fn still_enums(
    alloc: Global,
    linked: &Linked<'_>,
    kept: &[FileSummary],
    places: &[u32],
) -> Result<IndexMap<usize, bool>, NoMemory>
    requires paired { length kept.now ≡ length linked.now.files }
    requires places { All (λ place. place < length linked.now.files) places.now }
    ensures { IfOk result (λ still. AreStillEnums linked.now.files linked.now.link
        (file_summaries_of kept.now) (get nat_eq still)) }
{
    let mut still = IndexMap::new(alloc);
    for place in places {
        add_file(alloc, &mut still, linked, kept, *place)?;
    }
    Ok(still)
}

/// Whether the enum of a name is what is kept of it, to a file that is proto3 or not.
pub(crate) fn is_still(still: &IndexMap<usize, bool>, proto3: bool, name: SymbolId) -> bool
    ensures { result ≡ is_still_to proto3 (get nat_eq still.now name.row) }
{
    match still.get(&name.row) {
        Some(whole) => proto3 || *whole,
        None => false,
    }
}
