//! The files that an edit affects, and those whose enums they mean.

ghost use Rattle.std.specs.Prelude.{◌≡◌, ◌↔◌, ◌⊎◌, ◌||◌, ℕ, ◌^◌, ◌<◌, ◌≤◌, List, [], true, false, length, get_or, map, nat_eq, option_map, slice_get, Some, IfOk, IfSome};
ghost use Rattle.std.specs.List.{All, Contains};
ghost use Rattle.indexmap.specs.IndexMap.{get};
ghost use Rattle.proto_desc_extensions.specs.Extends.{has_extend};
ghost use Rattle.proto_files.specs.FilesRead.{AreRead, ReadOf, read_at};
ghost use Rattle.proto_files.specs.GivenFiles.{FileOf};
ghost use Rattle.proto_desc_affected.specs.Checked.{AreMeantStill, IsElsewhere, IsEnumAtRow, IsKeptStill, IsMeantStill, FileSummaryOf, is_message_kind, nothing_kept};
ghost use Rattle.proto_names_affected.specs.Marking.{ArePlacesMarked, IsMarked, MarksStay};
ghost use Rattle.proto_names.specs.Linking.{name_at, name_text};
ghost use Rattle.proto_desc_affected.specs.Kept.{file_summary_of, file_summaries_of, type_use_of};
ghost use Rattle.proto_desc_affected.specs.Marks.{AreEnumsMarked, AreOthersKept, AreOthersKeptAsTold, AreUnsureKept, AreUsersMarked, AreUsersOfFilesMarked, HasNoMarkedExtends, IsEnumMarked, IsUserMarked};
ghost use Rattle.proto_desc_affected.specs.StillEnums.{AreStillEnums};

use crate::file_summary::{FileSummary, TypeUse, has_extend_at, is_message};
use crate::laws::{links_have_what_is_kept, marks_tell_kept};
use crate::still_enums::{is_still, still_enums};
use indexmap::IndexMap;
use proto_base::NoMemory;
use proto_file_sets::FileSet;
use proto_files::{Files, are_read};
use proto_names::{DeclaredNames, Link, Meant, RefId, SymbolId};
use proto_names_affected::marking::mark_places;
use proto_resolved::Linked;
use std::alloc::Global;

/// Whether a name stands in no edited file.
fn is_elsewhere(link: &Link, edited: &FileSet, name: SymbolId) -> bool
    ensures { result ≡ true → (places : List ℕ) → ArePlacesMarked edited.now places
        → IsElsewhere places link.now name.row }
{
    match link.file_of(name) {
        Some(file) => !edited.contains(file),
        None => true,
    }
}

/// Whether a name has this text.
fn has_text(link: &Link, name: SymbolId, text: &str) -> bool
    ensures { result ≡ true → name_text link.now name.row ≡ Some text.now }
{
    link.name_of(name) == Some(text)
}

/// Whether a name is a message's, as the one that is kept was, or an enum's that is to the file
/// what is kept of it.
fn is_type_still(
    link: &Link,
    still: &IndexMap<usize, bool>,
    file: &FileSummary,
    kept: &TypeUse,
    name: SymbolId,
) -> bool
    ensures { result ≡ true → (files : List FileOf) (ks : List FileSummaryOf)
        → AreStillEnums files link.now ks (get nat_eq still.now)
        → ((kept.now.is_message ≡ true)
        × (is_message_kind (option_map (λ n. n.kind) (name_at link.now name.row)) ≡ true))
        ⊎ IsEnumAtRow files link.now ks file.now.is_proto3 name.row }
{
    let is_message_still = kept.is_message && is_message(link.kind_of(name));
    is_message_still || is_still(still, file.is_proto3, name)
}

/// Whether a reference of a file means what is kept of it, which is to stand in a file that is not
/// edited, or, where the file extends nothing, to be a message's and have been one, or an enum's
/// that is to the file what is kept of it.
fn is_meant_still(
    link: &Link,
    edited: &FileSet,
    still: &IndexMap<usize, bool>,
    file: &FileSummary,
    kept: &TypeUse,
    meant: Meant,
) -> bool
    ensures { result ≡ true → (places : List ℕ) → ArePlacesMarked edited.now places
        → (files : List FileOf) (ks : List FileSummaryOf)
        → AreStillEnums files link.now ks (get nat_eq still.now)
        → IsMeantStill places files link.now ks (file_summary_of file.now) (type_use_of kept.now)
        meant }
{
    let name = meant.symbol();
    has_text(link, name, &kept.name)
        && (is_elsewhere(link, edited, name)
            || (!file.has_extend && is_type_still(link, still, file, kept, name)))
}

/// Whether the references of a file mean what is kept of them.
fn are_meant_still(
    link: &Link,
    edited: &FileSet,
    still: &IndexMap<usize, bool>,
    kept: &FileSummary,
    meant: &[Meant],
) -> bool
    ensures { result ≡ true → (places : List ℕ) → ArePlacesMarked edited.now places
        → (files : List FileOf) (ks : List FileSummaryOf)
        → AreStillEnums files link.now ks (get nat_eq still.now)
        → AreMeantStill places files link.now ks (file_summary_of kept.now)
        (map type_use_of kept.now.means.items) meant.now }
{
    if kept.means.len() != meant.len() {
        return false;
    }
    for k in 0..meant.len() {
        if !is_meant_still(link, edited, still, kept, &kept.means[k], meant[k]) {
            return false;
        }
    }
    true
}

/// Whether a file is not edited, and its references mean what is kept of them.
#[tactic(auto, using(crate::proofs::MeantStill::kept_still))]
fn is_kept_still(
    link: &Link,
    edited: &FileSet,
    still: &IndexMap<usize, bool>,
    kept: &FileSummary,
    file: u32,
) -> bool
    ensures { result ≡ true → (places : List ℕ) → ArePlacesMarked edited.now places
        → (files : List FileOf) (ks : List FileSummaryOf)
        → AreStillEnums files link.now ks (get nat_eq still.now)
        → file < length files → get_or ks file nothing_kept ≡ file_summary_of kept.now
        → IsKeptStill places files link.now ks file }
{
    !edited.contains(file) && are_meant_still(link, edited, still, kept, link.meant_in(file))
}

/// The files of the set among so many, by their numbers, in order. Fails only when out of memory.
fn files_among(alloc: Global, set: &FileSet, file_count: usize) -> Result<Vec<u32>, NoMemory>
    requires few { file_count ≤ 2 ^ 32 }
    ensures within { IfOk result (λ listed. All (λ file. file < file_count) listed.items) }
    ensures marked { IfOk result (λ listed. All (IsMarked set.now) listed.items) }
    ensures whole { IfOk result (λ listed. (file : ℕ) → file < file_count
        → IsMarked set.now file → Contains listed.items file) }
{
    let mut among = FileSet::new(alloc, file_count)?;
    let none = FileSet::new(alloc, 0)?;
    among.add_new(set, &none);
    among.files(alloc)
}

/// What is kept of files, and the enums of edited files that are what is kept of them, as
/// `still_enums` tells.
#[derive(Clone, Copy)]
struct Summaries<'a> {
    files: &'a [FileSummary],
    still: &'a IndexMap<usize, bool>,
}

/// Those of the unsure files that are edited, at these places, or of which a reference, by
/// the link now, does not mean what is kept of it, or means what stands in an edited file. If the
/// file has no `extend` block, a message may stand there, where it was one, and an enum, where it
/// is to the file what is kept of it. Fails only when out of memory.
fn unsure_to_check(
    alloc: Global,
    linked: &Linked<'_>,
    places: &[u32],
    kept: Summaries,
    unsure: &FileSet,
) -> Result<FileSet, NoMemory>
    requires places { All (λ place. place < length linked.now.files) places.now }
    requires paired { length kept.files.now ≡ length linked.now.files }
    requires still { AreStillEnums linked.now.files linked.now.link
        (file_summaries_of kept.files.now) (get nat_eq kept.still.now) }
    ensures len { IfOk result (λ affected. length affected ≡ length linked.now.files) }
    ensures others { IfOk result (λ affected. AreUnsureKept places.now linked.now.files
        linked.now.link (file_summaries_of kept.entry.files.now) unsure.now affected) }
{
    let link = linked.link();
    let file_count = linked.file_count();
    let mut edited = FileSet::new(alloc, file_count)?;
    mark_places(&mut edited, places);
    let mut affected = FileSet::new(alloc, file_count)?;
    let asked = files_among(alloc, unsure, file_count)?;
    for file in &asked {
        let own = &kept.files[*file as usize];
        if !is_kept_still(link, &edited, kept.still, own, *file) {
            affected.insert(*file);
        }
    }
    Ok(affected)
}

/// The files that an edit of the files at these places affects: these, and each of
/// which a reference, by the link now, does not mean what is kept of it, or means what stands in an
/// edited file. If the file has no `extend` block, a message may stand there, where it was one, and
/// an enum, where it is to the file what is kept of it. Fails only when out of memory.
pub fn files_to_check(
    alloc: Global,
    linked: &Linked<'_>,
    places: &[u32],
    kept: &[FileSummary],
) -> Result<FileSet, NoMemory>
    requires places { All (λ place. place < length linked.now.files) places.now }
    requires paired { length kept.now ≡ length linked.now.files }
    ensures len { IfOk result (λ affected. length affected ≡ length linked.now.files) }
    ensures others { IfOk result (λ affected. AreOthersKept places.now linked.now.files
        linked.now.link (file_summaries_of kept.now) affected) }
{
    let unsure = FileSet::all(alloc, linked.file_count())?;
    let still = still_enums(alloc, linked, kept, places)?;
    let kept = Summaries {
        files: kept,
        still: &still,
    };
    unsure_to_check(alloc, linked, places, kept, &unsure)
}

/// Whether a file had an `extend` block, by what is kept of it; false where nothing is.
fn had_extend(kept: &[FileSummary], file: u32) -> bool
    ensures { result ≡ (get_or (file_summaries_of kept.now) file nothing_kept).has_extend }
{
    match kept.get(file as usize) {
        Some(kept) => kept.has_extend,
        None => false,
    }
}

/// Whether a file was proto3, by what is kept of it; false where nothing is.
fn was_proto3(kept: &[FileSummary], file: u32) -> bool
    ensures { result ≡ (get_or (file_summaries_of kept.now) file nothing_kept).is_proto3 }
{
    match kept.get(file as usize) {
        Some(kept) => kept.is_proto3,
        None => false,
    }
}

/// Puts a file into the set that refers to a name, unless that is a message's, or an enum's that is
/// to the file what is kept of it, and the file had no `extend` block.
fn mark_user(marks: &mut FileSet, link: &Link, kept: Summaries, name: SymbolId, user: RefId)
    ensures stay { MarksStay marks.old marks.new }
    ensures marked { IsUserMarked link.now (file_summaries_of kept.entry.files.now)
        (get nat_eq kept.entry.still.now) marks.new name.row user }
{
    let proto3 = was_proto3(kept.files, user.file);
    let is_same = is_message(link.kind_of(name)) || is_still(kept.still, proto3, name);
    if !is_same || had_extend(kept.files, user.file) {
        mark_file(marks, Some(user.file));
    }
}

/// Puts so into the set the files that refer to a name.
fn mark_users_of_name(marks: &mut FileSet, link: &Link, kept: Summaries, name: SymbolId)
    ensures stay { MarksStay marks.old marks.new }
    ensures marked { AreUsersMarked link.now (file_summaries_of kept.entry.files.now)
        (get nat_eq kept.entry.still.now) marks.new name.row }
{
    for user in link.references(name) {
        mark_user(marks, link, kept, name, *user);
    }
}

/// The same of the name at a place among these, if there is one.
fn mark_users_at(
    marks: &mut FileSet,
    link: &Link,
    kept: Summaries,
    names: &DeclaredNames<'_>,
    place: usize,
)
    ensures stay { MarksStay marks.old marks.new }
    ensures marked { IfSome (slice_get names.now.rows.now place)
        (AreUsersMarked link.now (file_summaries_of kept.entry.files.now)
        (get nat_eq kept.entry.still.now) marks.new) }
{
    if let Some(name) = names.get(place) {
        mark_users_of_name(marks, link, kept, name);
    }
}

/// The same of each name that a file declares.
fn mark_users_of_file(marks: &mut FileSet, link: &Link, kept: Summaries, file: u32)
    ensures stay { MarksStay marks.old marks.new }
    ensures marked { All (AreUsersMarked link.now (file_summaries_of kept.entry.files.now)
        (get nat_eq kept.entry.still.now) marks.new)
        (get_or link.now.rows file []) }
{
    let names = link.declared_in(file);
    for place in 0..names.len() {
        mark_users_at(marks, link, kept, &names, place);
    }
}

/// The same of each name that the files at these places declare.
fn mark_users(marks: &mut FileSet, link: &Link, kept: Summaries, places: &[u32])
    ensures stay { MarksStay marks.old marks.new }
    ensures marked { AreUsersOfFilesMarked places.now link.now
        (file_summaries_of kept.entry.files.now) (get nat_eq kept.entry.still.now) marks.new }
{
    for place in places {
        mark_users_of_file(marks, link, kept, *place);
    }
}

/// The files that an edit of the files at these places affects, by those that have to be
/// re-checked, which are told. Of these, and of the files that refer to a name of an edited file,
/// where it is neither a message's nor an enum's that is to them what is kept of it, or they had an
/// `extend` block, it is asked what their references mean; no other file is asked. Fails only when
/// out of memory.
pub fn told_files_to_check(
    alloc: Global,
    linked: &Linked<'_>,
    places: &[u32],
    kept: &[FileSummary],
    told: &FileSet,
) -> Result<FileSet, NoMemory>
    requires places { All (λ place. place < length linked.now.files) places.now }
    requires paired { length kept.now ≡ length linked.now.files }
    requires told { length told.now ≡ length linked.now.files }
    ensures len { IfOk result (λ affected. length affected ≡ length linked.now.files) }
    ensures others { IfOk result (λ affected. AreOthersKeptAsTold places.now linked.now.files
        linked.now.link (file_summaries_of kept.now) told.now affected) }
{
    // By these laws a file that is not asked means what it meant, and each reference is in the
    // lists that are walked here.
    marks_tell_kept();
    links_have_what_is_kept();
    let still = still_enums(alloc, linked, kept, places)?;
    let kept = Summaries {
        files: kept,
        still: &still,
    };
    let mut unsure = told.copy(alloc)?;
    mark_users(&mut unsure, linked.link(), kept, places);
    unsure_to_check(alloc, linked, places, kept, &unsure)
}

/// Whether a file has an `extend` block, or had one, by what is kept of it.
fn has_or_had_extend(files: &Files, kept: &FileSummary, file: u32) -> bool
    requires { file < length files.now }
    ensures { (reads : List ReadOf) → AreRead files.now reads
        → result ≡ (kept.now.has_extend || has_extend (read_at reads file).tree) }
{
    kept.has_extend || has_extend_at(files, file)
}

/// Whether no file of the set has an `extend` block, and none had one, by what is kept of them.
/// Fails only when out of memory.
pub fn has_no_marked_extends(
    alloc: Global,
    files: &Files,
    marks: &FileSet,
    kept: &[FileSummary],
) -> Result<bool, NoMemory>
    requires paired { length kept.now ≡ length files.now }
    ensures { IfOk result (λ none. (none ≡ true)
        ↔ HasNoMarkedExtends files.now (file_summaries_of kept.now) marks.now) }
{
    are_read(files);
    let marked = files_among(alloc, marks, files.len())?;
    for file in &marked {
        if has_or_had_extend(files, &kept[*file as usize], *file) {
            return Ok(false);
        }
    }
    Ok(true)
}

/// Puts a file into the set, if there is one.
#[tactic(auto, using(proto_names_affected::proofs::Inserted::inserted_stay, proto_names_affected::proofs::Inserted::inserted_marked))]
fn mark_file(wanted: &mut FileSet, file: Option<u32>)
    ensures stay { MarksStay wanted.old wanted.new }
    ensures marked { IfSome file (λ f. f < length wanted.old → IsMarked wanted.new f) }
{
    if let Some(file) = file {
        wanted.insert(file);
    }
}

/// Puts the file into the set that declares what a reference means, unless that is a message's.
fn mark_enum(wanted: &mut FileSet, link: &Link, meant: Meant)
    ensures stay { MarksStay wanted.old wanted.new }
    ensures marked { IsEnumMarked link.now wanted.new meant }
{
    let name = meant.symbol();
    if !is_message(link.kind_of(name)) {
        mark_file(wanted, link.file_of(name));
    }
}

/// Puts the files into the set that declare what these references mean, messages left out.
fn mark_enums(wanted: &mut FileSet, link: &Link, meant: &[Meant])
    ensures stay { MarksStay wanted.old wanted.new }
    ensures marked { All (IsEnumMarked link.now wanted.new) meant.now }
{
    for one in meant {
        mark_enum(wanted, link, *one);
    }
}

/// The files whose enums references of these files mean. Fails only when out of memory.
pub fn files_of_enums(
    alloc: Global,
    files: &Files,
    link: &Link,
    marks: &FileSet,
) -> Result<FileSet, NoMemory>
    ensures { IfOk result (λ wanted. AreEnumsMarked files.now link.now marks.now wanted) }
{
    let file_count = files.len();
    let mut wanted = FileSet::new(alloc, file_count)?;
    let marked = files_among(alloc, marks, file_count)?;
    for file in &marked {
        mark_enums(&mut wanted, link, link.meant_in(*file));
    }
    Ok(wanted)
}
