//! Changes put into the files of a workspace.

ghost use Rattle.std.specs.Prelude.{List, map, IfOk, MatchOption};
ghost use Rattle.proto_base.specs.GivenFiles.{AreInLanguage};
ghost use Rattle.proto_base.specs.declared.profile.Profile.{Profile};
ghost use Rattle.proto_files.specs.GivenFiles.{AreWorkspaceFiles, FileOf, files_of_as};
ghost use Rattle.proto_edit_entries.specs.Entries.{AreRising, ChangeOf, change_of};
ghost use Rattle.proto_edit_entries.specs.Putting.{AreChangedTexts, HasNoChangedFile, IsChangedFile, IsChangedText, IsNext, ArePut};

use crate::entry::Change;
use proto_base::NoMemory;
use proto_files::Files;
use proto_text::{SpliceFault, apply_splices};
use std::alloc::Global;

/// The text with a change. None where it is not as before the change, or would be too long.
/// Fails only when out of memory.
pub fn changed_text(
    alloc: Global,
    text: &[u8],
    change: &Change,
) -> Result<Option<Vec<u8>>, NoMemory>
    ensures { IfOk result (λ found. IsChangedText text.now (change_of change.now) found) }
{
    if text.len() != change.before as usize {
        return Ok(None);
    }
    match apply_splices(alloc, text, &change.splices) {
        Ok(bytes) => Ok(Some(bytes)),
        Err(SpliceFault::NoMemory) => Err(NoMemory),
        Err(SpliceFault::Stale) => Ok(None),
        Err(SpliceFault::TooLarge) => Ok(None),
        Err(SpliceFault::Disorder) => unreachable!(),
    }
}

// The bytes of a file after the first of these changes, where that is of its path, or as they are;
// and which changes are left behind it. None where the change cannot be made.
fn next_bytes<'a>(
    alloc: Global,
    path: &str,
    text: &[u8],
    left: &'a [Change],
) -> Result<Option<(Vec<u8>, &'a [Change])>, NoMemory>
    // It says the same of a file of either language.
    ensures { (p : Profile) → IfOk result (λ found. MatchOption found
        ((g : FileOf) (rest : List ChangeOf)
        → IsNext (record { path = path.now; bytes = text.now; profile = p })
        (map change_of left.now) g rest → ⊥)
        (λ next. IsNext (record { path = path.now; bytes = text.now; profile = p })
        (map change_of left.now) (record { path = path.now; bytes = next.0.items; profile = p })
        (map change_of next.1.now))) }
{
    let Some((change, rest)) = left.split_first() else {
        return Ok(Some((Vec::from_slice(alloc, text)?, left)));
    };
    if change.path.as_str() != path {
        return Ok(Some((Vec::from_slice(alloc, text)?, left)));
    }
    match changed_text(alloc, text, change)? {
        Some(bytes) => Ok(Some((bytes, rest))),
        None => Ok(None),
    }
}

/// The paths and bytes of the files with changes, both in the order of their paths. None where a
/// change is of a file that is not there or not as before it, or leaves a file that is too long.
pub fn put_all(
    alloc: Global,
    files: &Files,
    changes: &[Change],
) -> Result<Option<Vec<(String, Vec<u8>)>>, NoMemory>
    // All of them are of one language.
    ensures { (p : Profile) → AreInLanguage p files.now → IfOk result (λ found. MatchOption found
        ((after : List FileOf) → ArePut files.now (map change_of changes.now) after → ⊥)
        (λ list. ArePut files.now (map change_of changes.now) (files_of_as p list.items))) }
{
    let mut list = Vec::new(alloc);
    let mut left = changes;
    for place in 0..files.len() as u32 {
        let path = files.path(place);
        let text = files.source(place).as_bytes();
        let Some((bytes, rest)) = next_bytes(alloc, path, text, left)? else {
            return Ok(None);
        };
        list.push((path.to_string(alloc)?, bytes))?;
        left = rest;
    }
    if left.is_empty() {
        Ok(Some(list))
    } else {
        Ok(None)
    }
}

/// Files by their places, and another text for each.
#[derive(Drop)]
pub struct ChangedTexts {
    pub places: Vec<u32>,
    pub texts: Vec<Vec<u8>>,
}

// The place of the file of a change, and its text with it. None where the file is not there, or is
// not as before the change, or would be too long.
fn changed_file(
    alloc: Global,
    files: &Files,
    change: &Change,
) -> Result<Option<(u32, Vec<u8>)>, NoMemory>
    requires { AreWorkspaceFiles files.now }
    ensures { IfOk result (λ found. MatchOption found
        (HasNoChangedFile files.now (change_of change.now))
        (λ x. IsChangedFile files.now (change_of change.now) x.0 x.1.items)) }
{
    let Some(place) = files.place_of_path(change.path.as_str()) else {
        return Ok(None);
    };
    match changed_text(alloc, files.source(place).as_bytes(), change)? {
        Some(text) => Ok(Some((place, text))),
        None => Ok(None),
    }
}

/// The places of the files that the changes are of, and their new texts, where all changes can be
/// made; none exactly where `put_all` puts none. It looks at no other file.
pub fn changed_texts(
    alloc: Global,
    files: &Files,
    changes: &[Change],
) -> Result<Option<ChangedTexts>, NoMemory>
    requires rising { AreRising (map change_of changes.now) }
    ensures { IfOk result (λ found. MatchOption found
        ((after : List FileOf) → ArePut files.now (map change_of changes.now) after → ⊥)
        (λ changed. AreChangedTexts files.now (map change_of changes.now)
        changed.places.items (map (λ t. t.items) changed.texts.items))) }
{
    // Their paths are apart, and in order.
    files.len();
    let mut places = Vec::new(alloc);
    let mut texts = Vec::new(alloc);
    for change in changes {
        let Some((place, text)) = changed_file(alloc, files, change)? else {
            return Ok(None);
        };
        places.push(place)?;
        texts.push(text)?;
    }
    Ok(Some(ChangedTexts { places, texts }))
}
