//! The files that are not as they were.

ghost use Rattle.std.specs.Prelude.{◌≡◌, ◌⊎◌, ◌<◌, ◌++◌, [], ◌∷◌, true, IfOk, IfSome, OnOk, length};
ghost use Rattle.proto_base.specs.GivenFiles.{file_of, file_of_as, files_of, files_of_as};
ghost use Rattle.proto_files.specs.GivenFiles.{file_at};
ghost use Rattle.proto_session_files.specs.Changed.{AreChanged};

use proto_base::{NoMemory, Profile};
use proto_edit::Files;
use std::alloc::Global;

// Whether a file has the path and the language of the one at a place.
fn is_at(clean: &Files, place: u32, file: &(String, Vec<u8>), profile: Profile) -> bool
    requires { place < length clean.now }
    ensures path { result ≡ true → (file_of_as profile file.now).path
        ≡ (file_at clean.now place).path }
    ensures profile { result ≡ true → (file_of_as profile file.now).profile
        ≡ (file_at clean.now place).profile }
{
    clean.path(place) == file.0.as_str() && clean.profile(place) == profile
}

// Adds a file, where its text is another than before.
fn add_changed(
    alloc: Global,
    changed: &mut Vec<(String, Vec<u8>)>,
    old: &[u8],
    file: &(String, Vec<u8>),
) -> Result<(), NoMemory>
    ensures { OnOk result (((changed.new.items ≡ changed.old.items)
        × ((file_of file.now).bytes ≡ old.now))
        ⊎ (files_of changed.new.items ≡ files_of changed.old.items ++ file_of file.now ∷ [])) }
{
    let bytes = file.1.as_slice();
    if old == bytes {
        return Ok(());
    }
    let path = String::from_str(alloc, file.0.as_str())?;
    changed.push((path, Vec::from_slice(alloc, bytes)?))?;
    Ok(())
}

/// The files of a language that are not as they were; none where they have other paths than before
/// or were of another language. Fails only when out of memory.
pub(crate) fn changed_files(
    alloc: Global,
    clean: &Files,
    files: &[(String, Vec<u8>)],
    profile: Profile,
) -> Result<Option<Vec<(String, Vec<u8>)>>, NoMemory>
    ensures { IfOk result (λ found. IfSome found (λ changed. AreChanged clean.now
        (files_of_as profile files.now) (files_of_as profile changed.items))) }
{
    if clean.len() != files.len() {
        return Ok(None);
    }
    let mut changed = Vec::new(alloc);
    for place in 0..clean.len() as u32 {
        let file = &files[place as usize];
        if !is_at(clean, place, file, profile) {
            return Ok(None);
        }
        let old = clean.source(place).as_bytes();
        add_changed(alloc, &mut changed, old, file)?;
    }
    Ok(Some(changed))
}
