//! The workspace of the files that the client sees.

ghost use Rattle.std.specs.Prelude.{◌≡◌, ◌<◌, length, map, IfOk, IfSome, Some};
ghost use Rattle.std.specs.List.{All, AllPairs};
ghost use Rattle.proto_base.specs.GivenFiles.{files_of_as};
ghost use Rattle.proto_edit_entries.specs.Putting.{with_texts};
ghost use Rattle.proto_session_files.specs.Compiling.{IsBrought};

use crate::seeing::copy_files;
use proto_base::{NoMemory, Profile, SchemaFault};
use proto_edit::{Files, Workspace};
use std::alloc::Global;
use std::marker::Model;
use std::mem;

// Other texts for files at these places.
#[derive(Drop)]
struct OtherTexts {
    places: Vec<u32>,
    texts: Vec<Vec<u8>>,
}

// The texts in which files of a language differ from those of a workspace; none where their paths or
// their language do.
fn other_texts(
    alloc: Global,
    files: &Files,
    seen: &[(String, Vec<u8>)],
    profile: Profile,
) -> Result<Option<OtherTexts>, NoMemory>
    ensures places { IfOk result (λ found. IfSome found (λ o.
        All (λ place. place < length files.now) o.places.items)) }
    ensures rising { IfOk result (λ found. IfSome found (λ o.
        AllPairs (λ a b. a < b) o.places.items)) }
    ensures paired { IfOk result (λ found. IfSome found (λ o.
        length o.texts.items ≡ length o.places.items)) }
    ensures whole { IfOk result (λ found. IfSome found (λ o.
        with_texts files.now o.places.items (map (λ t. t.items) o.texts.items)
        ≡ files_of_as profile seen.now)) }
{
    if files.len() != seen.len() {
        return Ok(None);
    }
    let mut places = Vec::new(alloc);
    let mut texts = Vec::new(alloc);
    for place in 0..files.len() as u32 {
        let file = &seen[place as usize];
        if files.path(place) != file.0.as_str() || files.profile(place) != profile {
            return Ok(None);
        }
        if files.source(place).as_bytes() != file.1.as_slice() {
            texts.push(Vec::from_slice(alloc, file.1.as_slice())?)?;
            places.push(place)?;
        }
    }
    Ok(Some(OtherTexts { places, texts }))
}

// Lets a workspace go, if there is one.
fn release(old: Option<Workspace>) {
    if let Some(workspace) = old {
        workspace.release();
    }
}

// Opens the files, which are of a language, and keeps the workspace where they compile.
fn opened(
    alloc: Global,
    good: &mut Option<Workspace>,
    seen: &[(String, Vec<u8>)],
    profile: Profile,
) -> Result<bool, NoMemory>
    ensures { IfOk result (IsBrought (files_of_as profile seen.now) good.new) }
{
    let copies = copy_files(alloc, seen)?;
    match Workspace::open_as(alloc, copies, profile) {
        Ok(workspace) => {
            release(mem::replace(good, Some(workspace)));
            Ok(true)
        }
        Err(SchemaFault::NoMemory) => Err(NoMemory),
        Err(SchemaFault::Schema(_)) => Ok(false),
    }
}

// Gives a workspace other texts, where it compiles then.
fn replaced(alloc: Global, workspace: &mut Workspace, others: OtherTexts) -> Result<bool, NoMemory>
    requires places { All (λ place. place < length workspace.old) others.places.items }
    requires rising { AllPairs (λ a b. a < b) others.places.items }
    requires paired { length others.texts.items ≡ length others.places.items }
    ensures { IfOk result (IsBrought
        (with_texts workspace.old others.places.items (map (λ t. t.items) others.texts.items))
        (Some workspace.new)) }
{
    let OtherTexts { places, texts } = others;
    match workspace.replace(alloc, places.as_slice(), texts) {
        Ok(()) => {
            // Its files are in the order of their paths.
            workspace.files().len();
            Ok(true)
        }
        Err(SchemaFault::NoMemory) => Err(NoMemory),
        Err(SchemaFault::Schema(_)) => Ok(false),
    }
}

/// Whether the files, which are of a language, compile; `good` is their workspace then. Files that
/// have the paths of the workspace before, and its language, are read again only where they differ
/// from it. Fails only when out of memory.
pub fn bring(
    alloc: Global,
    good: &mut Option<Workspace>,
    seen: &[(String, Vec<u8>)],
    profile: Profile,
) -> Result<bool, NoMemory>
    ensures { IfOk result (IsBrought (files_of_as profile seen.now) good.new) }
{
    if let Some(workspace) = good.as_mut() {
        if let Some(others) = other_texts(alloc, workspace.files(), seen, profile)? {
            return replaced(alloc, workspace, others);
        }
    }
    opened(alloc, good, seen, profile)
}

/// The last workspace that compiled. It is there for speed: no clause tells it.
#[derive(Drop)]
pub struct Good {
    pub workspace: Option<Workspace>,
}

impl Model for Good {
    ghost Value = { Unit {0} };

    ghost view = { λ _. tt };
}

impl Good {
    /// None yet.
    pub fn new() -> Good {
        Good { workspace: None }
    }

    /// Frees it.
    pub fn release(self) {
        if let Some(workspace) = self.workspace {
            workspace.release();
        }
    }
}
