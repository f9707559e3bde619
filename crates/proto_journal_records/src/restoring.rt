//! What the files of an open entry were before it.

ghost use Rattle.std.specs.Prelude.{◌≡◌, ℕ, ◌-◌, ◌^◌, ◌<◌, List, IfErr, IfOk, OnOk, map, option_map};
ghost use Rattle.std.specs.List.{Contains, list_any};
ghost use Rattle.std.specs.Str.{bytes_eq};
ghost use Rattle.std.specs.String.{string_bytes};
ghost use Rattle.proto_files.specs.GivenFiles.{file_of, files_of};
ghost use Rattle.proto_edit_entries.specs.Entries.{ChangeOf, IsChange, change_of, turned_round};
ghost use Rattle.proto_edit_entries.specs.Putting.{IsChangedText};
ghost use Rattle.proto_journal_records.specs.Known.{CountsJournal, Over};
ghost use Rattle.proto_journal_records.specs.Restoring.{AddsOldFiles, AreOldFiles, IsAskedFor, IsNeither, IsOldFile, IsOldText, IsStaleOnly};
ghost use Rattle.proto_journal_records.specs.Torn.{IsEitherWay};

use crate::fault::JournalFault;
use indexmap::IndexSet;
use proto_base::NoMemory;
use proto_edit_entries::{Change, Entry, Refusal, all_turned_round, changed_text};
use proto_store::{Store, StoreFault};
use std::alloc::Global;

// The text before a change, where this one is as after it;
// none where it is as before it. The other change leads back.
fn old_text(
    alloc: Global,
    change: &Change,
    back: &Change,
    text: &[u8],
) -> Result<Option<Vec<u8>>, JournalFault>
    requires change { IsChange (change_of change.now) }
    requires back { change_of back.now ≡ turned_round (change_of change.now) }
    ensures ok { IfOk result (IsOldText (change_of change.now) text.now) }
    ensures err { IfErr result (IsNeither (change_of change.now) text.now) }
{
    if changed_text(alloc, text, change)?.is_some() {
        return Ok(None);
    }
    match changed_text(alloc, text, back)? {
        Some(old) => Ok(Some(old)),
        None => Err(JournalFault::Refused(Refusal::Stale)),
    }
}

// The paths, to be asked for.
fn asked_for<'a>(alloc: Global, paths: &'a [String]) -> Result<IndexSet<&'a str>, NoMemory>
    ensures { IfOk result (λ known. (path : List ℕ)
        → list_any (bytes_eq path) (map (λ k. k.now) known.keys)
        ≡ list_any (bytes_eq path) (map string_bytes paths.entry.now)) }
{
    let mut known = IndexSet::new(alloc);
    for path in paths {
        known.insert(path.as_str())?;
    }
    Ok(known)
}

// What is put in place of a file, if anything; the known paths are those of the store.
fn old_file<S: Store>(
    alloc: Global,
    store: &mut S,
    known: &IndexSet<&str>,
    change: &Change,
    back: &Change,
) -> Result<Option<(String, Vec<u8>)>, JournalFault>
    requires room { S.failure_count store.old < 2 ^ 64 - 1 }
    requires known { Over (S.holds store.old)
        (λ held. IsAskedFor (map (λ k. k.now) known.now.keys) held.files) }
    requires change { IsChange (change_of change.now) }
    requires back { change_of back.now ≡ turned_round (change_of change.now) }
    ensures ok { IfOk result (λ found. Over (S.holds store.old)
        (λ held. IsOldFile (change_of change.now) held.files (option_map file_of found))) }
    ensures err { IfErr result (IsStaleOnly (Over (S.holds store.old)
        (λ held. IsEitherWay held.files (change_of change.now) → ⊥))) }
    ensures same { S.holds store.new ≡ S.holds store.old }
    ensures count { CountsJournal (S.failure_count store.old) (S.failure_count store.new) result }
{
    let path = change.path.as_str();
    if !known.contains(path) {
        return Err(JournalFault::Refused(Refusal::Stale));
    }
    let text = match store.read(path) {
        Ok(text) => text,
        Err(StoreFault::Failed) => return Err(JournalFault::Store),
    };
    match old_text(alloc, change, back, text.as_slice())? {
        Some(old) => Ok(Some((path.to_string(alloc)?, old))),
        None => Ok(None),
    }
}

// Adds what is put in place of each file of an entry; the known paths are those of the store. The
// list is the caller's, so no exit drops a file.
fn add_each<S: Store>(
    alloc: Global,
    store: &mut S,
    known: &IndexSet<&str>,
    entry: &Entry,
    files: &mut Vec<(String, Vec<u8>)>,
) -> Result<(), JournalFault>
    requires room { S.failure_count store.old < 2 ^ 64 - 1 }
    requires known { Over (S.holds store.old)
        (λ held. IsAskedFor (map (λ k. k.now) known.now.keys) held.files) }
    ensures ok { OnOk result (AddsOldFiles entry.now (S.holds store.old)
        (files_of files.old.items) (files_of files.new.items)) }
    ensures err { IfErr result (IsStaleOnly (Over (S.holds store.old) (λ held.
        (c : ChangeOf) × Contains entry.now c × (IsEitherWay held.files c → ⊥)))) }
    ensures same { S.holds store.new ≡ S.holds store.old }
    ensures count { CountsJournal (S.failure_count store.old) (S.failure_count store.new) result }
{
    let changes = entry.changes();
    let back = all_turned_round(alloc, changes)?;
    for place in 0..changes.len() {
        if let Some(file) = old_file(alloc, store, known, &changes[place], &back[place])? {
            files.push(file)?;
        }
    }
    Ok(())
}

// Adds what is put in place of the files of an entry.
fn add_old_files<S: Store>(
    alloc: Global,
    store: &mut S,
    entry: &Entry,
    files: &mut Vec<(String, Vec<u8>)>,
) -> Result<(), JournalFault>
    requires { S.failure_count store.old < 2 ^ 64 - 1 }
    ensures ok { OnOk result (AddsOldFiles entry.now (S.holds store.old)
        (files_of files.old.items) (files_of files.new.items)) }
    ensures err { IfErr result (IsStaleOnly (Over (S.holds store.old) (λ held.
        (c : ChangeOf) × Contains entry.now c × (IsEitherWay held.files c → ⊥)))) }
    ensures same { S.holds store.new ≡ S.holds store.old }
    ensures count { CountsJournal (S.failure_count store.old) (S.failure_count store.new) result }
{
    let paths = match store.list() {
        Ok(paths) => paths,
        Err(StoreFault::Failed) => return Err(JournalFault::Store),
    };
    let known = asked_for(alloc, paths.as_slice())?;
    add_each(alloc, store, &known, entry, files)
}

// What is put in place of the files of an entry.
pub(crate) fn old_files<S: Store>(
    alloc: Global,
    store: &mut S,
    entry: &Entry,
) -> Result<Vec<(String, Vec<u8>)>, JournalFault>
    requires { S.failure_count store.old < 2 ^ 64 - 1 }
    ensures ok { IfOk result (λ files. Over (S.holds store.old)
        (λ held. AreOldFiles entry.now held.files (files_of files.items))) }
    ensures err { IfErr result (IsStaleOnly (Over (S.holds store.old) (λ held.
        (c : ChangeOf) × Contains entry.now c × (IsEitherWay held.files c → ⊥)))) }
    ensures same { S.holds store.new ≡ S.holds store.old }
    ensures count { CountsJournal (S.failure_count store.old) (S.failure_count store.new) result }
{
    let mut files = Vec::new(alloc);
    add_old_files(alloc, store, entry, &mut files)?;
    Ok(files)
}
