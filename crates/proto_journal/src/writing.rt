//! The one way in which files and journal are written.

ghost use Rattle.std.specs.Prelude.{◌≡◌, ◌-◌, ◌^◌, ◌<◌, IfErr, IfOk, OnErr, OnOk, length, map, option_map};
ghost use Rattle.std.specs.String.{string_bytes};
ghost use Rattle.proto_edit_entries.specs.Entries.{change_of};
ghost use Rattle.proto_files.specs.GivenFiles.{file_at};
ghost use Rattle.proto_journal_records.specs.Known.{CountsJournal, IsStoreOrMemory};
ghost use Rattle.proto_store.specs.Stores.{Counts, HoldsFiles, IsListed, with_file};
ghost use Rattle.proto_journal.specs.Written.{AreBetween, DifferBy, IsHalfReplaced, IsFileReplaced, Passes, held, with_these_files};

use proto_base::NoMemory;
use proto_edit::Change;
use proto_files::Files;
use proto_journal_records::JournalFault;
use proto_store::{Store, StoreFault};
use std::alloc::Global;

/// The files before and after changes.
#[derive(Clone, Copy)]
pub(crate) struct ChangedFiles<'a> {
    pub(crate) before: &'a Files,
    pub(crate) after: &'a Files,
    pub(crate) changes: &'a [Change],
}

// The paths of changes.
fn paths_in<'a>(alloc: Global, changes: &'a [Change]) -> Result<Vec<&'a str>, NoMemory>
    ensures { IfOk result (λ paths. map (λ p. p.now) paths.items
        ≡ map (λ c. string_bytes c.path) changes.entry.now) }
{
    let mut paths = Vec::with_capacity(alloc, changes.len())?;
    for change in changes {
        paths.push(change.path.as_str())?;
    }
    Ok(paths)
}

// Asks the store before the first write whether the files of the changes may be replaced.
pub(crate) fn ask_store<S: Store>(
    alloc: Global,
    store: &mut S,
    changes: &[Change],
) -> Result<(), JournalFault>
    requires { S.failure_count store.old < 2 ^ 64 - 1 }
    ensures fault { IfErr result IsStoreOrMemory }
    ensures same { S.holds store.new ≡ S.holds store.old }
    ensures count { CountsJournal (S.failure_count store.old) (S.failure_count store.new) result }
{
    let paths = paths_in(alloc, changes)?;
    match store.may_replace(paths.as_slice()) {
        Ok(()) => Ok(()),
        Err(StoreFault::Failed) => Err(JournalFault::Store),
    }
}

// Replaces the file at a place.
fn put_file<S: Store>(store: &mut S, after: &Files, place: u32) -> Result<(), StoreFault>
    requires room { S.failure_count store.old < 2 ^ 64 - 1 }
    requires is { place < length after.now }
    requires listed { IsListed (S.holds store.old) (file_at after.now place).path }
    ensures ok { OnOk result (S.holds store.new ≡ option_map (with_file
        (file_at after.now place).path (file_at after.now place).bytes) (S.holds store.old)) }
    ensures err { OnErr result (IsHalfReplaced (file_at after.now place)
        (S.holds store.old) (S.holds store.new)) }
    ensures count { Counts (S.failure_count store.old) (S.failure_count store.new) result }
{
    store.replace(after.path(place), after.source(place).as_bytes())
}

// Replaces the file at a place, where the first of these changes is of its path; answers the
// changes that are left behind it.
fn replace_file<'a, S: Store>(
    store: &mut S,
    before: &Files,
    after: &Files,
    place: u32,
    left: &'a [Change],
) -> Result<&'a [Change], StoreFault>
    requires room { S.failure_count store.old < 2 ^ 64 - 1 }
    requires was { place < length before.now }
    requires is { place < length after.now }
    requires listed { IsListed (S.holds store.old) (file_at after.now place).path }
    ensures ok { IfOk result (λ rest. IsFileReplaced
        (file_at before.now place) (file_at after.now place)
        (map change_of left.now) (map change_of rest.now) (S.holds store.old) (S.holds store.new)) }
    ensures err { OnErr result (IsHalfReplaced (file_at after.now place)
        (S.holds store.old) (S.holds store.new)) }
    ensures count { Counts (S.failure_count store.old) (S.failure_count store.new) result }
{
    let Some((change, rest)) = left.split_first() else {
        return Ok(left);
    };
    if change.path.as_str() != before.path(place) {
        return Ok(left);
    }
    put_file(store, after, place)?;
    Ok(rest)
}

// Replaces each file of which there is a change, in the order of the paths. No bytes are compared:
// the changes say which files differ.
fn replace_files<S: Store>(store: &mut S, files: &ChangedFiles) -> Result<(), StoreFault>
    requires room { S.failure_count store.old < 2 ^ 64 - 1 }
    requires differ { DifferBy (map change_of files.now.changes.now)
        files.now.before.now files.now.after.now }
    requires files { HoldsFiles (S.holds store.old) files.now.before.now }
    ensures ok { OnOk result (S.holds store.new
        ≡ option_map (with_these_files files.now.after.now) (S.holds store.old)) }
    ensures err { OnErr result (AreBetween files.now.before.now files.now.after.now
        (S.holds store.old) (S.holds store.new)) }
    ensures count { Counts (S.failure_count store.old) (S.failure_count store.new) result }
{
    let ChangedFiles { before, after, .. } = *files;
    let mut left = files.changes;
    for place in 0..after.len() as u32 {
        left = replace_file(store, before, after, place, left)?;
    }
    Ok(())
}

// Replaces the journal by the first text, then each file of which there is a change, in the order
// of the paths, then the journal by the last text. Where a call of the store fails, it goes no
// further.
pub(crate) fn write_through<S: Store>(
    store: &mut S,
    first: &[u8],
    files: &ChangedFiles,
    last: &[u8],
) -> Result<(), StoreFault>
    requires room { S.failure_count store.old < 2 ^ 64 - 1 }
    requires differ { DifferBy (map change_of files.now.changes.now)
        files.now.before.now files.now.after.now }
    requires files { HoldsFiles (S.holds store.old) files.now.before.now }
    ensures ok { OnOk result (S.holds store.new
        ≡ option_map (λ h. held files.now.after.now last.now) (S.holds store.old)) }
    ensures err { OnErr result (Passes files.now.before.now files.now.after.now first.now last.now
        (S.holds store.old) (S.holds store.new)) }
    ensures count { Counts (S.failure_count store.old) (S.failure_count store.new) result }
{
    store.replace_journal(first)?;
    replace_files(store, files)?;
    store.replace_journal(last)
}
