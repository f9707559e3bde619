//! Putting files and journal in place of those of a store.

ghost use Rattle.std.specs.Prelude.{◌≡◌, ◌⊎◌, ◌-◌, ◌^◌, ◌<◌, IfErr, IfOk, OnErr, OnOk, map, option_map};
ghost use Rattle.std.specs.String.{string_bytes};
ghost use Rattle.proto_files.specs.GivenFiles.{files_of};
ghost use Rattle.proto_journal_records.specs.Known.{CountsJournal, IsStoreOrMemory};
ghost use Rattle.proto_journal_records.specs.Restoring.{AreListedInStore, ArePartlyIn, with_files};
ghost use Rattle.proto_store.specs.Stores.{Counts, with_journal};

use crate::fault::JournalFault;
use proto_base::NoMemory;
use proto_store::{Store, StoreFault};
use std::alloc::Global;

// The paths of files.
fn paths_in<'a>(alloc: Global, files: &'a [(String, Vec<u8>)]) -> Result<Vec<&'a str>, NoMemory>
    ensures { IfOk result (λ paths. map (λ p. p.now) paths.items
        ≡ map (λ f. string_bytes f.0) files.entry.now) }
{
    let mut paths = Vec::with_capacity(alloc, files.len())?;
    for file in files {
        paths.push(file.0.as_str())?;
    }
    Ok(paths)
}

// Asks the store before the first write whether the files may be put in their places.
pub(crate) fn ask_store<S: Store>(
    alloc: Global,
    store: &mut S,
    files: &[(String, Vec<u8>)],
) -> Result<(), JournalFault>
    requires { S.failure_count store.old < 2 ^ 64 - 1 }
    ensures fault { IfErr result IsStoreOrMemory }
    ensures same { S.holds store.new ≡ S.holds store.old }
    ensures count { CountsJournal (S.failure_count store.old) (S.failure_count store.new) result }
{
    let paths = paths_in(alloc, files)?;
    match store.may_replace(paths.as_slice()) {
        Ok(()) => Ok(()),
        Err(StoreFault::Failed) => Err(JournalFault::Store),
    }
}

// Puts the files in their places, one after the other.
fn put_files<S: Store>(store: &mut S, files: &[(String, Vec<u8>)]) -> Result<(), StoreFault>
    requires room { S.failure_count store.old < 2 ^ 64 - 1 }
    requires listed { AreListedInStore (S.holds store.old) (files_of files.now) }
    ensures ok { OnOk result (S.holds store.new
        ≡ option_map (with_files (files_of files.now)) (S.holds store.old)) }
    ensures err { OnErr result
        (ArePartlyIn (files_of files.now) (S.holds store.old) (S.holds store.new)) }
    ensures count { Counts (S.failure_count store.old) (S.failure_count store.new) result }
{
    for file in files {
        store.replace(file.0.as_str(), file.1.as_slice())?;
    }
    Ok(())
}

// Puts the files in their places, and then the journal.
// Where a call of the store fails, it goes no further.
pub(crate) fn put_back<S: Store>(
    store: &mut S,
    files: &[(String, Vec<u8>)],
    journal: &[u8],
) -> Result<(), StoreFault>
    requires room { S.failure_count store.old < 2 ^ 64 - 1 }
    requires listed { AreListedInStore (S.holds store.old) (files_of files.now) }
    ensures ok { OnOk result (S.holds store.new
        ≡ option_map (with_journal journal.now)
        (option_map (with_files (files_of files.now)) (S.holds store.old))) }
    ensures err { OnErr result
        (ArePartlyIn (files_of files.now) (S.holds store.old) (S.holds store.new)
        ⊎ (S.holds store.new ≡ option_map (with_journal journal.now)
        (option_map (with_files (files_of files.now)) (S.holds store.old)))) }
    ensures count { Counts (S.failure_count store.old) (S.failure_count store.new) result }
{
    put_files(store, files)?;
    store.replace_journal(journal)
}
