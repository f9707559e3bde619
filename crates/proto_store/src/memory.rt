//! Files in memory.

ghost use Rattle.std.specs.Prelude.{◌≡◌, ◌⊎◌, ◌-◌, ◌^◌, ◌<◌, ◌+◌, IfOk, IfSome, IsErr, OnOk, OnErr, None, Some, map};
ghost use Rattle.std.specs.String.{string_bytes};
ghost use Rattle.std.specs.List.Sorted.{IsPermutation};
ghost use Rattle.proto_base.specs.GivenFiles.{files_of, files_of_as, paths_of};
ghost use Rattle.proto_base.specs.declared.profile.Profile.{Profile};
ghost use Rattle.proto_base.specs.declared.profile.Profile.TheVariants.{AsWritten, Core};
ghost use Rattle.proto_store.specs.Memory.{IsDue, IsTurn, KeepsLatest, Replaces, after_call, files_in, one_call_later};
ghost use Rattle.proto_store.specs.Stores.{AreInPathOrder, AreOf, Counts, HoldsBytes, HoldsJournal, IsListed, ListsPaths, bytes_at, with_bytes, with_file, with_journal};

use crate::store::{Store, StoreFault};
use proto_base::{NoMemory, Profile};
use std::alloc::Global;
use std::collections::BTreeMap;
use std::marker::Model;

/// A store whose files and journal are in memory. It fails
/// where memory runs out, and at the call that it is told to.
#[derive(Drop)]
pub struct MemoryStore {
    alloc: Global,
    profile: Profile,
    files: BTreeMap<String, Vec<u8>>,
    journal: Vec<u8>,
    failures: u64,
    planned: Option<PlannedFailure>,
}

/// The failure that is to come.
#[derive(Clone, Copy)]
struct PlannedFailure {
    // How many calls there are up to the one that fails, with that one.
    calls: u64,
    // Whether that call, if it is a replace, leaves the new bytes.
    lands: bool,
}

// What a call does.
#[derive(Clone, Copy)]
enum Turn {
    Works,
    Fails,
    Lands,
}

impl Model for MemoryStore {
    ghost use Rattle.proto_store.specs.Memory.{MemoryOf, files_in};

    ghost Value = { MemoryOf };

    ghost view = { λ s. record {
      held = record { files = files_in s.profile s.files; journal = s.journal.items };
      profile = s.profile;
      failures = s.failures;
      planned = s.planned;
    } };
}

impl MemoryStore {
    /// A store of these files of the core language, the later of two
    /// with one path, and this journal. No call of it is to fail yet.
    pub fn new(
        alloc: Global,
        files: Vec<(String, Vec<u8>)>,
        journal: Vec<u8>,
    ) -> Result<MemoryStore, NoMemory>
        ensures files { IfOk result (λ s. KeepsLatest
            (⟦<MemoryStore as Store>⟧.holds s) (files_of files.items)) }
        ensures journal { IfOk result (λ s. HoldsJournal
            (⟦<MemoryStore as Store>⟧.holds s) journal.items) }
        ensures failures { IfOk result (λ s. ⟦<MemoryStore as Store>⟧.failure_count s ≡ 0) }
        ensures planned { IfOk result (λ s. s.planned ≡ None) }
        ensures language { IfOk result (λ s. (s.profile ≡ Core)
            × AreOf Core (⟦<MemoryStore as Store>⟧.holds s)) }
    {
        MemoryStore::of_language(alloc, Profile::Core, files, journal)
    }

    /// A store of these files of the language as written, the later of two
    /// with one path, and this journal. No call of it is to fail yet.
    pub fn as_written(
        alloc: Global,
        files: Vec<(String, Vec<u8>)>,
        journal: Vec<u8>,
    ) -> Result<MemoryStore, NoMemory>
        ensures files { IfOk result (λ s. KeepsLatest
            (⟦<MemoryStore as Store>⟧.holds s) (files_of_as AsWritten files.items)) }
        ensures journal { IfOk result (λ s. HoldsJournal
            (⟦<MemoryStore as Store>⟧.holds s) journal.items) }
        ensures failures { IfOk result (λ s. ⟦<MemoryStore as Store>⟧.failure_count s ≡ 0) }
        ensures planned { IfOk result (λ s. s.planned ≡ None) }
        ensures language { IfOk result (λ s. (s.profile ≡ AsWritten)
            × AreOf AsWritten (⟦<MemoryStore as Store>⟧.holds s)) }
    {
        MemoryStore::of_language(alloc, Profile::AsWritten, files, journal)
    }

    // A store of these files of a language.
    fn of_language(
        alloc: Global,
        profile: Profile,
        files: Vec<(String, Vec<u8>)>,
        journal: Vec<u8>,
    ) -> Result<MemoryStore, NoMemory>
        ensures files { IfOk result (λ s. KeepsLatest
            (⟦<MemoryStore as Store>⟧.holds s) (files_of_as profile files.items)) }
        ensures journal { IfOk result (λ s. HoldsJournal
            (⟦<MemoryStore as Store>⟧.holds s) journal.items) }
        ensures failures { IfOk result (λ s. ⟦<MemoryStore as Store>⟧.failure_count s ≡ 0) }
        ensures planned { IfOk result (λ s. s.planned ≡ None) }
        ensures language { IfOk result (λ s. (s.profile ≡ profile)
            × AreOf profile (⟦<MemoryStore as Store>⟧.holds s)) }
    {
        let mut by_path = BTreeMap::new(alloc);
        for (path, bytes) in files {
            let _ = by_path.insert(path, bytes)?;
        }
        Ok(MemoryStore {
            alloc,
            profile,
            files: by_path,
            journal,
            failures: 0,
            planned: None,
        })
    }

    /// Lets the call with this number from now on, counted from 1,
    /// fail. If that call is a replace, it leaves the new bytes where
    /// it `lands` and memory is there for them, and else the old ones.
    pub fn fail_at(&mut self, call: u64, lands: bool)
        requires { 0 < call }
        ensures { self.new
            ≡ record self.old { planned = Some (record { calls = call; lands = lands }) } }
    {
        self.planned = Some(PlannedFailure { calls: call, lands });
    }

    // Counts a call, and tells what it is to do.
    fn begin_call(&mut self) -> Turn
        ensures state { self.new ≡ record self.old { planned = one_call_later self.old.planned } }
        ensures turn { IsTurn self.old.planned result }
    {
        let Some(failure) = self.planned else {
            return Turn::Works;
        };
        if failure.calls > 1 {
            let calls = failure.calls - 1;
            self.planned = Some(PlannedFailure { calls, ..failure });
            return Turn::Works;
        }
        self.planned = None;
        if failure.lands {
            Turn::Lands
        } else {
            Turn::Fails
        }
    }

    // Counts a failure.
    fn fault(&mut self) -> StoreFault
        requires { self.old.failures < 2 ^ 64 - 1 }
        ensures { self.new ≡ record self.old { failures = self.old.failures + 1 } }
    {
        self.failures += 1;
        StoreFault::Failed
    }

    fn paths(&self) -> Result<Vec<String>, NoMemory>
        ensures { IfOk result (λ paths. ListsPaths
            (Some self.now.held) (map string_bytes paths.items)) }
    {
        paths_in(self.alloc, &self.files)
    }

    // A copy of the bytes at a path, where memory is left.
    fn bytes(&self, path: &str) -> Option<Vec<u8>>
        ensures { IfSome result (λ bytes. bytes_at path.now self.now.held.files
            ≡ Some bytes.items) }
    {
        let bytes = self.files.get(path)?;
        match bytes.clone() {
            Ok(copy) => Some(copy),
            Err(_) => None,
        }
    }

    fn put_file(&mut self, path: &str, bytes: Vec<u8>)
        ensures { self.new
            ≡ record self.old { held = with_file path.now bytes.items self.old.held } }
    {
        put_bytes(&mut self.files, path, bytes);
    }

    fn put_journal(&mut self, bytes: Vec<u8>)
        ensures { self.new ≡ record self.old { held = with_journal bytes.items self.old.held } }
    {
        self.journal = bytes;
    }
}

fn paths_in(alloc: Global, files: &BTreeMap<String, Vec<u8>>) -> Result<Vec<String>, NoMemory>
    ensures { IfOk result (λ paths. (p : Profile) → AreInPathOrder (files_in p files.now)
        × IsPermutation (map string_bytes paths.items) (paths_of (files_in p files.now))) }
{
    let mut paths = Vec::with_capacity(alloc, files.len())?;
    for path in files.keys() {
        paths.push(path.clone()?)?;
    }
    Ok(paths)
}

// The file at the path gets the bytes.
fn put_bytes(files: &mut BTreeMap<String, Vec<u8>>, path: &str, bytes: Vec<u8>)
    ensures { (p : Profile) → files_in p files.new
        ≡ with_bytes path.now bytes.items (files_in p files.old) }
{
    if let Some(held) = files.get_mut(path) {
        *held = bytes;
    }
}

impl Store for MemoryStore {
    ghost holds = { λ s. Some s.held };

    ghost failure_count = { λ s. s.failures };

    /// The language that it was made for.
    fn profile(&self) -> Profile
        ensures profile { result ≡ self.now.profile }
        ensures files { AreOf result (Some self.now.held) }
    {
        self.profile
    }

    /// The paths of all files, in their order. The call that
    /// is to fail fails; any other only where memory runs out.
    fn list(&mut self) -> Result<Vec<String>, StoreFault>
        requires { self.old.failures < 2 ^ 64 - 1 }
        ensures paths { IfOk result (λ paths. ListsPaths
            (Some self.old.held) (map string_bytes paths.items)) }
        ensures same { self.new.held ≡ self.old.held }
        ensures count { Counts self.old.failures self.new.failures result }
        ensures state { self.new ≡ after_call self.old.held self.old result }
        ensures fails { IsDue self.old.planned → IsErr result }
    {
        match (self.begin_call(), self.paths()) {
            (Turn::Works, Ok(paths)) => Ok(paths),
            _ => Err(self.fault()),
        }
    }

    /// A copy of the bytes of the file at a path. The call that
    /// is to fail fails; any other only where memory runs out.
    fn read(&mut self, path: &str) -> Result<Vec<u8>, StoreFault>
        requires room { self.old.failures < 2 ^ 64 - 1 }
        requires listed { IsListed (Some self.old.held) path.now }
        ensures bytes { IfOk result (λ bytes. HoldsBytes
            (Some self.old.held) path.now bytes.items) }
        ensures same { self.new.held ≡ self.old.held }
        ensures count { Counts self.old.failures self.new.failures result }
        ensures state { self.new ≡ after_call self.old.held self.old result }
        ensures fails { IsDue self.old.planned → IsErr result }
    {
        match (self.begin_call(), self.bytes(path)) {
            (Turn::Works, Some(bytes)) => Ok(bytes),
            _ => Err(self.fault()),
        }
    }

    /// Puts a copy of the bytes in the place of those of the file at a path. The call that is to
    /// fail fails; any other only where memory runs out, and then nothing has changed.
    fn replace(&mut self, path: &str, bytes: &[u8]) -> Result<(), StoreFault>
        requires room { self.old.failures < 2 ^ 64 - 1 }
        requires listed { IsListed (Some self.old.held) path.now }
        ensures ok { OnOk result (self.new.held ≡ with_file path.now bytes.now self.old.held) }
        ensures err { OnErr result ((self.new.held ≡ self.old.held) ⊎
            (self.new.held ≡ with_file path.now bytes.now self.old.held)) }
        ensures count { Counts self.old.failures self.new.failures result }
        ensures state { Replaces
            (with_file path.now bytes.now self.old.held) self.old self.new result }
        ensures fails { IsDue self.old.planned → IsErr result }
    {
        match (self.begin_call(), bytes.to_vec(self.alloc)) {
            (Turn::Works, Ok(copy)) => {
                self.put_file(path, copy);
                Ok(())
            }
            (Turn::Lands, Ok(copy)) => {
                self.put_file(path, copy);
                Err(self.fault())
            }
            _ => Err(self.fault()),
        }
    }

    /// A copy of the bytes of the journal. The call that is
    /// to fail fails; any other only where memory runs out.
    fn read_journal(&mut self) -> Result<Vec<u8>, StoreFault>
        requires { self.old.failures < 2 ^ 64 - 1 }
        ensures bytes { IfOk result (λ bytes. HoldsJournal (Some self.old.held) bytes.items) }
        ensures same { self.new.held ≡ self.old.held }
        ensures count { Counts self.old.failures self.new.failures result }
        ensures state { self.new ≡ after_call self.old.held self.old result }
        ensures fails { IsDue self.old.planned → IsErr result }
    {
        match (self.begin_call(), self.journal.to_vec(self.alloc)) {
            (Turn::Works, Ok(copy)) => Ok(copy),
            _ => Err(self.fault()),
        }
    }

    /// Puts a copy of the bytes in the place of those of the journal. The call that is to fail
    /// fails; any other only where memory runs out, and then nothing has changed.
    fn replace_journal(&mut self, bytes: &[u8]) -> Result<(), StoreFault>
        requires { self.old.failures < 2 ^ 64 - 1 }
        ensures ok { OnOk result (self.new.held ≡ with_journal bytes.now self.old.held) }
        ensures err { OnErr result ((self.new.held ≡ self.old.held) ⊎
            (self.new.held ≡ with_journal bytes.now self.old.held)) }
        ensures count { Counts self.old.failures self.new.failures result }
        ensures state { Replaces (with_journal bytes.now self.old.held) self.old self.new result }
        ensures fails { IsDue self.old.planned → IsErr result }
    {
        match (self.begin_call(), bytes.to_vec(self.alloc)) {
            (Turn::Works, Ok(copy)) => {
                self.put_journal(copy);
                Ok(())
            }
            (Turn::Lands, Ok(copy)) => {
                self.put_journal(copy);
                Err(self.fault())
            }
            _ => Err(self.fault()),
        }
    }

    fn failures(&self) -> u64
        ensures { result ≡ self.now.failures }
    {
        self.failures
    }
}
