//! Where schema files are kept, with the journal of their edits.

ghost use Rattle.std.specs.Prelude.{◌≡◌, ◌⊎◌, ℕ, ◌-◌, ◌^◌, ◌<◌, IfOk, OnOk, OnErr, codes, map, option_map};
ghost use Rattle.std.specs.declared.option.Option.{Option};
ghost use Rattle.std.specs.String.{string_bytes};
ghost use Rattle.proto_store.specs.Stores.{AreOf, Counts, Held, HoldsBytes, HoldsJournal, IsListed, ListsPaths, with_file, with_journal};

use proto_base::Profile;
use thiserror::Error;

/// Why a call of a store has no answer.
#[derive(Clone, Copy, Debug, PartialEq, Eq, Error)]
pub enum StoreFault {
    #[error("the store failed")]
    Failed,
}

impl StoreFault {
    /// 0, since it is no fault of a schema.
    pub fn number(self) -> u32
        ensures { result ≡ 0 }
    {
        0
    }

    /// The name of the fault.
    pub fn name(self) -> &'static str
        ensures { result.now ≡ codes "Failed" }
    {
        match self {
            StoreFault::Failed => "Failed",
        }
    }
}

/// A place that keeps files by their paths, and a journal. A call that fails is counted. It leaves
/// all as it was, but that a replace which fails may leave the new bytes.
pub trait Store {
    /// What it holds, where that is known.
    ghost holds: { Self → Option Held };

    /// How many calls have failed.
    ghost failure_count: { Self → ℕ };

    /// The language that all its files are of.
    fn profile(&self) -> Profile
        ensures files { AreOf result (holds self.now) };

    /// The paths of all files, each once, in any order.
    fn list(&mut self) -> Result<Vec<String>, StoreFault>
        requires { failure_count self.old < 2 ^ 64 - 1 }
        ensures paths { IfOk result (λ paths. ListsPaths
            (holds self.old) (map string_bytes paths.items)) }
        ensures same { holds self.new ≡ holds self.old }
        ensures count { Counts (failure_count self.old) (failure_count self.new) result };

    /// The bytes of the file at a path that `list` answers.
    fn read(&mut self, path: &str) -> Result<Vec<u8>, StoreFault>
        requires room { failure_count self.old < 2 ^ 64 - 1 }
        requires listed { IsListed (holds self.old) path.now }
        ensures bytes { IfOk result (λ bytes. HoldsBytes (holds self.old) path.now bytes.items) }
        ensures same { holds self.new ≡ holds self.old }
        ensures count { Counts (failure_count self.old) (failure_count self.new) result };

    /// Puts the bytes in the place of those of the file at a path that `list` answers. Other files
    /// and the journal stay. Where it fails, the file has its old bytes or the new ones.
    fn replace(&mut self, path: &str, bytes: &[u8]) -> Result<(), StoreFault>
        requires room { failure_count self.old < 2 ^ 64 - 1 }
        requires listed { IsListed (holds self.old) path.now }
        ensures ok { OnOk result (holds self.new
            ≡ option_map (with_file path.now bytes.now) (holds self.old)) }
        ensures err { OnErr result ((holds self.new ≡ holds self.old)
            ⊎ (holds self.new ≡ option_map (with_file path.now bytes.now) (holds self.old))) }
        ensures count { Counts (failure_count self.old) (failure_count self.new) result };

    /// Whether the files at these paths and the journal may be replaced, as far as that is seen
    /// without a write; all stays as it is. `Ok` promises nothing of a later replace. A store that
    /// does not look keeps this one, which always answers `Ok`.
    fn may_replace(&mut self, _paths: &[&str]) -> Result<(), StoreFault>
        requires { failure_count self.old < 2 ^ 64 - 1 }
        ensures same { holds self.new ≡ holds self.old }
        ensures count { Counts (failure_count self.old) (failure_count self.new) result }
    {
        Ok(())
    }

    /// The bytes of the journal. One that is not there is empty.
    fn read_journal(&mut self) -> Result<Vec<u8>, StoreFault>
        requires { failure_count self.old < 2 ^ 64 - 1 }
        ensures bytes { IfOk result (λ bytes. HoldsJournal (holds self.old) bytes.items) }
        ensures same { holds self.new ≡ holds self.old }
        ensures count { Counts (failure_count self.old) (failure_count self.new) result };

    /// Puts the bytes in the place of those of the journal. The files stay. Where it fails, the
    /// journal has its old bytes or the new ones.
    fn replace_journal(&mut self, bytes: &[u8]) -> Result<(), StoreFault>
        requires { failure_count self.old < 2 ^ 64 - 1 }
        ensures ok { OnOk result (holds self.new
            ≡ option_map (with_journal bytes.now) (holds self.old)) }
        ensures err { OnErr result ((holds self.new ≡ holds self.old)
            ⊎ (holds self.new ≡ option_map (with_journal bytes.now) (holds self.old))) }
        ensures count { Counts (failure_count self.old) (failure_count self.new) result };

    /// How many calls have failed.
    fn failures(&self) -> u64
        ensures { result ≡ failure_count self.now };
}
