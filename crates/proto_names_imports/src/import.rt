//! The imports of a workspace: the files that they name, or the first that is faulty.

ghost use Rattle.std.specs.Prelude.{◌≡◌, ◌⊎◌, ◌↔◌, ℕ, ◌<◌, ◌≤◌, ◌^◌, List, length, map, option_map, Some, IsTrue, IfOk, IfErr};
ghost use Rattle.std.specs.List.{All};
ghost use Rattle.proto_names_rules.specs.Faults.{Fault, ImportFault, FaultIsBefore, imports_of};
ghost use Rattle.proto_names_imports.specs.Importing.{TokensAreRising, all_asked, all_imports, fault_of, import_flaw_number, IsImportError};
ghost use Rattle.proto_names_imports.specs.ImportSteps.{IsFileIndex, IsFirst};

use crate::first_places::first_places;
use crate::import_cycles::first_on_cycle;
use crate::import_paths::{first_path_fault, resolved_imports};
use indexmap::IndexMap;
use proto_base::{NoMemory, OrNoMemory};
use std::alloc::Global;

/// An import as a file has it: the token of its path, its path, and whether it is public.
#[derive(Drop)]
pub struct WrittenImport {
    /// The token of its path, by its index among those of the file.
    pub token: u32,
    /// The value of that string.
    pub path: String,
    /// Whether it is a public import.
    pub is_public: bool,
}

/// An import of a file of the workspace, by its number, from 0.
#[derive(Clone, Copy)]
pub struct FileImport {
    /// The number of the file that it names.
    pub to: u32,
    /// Whether it is a public import.
    pub is_public: bool,
}

/// What is wrong with an import.
#[derive(Clone, Copy)]
pub enum ImportFlaw {
    /// No file has its path.
    Unknown,
    /// An earlier import of its file has its path.
    Double,
    /// The file that it names is its own, or reaches it by imports.
    Cycle,
}

impl ImportFlaw {
    /// The number of the fault.
    fn number(self) -> u32
        ensures { result ≡ import_flaw_number self }
    {
        match self {
            ImportFlaw::Unknown => 10,
            ImportFlaw::Double => 11,
            ImportFlaw::Cycle => 12,
        }
    }
}

/// A faulty import: its file, the token of its path, and what is wrong.
#[derive(Clone, Copy)]
pub struct BadImport {
    /// The number of the file that it stands in, from 0.
    pub file: u32,
    /// The token of its path, by its index among those of the file.
    pub token: u32,
    /// What is wrong with it.
    pub flaw: ImportFlaw,
}

impl BadImport {
    /// Whether it comes before another, by file, token and number.
    fn is_before(&self, other: &BadImport) -> bool
        ensures { IsTrue result ↔ FaultIsBefore (fault_of self.now) (fault_of other.now) }
    {
        if self.file != other.file {
            return self.file < other.file;
        }
        if self.token != other.token {
            return self.token < other.token;
        }
        self.flaw.number() < other.flaw.number()
    }
}

/// Why imports are not resolved: the least fault, or out of memory, of which nothing is said.
pub type ImportError = OrNoMemory<BadImport>;

/// The imports of each file, by the numbers of the files that they name, in the order in which they
/// are written. The files are numbered by their paths, from 0. Where an import is faulty, the least
/// fault is answered, by file, token and number.
pub fn resolve_imports(
    alloc: Global,
    paths: &[&str],
    files: &[Vec<WrittenImport>],
) -> Result<Vec<Vec<FileImport>>, ImportError>
    requires count { length paths.now ≤ 2 ^ 32 }
    requires paired { length files.now ≡ length paths.now }
    requires rising { All (λ v. TokensAreRising v.items) files.now }
    ensures clean { IfOk result (λ _. (f : Fault) → ImportFault
        (map (λ p. p.now) paths.now) (all_asked 0 (map (λ v. v.items) files.now)) f → ⊥) }
    ensures len { IfOk result (λ imports. length imports.items ≡ length files.now) }
    ensures imports { IfOk result (λ imports. all_imports 0 (map (λ v. v.items) imports.items)
        ≡ imports_of (map (λ p. p.now) paths.now) (all_asked 0 (map (λ v. v.items) files.now))) }
    ensures within { IfOk result (λ imports. All
        (λ v. All (λ i. i.to < length files.now) v.items) imports.items) }
    ensures fault { IfErr result (IsImportError
        (ImportFault (map (λ p. p.now) paths.now) (all_asked 0 (map (λ v. v.items) files.now)))) }
{
    let index = first_places(alloc, paths)?;
    imports_by_index(alloc, &index, files)
}

/// The same, by the places of the paths.
fn imports_by_index(
    alloc: Global,
    index: &IndexMap<String, u32>,
    files: &[Vec<WrittenImport>],
) -> Result<Vec<Vec<FileImport>>, ImportError>
    requires count { length files.now ≤ 2 ^ 32 }
    requires index { (paths : List (List ℕ))
        × IsFileIndex index.now paths × (length paths ≡ length files.now) }
    requires rising { All (λ v. TokensAreRising v.items) files.now }
    ensures clean { IfOk result (λ _. (paths : List (List ℕ)) → IsFileIndex index.now paths
        → (f : Fault) → ImportFault paths (all_asked 0 (map (λ v. v.items) files.now)) f → ⊥) }
    ensures len { IfOk result (λ imports. length imports.items ≡ length files.now) }
    ensures imports { IfOk result (λ imports. (paths : List (List ℕ)) → IsFileIndex index.now paths
        → all_imports 0 (map (λ v. v.items) imports.items)
        ≡ imports_of paths (all_asked 0 (map (λ v. v.items) files.now))) }
    ensures within { IfOk result (λ imports. All
        (λ v. All (λ i. i.to < length files.now) v.items) imports.items) }
    ensures fault { IfErr result (λ e. (paths : List (List ℕ)) → IsFileIndex index.now paths
        → IsImportError (ImportFault paths (all_asked 0 (map (λ v. v.items) files.now))) e) }
{
    let imports = resolved_imports(alloc, index, files)?;
    let path_fault = first_path_fault(alloc, index, files)?;
    let cycle_fault = first_on_cycle(alloc, index, files, &imports)?;
    match first(path_fault, cycle_fault) {
        None => Ok(imports),
        Some(bad) => Err(ImportError::Fault(bad)),
    }
}

/// The first of two faults.
fn first(one: Option<BadImport>, other: Option<BadImport>) -> Option<BadImport>
    ensures { IsFirst (λ f. (option_map fault_of one ≡ Some f) ⊎
        (option_map fault_of other ≡ Some f)) (option_map fault_of result) }
{
    match (one, other) {
        (Some(a), Some(b)) if b.is_before(&a) => Some(b),
        (Some(a), _) => Some(a),
        (None, b) => b,
    }
}

/// For each file, the files that its imports name, in their order. Fails only when out of
/// memory.
pub fn all_targets(alloc: Global, imports: &[Vec<FileImport>]) -> Result<Vec<Vec<u32>>, NoMemory>
    ensures { IfOk result (λ next. map (λ v. v.items) next.items
        ≡ map (λ v. map (λ i. i.to) v.items) imports.now) }
{
    let mut next = Vec::new(alloc);
    for own in imports {
        next.push(targets(alloc, own)?)?;
    }
    Ok(next)
}

/// The files that these imports name, in their order. Fails only when out of memory.
pub fn targets(alloc: Global, imports: &[FileImport]) -> Result<Vec<u32>, NoMemory>
    ensures { IfOk result (λ files. files.items ≡ map (λ i. i.to) imports.now) }
{
    let mut files = Vec::new(alloc);
    for import in imports {
        files.push(import.to)?;
    }
    Ok(files)
}
