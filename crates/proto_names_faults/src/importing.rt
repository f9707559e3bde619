//! All faults of imports.

ghost use Rattle.std.specs.Prelude.{◌≡◌, ◌≤◌, ◌^◌, ℕ, List, length, map, IfOk, OnOk};
ghost use Rattle.proto_files.specs.Faults.{fault_at};
ghost use Rattle.proto_files.specs.FilesRead.{AreRead, ReadOf};
ghost use Rattle.proto_files.specs.GivenFiles.{paths_of};
ghost use Rattle.proto_names_imports.specs.ImportSteps.{IsFileIndex};
ghost use Rattle.proto_names_imports.specs.Importing.{all_asked};
ghost use Rattle.proto_names_imports.specs.Links.{all_wanted, text_of};
ghost use Rattle.proto_names_rules.specs.Faults.{ImportFault, imports_of};
ghost use Rattle.proto_names_faults.specs.AllFaults.{AreAllOf, ImportFaults};
ghost use Rattle.proto_names_faults.specs.Flaws.{AreAdded, AreFlawsOf};
ghost use Rattle.proto_names_faults.specs.Imports.{IsFlawOf, IsImportIn, MarksCycles};

use crate::flaw::{Flaw, add_flaw, kind_if};
use crate::import_cycles::{leading_marks, leads_to};
use crate::located::listed;
use crate::sight::{file_index, resolved_imports};
use crate::taken::take_name;
use indexmap::IndexMap;
use proto_base::{Fault, FaultKind, NoMemory};
use proto_file_sets::FileSet;
use proto_files::{Files, are_read};
use proto_names::all_written;
use proto_names_imports::first_places::place_of;
use proto_names_imports::import::WrittenImport;
use std::alloc::Global;
use std::collections::HashSet;

/// All faults of imports: 10 UnknownImport, 11 DoubleImport and 12 ImportCycle, by path, offset and
/// number, each once. Fails only when out of memory.
pub fn import_faults(alloc: Global, files: &Files) -> Result<Vec<Fault>, NoMemory>
    ensures exact { IfOk result (λ v. AreAllOf (ImportFaults files.now) (map fault_at v.items)) }
{
    // Each file has tokens and a tree.
    are_read(files);
    let flaws = import_flaws(alloc, files)?;
    listed(alloc, files, &flaws)
}

/// The flaws of all imports.
fn import_flaws(alloc: Global, files: &Files) -> Result<Vec<Flaw>, NoMemory>
    ensures { IfOk result (λ ws. (reads : List ReadOf) → AreRead files.now reads → AreFlawsOf
        (ImportFault (paths_of files.now) (all_wanted (text_of files.now reads) 0 reads))
        ws.items) }
{
    let index = file_index(alloc, files)?;
    flaws_by_index(alloc, files, &index)
}

/// The same by the places of the paths.
fn flaws_by_index(
    alloc: Global,
    files: &Files,
    index: &IndexMap<String, u32>,
) -> Result<Vec<Flaw>, NoMemory>
    requires { IsFileIndex index.now (paths_of files.now) }
    ensures { IfOk result (λ ws. (reads : List ReadOf) → AreRead files.now reads → AreFlawsOf
        (ImportFault (paths_of files.now) (all_wanted (text_of files.now reads) 0 reads))
        ws.items) }
{
    // Its contract says that there are at most 4,096.
    let _count = files.len();
    let written = all_written(alloc, files)?;
    flaws_by_written(alloc, index, &written)
}

/// The same by the imports as they are written.
fn flaws_by_written(
    alloc: Global,
    index: &IndexMap<String, u32>,
    files: &[Vec<WrittenImport>],
) -> Result<Vec<Flaw>, NoMemory>
    requires count { length files.now ≤ 2 ^ 32 }
    requires index { (paths : List (List ℕ))
        × IsFileIndex index.now paths × (length paths ≡ length files.now) }
    ensures { IfOk result (λ ws. (paths : List (List ℕ)) → IsFileIndex index.now paths → AreFlawsOf
        (ImportFault paths (all_asked 0 (map (λ v. v.items) files.now))) ws.items) }
{
    let marks = cycle_marks(alloc, index, files)?;
    let graph = Graph {
        index,
        marks: &marks,
    };
    flaws_by_graph(alloc, &graph, files)
}

/// For each file, the files that it leads to, as far as an import leads back to its file.
fn cycle_marks(
    alloc: Global,
    index: &IndexMap<String, u32>,
    files: &[Vec<WrittenImport>],
) -> Result<Vec<FileSet>, NoMemory>
    requires count { length files.now ≤ 2 ^ 32 }
    requires index { (paths : List (List ℕ))
        × IsFileIndex index.now paths × (length paths ≡ length files.now) }
    ensures { IfOk result (λ marks. (paths : List (List ℕ)) → IsFileIndex index.now paths
        → MarksCycles (imports_of paths (all_asked 0 (map (λ v. v.items) files.now)))
        marks.items) }
{
    let imports = resolved_imports(alloc, index, files)?;
    leading_marks(alloc, &imports)
}

/// By what imports are told to be faulty.
#[derive(Clone, Copy)]
struct Graph<'a> {
    /// The places of the paths of the files.
    index: &'a IndexMap<String, u32>,
    /// For each file, the files that it leads to.
    marks: &'a [FileSet],
}

/// The flaws of all imports by these.
fn flaws_by_graph(
    alloc: Global,
    graph: &Graph,
    files: &[Vec<WrittenImport>],
) -> Result<Vec<Flaw>, NoMemory>
    requires { length files.now ≤ 2 ^ 32 }
    ensures { IfOk result (λ ws. (paths : List (List ℕ)) → IsFileIndex graph.now.index.now paths
        → MarksCycles (imports_of paths (all_asked 0 (map (λ v. v.items) files.now)))
        graph.now.marks.now → AreFlawsOf
        (ImportFault paths (all_asked 0 (map (λ v. v.items) files.now))) ws.items) }
{
    let mut found = Vec::new(alloc);
    for file in 0..files.len() {
        add_file_flaws(alloc, graph, file as u32, &files[file], &mut found)?;
    }
    Ok(found)
}

/// Adds the flaws of the imports of one file.
fn add_file_flaws(
    alloc: Global,
    graph: &Graph,
    file: u32,
    written: &[WrittenImport],
    found: &mut Vec<Flaw>,
) -> Result<(), NoMemory>
    ensures { OnOk result ((paths : List (List ℕ)) → IsFileIndex graph.now.index.now paths
        → AreAdded (IsImportIn paths graph.now.marks.now file written.now)
        found.old.items found.new.items) }
{
    let mut named = HashSet::new(alloc);
    for import in written {
        let is_double = take_name(alloc, &mut named, import.path.as_str())?;
        add_import_flaws(graph, file, import, is_double, found)?;
    }
    Ok(())
}

/// Adds the flaws of one import: that no file has its path, that an earlier one of its file has it,
/// and that what it names leads back.
fn add_import_flaws(
    graph: &Graph,
    file: u32,
    import: &WrittenImport,
    is_double: bool,
    found: &mut Vec<Flaw>,
) -> Result<(), NoMemory>
    ensures { OnOk result ((paths : List (List ℕ)) → IsFileIndex graph.now.index.now paths
        → AreAdded (IsFlawOf paths graph.now.marks.now file import.now is_double)
        found.old.items found.new.items) }
{
    let path = import.path.as_str();
    let is_unknown = place_of(graph.index, path).is_none();
    let unknown = kind_if(is_unknown, FaultKind::UnknownImport);
    let double = kind_if(is_double, FaultKind::DoubleImport);
    let is_cycle = leads_to(graph.index, graph.marks, path, file);
    let cycle = kind_if(is_cycle, FaultKind::ImportCycle);
    add_flaw(found, file, import.token, unknown)?;
    add_flaw(found, file, import.token, double)?;
    add_flaw(found, file, import.token, cycle)
}
