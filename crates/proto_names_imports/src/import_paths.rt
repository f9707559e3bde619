//! The files that the paths of imports name, and the first import of a file that has no such path
//! or has it again.

ghost use Rattle.std.specs.Prelude.{◌≡◌, ℕ, ◌≤◌, ◌^◌, List, length, map, option_map, IfOk};
ghost use Rattle.std.specs.List.{All};
ghost use Rattle.proto_names_rules.specs.Faults.{imports_of};
ghost use Rattle.proto_names_imports.specs.Importing.{TokensAreRising, all_asked, all_imports, asked_by, import_from, fault_of};
ghost use Rattle.proto_names_imports.specs.ImportSteps.{IsFileIndex, IsFirst, PathFault};

use crate::first_places::place_of;
use crate::import::{BadImport, FileImport, ImportFlaw, WrittenImport};
use indexmap::IndexMap;
use proto_base::NoMemory;
use std::alloc::Global;
use std::collections::HashSet;

/// The imports of each file that name a file.
pub(crate) fn resolved_imports(
    alloc: Global,
    index: &IndexMap<String, u32>,
    files: &[Vec<WrittenImport>],
) -> Result<Vec<Vec<FileImport>>, NoMemory>
    ensures len { IfOk result (λ imports. length imports.items ≡ length files.now) }
    ensures imports { IfOk result (λ imports. (paths : List (List ℕ)) → IsFileIndex index.now paths
        → all_imports 0 (map (λ v. v.items) imports.items)
        ≡ imports_of paths (all_asked 0 (map (λ v. v.items) files.now))) }
{
    let mut imports = Vec::new(alloc);
    for written in files {
        imports.push(resolved_in(alloc, index, written)?)?;
    }
    Ok(imports)
}

/// The imports of one file that name a file.
fn resolved_in(
    alloc: Global,
    index: &IndexMap<String, u32>,
    written: &[WrittenImport],
) -> Result<Vec<FileImport>, NoMemory>
    ensures { IfOk result (λ imports. (paths : List (List ℕ)) → IsFileIndex index.now paths →
        (file : ℕ) → map (import_from file) imports.items
        ≡ imports_of paths (map (asked_by file) written.now)) }
{
    let mut imports = Vec::new(alloc);
    for import in written {
        if let Some(to) = place_of(index, import.path.as_str()) {
            imports.push(FileImport {
                to,
                is_public: import.is_public,
            })?;
        }
    }
    Ok(imports)
}

/// The first import whose path no file has, or an earlier import of its file.
pub(crate) fn first_path_fault(
    alloc: Global,
    index: &IndexMap<String, u32>,
    files: &[Vec<WrittenImport>],
) -> Result<Option<BadImport>, NoMemory>
    requires count { length files.now ≤ 2 ^ 32 }
    requires rising { All (λ v. TokensAreRising v.items) files.now }
    ensures { IfOk result (λ o. (paths : List (List ℕ)) → IsFileIndex index.now paths → IsFirst
        (PathFault paths (all_asked 0 (map (λ v. v.items) files.now))) (option_map fault_of o)) }
{
    for file in 0..files.len() {
        if let Some(bad) = path_fault_in(alloc, index, file as u32, &files[file])? {
            return Ok(Some(bad));
        }
    }
    Ok(None)
}

/// The same in one file.
fn path_fault_in(
    alloc: Global,
    index: &IndexMap<String, u32>,
    file: u32,
    written: &[WrittenImport],
) -> Result<Option<BadImport>, NoMemory>
    requires { TokensAreRising written.now }
    ensures { IfOk result (λ o. (paths : List (List ℕ)) → IsFileIndex index.now paths
        → IsFirst (PathFault paths (map (asked_by file) written.now)) (option_map fault_of o)) }
{
    let mut named = HashSet::new(alloc);
    for import in written {
        let token = import.token;
        match place_of(index, import.path.as_str()) {
            None => {
                let flaw = ImportFlaw::Unknown;
                return Ok(Some(BadImport { file, token, flaw }));
            }
            Some(to) => {
                if !named.insert(to)? {
                    let flaw = ImportFlaw::Double;
                    return Ok(Some(BadImport { file, token, flaw }));
                }
            }
        }
    }
    Ok(None)
}
