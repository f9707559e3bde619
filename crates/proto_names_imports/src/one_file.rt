//! The imports of one file: the files that they name, or the first that is faulty.

ghost use Rattle.std.specs.Prelude.{◌≡◌, ◌<◌, length, map, IfOk, IfErr};
ghost use Rattle.std.specs.List.{All};
ghost use Rattle.proto_files.specs.GivenFiles.{paths_of};
ghost use Rattle.proto_names_rules.specs.Faults.{Fault, imports_of};
ghost use Rattle.proto_names_imports.specs.Importing.{TokensAreRising, asked_by, import_from, IsImportError};
ghost use Rattle.proto_names_imports.specs.ImportSteps.{PathFault};

use crate::import::{BadImport, FileImport, ImportError, ImportFlaw, WrittenImport};
use proto_files::Files;
use std::alloc::Global;
use std::collections::HashSet;

/// The files that the imports of one file name, by their places from 0, in the order in which the
/// imports are written. The first import is answered whose path no file has, or an earlier import;
/// cycles are not looked for.
pub fn resolve_imports_of(
    alloc: Global,
    files: &Files,
    file: u32,
    written: &[WrittenImport],
) -> Result<Vec<FileImport>, ImportError>
    requires { TokensAreRising written.now }
    ensures clean { IfOk result (λ _. (f : Fault)
        → PathFault (paths_of files.now) (map (asked_by file) written.now) f → ⊥) }
    ensures imports { IfOk result (λ imports. map (import_from file) imports.items
        ≡ imports_of (paths_of files.now) (map (asked_by file) written.now)) }
    ensures within { IfOk result (λ imports. All (λ i. i.to < length files.now) imports.items) }
    ensures fault { IfErr result (IsImportError
        (PathFault (paths_of files.now) (map (asked_by file) written.now))) }
{
    let mut imports = Vec::new(alloc);
    let mut named = HashSet::new(alloc);
    for import in written {
        let token = import.token;
        match files.place_of_path(import.path.as_str()) {
            None => {
                let flaw = ImportFlaw::Unknown;
                return Err(ImportError::Fault(BadImport { file, token, flaw }));
            }
            Some(to) => {
                if !named.insert(to)? {
                    let flaw = ImportFlaw::Double;
                    return Err(ImportError::Fault(BadImport { file, token, flaw }));
                }
                imports.push(FileImport {
                    to,
                    is_public: import.is_public,
                })?;
            }
        }
    }
    Ok(imports)
}
