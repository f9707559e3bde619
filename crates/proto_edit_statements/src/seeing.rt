//! What one file sees with an import more.

ghost use Rattle.std.specs.Prelude.{◌≡◌, ◌<◌, ◌++◌, ◌∷◌, [], length, map, IfOk};
ghost use Rattle.std.specs.List.{All};
ghost use Rattle.proto_names_imports.specs.Importing.{all_imports};
ghost use Rattle.proto_names_rules.specs.Edits.{import_of};
ghost use Rattle.proto_names_rules.specs.Marks.{MarksSeen};
ghost use Rattle.proto_names_rules.specs.Names.{Workspace};

use proto_base::NoMemory;
use proto_file_sets::FileSet;
use proto_names_imports::import::FileImport;
use proto_names_imports::sight::seen_from;
use std::alloc::Global;

/// The files that one file sees, with an import more, not a public one.
pub(crate) fn seen_with(
    alloc: Global,
    imports: &[Vec<FileImport>],
    file: u32,
    to: u32,
) -> Result<FileSet, NoMemory>
    requires within { All (λ v. All (λ i. i.to < length imports.now) v.items) imports.now }
    requires file { file < length imports.now }
    requires to { to < length imports.now }
    ensures { IfOk result (λ seen. (w : Workspace) → w.files ≡ length imports.now
        → w.imports ≡ all_imports 0 (map (λ v. v.items) imports.now) ++ import_of file to ∷ []
        → MarksSeen w file seen) }
{
    let mut own = Vec::from_slice(alloc, &imports[file as usize])?;
    own.push(FileImport {
        to,
        is_public: false,
    })?;
    seen_from(alloc, imports, file, &own)
}
