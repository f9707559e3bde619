//! The paths of the files of a workspace.

ghost use Rattle.std.specs.Prelude.{◌≡◌, map, IfOk};
ghost use Rattle.proto_files.specs.GivenFiles.{paths_of};

use crate::files::Files;
use proto_base::NoMemory;
use std::alloc::Global;

/// The paths of the files, in their order.
pub fn all_paths<'a>(alloc: Global, files: &'a Files) -> Result<Vec<&'a str>, NoMemory>
    ensures { IfOk result (λ paths. map (λ p. p.now) paths.items ≡ paths_of files.now) }
{
    let mut paths = Vec::new(alloc);
    for file in 0..files.len() as u32 {
        paths.push(files.path(file))?;
    }
    Ok(paths)
}
