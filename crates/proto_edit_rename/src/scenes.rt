//! What is read of one file.

ghost use Rattle.std.specs.Prelude.{◌<◌, List, length};
ghost use Rattle.proto_files.specs.FilesRead.{AreRead, ReadOf};
ghost use Rattle.proto_edit_rename.specs.Members.{IsReadAs};

use proto_ast::{Scene, is_proto3};
use proto_files::{Files, Words};
use std::alloc::Global;

/// The texts, strings, language and version of the file at a place, from 0; nothing of what its
/// references mean.
pub fn scene<'a>(alloc: Global, files: &'a Files, file: u32) -> Scene<'a>
    requires { file < length files.now }
    ensures { (reads : List ReadOf) → AreRead files.entry.now reads
        → IsReadAs files.entry.now reads file result }
{
    let words = Words::new(files, file);
    let is_proto3 = is_proto3(&words, files.tree(file));
    Scene::new(words, files.profile(file), is_proto3, Vec::new(alloc))
}
