//! Which files are used by references.

ghost use Rattle.std.specs.Prelude.{◌≡◌, ◌<◌, [], length, get_or, IfOk};
ghost use Rattle.proto_names.specs.Linking.{declaring_file};
ghost use Rattle.proto_lint.specs.ImportTables.{MarksMeant, MarksUsed, with_mark};

use proto_base::NoMemory;
use proto_file_sets::FileSet;
use proto_names::{Link, Meant};
use proto_resolved::Linked;
use std::alloc::Global;

/// Puts the file into the set that declares what a reference means, if one alone does.
fn insert_meant(used: &mut FileSet, link: &Link, meant: Meant)
    ensures { used.new ≡ with_mark used.old (declaring_file link.now meant.row) }
{
    if let Some(file) = link.file_of(meant.symbol()) {
        used.insert(file);
    }
}

/// The files that declare what the references of a file mean.
fn meant_files(alloc: Global, link: &Link, file: u32, count: usize) -> Result<FileSet, NoMemory>
    ensures len { IfOk result (λ used. length used ≡ count) }
    ensures meant { IfOk result (λ used. MarksMeant link.now
        (get_or link.now.meant file []) count used) }
{
    let mut used = FileSet::new(alloc, count)?;
    for meant in link.meant_in(file) {
        insert_meant(&mut used, link, *meant);
    }
    Ok(used)
}

/// Some files: an import of this file is used where public imports lead from its file to one of
/// these.
pub(crate) fn used_files(alloc: Global, linked: &Linked<'_>, file: u32) -> Result<FileSet, NoMemory>
    requires { file < length linked.now.files }
    ensures { IfOk result (MarksUsed linked.now.files file) }
{
    let count = linked.file_count();
    let used = meant_files(alloc, linked.link(), file, count)?;
    Ok(used)
}
