//! The descriptors of a workspace.

ghost use Rattle.std.specs.Prelude.{◌≡◌, map};
ghost use Rattle.proto_desc.specs.Views.{files_desc};
ghost use Rattle.proto_descriptors.specs.Views.{file_desc};

use proto_desc_affected::FileSummary;
use proto_descriptors::FileDescriptor;

/// The descriptors of a workspace: one per file, in the order of the paths.
#[derive(Drop)]
pub struct Descriptors {
    pub(crate) file: Vec<FileDescriptor>,
    /// What is kept of each file, by which an edit of others tells whether it does not affect it.
    pub(crate) kept: Vec<FileSummary>,
}

impl Descriptors {
    /// The descriptor of each file, in the order of the paths: the list of which `to_json` is the
    /// text. Takes no memory.
    pub fn files(&self) -> &[FileDescriptor]
        ensures { map file_desc result.now ≡ files_desc self.now }
    {
        self.file.as_slice()
    }
}
