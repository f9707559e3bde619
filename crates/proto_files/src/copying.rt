//! Copies of files that are read.

ghost use Rattle.std.specs.Prelude.{◌≡◌, All, IfOk};
ghost use Rattle.proto_files.specs.Reading.{IsReadFile};
ghost use Rattle.proto_files.specs.Stages.{read_file, read_files};

use crate::files::Files;
use crate::stages::ReadFile;
use proto_base::NoMemory;
use proto_text::Source;
use proto_tree::parse_as;
use std::alloc::Global;

fn copy_source(alloc: Global, source: &Source) -> Result<Source, NoMemory>
    ensures { IfOk result (λ copy. copy ≡ source.now) }
{
    let bytes = Vec::from_slice(alloc, source.as_bytes())?;
    match Source::new(bytes) {
        Ok(copy) => Ok(copy),
        Err(_) => unreachable!(),
    }
}

// The tree is read again from the copied tokens, which have no other.
fn copy_file(alloc: Global, file: &ReadFile) -> Result<ReadFile, NoMemory>
    requires { IsReadFile file.now }
    ensures same { IfOk result (λ copy. read_file copy ≡ read_file file.now) }
    ensures read { IfOk result IsReadFile }
{
    let path = String::from_str(alloc, file.path.as_str())?;
    let source = copy_source(alloc, &file.source)?;
    let tokens = Vec::from_slice(alloc, file.tokens.as_slice())?;
    match parse_as(alloc, &source, &tokens, file.profile) {
        Ok(tree) => Ok(ReadFile {
            path,
            source,
            tokens,
            tree,
            profile: file.profile,
        }),
        // There is a tree, so that only memory can be wanting.
        Err(_) => Err(NoMemory),
    }
}

fn copy_files(alloc: Global, files: &[ReadFile]) -> Result<Vec<ReadFile>, NoMemory>
    requires { All IsReadFile files.now }
    ensures same { IfOk result (λ copies. read_files copies.items ≡ read_files files.now) }
    ensures read { IfOk result (λ copies. All IsReadFile copies.items) }
{
    let mut copies = Vec::new(alloc);
    for file in files {
        copies.push(copy_file(alloc, file)?)?;
    }
    Ok(copies)
}

impl Files {
    /// Equal files. Fails only when out of memory.
    pub fn copy(&self, alloc: Global) -> Result<Files, NoMemory>
        ensures { IfOk result (λ files. files ≡ self.now) }
    {
        let files = copy_files(alloc, &self.files)?;
        Ok(Files { files })
    }
}
