//! The file at a path, and another text for it.

ghost use Rattle.std.specs.Prelude.{◌≡◌, ◌<◌, length, position, slice_set};
ghost use Rattle.std.specs.Str.{bytes_eq};
ghost use Rattle.proto_tree.specs.File.{tree_of_file};
ghost use Rattle.proto_tree.specs.Reads.{ReadsIn};
ghost use Rattle.proto_files.specs.GivenFiles.{file_at, paths_of};

use crate::files::Files;
use proto_text::{Source, Token};
use proto_tree::File;
use std::mem;

impl Files {
    /// The place of the file at a path, if there is one. Takes no memory, and as many comparisons
    /// as the number of files has binary digits.
    pub fn place_of_path(&self, path: &str) -> Option<u32>
        ensures { result ≡ position (bytes_eq path.now) (paths_of self.now) }
    {
        match self
            .files
            .binary_search_by(|file| file.path.as_str().cmp(path))
        {
            Ok(place) => Some(place as u32),
            Err(_) => None,
        }
    }

    /// Gives the file at a place another text of its language, with its tokens and its tree; answers
    /// what stood there. Takes no memory.
    pub fn set(
        &mut self,
        file: u32,
        source: Source,
        tokens: Vec<Token>,
        tree: File,
    ) -> (Source, Vec<Token>, File)
        requires file { file < length self.old }
        requires read { ReadsIn (file_at self.old file).profile source tokens.items
            (tree_of_file tree) }
        ensures files { self.new ≡ slice_set self.old file
            (record (file_at self.old file) { bytes = source }) }
        ensures source { result.0 ≡ (file_at self.old file).bytes }
        ensures read { ReadsIn (file_at self.old file).profile result.0 result.1.items
            (tree_of_file result.2) }
    {
        // The bytes of a source are those of a text.
        let _text = source.as_bytes();
        let read = &mut self.files[file as usize];
        let source = mem::replace(&mut read.source, source);
        let tokens = mem::replace(&mut read.tokens, tokens);
        let tree = mem::replace(&mut read.tree, tree);
        (source, tokens, tree)
    }
}
