//! The files of a workspace, read.

ghost use Rattle.std.specs.Prelude.{◌≡◌, ◌<◌, ◌==◌, List, length, slice_get, All, IfOk, IfErr, Some};
ghost use Rattle.std.specs.Slice.Iter.{iter_rest};
ghost use Rattle.proto_text.specs.declared.lexer.Token.{Token};
ghost use Rattle.std.specs.String.{string_bytes};
ghost use Rattle.proto_text.specs.SourceFacts.{IsSpan, text_at};
ghost use Rattle.proto_text.specs.Texts.{words};
ghost use Rattle.proto_text.specs.Tokens.{AreTokens};
ghost use Rattle.proto_text.specs.Values.{StandsFor, value_of};
ghost use Rattle.proto_tree.specs.File.{tree_of_file};
ghost use Rattle.proto_tree.specs.Reads.{ReadsIn};
ghost use Rattle.proto_files.specs.Faults.{HasNoFault, IsFilesError};
ghost use Rattle.proto_files.specs.FileTokens.{AreTokensOf, HasToken, HasString};
ghost use Rattle.proto_files.specs.FilesRead.{AreRead, ReadOf};
ghost use Rattle.proto_files.specs.GivenFiles.{AreWorkspaceFiles, file_at};
ghost use Rattle.proto_files.specs.ReadFaults.{ReadFaults};
ghost use Rattle.proto_files.specs.Reading.{IsReadFile};
ghost use Rattle.proto_files.specs.Stages.{read_files};

use crate::paths::Paths;
use crate::reading::{lex_files, parse_files};
use crate::stages::ReadFile;
use proto_base::{NoMemory, Profile, SchemaFault};
use proto_text::{Source, Token, string_value};
use proto_tree::File;
use std::alloc::Global;
use std::marker::Model;
use std::slice;

/// Files at distinct workspace paths, in the order of their paths, each with its source, its tokens
/// and its tree. Places of files count from 0.
#[derive(Drop)]
pub struct Files {
    pub(crate) files: Vec<ReadFile>,
}

impl Model for Files {
    ghost use Rattle.std.specs.Prelude.{List};
    ghost use Rattle.proto_files.specs.GivenFiles.{FileOf};

    ghost Value = { List FileOf };

    ghost use Rattle.proto_files.specs.Stages.{read_files};
    ghost use Rattle.proto_files.specs.Reading.{AreReadFiles};

    ghost view = { λ f. read_files f.files.items };

    ghost invariant = { λ f. AreReadFiles f.files.items };
}

impl Files {
    /// Lexes and parses the files. Where a text or the grammar of a file has a fault, the least fault
    /// is answered: those of all texts come before those of all trees. Otherwise it fails only when
    /// out of memory.
    pub fn read(alloc: Global, paths: Paths) -> Result<Files, SchemaFault>
        ensures clean { IfOk result (λ _. HasNoFault (ReadFaults paths)) }
        ensures same { IfOk result (λ files. files ≡ paths) }
        ensures fault { IfErr result (IsFilesError (ReadFaults paths)) }
    {
        let lexed = lex_files(alloc, paths.into_files())?;
        let files = parse_files(alloc, lexed)?;
        Ok(Files { files })
    }

    /// How many files there are.
    pub fn len(&self) -> usize
        ensures len { result ≡ length self.now }
        // What holds of each value: its files are those of a workspace, and their texts and grammar
        // have no fault.
        ensures workspace { AreWorkspaceFiles self.now }
        ensures clean { HasNoFault (ReadFaults self.now) }
    {
        self.files.len()
    }

    /// Whether there is no file.
    pub fn is_empty(&self) -> bool
        ensures { result ≡ (length self.now == 0) }
    {
        self.files.is_empty()
    }

    /// The files, in the order of their paths.
    pub fn iter(&self) -> slice::Iter<'_, ReadFile>
        ensures files { read_files (iter_rest result) ≡ self.now }
        // Each has the tokens of its source, and the tree that they spell.
        ensures read { All IsReadFile (iter_rest result) }
    {
        self.files.iter()
    }

    /// The path of the file at a place.
    pub fn path(&self, place: u32) -> &str
        requires { place < length self.now }
        ensures { result.now ≡ (file_at self.now place).path }
    {
        self.files[place as usize].path.as_str()
    }

    /// The language of the file at a place.
    pub fn profile(&self, place: u32) -> Profile
        requires { place < length self.now }
        ensures { result ≡ (file_at self.now place).profile }
    {
        self.files[place as usize].profile
    }

    /// The text of the file at a place.
    pub fn source(&self, place: u32) -> &Source
        requires { place < length self.now }
        ensures { result.now ≡ (file_at self.now place).bytes }
    {
        &self.files[place as usize].source
    }

    /// The tokens of the file at a place.
    pub fn tokens(&self, place: u32) -> &[Token]
        requires { place < length self.now }
        ensures tokens { AreTokens (file_at self.now place).bytes result.now }
        // Each can be asked for its text.
        ensures spans { All (λ t. IsSpan (file_at self.now place).bytes t.span) result.now }
    {
        self.files[place as usize].tokens.as_slice()
    }

    /// The tree of the file at a place.
    pub fn tree(&self, place: u32) -> &File
        requires { place < length self.now }
        ensures { (tokens : List Token) → AreTokens (file_at self.now place).bytes tokens
            → ReadsIn (file_at self.now place).profile (file_at self.now place).bytes tokens
            (tree_of_file result.now) }
    {
        &self.files[place as usize].tree
    }

    /// The text of a token of the file at a place: the part of its source at the token's span.
    /// Takes no memory.
    pub fn token_text(&self, file: u32, token: u32) -> &str
        requires file { file < length self.now }
        requires token { HasToken self.now file token }
        ensures slice { (tokens : List Token) (t : Token)
            → AreTokensOf self.now file tokens → slice_get tokens token ≡ Some t
            → result.now ≡ text_at (file_at self.now file).bytes t.span }
        // The same, as the word of this index among those of the tokens.
        ensures word { (tokens : List Token) → AreTokensOf self.now file tokens
            → result.now ≡ words (file_at self.now file).bytes tokens token }
    {
        let read = &self.files[file as usize];
        read.source.text(read.tokens[token as usize].span)
    }

    /// The value of a string token of the file at a place, after its escapes. Fails only when out
    /// of memory.
    pub fn string_value(&self, alloc: Global, file: u32, token: u32) -> Result<String, NoMemory>
        requires file { file < length self.now }
        requires token { HasString self.now file token }
        ensures means { (tokens : List Token) → AreTokensOf self.now file tokens
            → IfOk result (λ value. StandsFor (words (file_at self.now file).bytes tokens token)
            (string_bytes value)) }
        ensures value { (tokens : List Token) → AreTokensOf self.now file tokens
            → IfOk result (λ value. value_of (words (file_at self.now file).bytes tokens token)
            ≡ Some (string_bytes value)) }
    {
        string_value(alloc, self.token_text(file, token))
    }

    /// Lets the files go. A crate that ends them by this call need not prove how each of their
    /// parts is dropped.
    pub fn release(self) {}
}

impl<'a> IntoIterator for &'a Files {
    type Item = &'a ReadFile;

    type IntoIter = slice::Iter<'a, ReadFile>;

    ghost into_iter_gives = { λ files it.
        (read_files (iter_rest it) ≡ files.now) × All IsReadFile (iter_rest it) };

    fn into_iter(self) -> Self::IntoIter {
        self.iter()
    }
}

/// Answers nothing, and looks at no file: its contract says that each file has tokens and a tree.
pub fn are_read(files: &Files)
    ensures { (reads : List ReadOf) × AreRead files.now reads }
{
    let _count = files.files.len();
}
