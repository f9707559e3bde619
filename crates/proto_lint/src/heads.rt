//! What is read of each file, and the first files of directories and packages.

ghost use Rattle.std.specs.Prelude.{◌≡◌, ◌<◌, ◌≤◌, ◌^◌, ◌∷◌, List, map, length, find, get_or, option_map, IfOk};
ghost use Rattle.std.specs.String.{string_bytes};
ghost use Rattle.std.specs.Str.{bytes_eq};
ghost use Rattle.proto_text.specs.Texts.{word_at};
ghost use Rattle.proto_names_rules.specs.Joined.{joined};
ghost use Rattle.proto_names_imports.specs.ImportSteps.{IsFileIndex};
ghost use Rattle.proto_files.specs.FilesRead.{ReadOf, AreRead};
ghost use Rattle.proto_lint.specs.Heads.{first_offset, head_of_file, heads};
ghost use Rattle.proto_lint.specs.Packages.{Head, directory, file_name, package_name, stem};

use indexmap::IndexMap;
use proto_ast::syntax_text;
use proto_base::NoMemory;
use proto_files::{Files, Words, offset_of};
use proto_lint_names::{directory_of, file_name_of};
use proto_names_imports::first_places::{first_places, place_of};
use proto_names_outline::wanted::package;
use proto_text::Token;
use std::alloc::Global;
use std::marker::Model;

/// What is read of a file: its path, the words of its package (none without one), where the
/// package's name begins (0 without), and whether it has a syntax statement.
#[derive(Drop)]
pub struct FileHead<'a> {
    path: &'a str,
    words: Vec<&'a str>,
    /// The words joined by dots.
    name: String,
    offset: u32,
    has_syntax: bool,
}

impl<'a> Model for FileHead<'a> {
    ghost use Rattle.std.specs.Prelude.{◌≡◌, map};
    ghost use Rattle.std.specs.String.{string_bytes};
    ghost use Rattle.proto_names_rules.specs.Joined.{joined};
    ghost use Rattle.proto_lint.specs.Heads.{IsProtoPath};
    ghost use Rattle.proto_lint.specs.Packages.{Head};

    ghost Value = { Head };

    ghost view = { λ h. record {
      path = h.path.now;
      words = map (λ w. w.now) h.words.items;
      offset = h.offset;
      has_syntax = h.has_syntax;
    } };

    ghost invariant = { λ h. (string_bytes h.name ≡ joined (map (λ w. w.now) h.words.items))
        × IsProtoPath h.path.now };
}

/// The heads of all files of a workspace, in their order, with the places of the first file of each
/// directory and of each package.
#[derive(Drop)]
pub struct Heads<'a> {
    heads: Vec<FileHead<'a>>,
    directories: IndexMap<String, u32>,
    packages: IndexMap<String, u32>,
}

impl<'a> Model for Heads<'a> {
    ghost use Rattle.std.specs.Prelude.{List, map};
    ghost use Rattle.proto_names_imports.specs.ImportSteps.{IsFileIndex};
    ghost use Rattle.proto_lint.specs.Packages.{Head, directory, package_name};

    ghost Value = { List Head };

    ghost view = { λ h. h.heads.items };

    ghost invariant = { λ h. IsFileIndex h.directories (map directory h.heads.items)
        × IsFileIndex h.packages (map package_name h.heads.items) };
}

impl<'a> FileHead<'a> {
    /// The path of the file.
    pub(crate) fn path(&self) -> &str
        ensures { result.now ≡ self.now.path }
    {
        self.path
    }

    /// The name of the package; empty without one.
    pub fn package(&self) -> &str
        ensures { result.now ≡ package_name self.now }
    {
        self.name.as_str()
    }

    /// The words of the package's name.
    pub(crate) fn words(&self) -> &[&'a str]
        ensures { map (λ w. w.now) result.now ≡ self.now.words }
    {
        &self.words
    }

    /// Where the package's name begins; 0 without one.
    pub(crate) fn offset(&self) -> u32
        ensures { result ≡ self.now.offset }
    {
        self.offset
    }

    /// Whether it has a syntax statement.
    pub(crate) fn has_syntax(&self) -> bool
        ensures { result ≡ self.now.has_syntax }
    {
        self.has_syntax
    }

    /// What stands before the last slash of the path, or nothing.
    pub(crate) fn directory(&self) -> &str
        ensures { result.now ≡ directory self.now }
    {
        directory_of(self.path)
    }

    /// The last part of the path.
    pub(crate) fn file_name(&self) -> &str
        ensures { result.now ≡ file_name self.now }
    {
        file_name_of(self.path)
    }

    /// The last part of the path without `.proto`.
    pub(crate) fn stem(&self) -> &str
        ensures { result.now ≡ stem (file_name self.now) }
    {
        match file_name_of(self.path).strip_suffix(".proto") {
            Some(stem) => stem,
            None => unreachable!(),
        }
    }
}

// ---- from files

/// The texts of tokens.
fn texts<'a>(alloc: Global, words: &Words<'a>, tokens: &[u32]) -> Result<Vec<&'a str>, NoMemory>
    ensures { IfOk result (λ ts. map (λ t. t.now) ts.items ≡ map (word_at words.now) tokens.now) }
{
    let mut texts = Vec::new(alloc);
    for token in tokens {
        texts.push(words.get(*token))?;
    }
    Ok(texts)
}

/// A word, and those behind it, joined by dots.
fn joined_behind(alloc: Global, first: &str, rest: &[&str]) -> Result<String, NoMemory>
    ensures { IfOk result (λ s. string_bytes s ≡ joined (first.now ∷ map (λ w. w.now) rest.now)) }
{
    let mut name = String::from_str(alloc, first)?;
    for word in rest {
        name.push('.')?;
        name.push_str(word)?;
    }
    Ok(name)
}

/// Words joined by dots.
fn joined_words(alloc: Global, words: &[&str]) -> Result<String, NoMemory>
    ensures { IfOk result (λ s. string_bytes s ≡ joined (map (λ w. w.now) words.now)) }
{
    match words {
        [] => Ok(String::new(alloc)),
        [first, rest @ ..] => joined_behind(alloc, first, rest),
    }
}

/// Where the first of these tokens begins; 0 for none.
fn first_offset(tokens: &[Token], chosen: &[u32]) -> u32
    ensures { result ≡ first_offset tokens.now chosen.now }
{
    match chosen.first() {
        Some(token) => offset_of(tokens, *token),
        None => 0,
    }
}

impl<'a> FileHead<'a> {
    /// The head of a file.
    fn of(alloc: Global, files: &'a Files, file: u32) -> Result<FileHead<'a>, NoMemory>
        requires { file < length files.now }
        ensures { IfOk result (λ h. (reads : List ReadOf)
            → AreRead files.now reads → h ≡ head_of_file files.now reads file) }
    {
        // Each path ends in `.proto`.
        let _count = files.len();
        let tokens = files.tokens(file);
        let tree = files.tree(file);
        let spelled = package(alloc, tree)?;
        let words = texts(alloc, &Words::new(files, file), &spelled)?;
        Ok(FileHead {
            path: files.path(file),
            name: joined_words(alloc, &words)?,
            words,
            offset: first_offset(tokens, &spelled),
            has_syntax: syntax_text(tree).is_some(),
        })
    }
}

/// The heads of all files.
fn all_heads<'a>(alloc: Global, files: &'a Files) -> Result<Vec<FileHead<'a>>, NoMemory>
    ensures few { IfOk result (λ hs. length hs.items ≤ 2 ^ 32) }
    ensures heads { IfOk result (λ hs. (reads : List ReadOf)
        → AreRead files.now reads → hs.items ≡ heads files.now reads) }
{
    let mut all = Vec::new(alloc);
    for file in 0..files.len() as u32 {
        all.push(FileHead::of(alloc, files, file)?)?;
    }
    Ok(all)
}

/// The place of the first file of each directory.
fn first_of_directories(
    alloc: Global,
    heads: &[FileHead],
) -> Result<IndexMap<String, u32>, NoMemory>
    requires { length heads.now ≤ 2 ^ 32 }
    ensures { IfOk result (λ index. IsFileIndex index (map directory heads.now)) }
{
    let mut directories = Vec::new(alloc);
    for head in heads {
        directories.push(head.directory())?;
    }
    first_places(alloc, &directories)
}

/// The place of the first file of each package.
fn first_of_packages(alloc: Global, heads: &[FileHead]) -> Result<IndexMap<String, u32>, NoMemory>
    requires { length heads.now ≤ 2 ^ 32 }
    ensures { IfOk result (λ index. IsFileIndex index (map package_name heads.now)) }
{
    let mut packages = Vec::new(alloc);
    for head in heads {
        packages.push(head.package())?;
    }
    first_places(alloc, &packages)
}

impl<'a> Heads<'a> {
    /// The heads of the files. Fails only when out of memory.
    pub fn new(alloc: Global, files: &'a Files) -> Result<Heads<'a>, NoMemory>
        ensures { IfOk result (λ h. (reads : List ReadOf)
            → AreRead files.now reads → h ≡ heads files.now reads) }
    {
        let heads = all_heads(alloc, files)?;
        Ok(Heads {
            directories: first_of_directories(alloc, &heads)?,
            packages: first_of_packages(alloc, &heads)?,
            heads,
        })
    }

    /// The head of a file, by its number.
    pub fn get(&self, file: u32) -> &FileHead<'a>
        requires { file < length self.now }
        ensures { (d : Head) → result.now ≡ get_or self.now file d }
    {
        &self.heads[file as usize]
    }

    /// The head of the first file of a directory.
    pub(crate) fn first_in_directory(&self, path: &str) -> Option<&FileHead<'a>>
        ensures { option_map (λ h. h.now) result
            ≡ find (λ g. bytes_eq (directory g) path.now) self.now }
    {
        match place_of(&self.directories, path) {
            Some(place) => self.heads.get(place as usize),
            None => None,
        }
    }

    /// The head of the first file of a package.
    pub(crate) fn first_of_package(&self, name: &str) -> Option<&FileHead<'a>>
        ensures { option_map (λ h. h.now) result
            ≡ find (λ g. bytes_eq (package_name g) name.now) self.now }
    {
        match place_of(&self.packages, name) {
            Some(place) => self.heads.get(place as usize),
            None => None,
        }
    }
}
