//! What the rules read of a file.

ghost use Rattle.std.specs.Prelude.{◌≡◌, ◌<◌, List, length};
ghost use Rattle.proto_text.specs.Texts.{offset_at};
ghost use Rattle.proto_tree.specs.References.{first_of};
ghost use Rattle.proto_files.specs.FilesRead.{AreRead, ReadOf};
ghost use Rattle.proto_lint_names.specs.Readings.{read_of_file, meant_name, reading_of, word_in};

use proto_files::{Words, offset_of};
use proto_names::Link;
use proto_resolved::Linked;
use proto_text::Token;
use proto_tree::Reference;

/// A file as the rules read it: its tokens, their texts, and what its references mean; with its
/// number in the workspace.
#[derive(Drop)]
pub struct LintFile<'a> {
    tokens: &'a [Token],
    words: Words<'a>,
    link: &'a Link,
    pub file: u32,
}

impl<'a> LintFile<'a> {
    /// The reading of a file of a workspace, by its number.
    pub fn of(linked: &Linked<'a>, file: u32) -> LintFile<'a>
        requires { file < length linked.now.files }
        ensures file { result.file ≡ file }
        ensures read { (reads : List ReadOf) → AreRead linked.now.files reads
            → reading_of result ≡ read_of_file linked.now.files reads file }
    {
        let files = linked.files();
        let tokens = files.tokens(file);
        let words = Words::new(files, file);
        LintFile {
            tokens,
            words,
            link: linked.link(),
            file,
        }
    }

    /// Where the token with this index begins, in bytes from 0; 0 where there is none.
    pub fn offset(&self, token: u32) -> u32
        ensures { result ≡ offset_at (reading_of self.now).tokens token }
    {
        offset_of(self.tokens, token)
    }

    /// The text of the token with this index; empty where there is none.
    pub fn text(&self, token: u32) -> &'a str
        ensures { result.now ≡ word_in (reading_of self.now) token }
    {
        self.words.get(token)
    }

    /// The full name that the reference means; empty for one that is not the file's.
    pub fn meant_name(&self, reference: &Reference) -> &'a str
        ensures { result.now ≡ meant_name (reading_of self.now)
            (first_of reference.now.dot reference.now.words) }
    {
        let first = reference.dot.unwrap_or(reference.words.first);
        match self.link.meaning(self.file, first) {
            Some(symbol) => self.link.name_of(symbol).unwrap_or(""),
            None => "",
        }
    }
}
