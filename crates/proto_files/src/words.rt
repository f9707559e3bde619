//! The texts of a file's tokens.

ghost use Rattle.std.specs.Prelude.{◌≡◌, ◌<◌, List, length, map, option_map, is_some, IfOk};
ghost use Rattle.std.specs.String.{string_bytes};
ghost use Rattle.proto_text.specs.declared.lexer.Token.{Token};
ghost use Rattle.proto_text.specs.Texts.{word_at};
ghost use Rattle.proto_text.specs.Tokens.{lexeme_at};
ghost use Rattle.proto_text.specs.Values.{is_value};
ghost use Rattle.proto_files.specs.FileTokens.{AreTokensOf};
ghost use Rattle.proto_files.specs.GivenFiles.{file_at};
ghost use Rattle.proto_files.specs.StringTokens.{is_string, string_at, string_text};

use crate::files::Files;
use proto_base::NoMemory;
use proto_text::{Token, TokenKind, stands_for};
use std::alloc::Global;
use std::marker::Model;

/// A file of a workspace, seen as the texts of its tokens.
#[derive(Drop)]
pub struct Words<'a> {
    files: &'a Files,
    file: u32,
    tokens: &'a [Token],
}

impl<'a> Model for Words<'a> {
    ghost use Rattle.std.specs.Prelude.{◌<◌, List, length, map};
    ghost use Rattle.proto_text.specs.Tokens.{Lexeme, lexeme_at};
    ghost use Rattle.proto_files.specs.FileTokens.{AreTokensOf};
    ghost use Rattle.proto_files.specs.GivenFiles.{file_at};

    ghost Value = { List Lexeme };

    ghost view = { λ w. map (lexeme_at (file_at w.files.now w.file).bytes) w.tokens.now };

    ghost invariant = { λ w. (w.file < length w.files.now)
        × AreTokensOf w.files.now w.file w.tokens.now };
}

fn is_string(kind: TokenKind) -> bool
    ensures { result ≡ is_string kind }
{
    matches!(kind, TokenKind::Text)
}

impl<'a> Words<'a> {
    /// The texts of the tokens of the file at a place, counted from 0. Takes no memory.
    pub fn new(files: &'a Files, place: u32) -> Words<'a>
        requires { place < length files.now }
        // They are those of the file's tokens, of which there are some, and one list alone.
        ensures words { (tokens : List Token) → AreTokensOf files.entry.now place tokens
            → result ≡ map (lexeme_at (file_at files.entry.now place).bytes) tokens }
        ensures some { (tokens : List Token) × AreTokensOf files.entry.now place tokens
            × (result ≡ map (lexeme_at (file_at files.entry.now place).bytes) tokens) }
    {
        Words {
            files,
            file: place,
            tokens: files.tokens(place),
        }
    }

    /// The text of the token with this index; empty where there is none.
    pub fn get(&self, index: u32) -> &'a str
        ensures { result.now ≡ word_at self.now index }
    {
        if (index as usize) < self.tokens.len() {
            self.files.token_text(self.file, index)
        } else {
            ""
        }
    }

    /// Whether the token with this index is a string.
    fn has_string(&self, index: u32) -> bool
        ensures { result ≡ is_some (string_text self.now index) }
    {
        match self.tokens.get(index as usize) {
            Some(token) => is_string(token.kind),
            None => false,
        }
    }

    /// The value of the string token with this index, after its escapes; none for another token.
    /// Fails only when out of memory.
    pub fn string(&self, alloc: Global, index: u32) -> Result<Option<String>, NoMemory>
        ensures { IfOk result (λ found. option_map string_bytes found ≡ string_at self.now index) }
    {
        if self.has_string(index) {
            let value = self.files.string_value(alloc, self.file, index)?;
            Ok(Some(value))
        } else {
            Ok(None)
        }
    }

    /// Whether the string token with this index has this value; false for another token. Takes no
    /// memory.
    pub fn says(&self, index: u32, value: &[u8]) -> bool
        ensures { result ≡ is_value (string_at self.now index) value.now }
    {
        self.has_string(index) && stands_for(self.get(index), value)
    }
}
