//! The word at an offset.

ghost use Rattle.std.specs.Prelude.{◌≡◌, ◌↔◌, ◌≤◌, ℕ, List, Some, IsTrue, length};
ghost use Rattle.proto_base.specs.Texts.{text_limit};
ghost use Rattle.proto_files.specs.FilesRead.{AreRead, ReadOf, read_at};
ghost use Rattle.proto_names_at.specs.Tokens.{AreBegun, IsWordAt, IsWordUpTo, StandApart};

use proto_files::Files;
use proto_text::{Token, TokenKind};

/// How many tokens begin at the offset or before it.
fn begun(tokens: &[Token], offset: usize) -> usize
    requires { StandApart tokens.now }
    ensures { AreBegun tokens.now offset result }
{
    tokens.partition_point(|token| token.span.start as usize <= offset)
}

/// Whether the token is a word that does not end before the offset.
fn is_word_up_to(token: Token, offset: usize) -> bool
    ensures { IsTrue result ↔ IsWordUpTo token offset }
{
    match token.kind {
        TokenKind::Word => offset <= token.span.end as usize,
        TokenKind::Number | TokenKind::Text | TokenKind::Punctuation => false,
    }
}

/// The one of these tokens that is a word and covers the offset; where none does, the word that ends
/// there.
fn word_in(tokens: &[Token], offset: usize) -> Option<u32>
    requires apart { StandApart tokens.now }
    requires few { length tokens.now ≤ text_limit }
    ensures { (index : ℕ) → (result ≡ Some index) ↔ IsWordAt tokens.now offset index }
{
    let count = begun(tokens, offset);
    if count == 0 {
        return None;
    }
    let last = count - 1;
    if is_word_up_to(tokens[last], offset) {
        return Some(last as u32);
    }
    if last == 0 {
        return None;
    }
    // What begins there is no word, but one may end there.
    let before = last - 1;
    if is_word_up_to(tokens[before], offset) {
        return Some(before as u32);
    }
    None
}

/// The word of the file with this number that covers the offset, in bytes from 0; where no word does,
/// the one that ends there, as right before punctuation: the index of its token, from 0. None where
/// no word does either, and where there is no such file. Takes no memory.
pub fn word_at(files: &Files, file: u32, offset: usize) -> Option<u32>
    ensures { (reads : List ReadOf) → AreRead files.now reads → (index : ℕ)
        → (result ≡ Some index) ↔ IsWordAt (read_at reads file).tokens offset index }
{
    if file as usize >= files.len() {
        return None;
    }
    let text = files.source(file).as_bytes();
    if offset > text.len() {
        return None;
    }
    word_in(files.tokens(file), offset)
}
