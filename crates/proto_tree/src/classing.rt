//! The tokens of a text as the grammar sees them.

ghost use Rattle.std.specs.Prelude.{◌≡◌, ◌≤◌, All, IfOk, length};
ghost use Rattle.proto_base.specs.Texts.{text_limit};
ghost use Rattle.proto_text.specs.SourceFacts.{IsSpan};
ghost use Rattle.proto_tree.specs.Reads.{classed_in, place_at};

use crate::class::Lexeme;
use crate::words::{class_as, token_class};
use proto_base::{NoMemory, Profile};
use proto_text::{Source, Token};
use std::alloc::Global;

/// The class of each token, with its index.
pub fn lexemes(
    alloc: Global,
    source: &Source,
    tokens: &[Token],
    profile: Profile,
) -> Result<Vec<Lexeme>, NoMemory>
    requires spans { All (λ t. IsSpan source.now t.span) tokens.now }
    requires few { length tokens.now ≤ text_limit }
    ensures { IfOk result (λ found. found.items ≡ classed_in profile source.now tokens.now) }
{
    let mut found = Vec::with_capacity(alloc, tokens.len())?;
    for (i, token) in tokens.iter().enumerate() {
        let class = class_as(profile, token_class(token.kind, source.text(token.span)));
        found.push(Lexeme {
            class,
            at: i as u32,
        })?;
    }
    Ok(found)
}

/// Where the token with an index begins, or the text ends.
pub fn place(source: &Source, tokens: &[Token], at: usize) -> u32
    ensures { result ≡ place_at source.now tokens.now at }
{
    if at < tokens.len() {
        return tokens[at].span.start;
    }
    source.as_bytes().len() as u32
}
