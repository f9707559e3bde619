//! The tokens of a text.

ghost use Rattle.std.specs.Prelude.{◌≡◌, ◌⊎◌, ◌+◌, ◌<◌, ◌^◌, ◌++◌, All, OnOk, ℕ, List, IfOk, IfErr, IsErrAnd, MatchResult};
ghost use Rattle.proto_text.specs.declared.fault.LexFault.{LexFault};
ghost use Rattle.proto_text.specs.declared.fault.TextFault.TheVariants as TextFault;
ghost use Rattle.proto_text.specs.Pieces.{Piece};
ghost use Rattle.proto_text.specs.SourceFacts.{IsSpan};
ghost use Rattle.proto_base.specs.declared.profile.Profile.TheVariants as Profiles;
ghost use Rattle.proto_text.specs.Profiles.{may_begin, IsPieces, IsPiecesIn};
ghost use Rattle.proto_text.specs.Tokens.{token_at, tokens_from, AreTokens, AreTokensIn, IsFaultAt, IsFaultIn, IsLexError, IsLexErrorIn, IsLexed, text_fault_of};

use crate::fault::{LexFault, TextFault};
use crate::kind::{PieceKind, TokenKind};
use crate::scan::{Stop, piece};
use crate::source::{Source, Span};
use proto_base::Profile;
use std::alloc::Global;

/// A token: its kind, and where its text stands.
#[derive(Clone, Copy, Debug, PartialEq, Eq)]
pub struct Token {
    /// What kind of token it is.
    pub kind: TokenKind,
    /// Where its text stands.
    pub span: Span,
}

// Adds the token of a piece, if it is one.
fn add_token(
    tokens: &mut Vec<Token>,
    kind: PieceKind,
    start: u32,
    len: u32,
) -> Result<(), TextFault>
    requires { start + len < 2 ^ 32 }
    ensures ok { OnOk result (tokens.new.items ≡ tokens.old.items ++ token_at kind start len) }
    ensures err { IfErr result (λ e. e ≡ TextFault.NoMemory) }
{
    if let PieceKind::Solid(kind) = kind {
        let end = start + len;
        tokens.push(Token {
            kind,
            span: Span { start, end },
        })?;
    }
    Ok(())
}

fn fault_at(offset: u32, stop: Stop) -> TextFault
    ensures { result ≡ text_fault_of offset stop }
{
    match stop {
        Stop::Fault(fault) => TextFault::At { offset, fault },
        Stop::NoMemory => TextFault::NoMemory,
    }
}

/// Whether a piece of the language may begin so.
fn may_begin(profile: Profile, rest: &[u8]) -> bool
    ensures { result ≡ may_begin profile rest.now }
{
    match profile {
        Profile::AsWritten => true,
        Profile::Core => match rest {
            [first, ..] => *first != b':',
            [] => true,
        },
    }
}

fn tokens_of(alloc: Global, source: &Source, profile: Profile) -> Result<Vec<Token>, TextFault>
    ensures { IsLexed profile source.now result }
{
    // With the space around it a token mostly has more than four bytes.
    let mut tokens = Vec::with_capacity(alloc, source.as_bytes().len() / 4)?;
    let mut rest = source.as_bytes();
    let mut at: u32 = 0;
    while !rest.is_empty() {
        if !may_begin(profile, rest) {
            return Err(fault_at(at, Stop::Fault(LexFault::BadChar)));
        }
        let (kind, len) = match piece(alloc, rest) {
            Ok(found) => found,
            Err(stop) => return Err(fault_at(at, stop)),
        };
        add_token(&mut tokens, kind, at, len as u32)?;
        let (_, after) = rest.split_at(len);
        rest = after;
        at += len as u32;
    }
    tokens.shrink_to_fit();
    Ok(tokens)
}

/// The tokens of the text in the core language, in order, each with the span of its text.
/// A text that is not whole white space, comments and tokens is refused, at the first offset at
/// which none begins that is whole and allowed; else it fails only when out of memory.
pub fn lex(alloc: Global, source: &Source) -> Result<Vec<Token>, TextFault>
    // The text has pieces, and these are their tokens.
    ensures tokens { IfOk result (λ tokens. AreTokens source.now tokens.items) }
    // The core language has each of the pieces.
    ensures allowed { IfOk result (λ tokens. AreTokensIn Profiles.Core source.now tokens.items) }
    // Each can be asked for its text.
    ensures spans { IfOk result (λ tokens. All (λ t. IsSpan source.now t.span) tokens.items) }
    // Of whatever pieces the text has, these are the tokens.
    ensures only { (ps : List Piece) → IsPieces source.now ps
        → MatchResult result
        (λ tokens. tokens.items ≡ tokens_from 0 ps)
        (λ e. e ≡ TextFault.NoMemory) }
    // Whole pieces stand before the fault, and none begins at it.
    ensures fault { IfErr result (λ e. IsLexError source.now e) }
    // There is no other fault.
    ensures only_fault { (offset : ℕ) (fault : LexFault) → IsFaultAt source.now offset fault
        → IsErrAnd result (λ e. (e ≡ TextFault.At offset fault) ⊎ (e ≡ TextFault.NoMemory)) }
{
    lex_as(alloc, source, Profile::Core)
}

/// The tokens of the text in a language, in order, each with the span of its text.
/// A text that is not whole white space, comments and tokens of the language is refused, at the
/// first offset at which none begins that is whole and allowed; else it fails only when out of
/// memory.
pub fn lex_as(alloc: Global, source: &Source, profile: Profile) -> Result<Vec<Token>, TextFault>
    // The text has pieces, and these are their tokens.
    ensures tokens { IfOk result (λ tokens. AreTokens source.now tokens.items) }
    // The language has each of the pieces.
    ensures allowed { IfOk result (λ tokens. AreTokensIn profile source.now tokens.items) }
    // Each can be asked for its text.
    ensures spans { IfOk result (λ tokens. All (λ t. IsSpan source.now t.span) tokens.items) }
    // Of whatever pieces of the language the text has, these are the tokens.
    ensures only { (ps : List Piece) → IsPiecesIn profile source.now ps
        → MatchResult result
        (λ tokens. tokens.items ≡ tokens_from 0 ps)
        (λ e. e ≡ TextFault.NoMemory) }
    // Whole pieces of the language stand before the fault, and none begins at it.
    ensures fault { IfErr result (λ e. IsLexErrorIn profile source.now e) }
    // There is no other fault.
    ensures only_fault { (offset : ℕ) (fault : LexFault) → IsFaultIn profile source.now offset fault
        → IsErrAnd result (λ e. (e ≡ TextFault.At offset fault) ⊎ (e ≡ TextFault.NoMemory)) }
{
    tokens_of(alloc, source, profile)
}
