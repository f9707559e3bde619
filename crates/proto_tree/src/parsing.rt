//! From the tokens of a text to its tree.

ghost use Rattle.std.specs.Prelude.{◌≡◌, ◌⊎◌, IfOk, IfErr, IsErrAnd, MatchResult};
ghost use Rattle.proto_text.specs.Tokens.{AreTokens};
ghost use Rattle.proto_tree.specs.declared.parsing.ParseFault.TheVariants.{NoMemory};
ghost use Rattle.proto_tree.specs.File.{tree_of_file};
ghost use Rattle.proto_tree.specs.Reads.{Reads, ReadsIn, IsParseFault, IsParseFaultIn, IsParsed, is_fault_or_memory, is_fault_or_memory_in, fault_offset, fault_number, fault_name};
ghost use Rattle.proto_tree.specs.Tree.{Tree};

use crate::classing::{lexemes, place};
use crate::files::{Unread, file};
use crate::tree::File;
use proto_base::Profile;
use proto_text::{Source, Token};
use std::alloc::Global;
use thiserror::Error;

/// Why a file has no tree. Offsets are in bytes from 0.
#[derive(Clone, Copy, Debug, PartialEq, Eq, Error)]
pub enum ParseFault {
    /// The longest good beginning of the file ends before the token at the offset, or with the
    /// text.
    #[error("no statement of the language, at byte {offset}")]
    Syntax { offset: u32 },
    /// More than 32 braces are open at once, the brace at the offset being the first too many.
    #[error("more than 32 braces open at once, at byte {offset}")]
    TooDeep { offset: u32 },
    /// Memory ran out.
    #[error("no memory")]
    NoMemory,
}

impl ParseFault {
    /// The place of the fault; 0 when out of memory.
    pub fn offset(self) -> u32
        ensures { result ≡ fault_offset self }
    {
        match self {
            ParseFault::Syntax { offset } | ParseFault::TooDeep { offset } => offset,
            ParseFault::NoMemory => 0,
        }
    }

    /// The number of the fault, 8 or 9; 0 when out of memory.
    pub fn number(self) -> u32
        ensures { result ≡ fault_number self }
    {
        match self {
            ParseFault::Syntax { .. } => 8,
            ParseFault::TooDeep { .. } => 9,
            ParseFault::NoMemory => 0,
        }
    }

    /// The name of the fault.
    pub fn name(self) -> &'static str
        ensures { result.now ≡ fault_name self }
    {
        match self {
            ParseFault::Syntax { .. } => "Syntax",
            ParseFault::TooDeep { .. } => "TooDeep",
            ParseFault::NoMemory => "NoMemory",
        }
    }
}

impl From<proto_base::NoMemory> for ParseFault {
    ghost from_gives = { λ _ e. e ≡ NoMemory };

    fn from(_error: proto_base::NoMemory) -> Self {
        ParseFault::NoMemory
    }
}

/// The same, with one clause for all answers.
fn read(
    alloc: Global,
    source: &Source,
    tokens: &[Token],
    profile: Profile,
) -> Result<File, ParseFault>
    requires { AreTokens source.now tokens.now }
    ensures { IsParsed profile source.now tokens.now result }
{
    let _bytes = source.as_bytes();
    let found = lexemes(alloc, source, tokens, profile)?;
    match file(alloc, &found) {
        Ok(file) => Ok(file),
        Err(Unread::Syntax(at)) => Err(ParseFault::Syntax {
            offset: place(source, tokens, at),
        }),
        Err(Unread::TooDeep(at)) => Err(ParseFault::TooDeep {
            offset: place(source, tokens, at),
        }),
        Err(Unread::Memory) => Err(ParseFault::NoMemory),
    }
}

/// The tree of a file of the core language, from the tokens of its text. Where they are not of the
/// grammar, or more than 32 braces are open at once, the answer is that fault, with its offset.
/// Otherwise it fails only when out of memory.
pub fn parse(alloc: Global, source: &Source, tokens: &[Token]) -> Result<File, ParseFault>
    requires { AreTokens source.now tokens.now }
    // The answered tree is well-formed and has these tokens, and no more than 32 braces are open at
    // once.
    ensures found { IfOk result (λ f. Reads source.now tokens.now (tree_of_file f)) }
    // There is no other.
    ensures only { (t : Tree) → Reads source.now tokens.now t
        → MatchResult result (λ f. t ≡ tree_of_file f) (λ e. e ≡ NoMemory) }
    // Where there is none, or too many braces are open, which fault it is, and where.
    ensures fault { IfErr result (is_fault_or_memory source.now tokens.now) }
    // There is no other fault.
    ensures only_fault { (f : ParseFault) → IsParseFault source.now tokens.now f
        → IsErrAnd result (λ e. (e ≡ f) ⊎ (e ≡ NoMemory)) }
{
    parse_as(alloc, source, tokens, Profile::Core)
}

/// The tree of a file of a language, from the tokens of its text; otherwise as `parse`.
pub fn parse_as(
    alloc: Global,
    source: &Source,
    tokens: &[Token],
    profile: Profile,
) -> Result<File, ParseFault>
    requires { AreTokens source.now tokens.now }
    // The answered tree is well-formed and has these tokens, and no more than 32 braces are open at
    // once.
    ensures found { IfOk result (λ f. ReadsIn profile source.now tokens.now (tree_of_file f)) }
    // There is no other.
    ensures only { (t : Tree) → ReadsIn profile source.now tokens.now t
        → MatchResult result (λ f. t ≡ tree_of_file f) (λ e. e ≡ NoMemory) }
    // Where there is none, or too many braces are open, which fault it is, and where.
    ensures fault { IfErr result (is_fault_or_memory_in profile source.now tokens.now) }
    // There is no other fault.
    ensures only_fault { (f : ParseFault) → IsParseFaultIn profile source.now tokens.now f
        → IsErrAnd result (λ e. (e ≡ f) ⊎ (e ≡ NoMemory)) }
{
    read(alloc, source, tokens, profile)
}
