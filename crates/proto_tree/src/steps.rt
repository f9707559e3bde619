//! Parsing, with a count of the files that were parsed.

ghost use Rattle.std.specs.Prelude.{◌≡◌, ◌⊎◌, ◌+◌, ◌<◌, ◌^◌, IfOk, IfErr, IsErrAnd, MatchResult};
ghost use Rattle.proto_text.specs.Tokens.{AreTokens};
ghost use Rattle.proto_tree.specs.declared.parsing.ParseFault.{ParseFault};
ghost use Rattle.proto_tree.specs.declared.parsing.ParseFault.TheVariants.{NoMemory};
ghost use Rattle.proto_tree.specs.File.{tree_of_file};
ghost use Rattle.proto_tree.specs.Reads.{IsParseFault, IsParseFaultIn, Reads, ReadsIn, is_fault_or_memory, is_fault_or_memory_in};
ghost use Rattle.proto_tree.specs.Tree.{Tree};

use crate::parsing::{ParseFault, parse_as};
use crate::tree::File;
use proto_base::Profile;
use proto_text::{Source, Token};
use std::alloc::Global;
use std::marker::Model;

/// How many files were parsed.
#[derive(Drop)]
pub struct Steps {
    count: u64,
}

impl Model for Steps {
    ghost use Rattle.std.specs.Prelude.{ℕ};

    ghost Value = { ℕ };

    ghost view = { λ s. s.count };
}

impl Steps {
    /// No file so far.
    pub fn new() -> Steps
        ensures { result ≡ 0 }
    {
        Steps { count: 0 }
    }

    /// How many files were parsed.
    pub fn count(&self) -> u64
        ensures { result ≡ self.now }
    {
        self.count
    }
}

/// The tree of a file, from the tokens of its text, as `parse` answers it. The count rises by one,
/// whatever is answered.
pub fn parse_counted(
    alloc: Global,
    source: &Source,
    tokens: &[Token],
    steps: &mut Steps,
) -> Result<File, ParseFault>
    requires tokens { AreTokens source.now tokens.now }
    requires steps { steps.old + 1 < 2 ^ 64 }
    // The answered tree is well-formed and has these tokens, and no more than 32 braces are open at
    // once.
    ensures found { IfOk result (λ f. Reads source.now tokens.now (tree_of_file f)) }
    // There is no other.
    ensures only { (t : Tree) → Reads source.now tokens.now t
        → MatchResult result (λ f. t ≡ tree_of_file f) (λ e. e ≡ NoMemory) }
    // Where there is none, or too many braces are open, which fault it is, and where.
    ensures fault { IfErr result (is_fault_or_memory source.now tokens.now) }
    // There is no other fault.
    ensures only_fault { (f : ParseFault) → IsParseFault source.now tokens.now f
        → IsErrAnd result (λ e. (e ≡ f) ⊎ (e ≡ NoMemory)) }
    ensures counted { steps.new ≡ steps.old + 1 }
{
    parse_counted_as(alloc, source, tokens, Profile::Core, steps)
}

/// The tree of a file of a language, from the tokens of its text, as `parse_as` answers it. The
/// count rises by one, whatever is answered.
pub fn parse_counted_as(
    alloc: Global,
    source: &Source,
    tokens: &[Token],
    profile: Profile,
    steps: &mut Steps,
) -> Result<File, ParseFault>
    requires tokens { AreTokens source.now tokens.now }
    requires steps { steps.old + 1 < 2 ^ 64 }
    // The answered tree is well-formed and has these tokens, and no more than 32 braces are open at
    // once.
    ensures found { IfOk result (λ f. ReadsIn profile source.now tokens.now (tree_of_file f)) }
    // There is no other.
    ensures only { (t : Tree) → ReadsIn profile source.now tokens.now t
        → MatchResult result (λ f. t ≡ tree_of_file f) (λ e. e ≡ NoMemory) }
    // Where there is none, or too many braces are open, which fault it is, and where.
    ensures fault { IfErr result (is_fault_or_memory_in profile source.now tokens.now) }
    // There is no other fault.
    ensures only_fault { (f : ParseFault) → IsParseFaultIn profile source.now tokens.now f
        → IsErrAnd result (λ e. (e ≡ f) ⊎ (e ≡ NoMemory)) }
    ensures counted { steps.new ≡ steps.old + 1 }
{
    steps.count += 1;
    parse_as(alloc, source, tokens, profile)
}
