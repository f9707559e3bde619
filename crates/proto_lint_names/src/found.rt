//! What rules find in one file.

ghost use Rattle.std.specs.Prelude.{◌≡◌, List, [], ◌∷◌, ◌++◌, map, IfOk, OnErr, OnOk};
ghost use Rattle.std.specs.String.{string_bytes};
ghost use Rattle.proto_names_rules.specs.Forest.{under};
ghost use Rattle.proto_lint_names.specs.Placed as placed;
ghost use Rattle.proto_lint_names.specs.Placed.{found_at, unless};
ghost use Rattle.proto_lint_names.specs.Readings.{reading_of, word_in};
ghost use Rattle.proto_lint_names.specs.Views.{found_of};

use crate::reading::LintFile;
use proto_base::NoMemory;
use proto_lint_rules::Rule;
use proto_names_rules::below;
use std::alloc::Global;
use std::marker::Model;

/// What a rule found in a file: the offset in bytes from 0, the rule, and the name that is printed.
#[derive(Drop)]
pub struct Found {
    pub offset: u32,
    pub rule: Rule,
    pub name: String,
}

/// A rule, and whether the name that it was asked about passes.
#[derive(Clone, Copy)]
pub struct Verdict {
    pub rule: Rule,
    pub passes: bool,
}

/// What the rules found in one file, in the order found.
#[derive(Drop)]
pub struct FileFindings {
    alloc: Global,
    all: Vec<Found>,
}

impl Model for FileFindings {
    ghost Value = { List placed.Found };

    ghost view = { λ f. map found_of f.all.items };
}

/// A name right below another, or outermost where that is empty (where `below` puts a dot too).
/// Fails only when out of memory, here and below.
pub fn under(alloc: Global, scope: &str, word: &str) -> Result<String, NoMemory>
    ensures { IfOk result (λ s. string_bytes s ≡ under scope.now word.now) }
{
    if scope.is_empty() {
        return Ok(String::from_str(alloc, word)?);
    }
    below(alloc, scope, word)
}

impl FileFindings {
    /// No findings yet.
    pub fn new(alloc: Global) -> FileFindings
        ensures { result ≡ [] }
    {
        FileFindings {
            alloc,
            all: Vec::new(alloc),
        }
    }

    /// The findings alone.
    pub(crate) fn into_vec(self) -> Vec<Found>
        ensures { map found_of result.items ≡ self }
    {
        self.all
    }

    /// Adds what a rule found at an offset, with the name that is printed. After running out of
    /// memory nothing is added, here and below.
    pub fn add(&mut self, rule: Rule, offset: u32, name: &str) -> Result<(), NoMemory>
        ensures added { OnOk result (self.new ≡ self.old
            ++ (record { offset = offset; rule = rule; name = name.now }) ∷ []) }
        ensures unchanged { OnErr result (self.new ≡ self.old) }
    {
        let name = String::from_str(self.alloc, name)?;
        self.all.push(Found { offset, rule, name })?;
        Ok(())
    }

    /// Adds a name at a token, unless it passes.
    pub fn add_unless(
        &mut self,
        reading: &LintFile,
        verdict: Verdict,
        token: u32,
        name: &str,
    ) -> Result<(), NoMemory>
        ensures added { OnOk result (self.new ≡ self.old
            ++ map (found_at (reading_of reading.now) verdict.rule)
            (unless verdict.passes token name.now)) }
        ensures unchanged { OnErr result (self.new ≡ self.old) }
    {
        if verdict.passes {
            return Ok(());
        }
        self.add(verdict.rule, reading.offset(token), name)
    }

    /// Adds a name that stands right in a scope, at its own token, unless it passes.
    pub fn add_below_unless(
        &mut self,
        reading: &LintFile,
        verdict: Verdict,
        scope: &str,
        token: u32,
    ) -> Result<(), NoMemory>
        ensures added { OnOk result (self.new ≡ self.old
            ++ map (found_at (reading_of reading.now) verdict.rule) (unless verdict.passes token
            (under scope.now (word_in (reading_of reading.now) token)))) }
        ensures unchanged { OnErr result (self.new ≡ self.old) }
    {
        let Verdict { rule, passes } = verdict;
        if !passes {
            let offset = reading.offset(token);
            let name = under(self.alloc, scope, reading.text(token))?;
            self.all.push(Found { offset, rule, name })?;
        }
        Ok(())
    }
}
