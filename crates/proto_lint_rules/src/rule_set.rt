//! Sets of rules.

ghost use Rattle.std.specs.Prelude.{◌≡◌, ◌≢◌, true, false};
ghost use Rattle.proto_lint_rules.specs.Rules.{is_chosen};
ghost use Rattle.proto_lint_rules.specs.declared.rule.Rule.{Rule};

use crate::rule::{RULE_COUNT, Rule};

/// A set of rules.
#[derive(Clone, Copy, Debug, PartialEq, Eq)]
pub struct RuleSet {
    chosen: [bool; RULE_COUNT],
}

impl RuleSet {
    /// The set of all rules. Takes no memory.
    pub fn all() -> RuleSet
        ensures { (rule : Rule) → is_chosen result.chosen rule ≡ true }
    {
        RuleSet {
            chosen: [true; RULE_COUNT],
        }
    }

    /// The set of no rule. Takes no memory.
    pub fn none() -> RuleSet
        ensures { (rule : Rule) → is_chosen result.chosen rule ≡ false }
    {
        RuleSet {
            chosen: [false; RULE_COUNT],
        }
    }

    /// Adds a rule to the set, where it may be already; the others stay as they were. Takes no
    /// memory.
    pub fn insert(&mut self, rule: Rule)
        ensures chosen { is_chosen self.new.chosen rule ≡ true }
        ensures others { (other : Rule) → other ≢ rule
            → is_chosen self.new.chosen other ≡ is_chosen self.old.chosen other }
    {
        self.chosen[rule as usize] = true;
    }

    /// Whether the rule is in the set.
    pub fn has(&self, rule: Rule) -> bool
        ensures { result ≡ is_chosen self.now.chosen rule }
    {
        self.chosen[rule as usize]
    }
}
