//! Lint rules by name, and sets of them.
#![tactic(auto)]

pub mod laws;
mod rule;
mod rule_set;

pub use rule::Rule;
pub use rule_set::RuleSet;
