//! Lint rules over linked schemas, and what they find: the rules of packages, paths, syntax and
//! imports, and the findings of all rules.
#![tactic(auto)]

mod heads;
mod imports;
pub mod laws;
mod linting;
mod packages;
mod uses;

pub use linting::lint;
pub use proto_base::NoMemory;
pub use proto_lint_names::{Finding, Rule, RuleSet};
