//! What a lint rule finds, what the rules read of a file, and the rules of blocks: names of
//! messages, fields, oneofs, enums, values and services, and methods.
#![tactic(auto)]

mod enums;
mod finding;
mod found;
mod messages;
mod method_types;
mod methods;
mod names;
mod parts;
mod reading;
mod services;
mod shared;
mod walk;

pub use finding::{Finding, add_findings, sorted_findings};
pub use found::{FileFindings, Verdict, under};
pub use method_types::messages_of;
pub use parts::{directory_of, file_name_of, last_part};
pub use proto_lint_rules::{Rule, RuleSet, laws};
pub use reading::LintFile;
pub use shared::Messages;
pub use walk::{Walk, add_blocks};
