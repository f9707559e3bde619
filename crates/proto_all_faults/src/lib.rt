//! All faults of the first phase of a workspace that has one, in order: what a language server tells.
#![tactic(auto)]

mod checks;
mod found;
pub mod laws;
mod links;
mod listing;
mod paths;
mod texts;

pub use links::file_faults;
pub use listing::{faults, faults_as};
pub use proto_base::{Fault, FaultKind, NoMemory};
