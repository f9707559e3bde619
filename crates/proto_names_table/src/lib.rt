//! The names of a workspace in a table, and the numbers of names and references.
#![tactic(auto)]

pub mod filling;
pub mod ids;
pub mod index;
pub mod last_words;
pub mod laws;
pub mod name;
mod packages;
pub mod spelled;
pub mod table;

pub use ids::{Meant, RefId, SymbolId};
