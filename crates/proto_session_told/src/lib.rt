//! What an editor is told of the files that it sees: their faults, or what the lint rules find.
#![tactic(auto)]

mod diagnostics;
pub mod laws;
mod shown;
mod telling;

pub use telling::{Told, add_news, to_be_told};
