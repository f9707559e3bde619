//! The extensions of a workspace: what is wrong with their numbers, and with the custom options
//! that are set by their names, which may depend on messages and extensions of other files.
#![tactic(auto)]

mod extended_table;
mod extends;
mod flaws;
pub mod laws;
mod listed;
mod open_table;
mod options;

pub use extends::has_extend;
pub use flaws::workspace_flaws;
pub use options::option_flaws;
