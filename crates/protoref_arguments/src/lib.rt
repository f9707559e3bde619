//! The command line: which command the words ask for.
#![tactic(auto)]

mod command_line;
mod commands;
mod help;
mod language;
mod request;

pub use command_line::parse_arguments;
pub use request::{Request, UsageError};
