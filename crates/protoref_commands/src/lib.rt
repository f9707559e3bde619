//! What a command does over a store: its output, its status and its faults.
#![tactic(auto)]

mod answer;
mod beginning;
mod changing;
mod command;
mod kept;
pub mod laws;
mod logging;
mod migrating;
mod opening;
mod recovering;
mod running;
mod telling;

pub use command::Command;
pub use kept::Retained;
pub use proto_journal::{
    Edit, FolderStore, MemoryStore, ReadingFault, Store, StoreFault, all_files,
};
pub use proto_lint::{Rule, RuleSet};
pub use protoref_output::{RunFault, Status, fault_line, write_text};
pub use running::{run, run_keeping};
