//! What stands below all else: the table of faults, a fault at a place, out of memory, the language
//! that a file is of, and lists with a log of their changes, which are rolled back without memory.
#![tactic(auto)]

mod changes;
mod fault;
pub mod laws;
mod limits;
mod no_memory;
mod or_no_memory;
mod profile;
mod words;

pub use changes::{Change, change_all_at, change_at, roll_back};
pub use fault::{Fault, FaultKind, SchemaFault};
pub use limits::{MAX_JOURNAL_LEN, MAX_LEN};
pub use no_memory::NoMemory;
pub use or_no_memory::OrNoMemory;
pub use profile::Profile;
pub use words::word_key;
