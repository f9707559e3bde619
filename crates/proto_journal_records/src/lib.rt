//! The text of the journal: its records, a line each, what may be wrong with a journal, and how a
//! store is recovered in which an entry is open. No schema is needed here.
#![tactic(auto)]

mod fault;
mod journal;
pub mod laws;
mod matching;
mod migrating;
mod putting;
mod reading;
mod record;
mod recovering;
pub mod recovery_laws;
mod restoring;
mod writing;

pub use fault::JournalFault;
pub use journal::{
    last_is_open, read_journal, read_records, second_text, with_record, without_last,
};
pub use migrating::migrate;
pub use reading::read_entry;
pub use record::{Record, RecordParts, State, Version};
pub use recovering::recover;
pub use writing::{entry_text, state_text};
