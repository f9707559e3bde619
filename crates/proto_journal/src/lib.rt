//! The journal of a store: edits that are written down before
//! they are made, and the way back, also from a torn store.
#![tactic(auto)]

mod committing;
mod gathering;
pub mod laws;
mod loading;
mod reading;
mod undoing;
mod writing;

pub use committing::{commit, commit_after};
pub use gathering::sound_files;
pub use loading::{LoadFault, load};
pub use proto_edit::{Change, Edit, Entry, NoMemory, Refusal, Workspace, to_json};
pub use proto_journal_records::{
    JournalFault, Record, State, entry_text, migrate, read_entry, read_records, recover,
};
pub use proto_store::{FolderStore, MemoryStore, ReadingFault, Store, StoreFault, all_files};
pub use reading::{ReadyJournal, ready, ready_journal};
pub use undoing::{undo_last, undo_last_after};
