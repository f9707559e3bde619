//! Where files and a journal are kept: the trait, a store in memory and a store in a folder.
#![tactic(auto)]

mod files;
mod folder;
mod locking;
mod looks;
mod memory;
mod mounts;
mod replacing;
mod settling;
mod store;
mod ways;

pub use files::{ReadingFault, all_files};
pub use folder::FolderStore;
pub use memory::MemoryStore;
pub use store::{Store, StoreFault};
