//! Files of a link as checks and descriptors read them: their tokens, their language and version,
//! and what each reference means.
#![tactic(auto)]

mod blocks;
pub mod enum_table;
mod linked;
pub mod scenes;

pub use blocks::{BlockAt, blocks_of};
pub use linked::{CleanLinked, Linked};
pub use proto_names::{Derived, Link};
