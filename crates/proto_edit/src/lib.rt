//! The workspace: schemas that compile, and edits of them.
#![tactic(auto)]

mod answering;
mod editing;
pub mod laws;
mod workspace;

pub use proto_desc::{Descriptors, FileDescriptor, OpenFault, to_json};
pub use proto_edit_entries::{Change, Edit, Entry, Refusal};
pub use proto_files::{Fault, FaultKind, Files, NoMemory};
pub use proto_names::{Kind, Link, RefId, SymbolId};
pub use proto_tree::Steps;
pub use workspace::Workspace;
