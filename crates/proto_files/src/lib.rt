//! The files of a workspace: their paths, their sources, tokens and trees, and what may be wrong
//! with them.
#![tactic(auto)]

mod copying;
mod files;
pub mod laws;
mod looking;
mod path;
mod paths;
mod reading;
mod setting;
mod stages;
mod text_faults;
mod tokens;
mod words;

pub use files::{Files, are_read};
pub use looking::all_paths;
pub use path::{MAX_PATH_LEN, is_workspace_path};
pub use paths::{MAX_FILES, Paths};
pub use proto_base::{Fault, FaultKind, NoMemory, SchemaFault as FilesFault};
pub use stages::ReadFile;
pub use text_faults::{grammar_error, text_error};
pub use tokens::{fault_at_token, offset_of};
pub use words::Words;
