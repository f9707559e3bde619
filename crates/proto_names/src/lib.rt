//! The link of files: their names, what each file sees, and what each reference means.
#![tactic(auto)]

mod all_references;
mod backlinks;
mod copying;
pub mod laws;
mod link;
mod link_log;
mod made;
mod parts;
mod read_files;
mod references;
mod resolve;
mod scope;
mod updated_imports;
mod updating;
mod whole_link;

pub use link::{DeclaredNames, Link};
pub use made::{Derived, Nothing};
pub use proto_base::{SchemaFault as LinkFault, word_key};
pub use proto_files::are_read;
pub use proto_names_rules::Kind;
pub use proto_names_table::{Meant, RefId, SymbolId};
pub use read_files::all_written;
pub use references::{Lookup, token_of};
pub use resolve::resolved_row;
