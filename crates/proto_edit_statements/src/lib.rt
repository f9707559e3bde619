//! A field deleted, an import added or dropped: the least case that refuses it, or its one splice.
#![tactic(auto)]

mod adding;
mod alone;
mod deleting;
mod dropping;
mod fields;
mod import_places;
mod imported;
mod imports;
mod leading;
mod needing;
mod only;
mod options;
mod paths;
mod seeing;
mod splicing;

pub use adding::add_import;
pub use deleting::delete_field;
pub use dropping::drop_import;
