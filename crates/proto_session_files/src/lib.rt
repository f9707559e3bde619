//! The files that an editor sees: those of a folder, with its open texts laid over them; their
//! paths, URIs and positions; and the workspace that they are, where they compile, or their faults.
#![tactic(auto)]

mod changed;
mod compiling;
mod home;
pub mod laws;
mod listing;
mod open_text;
mod places;
mod seeing;
mod view;

pub use compiling::{Good, bring};
pub use home::{Home, find_home, schema_of};
pub use listing::faults_after;
pub use open_text::OpenText;
pub use places::{position_from, position_in, sent_position, uri_at, version_at};
pub use seeing::{closed, is_open, seen, with_open, with_version};
pub use view::View;
