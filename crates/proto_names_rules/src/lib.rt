//! What names are: what a workspace declares, which files a file sees, what a reference means, and
//! what an edit of its own file or of others does to all this.
#![tactic(auto)]

pub mod edits;
mod full_names;
mod kind;
pub mod laws;
pub mod marks;
pub mod spelling;
pub mod visibility;
mod wants;

pub use full_names::below;
pub use kind::Kind;
pub use wants::Wants;
