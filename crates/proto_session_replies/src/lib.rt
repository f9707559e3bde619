//! What is replied to an editor's requests about the files that it sees.
#![tactic(auto)]

mod offering;
mod reply;
mod requesting;
mod sentences;
mod symbols;

pub use offering::actions_reply;
pub use reply::{Reply, failure, nameless_failure, one, reply_message};
pub use requesting::{definition_reply, prepared_reply, references_reply, rename_reply};
pub use sentences::{LOST, NO_MEMORY};
pub use symbols::symbols_reply;
