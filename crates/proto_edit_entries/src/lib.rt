//! What an edit changed, how it is put into files and taken back, and why an edit is refused. No
//! schema is needed here.
#![tactic(auto)]

mod change;
mod edit;
mod entry;
pub mod laws;
mod putting;
mod refusal;

pub use change::{all_turned_round, in_order, one_splice};
pub use edit::Edit;
pub use entry::{Change, Entry};
pub use putting::{ChangedTexts, changed_text, changed_texts, put_all};
pub use refusal::Refusal;
