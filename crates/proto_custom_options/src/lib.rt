//! The custom options of a file: the element that has each, its name, and the words of its path and of its value.
#![tactic(auto)]

mod custom_options;
mod gather;
pub mod laws;
mod option_words;
mod options_messages;

pub use custom_options::{CustomAt, customs};
pub use option_words::custom_words;
pub use options_messages::is_options_message;
