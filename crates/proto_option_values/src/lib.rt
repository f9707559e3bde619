//! The words of custom options that may stand for what an edit renames or deletes.
#![tactic(auto)]

mod asked;
mod extensions;
mod file_words;
mod first;
mod fixed;
mod leading;
mod noted;
mod words;

pub use asked::OptionWords;
pub use first::{WordAt, first_option_word, option_value};
pub use fixed::{has_written, is_fixed};
