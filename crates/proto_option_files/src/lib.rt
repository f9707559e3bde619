//! Which files may have a custom option with a word.
#![tactic(auto)]

mod option_files;
mod option_keys;

pub use option_files::OptionFiles;
pub use option_keys::options_in;
