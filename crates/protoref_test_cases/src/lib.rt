//! Rows of edits, and whether the workspace does as they say. Tests and a program that tries rows
//! stand on it.
#![tactic(auto)]

mod calls;
mod differences;
mod edited;
mod file_texts;
mod row;
mod step;
mod told;
mod unlike;

pub use calls::{are_texts, edit_of, is_said, open, padded_text};
pub use differences::{difference, difference_of_answers};
pub use row::{Row, Texts, Undo};
pub use step::{Said, Step};
