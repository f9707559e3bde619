//! Positions in a text as editors count them, lines from 0 and columns in units of UTF-8 or UTF-16,
//! the offsets in bytes that they lead to, and splices as the text edits of an editor.
#![tactic(auto)]

mod edits;
mod encoding;
pub mod laws;
mod offsets;
mod position;
mod walk;

pub use edits::{RangeEdit, text_edits};
pub use encoding::Encoding;
pub use offsets::{has_position, have_positions};
pub use position::{Cursor, Position, offset_of};
