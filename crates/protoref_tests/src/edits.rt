//! The workspace, all its edits, and their journal.

mod allocations;
mod answers;
mod as_written;
mod calls;
mod counts;
mod entries;
mod journal;
mod link_texts;
mod locations;
mod many_files;
mod names_at;
mod occurrences;
mod opening;
mod refused_growths;
mod rows;
mod updated_copies;
mod wrong_rows;
