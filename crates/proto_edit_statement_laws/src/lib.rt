//! Statements that are put into a file and taken out of it, as a field is deleted and an import is
//! added or dropped: what is read of the file afterwards, the changes, which are an entry, when they
//! are refused, and what they leave of declarations, meanings and imports. All are laws, which do
//! nothing.
#![tactic(auto)]

pub mod laws;
