//! What a rename is, over the whole language: what it aims at, which words it changes, when it is
//! refused, what it leaves of files, trees and names, and which roles the tokens have that it
//! changes. No code needs these laws.
#![tactic(auto)]

pub mod laws;
