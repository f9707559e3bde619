//! What a rename leaves of custom options. No code needs these laws.
#![tactic(auto)]

pub mod laws;
