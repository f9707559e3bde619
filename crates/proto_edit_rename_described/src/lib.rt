//! What a rename leaves of the faults and the descriptors of files. No code needs these laws.
#![tactic(auto)]

pub mod laws;
