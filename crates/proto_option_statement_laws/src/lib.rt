//! What a deleted field, an added and a dropped import leave of custom options. All are laws, which
//! do nothing.
#![tactic(auto)]

pub mod laws;
