//! What a deletion, an added and a dropped import leave of the faults and the descriptors of files,
//! and of whole workspaces. All are laws, which do nothing.
#![tactic(auto)]

pub mod laws;
