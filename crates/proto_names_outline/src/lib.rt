//! What a tree declares and uses.
#![tactic(auto)]

pub mod declaring;
mod enum_listing;
mod extend_listing;
mod field_listing;
pub mod file_listing;
pub mod laws;
pub mod listing;
mod message_listing;
mod option_listing;
mod service_listing;
pub mod wanted;
