//! The names of edited files, taken out of a table and put in again, with a way back that takes no
//! memory; whether edited files import what they imported, and what they import now; and what is
//! known of all files once some are linked anew.
#![tactic(auto)]

pub mod kept_imports;
pub mod laws;
pub mod name_log;
mod not_updated;
pub mod renewal;
pub mod renewed_names;

pub use not_updated::NotUpdated;
