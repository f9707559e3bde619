//! All faults of imports, of names and of references, in order.
#![tactic(auto)]

mod clashing;
mod flaw;
mod full_names;
mod import_cycles;
mod importing;
pub mod laws;
mod listings;
mod located;
mod names;
mod ordering;
mod references;
mod resolving;
mod sight;
mod taken;

pub use clashing::name_faults;
pub use importing::import_faults;
pub use ordering::in_order;
pub use references::reference_faults;
