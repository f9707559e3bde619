//! Commits, undos and recoveries.

mod allocations;
mod calls;
mod failing;
mod journals;
mod known;
mod rows;
mod three_files;
