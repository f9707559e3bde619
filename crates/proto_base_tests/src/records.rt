//! Lines and journals.

mod allocations;
mod calls;
mod faults;
mod journals;
mod lines;
mod migrations;
