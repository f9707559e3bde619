//! Frames on a stream, as the base protocol of the Language Server Protocol has them: contents,
//! each after a header that says its length.
#![tactic(auto)]

mod fault;
mod fields;
pub mod laws;
mod reading;
mod writing;

pub use fault::FrameFault;
pub use reading::read_frame;
pub use writing::{WriteFault, write_frame};
