//! A machine that is asked over a stream: each message is taken when it has come, and its replies
//! are written before the next one is read.
#![tactic(auto)]

mod buffered;
mod fault;
mod machine;
mod serving;

pub use buffered::Buffered;
pub use fault::{ServeFault, TakeFault};
pub use machine::Machine;
pub use serving::serve;
