//! A session of an editor: what each of its messages makes of it, and the server that takes them.
#![tactic(auto)]

mod answering;
mod changing;
pub mod laws;
mod notifying;
mod reading;
mod server;
mod session;

pub use proto_session_files::{Home, OpenText};
pub use proto_session_told::Told;
pub use reading::{Folders, ReadOnly, read_folder};
pub use server::Server;
pub use session::{Phase, Session};
