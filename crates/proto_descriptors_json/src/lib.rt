//! The JSON text of descriptors.
#![tactic(auto)]

mod enumeration;
mod field;
mod file;
mod key_order;
mod members;
mod message;
mod options;
mod service;
mod values;

pub use file::{text_of_file, text_of_files};
pub use key_order::keys_rise;
