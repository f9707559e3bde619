//! What stands in the descriptors of messages, enums, services and extensions, from their trees and
//! what is read of their file.
#![tactic(auto)]

mod described_entry;
mod described_enum;
mod described_extensions;
mod described_field;
mod described_message;
mod described_names;
mod described_numbers;
mod described_service;
mod described_type;
pub mod laws;

pub use described_enum::push_enum;
pub use described_extensions::push_extensions;
pub use described_message::message_descriptor;
pub use described_names::absolute;
pub use described_service::service_descriptor;
