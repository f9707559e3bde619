//! What the program prints, and how a command ends: lines
//! with their places, answers, and writing them whole.
#![tactic(auto)]

mod answer;
mod edit_lines;
mod found_lines;
mod locations;
mod log_lines;
mod place;
mod recovery_lines;
mod reporting;
mod run_fault;
mod schema_lines;
mod status;
mod writing;

pub use answer::{Answer, write_answer};
pub use edit_lines::{journal_line, refusal_line, write_changed};
pub use found_lines::lines_of_findings;
pub use locations::{Location, locations_of_references, path_of, place_of_fault};
pub use log_lines::lines_of_records;
pub use place::{Cursor, Place, place_at};
pub use recovery_lines::{plain_refusal_line, write_migration, write_recovery};
pub use reporting::fault_answer;
pub use run_fault::{RunFault, fault_line};
pub use schema_lines::schema_line;
pub use status::Status;
pub use writing::{OutputFault, write_text};
