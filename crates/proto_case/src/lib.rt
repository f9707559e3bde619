//! How names are written: lower snake, upper snake, Pascal, camel, and versions of packages.
#![tactic(auto)]

mod camel_case;
mod cases;
mod digest;
mod json_names;
mod map_entries;
mod versions;

pub use camel_case::camel_from;
pub use cases::{is_lower_snake, is_pascal, is_upper_snake, upper};
pub use digest::camel_digest;
pub use json_names::written_or;
pub use map_entries::entry_name;
pub use versions::is_version;
