//! The link of files.

mod all_faults;
pub(crate) mod calls;
mod clashes;
mod extensions;
mod faults;
mod limits;
mod meanings;
mod option_names;
mod readers;
mod replacing;
mod resolving;
mod sight;
