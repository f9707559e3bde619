//! Tests of what needs no link, through the public calls of its crates alone: names, texts, trees,
//! files, the JSON text of descriptors, lists that are kept over edits, stores, and the journals
//! that they hold.
#![tactic(auto)]

#[cfg(test)]
mod allocations;
#[cfg(test)]
mod as_written;
#[cfg(test)]
mod calls;
#[cfg(test)]
mod copies;
#[cfg(test)]
mod expect;
#[cfg(test)]
mod files;
#[cfg(test)]
mod files_as_written;
#[cfg(test)]
mod folders;
#[cfg(test)]
mod json;
#[cfg(test)]
mod kept_lists;
#[cfg(test)]
mod listings;
#[cfg(test)]
mod memory;
#[cfg(test)]
mod names;
#[cfg(test)]
mod records;
#[cfg(test)]
mod sharing;
#[cfg(test)]
mod steps;
#[cfg(test)]
mod text;
#[cfg(test)]
mod tree;
