//! Tests of what a language server stands on, through the public calls of its crates alone.
#![tactic(auto)]

#[cfg(test)]
mod allocations;
#[cfg(test)]
mod editors;
#[cfg(test)]
mod expecting;
#[cfg(test)]
mod frames;
#[cfg(test)]
mod messages;
#[cfg(test)]
mod positions;
#[cfg(test)]
mod recordings;
#[cfg(test)]
mod results;
#[cfg(test)]
mod serving;
#[cfg(test)]
mod streams;
#[cfg(test)]
mod text_edits;
#[cfg(test)]
mod uris;
