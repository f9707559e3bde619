//! Tests of a session of an editor, through the public calls of its crates alone.
#![tactic(auto)]

#[cfg(test)]
mod language_rows;
#[cfg(test)]
mod rows;
#[cfg(test)]
mod turns;
