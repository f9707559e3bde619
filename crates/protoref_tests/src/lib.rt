//! Tests of the workspace, of all edits, of their journal and of the program, through the public
//! calls of their crates alone.
#![tactic(auto)]

#[cfg(test)]
mod as_written;
#[cfg(test)]
mod call_counts;
#[cfg(test)]
mod calls;
#[cfg(test)]
mod command_lines;
#[cfg(test)]
mod compiling;
#[cfg(test)]
mod edits;
#[cfg(test)]
mod full;
#[cfg(test)]
mod journals;
#[cfg(test)]
mod migrations;
#[cfg(test)]
mod pipe;
#[cfg(test)]
mod recoveries;
#[cfg(test)]
mod roots;
#[cfg(test)]
#[cfg(test)]
#[cfg(test)]
mod stops;
#[cfg(test)]
mod stores;
#[cfg(test)]
mod three_files;
#[cfg(test)]
mod turns;
