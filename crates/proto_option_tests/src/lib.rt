//! Tests of the words of custom options and of their index, through the public calls alone.
#![tactic(auto)]

#[cfg(test)]
mod calls;
#[cfg(test)]
mod index;
#[cfg(test)]
mod many_files;
#[cfg(test)]
mod names;
#[cfg(test)]
mod words;
