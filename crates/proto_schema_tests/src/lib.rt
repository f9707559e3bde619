//! Tests of linking, compiling and linting schemas, through the public calls alone.
#![tactic(auto)]

#[cfg(test)]
mod all_faults;
#[cfg(test)]
mod allocations;
#[cfg(test)]
mod as_written;
#[cfg(test)]
mod calls;
#[cfg(test)]
mod checks;
#[cfg(test)]
mod compiling;
#[cfg(test)]
mod descriptors;
#[cfg(test)]
mod extensions;
#[cfg(test)]
mod growths;
#[cfg(test)]
mod inputs;
#[cfg(test)]
mod names;
#[cfg(test)]
mod replaced_texts;
