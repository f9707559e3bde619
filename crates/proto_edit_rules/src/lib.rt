//! The rules of edits: which cases refuse each, what it changes, and what the descriptors become.
//! Definitions alone, for the laws and the code of edits and for the headline.
#![tactic(auto)]
