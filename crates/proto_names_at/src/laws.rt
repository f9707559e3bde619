//! The laws, as functions that do nothing.

ghost use Rattle.proto_names_at.specs.Occurring.{NamesOccur};

/// The name at a token is the one whose occurrences have the token.
pub fn names_occur()
    ensures { NamesOccur }
{}
