//! A declaration with the word that its name ends with.

use proto_names_outline::listing::Above;
use proto_names_rules::Kind;
use std::borrow::CowStr;

/// A declaration of a file: what it stands right below, by its index among those of the file, and
/// its last word.
#[derive(Drop)]
pub struct Spelled<'a> {
    /// What it stands right below.
    pub above: Above,
    /// The last word of its full name; a text of its own for a map's entry alone.
    pub word: CowStr<'a>,
    /// What it declares.
    pub kind: Kind,
    /// The token that it stands at, by its index among those of the file.
    pub token: u32,
}
