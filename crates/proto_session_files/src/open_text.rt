//! Texts that the client has open.

/// A text that the client has open.
#[derive(Drop)]
pub struct OpenText {
    /// The path of its file below the root.
    pub path: String,
    /// The URI under which the client has it.
    pub uri: String,
    /// Its version.
    pub version: u64,
    /// The text.
    pub text: String,
}
