//! What requests are answered from.

use crate::home::Home;
use crate::open_text::OpenText;
use proto_base::Profile;
use proto_positions::Encoding;

/// The language of the files, where the client has them, how it counts columns, its open texts, and
/// the files that it sees.
#[derive(Clone, Copy)]
pub struct View<'a> {
    pub profile: Profile,
    pub home: Option<&'a Home>,
    pub encoding: Encoding,
    pub opened: &'a [OpenText],
    pub files: &'a [(String, Vec<u8>)],
}
