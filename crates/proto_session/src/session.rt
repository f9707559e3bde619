//! What a session knows.

ghost use Rattle.std.specs.Prelude.{◌≡◌, option_map, string_bytes};
ghost use Rattle.proto_session.specs.Sessions.{fresh_session, session_of};
ghost use Rattle.proto_session.specs.Steps.{status_of};

use proto_base::Profile;
use proto_positions::Encoding;
use proto_session_files::{Home, OpenText};
use proto_session_told::Told;
use std::alloc::Global;

/// How far a session has come.
#[derive(Clone, Copy, Debug, PartialEq, Eq)]
pub enum Phase {
    /// `initialize` has not come yet.
    Fresh,
    /// It answers.
    Running,
    /// `shutdown` has come.
    ShutDown,
    /// `exit` has come after `shutdown`.
    Ended,
    /// `exit` has come without `shutdown`.
    EndedEarly,
}

/// What a session knows. `specs/Sessions.antt` says what each of these is.
#[derive(Drop)]
pub struct Session {
    pub(crate) profile: Profile,
    pub(crate) phase: Phase,
    pub(crate) word: Option<String>,
    pub(crate) home: Option<Home>,
    pub(crate) encoding: Encoding,
    pub(crate) disk: Vec<(String, Vec<u8>)>,
    pub(crate) is_lost: bool,
    pub(crate) opened: Vec<OpenText>,
    pub(crate) told: Vec<Told>,
    pub(crate) waits: bool,
}

impl Session {
    /// A session that was started in this language with this ROOT. It knows of no file.
    pub fn new(alloc: Global, profile: Profile, word: Option<String>) -> Session
        ensures { session_of result ≡ fresh_session profile (option_map string_bytes word) }
    {
        Session {
            profile,
            phase: Phase::Fresh,
            word,
            home: None,
            encoding: Encoding::Utf16,
            disk: Vec::new(alloc),
            is_lost: false,
            opened: Vec::new(alloc),
            told: Vec::new(alloc),
            waits: false,
        }
    }

    /// The exit status of a program that ends with this session: 0 after `shutdown` and `exit`,
    /// else 1.
    pub fn status(&self) -> u8
        ensures { result ≡ status_of self.now.phase }
    {
        match self.phase {
            Phase::Ended => 0,
            _ => 1,
        }
    }
}
