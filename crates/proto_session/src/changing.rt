//! What a message changes of a session.

ghost use Rattle.std.specs.Prelude.{◌≡◌, true, Some, map, option_map};
ghost use Rattle.std.specs.Option.{option_map_or};
ghost use Rattle.proto_base.specs.GivenFiles.{files_of_as};
ghost use Rattle.proto_session.specs.Changes.{changed, no_change};
ghost use Rattle.proto_session.specs.Sessions.{session_of};
ghost use Rattle.proto_session_files.specs.Views.{home_view, open_of};

use crate::session::{Phase, Session};
use proto_positions::Encoding;
use proto_session_files::{Home, OpenText};

/// What a message changes of a session, before the client is told of its files.
#[derive(Drop)]
pub(crate) struct Change {
    pub(crate) phase: Phase,
    pub(crate) begun: Option<Begun>,
    pub(crate) disk: Option<Vec<(String, Vec<u8>)>>,
    pub(crate) is_lost: bool,
    pub(crate) opened: Option<Vec<OpenText>>,
    pub(crate) waits: bool,
}

/// What `initialize` has settled.
#[derive(Drop)]
pub(crate) struct Begun {
    pub(crate) home: Option<Home>,
    pub(crate) encoding: Encoding,
}

/// What a message makes of a session, before the client is told of its files: what changes, and
/// what is replied.
#[derive(Drop)]
pub(crate) struct Outcome {
    pub(crate) change: Change,
    pub(crate) replies: Vec<Vec<u8>>,
}

impl Change {
    /// Nothing changes.
    pub(crate) fn none(session: &Session) -> Change
        ensures { result ≡ no_change session.now }
    {
        Change {
            phase: session.phase,
            begun: None,
            disk: None,
            is_lost: session.is_lost,
            opened: None,
            waits: session.waits,
        }
    }

    /// Another phase, and nothing else.
    pub(crate) fn of_phase(session: &Session, phase: Phase) -> Change
        ensures { result ≡ record (no_change session.now) { phase = phase } }
    {
        let mut change = Change::none(session);
        change.phase = phase;
        change
    }

    /// Other open texts, so that there may be more to tell.
    pub(crate) fn of_opened(session: &Session, opened: Vec<OpenText>) -> Change
        ensures { result
            ≡ record (no_change session.now) { opened = Some opened; waits = true } }
    {
        let mut change = Change::none(session);
        change.opened = Some(opened);
        change.waits = true;
        change
    }
}

/// The files of the folder after a change.
pub(crate) fn disk_after<'a>(session: &'a Session, change: &'a Change) -> &'a [(String, Vec<u8>)]
    ensures { files_of_as session.now.profile result.now
        ≡ (changed (session_of session.now) change.now).disk }
{
    match &change.disk {
        Some(disk) => disk.as_slice(),
        None => session.disk.as_slice(),
    }
}

/// The open texts after a change.
pub(crate) fn opened_after<'a>(session: &'a Session, change: &'a Change) -> &'a [OpenText]
    ensures { map open_of result.now ≡ (changed (session_of session.now) change.now).opened }
{
    match &change.opened {
        Some(opened) => opened.as_slice(),
        None => session.opened.as_slice(),
    }
}

/// The home after a change.
pub(crate) fn home_after<'a>(session: &'a Session, change: &'a Change) -> Option<&'a Home>
    ensures { option_map (λ h. home_view h.now) result
        ≡ (changed (session_of session.now) change.now).home }
{
    match &change.begun {
        Some(begun) => begun.home.as_ref(),
        None => session.home.as_ref(),
    }
}

/// How columns count after a change.
pub(crate) fn encoding_after(session: &Session, change: &Change) -> Encoding
    ensures { result ≡ (changed (session_of session.now) change.now).encoding }
{
    match &change.begun {
        Some(begun) => begun.encoding,
        None => session.encoding,
    }
}

// Puts what `initialize` has settled into a session.
fn begin(session: &mut Session, begun: Option<Begun>)
    ensures { session_of session.new ≡ record (session_of session.old) {
      home = option_map_or (λ b. option_map home_view b.home) begun
          (session_of session.old).home;
      encoding = option_map_or (λ b. b.encoding) begun session.old.encoding;
    } }
{
    if let Some(begun) = begun {
        session.home = begun.home;
        session.encoding = begun.encoding;
    }
}

fn put_disk(session: &mut Session, disk: Option<Vec<(String, Vec<u8>)>>)
    ensures { session_of session.new ≡ record (session_of session.old) {
      disk = option_map_or (λ d. files_of_as session.old.profile d.items) disk
          (session_of session.old).disk;
    } }
{
    if let Some(disk) = disk {
        session.disk = disk;
    }
}

fn put_opened(session: &mut Session, opened: Option<Vec<OpenText>>)
    ensures { session_of session.new ≡ record (session_of session.old) {
      opened = option_map_or (λ o. map open_of o.items) opened
          (session_of session.old).opened;
    } }
{
    if let Some(opened) = opened {
        session.opened = opened;
    }
}

/// Makes a change. Takes no memory.
pub(crate) fn make(session: &mut Session, change: Change)
    ensures { session_of session.new ≡ changed (session_of session.old) change }
{
    session.phase = change.phase;
    begin(session, change.begun);
    put_disk(session, change.disk);
    session.is_lost = change.is_lost;
    put_opened(session, change.opened);
    session.waits = change.waits;
}
