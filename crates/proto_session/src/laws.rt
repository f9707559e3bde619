//! Laws of a session. None of these does anything.

ghost use Rattle.proto_session.specs.Laws.{RunsAreSound, RunsAreTold, TurnsAreSound, TurnsAreTold};

use proto_session_files::laws::open_texts_are_seen;

/// After each turn that no message follows, the client was told what is to be told of the files
/// that it sees; and so at any time of a run, unless there may be more to tell.
pub fn turns_are_told()
    ensures turns { TurnsAreTold }
    ensures runs { RunsAreTold }
{}

/// No two texts are ever open at one path, each is at the path of the schema that its URI names, and
/// all files are read in the language with which the session was started.
pub fn sessions_are_sound()
    ensures turns { TurnsAreSound }
    ensures runs { RunsAreSound }
{
    open_texts_are_seen();
}
