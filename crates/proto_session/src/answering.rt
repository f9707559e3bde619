//! Requests.

ghost use Rattle.std.specs.Prelude.{◌≡◌, [], ◌∷◌, IfOk, option_map, string_bytes};
ghost use Rattle.proto_messages.specs.Messages.{id_view, initialize, request_view};
ghost use Rattle.proto_serving.specs.Serving.{texts};
ghost use Rattle.proto_session.specs.Answering.{IsAnsweredIn, IsEditAnswered, IsEditReply, IsFailed, IsFreshReply, IsNameReply, IsRunningReply};
ghost use Rattle.proto_session.specs.Changes.{changed};
ghost use Rattle.proto_session.specs.Sessions.{session_of, view_of};
ghost use Rattle.proto_session.specs.Steps.{IsRequestTaken, agreed, sent_encoding};
ghost use Rattle.proto_session_files.specs.Views.{view_at};
ghost use Rattle.proto_session_replies.specs.Replies.{reply_text};

use crate::changing::{
    Begun, Change, Outcome, disk_after, encoding_after, home_after, opened_after,
};
use crate::notifying::with_disk;
use crate::reading::Folders;
use crate::session::{Phase, Session};
use proto_base::NoMemory;
use proto_edit::Workspace;
use proto_messages::{Answer, ErrorCode, Id, PositionEncoding, Request};
use proto_positions::Encoding;
use proto_session_files::{View, find_home, seen};
use proto_session_replies::{
    LOST, NO_MEMORY, Reply, actions_reply, definition_reply, failure, one, prepared_reply,
    references_reply, rename_reply, reply_message, symbols_reply,
};
use proto_store::ReadingFault;
use std::alloc::Global;

// What a request changes, and its reply.
#[derive(Drop)]
struct Answered {
    change: Change,
    reply: Reply,
}

// A request that fails, and nothing changes.
fn failed(
    alloc: Global,
    session: &Session,
    code: ErrorCode,
    text: &str,
) -> Result<Answered, NoMemory>
    ensures { IfOk result (λ a. IsFailed (session_of session.now) code text.now
        (changed (session_of session.now) a.change) a.reply) }
{
    Ok(Answered {
        change: Change::none(session),
        reply: failure(alloc, code, text)?,
    })
}

// A reply, and nothing changes.
fn unchanged(session: &Session, reply: Reply) -> Answered
    ensures same { changed (session_of session.now) result.change ≡ session_of session.now }
    ensures reply { result.reply ≡ reply }
{
    Answered {
        change: Change::none(session),
        reply,
    }
}

fn agreed(offers_utf8: bool) -> Encoding
    ensures { result ≡ agreed offers_utf8 }
{
    if offers_utf8 {
        Encoding::Utf8
    } else {
        Encoding::Utf16
    }
}

fn sent_encoding(encoding: Encoding) -> PositionEncoding
    ensures { result ≡ sent_encoding encoding }
{
    match encoding {
        Encoding::Utf8 => PositionEncoding::Utf8,
        Encoding::Utf16 => PositionEncoding::Utf16,
    }
}

// The text of a word that may be there.
fn as_text(word: &Option<String>) -> Option<&str>
    ensures { option_map (λ w. w.now) result ≡ option_map string_bytes word.now }
{
    match word {
        Some(word) => Some(word.as_str()),
        None => None,
    }
}

fn initialized(
    alloc: Global,
    session: &Session,
    root: &Option<String>,
    offers_utf8: bool,
) -> Result<Answered, NoMemory>
    ensures { IfOk result (λ a. IsFreshReply (session_of session.now)
        (initialize (option_map string_bytes root.now) offers_utf8)
        (changed (session_of session.now) a.change) a.reply) }
{
    let home = find_home(alloc, as_text(&session.word), as_text(root))?;
    let encoding = agreed(offers_utf8);
    let mut change = Change::of_phase(session, Phase::Running);
    change.begun = Some(Begun { home, encoding });
    change.waits = true;
    let reply = Reply::Result(Answer::Capabilities(sent_encoding(encoding)));
    Ok(Answered { change, reply })
}

// What is asked before `initialize`.
fn fresh(alloc: Global, session: &Session, asked: &Request) -> Result<Answered, NoMemory>
    ensures { IfOk result (λ a. IsFreshReply (session_of session.now) (request_view asked.now)
        (changed (session_of session.now) a.change) a.reply) }
{
    match asked {
        Request::Initialize(root, offers_utf8) => {
            initialized(alloc, session, root, *offers_utf8)
        }
        _ => failed(
            alloc,
            session,
            ErrorCode::ServerNotInitialized,
            "initialize has not come yet",
        ),
    }
}

// A request about what is seen now.
fn name_reply(
    alloc: Global,
    good: &mut Option<Workspace>,
    view: &View,
    asked: &Request,
) -> Result<Reply, NoMemory>
    ensures { IfOk result (IsNameReply (view_at view.now) (request_view asked.now)) }
{
    match asked {
        Request::Definition(at) => definition_reply(alloc, good, view, at),
        Request::References(at, declared) => references_reply(alloc, good, view, at, *declared),
        Request::DocumentSymbol(uri) => symbols_reply(alloc, view, uri.as_str()),
        Request::PrepareRename(at) => prepared_reply(alloc, good, view, at),
        _ => Ok(Reply::Result(Answer::Null)),
    }
}

fn named(
    alloc: Global,
    session: &Session,
    good: &mut Option<Workspace>,
    asked: &Request,
) -> Result<Answered, NoMemory>
    ensures reply { IfOk result (λ a. IsNameReply (view_of (session_of session.now))
        (request_view asked.now) a.reply) }
    ensures same { IfOk result (λ a. changed (session_of session.now) a.change
        ≡ session_of session.now) }
{
    let files = seen(alloc, session.disk.as_slice(), session.opened.as_slice())?;
    let view = View {
        profile: session.profile,
        home: session.home.as_ref(),
        encoding: session.encoding,
        opened: session.opened.as_slice(),
        files: files.as_slice(),
    };
    let reply = name_reply(alloc, good, &view, asked)?;
    Ok(unchanged(session, reply))
}

// A request for edits of what is seen now.
fn edit_reply(
    alloc: Global,
    good: &mut Option<Workspace>,
    view: &View,
    asked: &Request,
) -> Result<Reply, NoMemory>
    ensures { IfOk result (IsEditReply (view_at view.now) (request_view asked.now)) }
{
    match asked {
        Request::Rename(at, to) => rename_reply(alloc, good, view, at, to.as_str()),
        Request::CodeAction(uri, range) => {
            actions_reply(alloc, good, view, uri.as_str(), *range)
        }
        _ => Ok(Reply::Result(Answer::Null)),
    }
}

// The edits of what is seen after a change.
fn edited_after(
    alloc: Global,
    session: &Session,
    good: &mut Option<Workspace>,
    change: Change,
    asked: &Request,
) -> Result<Answered, NoMemory>
    ensures change { IfOk result (λ a. a.change ≡ change) }
    ensures reply { IfOk result (λ a. IsEditReply
        (view_of (changed (session_of session.now) change)) (request_view asked.now) a.reply) }
{
    let opened = opened_after(session, &change);
    let files = seen(alloc, disk_after(session, &change), opened)?;
    let view = View {
        profile: session.profile,
        home: home_after(session, &change),
        encoding: encoding_after(session, &change),
        opened,
        files: files.as_slice(),
    };
    let reply = edit_reply(alloc, good, &view, asked)?;
    Ok(Answered { change, reply })
}

// Edits, before which the folder is read.
fn edited<F: Folders>(
    alloc: Global,
    session: &Session,
    folders: &F,
    good: &mut Option<Workspace>,
    asked: &Request,
) -> Result<Answered, NoMemory>
    ensures { IfOk result (λ a. IsEditAnswered (F.holds folders.now) (session_of session.now)
        (request_view asked.now) (changed (session_of session.now) a.change) a.reply) }
{
    let Some(home) = &session.home else {
        return failed(alloc, session, ErrorCode::RequestFailed, LOST);
    };
    match folders.read_all(alloc, session.profile, home.folder.as_slice()) {
        Ok(files) => {
            let change = with_disk(session, Change::none(session), files);
            edited_after(alloc, session, good, change, asked)
        }
        Err(ReadingFault::Store) => failed(alloc, session, ErrorCode::RequestFailed, LOST),
        Err(ReadingFault::NoMemory) => Err(NoMemory),
    }
}

// What is asked while the session runs.
fn running<F: Folders>(
    alloc: Global,
    session: &Session,
    folders: &F,
    good: &mut Option<Workspace>,
    asked: &Request,
) -> Result<Answered, NoMemory>
    ensures { IfOk result (λ a. IsRunningReply (F.holds folders.now) (session_of session.now)
        (request_view asked.now) (changed (session_of session.now) a.change) a.reply) }
{
    match asked {
        Request::Initialize(_, _) => {
            let text = "initialize has come before";
            failed(alloc, session, ErrorCode::InvalidRequest, text)
        }
        Request::Shutdown => Ok(Answered {
            change: Change::of_phase(session, Phase::ShutDown),
            reply: Reply::Result(Answer::Null),
        }),
        Request::Rename(_, _) => edited(alloc, session, folders, good, asked),
        Request::CodeAction(_, _) => edited(alloc, session, folders, good, asked),
        Request::UnknownMethod => {
            let text = "the method is not known";
            failed(alloc, session, ErrorCode::MethodNotFound, text)
        }
        Request::InvalidParams => {
            let text = "the parameters are not as they have to be";
            failed(alloc, session, ErrorCode::InvalidParams, text)
        }
        _ => named(alloc, session, good, asked),
    }
}

fn answered_in_phase<F: Folders>(
    alloc: Global,
    session: &Session,
    folders: &F,
    good: &mut Option<Workspace>,
    asked: &Request,
) -> Result<Answered, NoMemory>
    ensures { IfOk result (λ a. IsAnsweredIn (F.holds folders.now) (session_of session.now)
        (request_view asked.now) (changed (session_of session.now) a.change) a.reply) }
{
    match session.phase {
        Phase::Fresh => fresh(alloc, session, asked),
        Phase::Running => running(alloc, session, folders, good, asked),
        Phase::ShutDown | Phase::Ended | Phase::EndedEarly => {
            let text = "the server is shut down";
            failed(alloc, session, ErrorCode::InvalidRequest, text)
        }
    }
}

// A reply under the id of its request.
fn with_id(alloc: Global, id: &Id, answered: Answered) -> Result<Outcome, NoMemory>
    ensures change { IfOk result (λ o. o.change ≡ answered.change) }
    ensures reply { IfOk result (λ o. texts o.replies.items
        ≡ reply_text (id_view id.now) answered.reply ∷ []) }
{
    let message = reply_message(alloc, id, &answered.reply)?;
    let replies = one(alloc, message)?;
    Ok(Outcome {
        change: answered.change,
        replies,
    })
}

// What a request makes of a session, where memory suffices.
fn replied<F: Folders>(
    alloc: Global,
    session: &Session,
    folders: &F,
    good: &mut Option<Workspace>,
    id: &Id,
    asked: &Request,
) -> Result<Outcome, NoMemory>
    ensures { IfOk result (λ o. IsRequestTaken (F.holds folders.now) (session_of session.now)
        (id_view id.now) (request_view asked.now)
        (changed (session_of session.now) o.change) (texts o.replies.items)) }
{
    let answered = answered_in_phase(alloc, session, folders, good, asked)?;
    with_id(alloc, id, answered)
}

/// What a request makes of a session. Out of memory its reply says so, and nothing changes; it
/// fails only where that reply finds no memory itself.
pub(crate) fn requested<F: Folders>(
    alloc: Global,
    session: &Session,
    folders: &F,
    good: &mut Option<Workspace>,
    id: &Id,
    asked: &Request,
) -> Result<Outcome, NoMemory>
    ensures { IfOk result (λ o. IsRequestTaken (F.holds folders.now) (session_of session.now)
        (id_view id.now) (request_view asked.now)
        (changed (session_of session.now) o.change) (texts o.replies.items)) }
{
    match replied(alloc, session, folders, good, id, asked) {
        Ok(outcome) => Ok(outcome),
        Err(NoMemory) => {
            let failed = failed(alloc, session, ErrorCode::RequestFailed, NO_MEMORY)?;
            with_id(alloc, id, failed)
        }
    }
}
