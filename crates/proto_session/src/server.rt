//! The server: it takes messages, answers them, and tells its client of the files.

ghost use Rattle.std.specs.Prelude.{◌≡◌, ◌++◌, [], IfErr, IfOk, OnOk, Some, map, option_map, string_bytes};
ghost use Rattle.proto_messages.specs.Messages.{NotificationOf, message_view, notification};
ghost use Rattle.proto_messages.specs.Reading.{IsMessageOf};
ghost use Rattle.proto_serving.specs.Serving.{texts};
ghost use Rattle.proto_serving.specs.declared.fault.TakeFault.TheVariants.{Refused};
ghost use Rattle.proto_session.specs.Changes.{changed, told_after};
ghost use Rattle.proto_session.specs.Sessions.{SessionOf, fresh_session, session_of, view_of};
ghost use Rattle.proto_session.specs.Steps.{IsMessageTaken, IsRefused, IsRefusedWhile, IsTurn, IsTurnOf, has_ended, is_time, status_of};
ghost use Rattle.proto_session_replies.specs.Replies.{nameless_failure};
ghost use Rattle.proto_session_told.specs.Telling.{IsToldOf, news, told_of};

use crate::answering::requested;
use crate::changing::{
    Change, Outcome, disk_after, encoding_after, home_after, make, opened_after,
};
use crate::notifying::notified;
use crate::reading::Folders;
use crate::session::{Phase, Session};
use proto_base::{NoMemory, Profile};
use proto_edit::Workspace;
use proto_messages::{ErrorCode, Message, read_message};
use proto_serving::{Machine, TakeFault};
use proto_session_files::{Good, View, seen};
use proto_session_replies::nameless_failure;
use proto_session_told::{Told, add_news, to_be_told};
use std::alloc::Global;

/// A server of one client, over folders that it only reads.
#[derive(Drop)]
pub struct Server<F: Folders + Drop> {
    pub(crate) session: Session,
    pub(crate) folders: F,
    pub(crate) good: Good,
}

impl<F: Folders + Drop> Server<F> {
    /// A server that was started in this language with this ROOT, over these folders. It knows of no
    /// file.
    pub fn new(alloc: Global, profile: Profile, word: Option<String>, folders: F) -> Server<F>
        ensures session { session_of result.session
            ≡ fresh_session profile (option_map string_bytes word) }
        ensures folders { result.folders ≡ folders }
    {
        Server {
            session: Session::new(alloc, profile, word),
            folders,
            good: Good::new(),
        }
    }

    /// The exit status of a program that ends with this server: 0 after `shutdown` and `exit`, else
    /// 1.
    pub fn status(&self) -> u8
        ensures { result ≡ status_of self.now.session.phase }
    {
        self.session.status()
    }

    /// Frees it. A program that drops it in another way proves again how a workspace is dropped.
    pub fn release(self) {
        self.good.release();
    }
}

// The failure of what is no message, and nothing changes.
fn unread(
    alloc: Global,
    session: &Session,
    code: ErrorCode,
    text: &str,
) -> Result<Outcome, TakeFault>
    ensures same { IfOk result (λ o. changed (session_of session.now) o.change
        ≡ session_of session.now) }
    ensures reply { IfOk result (λ o. texts o.replies.items ≡ nameless_failure code text.now) }
    ensures fault { IfErr result (λ fault. fault ≡ TakeFault.NoMemory) }
{
    match nameless_failure(alloc, code, text) {
        Ok(replies) => Ok(Outcome {
            change: Change::none(session),
            replies,
        }),
        Err(NoMemory) => Err(TakeFault::NoMemory),
    }
}

// Nothing is replied, and nothing changes.
fn passed_over(alloc: Global, session: &Session) -> Outcome
    ensures same { changed (session_of session.now) result.change ≡ session_of session.now }
    ensures quiet { texts result.replies.items ≡ [] }
{
    Outcome {
        change: Change::none(session),
        replies: Vec::new(alloc),
    }
}

// What a message makes of a session, before the client is told of its files.
fn message_taken<F: Folders>(
    alloc: Global,
    session: &Session,
    folders: &F,
    good: &mut Option<Workspace>,
    message: &Message,
) -> Result<Outcome, TakeFault>
    ensures taken { IfOk result (λ o. IsMessageTaken (F.holds folders.now)
        (session_of session.now) (Some (message_view message.now))
        (changed (session_of session.now) o.change) (texts o.replies.items)) }
    ensures refused { IfErr result (λ fault. fault ≡ Refused
        → (session.now.phase ≡ Phase.Running) × (said : NotificationOf)
        × (message_view message.now ≡ notification said)
        × IsRefusedWhile (session_of session.now) said) }
{
    match message {
        Message::Request(id, asked) => {
            match requested(alloc, session, folders, good, id, asked) {
                Ok(outcome) => Ok(outcome),
                Err(NoMemory) => Err(TakeFault::NoMemory),
            }
        }
        Message::Notification(said) => notified(alloc, session, folders, said),
        Message::Response => Ok(passed_over(alloc, session)),
        Message::NoMessage => {
            let text = "no message of JSON-RPC";
            unread(alloc, session, ErrorCode::InvalidRequest, text)
        }
    }
}

// The same of a content, which is no message where it is no JSON in UTF-8.
fn taken<F: Folders>(
    alloc: Global,
    session: &Session,
    folders: &F,
    good: &mut Option<Workspace>,
    message: &Option<Message>,
) -> Result<Outcome, TakeFault>
    ensures taken { IfOk result (λ o. IsMessageTaken (F.holds folders.now)
        (session_of session.now) (option_map message_view message.now)
        (changed (session_of session.now) o.change) (texts o.replies.items)) }
    ensures refused { IfErr result (λ fault. fault ≡ Refused
        → (session.now.phase ≡ Phase.Running) × (said : NotificationOf)
        × (option_map message_view message.now ≡ Some (notification said))
        × IsRefusedWhile (session_of session.now) said) }
{
    match message {
        Some(message) => message_taken(alloc, session, folders, good, message),
        None => unread(alloc, session, ErrorCode::ParseError, "no JSON in UTF-8"),
    }
}

// Whether the client is told of its files after a change.
fn is_time(change: &Change, is_followed: bool) -> bool
    ensures { (s : SessionOf) → result ≡ is_time is_followed (changed s change.now) }
{
    match change.phase {
        Phase::Running => change.waits && !is_followed,
        _ => false,
    }
}

// What is to be told after a change.
fn told_after(
    alloc: Global,
    session: &Session,
    good: &mut Option<Workspace>,
    change: &Change,
) -> Result<Vec<Told>, NoMemory>
    ensures { IfOk result (λ told. IsToldOf
        (view_of (changed (session_of session.now) change.now)) (map told_of told.items)) }
{
    let opened = opened_after(session, change);
    let files = seen(alloc, disk_after(session, change), opened)?;
    let view = View {
        profile: session.profile,
        home: home_after(session, change),
        encoding: encoding_after(session, change),
        opened,
        files: files.as_slice(),
    };
    to_be_told(alloc, good, &view)
}

// Tells the client of its files: adds what is new, and answers all that is told then.
fn tell(
    alloc: Global,
    session: &Session,
    good: &mut Option<Workspace>,
    outcome: &mut Outcome,
) -> Result<Vec<Told>, NoMemory>
    ensures told { IfOk result (λ told. IsToldOf
        (view_of (changed (session_of session.now) outcome.old.change))
        (map told_of told.items)) }
    ensures change { OnOk result (outcome.new.change ≡ outcome.old.change) }
    ensures news { IfOk result (λ told. texts outcome.new.replies.items
        ≡ texts outcome.old.replies.items
        ++ news (map told_of session.now.told.items) (map told_of told.items)) }
{
    let told = told_after(alloc, session, good, &outcome.change)?;
    add_news(
        alloc,
        &mut outcome.replies,
        session.told.as_slice(),
        told.as_slice(),
    )?;
    Ok(told)
}

// The change of a turn, its replies, and what the client is told then, if it is told.
fn turn<F: Folders>(
    alloc: Global,
    session: &Session,
    folders: &F,
    good: &mut Option<Workspace>,
    message: (&Option<Message>, bool),
) -> Result<(Outcome, Option<Vec<Told>>), TakeFault>
    ensures turn { IfOk result (λ made. IsTurnOf (F.holds folders.now) (session_of session.now)
        (option_map message_view message.entry.0.now) message.entry.1
        (texts made.0.replies.items) (told_after (changed (session_of session.now) made.0.change)
        made.1)) }
    ensures refused { IfErr result (λ fault. fault ≡ Refused
        → (session.now.phase ≡ Phase.Running) × (said : NotificationOf)
        × (option_map message_view message.entry.0.now ≡ Some (notification said))
        × IsRefusedWhile (session_of session.now) said) }
{
    let (message, is_followed) = message;
    let mut outcome = taken(alloc, session, folders, good, message)?;
    if !is_time(&outcome.change, is_followed) {
        return Ok((outcome, None));
    }
    match tell(alloc, session, good, &mut outcome) {
        Ok(told) => Ok((outcome, Some(told))),
        Err(NoMemory) => Err(TakeFault::NoMemory),
    }
}

// Puts what the client was told into the session, if it was.
fn put_told(session: &mut Session, told: Option<Vec<Told>>)
    ensures { session_of session.new ≡ told_after (session_of session.old) told }
{
    if let Some(told) = told {
        session.told = told;
        session.waits = false;
    }
}

// Puts a turn into the session.
fn put(session: &mut Session, change: Change, told: Option<Vec<Told>>)
    ensures { session_of session.new
        ≡ told_after (changed (session_of session.old) change) told }
{
    make(session, change);
    put_told(session, told);
}

// The message that a content says.
fn message_of(alloc: Global, content: &[u8]) -> Result<Option<Message>, TakeFault>
    ensures message { IfOk result (IsMessageOf content.now) }
    ensures fault { IfErr result (λ fault. fault ≡ TakeFault.NoMemory) }
{
    match read_message(alloc, content) {
        Ok(message) => Ok(message),
        Err(_) => Err(TakeFault::NoMemory),
    }
}

impl<F: Folders + Drop> Machine for Server<F> {
    ghost steps = { λ old content is_followed replies new. (new.folders ≡ old.folders)
        × IsTurn (F.holds old.folders) (session_of old.session) content is_followed replies
        (session_of new.session) };

    ghost refuses = { λ server content. IsRefused (session_of server.session) content };

    ghost done = { λ server. has_ended server.session.phase };

    fn is_done(&self) -> bool {
        match self.session.phase {
            Phase::Ended | Phase::EndedEarly => true,
            Phase::Fresh | Phase::Running | Phase::ShutDown => false,
        }
    }

    fn take(
        &mut self,
        alloc: Global,
        content: &[u8],
        is_followed: bool,
    ) -> Result<Vec<Vec<u8>>, TakeFault> {
        let message = message_of(alloc, content)?;
        let good = &mut self.good.workspace;
        let said = (&message, is_followed);
        let made = turn(alloc, &self.session, &self.folders, good, said);
        drop(message);
        let (outcome, told) = made?;
        put(&mut self.session, outcome.change, told);
        Ok(outcome.replies)
    }
}
