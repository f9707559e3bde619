//! Notifications.

ghost use Rattle.std.specs.Prelude.{◌≡◌, [], true, IfErr, IfOk, None, Some, option_map, string_bytes};
ghost use Rattle.proto_base.specs.GivenFiles.{file_of, files_of, files_of_as};
ghost use Rattle.proto_messages.specs.Messages.{did_change, document_view, notification_view};
ghost use Rattle.proto_serving.specs.Serving.{texts};
ghost use Rattle.proto_serving.specs.declared.fault.TakeFault.TheVariants.{Refused};
ghost use Rattle.proto_session.specs.Changes.{IsOpenedChange, changed};
ghost use Rattle.proto_session.specs.Sessions.{session_of};
ghost use Rattle.proto_session.specs.Steps.{AreFilesOf, Holds, IsChangedAt, IsClosedAt, IsIdleNotification, IsNotificationIn, IsOpenedAt, IsReadAfter, IsRefusedWhile, IsRenumberedAt, IsReread, IsRunningNotification, lost_messages, text_at};
ghost use Rattle.proto_session_files.specs.Homes.{HomeOf, schema_of};
ghost use Rattle.proto_session_files.specs.Views.{with_open};

use crate::changing::{Change, Outcome};
use crate::reading::Folders;
use crate::session::{Phase, Session};
use proto_base::NoMemory;
use proto_messages::{Document, MessageType, Notification, show_message};
use proto_serving::TakeFault;
use proto_session_files::{OpenText, closed, is_open, schema_of, with_open, with_version};
use proto_session_replies::{LOST, one};
use proto_store::ReadingFault;
use std::alloc::Global;

// Whether two files are the same.
fn is_same(file: &(String, Vec<u8>), other: &(String, Vec<u8>)) -> bool
    ensures { result ≡ true → file_of file.now ≡ file_of other.now }
{
    file.0.as_str() == other.0.as_str() && file.1.as_slice() == other.1.as_slice()
}

// Whether two lists have the same files.
fn are_same(files: &[(String, Vec<u8>)], others: &[(String, Vec<u8>)]) -> bool
    ensures { result ≡ true → files_of files.now ≡ files_of others.now }
{
    if files.len() != others.len() {
        return false;
    }
    for place in 0..files.len() {
        if !is_same(&files[place], &others[place]) {
            return false;
        }
    }
    true
}

/// A change with the files of the folder as they were read. Where they are others than before,
/// there may be more to tell.
pub(crate) fn with_disk(session: &Session, change: Change, files: Vec<(String, Vec<u8>)>) -> Change
    requires { change.disk ≡ None }
    ensures { (holds : Holds) (home : HomeOf)
        → (changed (session_of session.now) change).home ≡ Some home
        → AreFilesOf (holds session.now.profile home.folder)
        (files_of_as session.now.profile files.items)
        → IsReread holds (changed (session_of session.now) change)
        (changed (session_of session.now) result) }
{
    let mut change = change;
    change.is_lost = false;
    if are_same(session.disk.as_slice(), files.as_slice()) {
        return change;
    }
    change.disk = Some(files);
    change.waits = true;
    change
}

// What the user is told where the folder cannot be read.
fn lost_messages(alloc: Global, was_lost: bool) -> Result<Vec<Vec<u8>>, NoMemory>
    ensures { IfOk result (λ messages. texts messages.items ≡ lost_messages was_lost) }
{
    if was_lost {
        return Ok(Vec::new(alloc));
    }
    let message = show_message(alloc, MessageType::Warning, LOST)?;
    one(alloc, message)
}

// The folder cannot be read.
fn lost(alloc: Global, change: Change) -> Result<Outcome, TakeFault>
    ensures change { IfOk result (λ o. o.change ≡ record change { is_lost = true }) }
    ensures said { IfOk result (λ o. texts o.replies.items ≡ lost_messages change.is_lost) }
    ensures fault { IfErr result (λ fault. fault ≡ TakeFault.NoMemory) }
{
    let mut change = change;
    let was_lost = change.is_lost;
    change.is_lost = true;
    match lost_messages(alloc, was_lost) {
        Ok(replies) => Ok(Outcome { change, replies }),
        Err(NoMemory) => Err(TakeFault::NoMemory),
    }
}

// The change, and the folder read after it.
fn read_after<F: Folders>(
    alloc: Global,
    session: &Session,
    folders: &F,
    change: Change,
) -> Result<Outcome, TakeFault>
    requires disk { change.disk ≡ None }
    requires begun { change.begun ≡ None }
    ensures taken { IfOk result (λ o. IsReadAfter (F.holds folders.now)
        (changed (session_of session.now) change)
        (changed (session_of session.now) o.change) (texts o.replies.items)) }
    ensures fault { IfErr result (λ fault. fault ≡ TakeFault.NoMemory) }
{
    let Some(home) = &session.home else {
        return lost(alloc, change);
    };
    match folders.read_all(alloc, session.profile, home.folder.as_slice()) {
        Ok(files) => Ok(Outcome {
            change: with_disk(session, change, files),
            replies: Vec::new(alloc),
        }),
        Err(ReadingFault::Store) => lost(alloc, change),
        Err(ReadingFault::NoMemory) => Err(TakeFault::NoMemory),
    }
}

// The folder is read, and nothing else changes.
fn read_again<F: Folders>(
    alloc: Global,
    session: &Session,
    folders: &F,
) -> Result<Outcome, TakeFault>
    ensures taken { IfOk result (λ o. IsReadAfter (F.holds folders.now)
        (session_of session.now)
        (changed (session_of session.now) o.change) (texts o.replies.items)) }
    ensures fault { IfErr result (λ fault. fault ≡ TakeFault.NoMemory) }
{
    read_after(alloc, session, folders, Change::none(session))
}

// Nothing is replied.
fn quiet(alloc: Global, change: Change) -> Outcome
    ensures change { result.change ≡ change }
    ensures quiet { result.replies.items ≡ [] }
{
    Outcome {
        change,
        replies: Vec::new(alloc),
    }
}

// The path of the schema that a URI names.
fn path_of(alloc: Global, session: &Session, uri: &str) -> Result<Option<String>, TakeFault>
    ensures path { IfOk result (λ path. option_map string_bytes path
        ≡ schema_of (session_of session.now).home uri.now) }
    ensures fault { IfErr result (λ fault. fault ≡ TakeFault.NoMemory) }
{
    match schema_of(alloc, session.home.as_ref(), uri) {
        Ok(path) => Ok(path),
        Err(_) => Err(TakeFault::NoMemory),
    }
}

// The open texts with that of a document at a path.
fn opened_at(
    alloc: Global,
    session: &Session,
    path: String,
    document: &Document,
) -> Result<Change, NoMemory>
    ensures { IfOk result (IsOpenedChange session.now (with_open
        (text_at (string_bytes path) (document_view document.now))
        (session_of session.now).opened)) }
{
    let text = OpenText {
        path,
        uri: String::from_str(alloc, document.uri.as_str())?,
        version: document.version,
        text: String::from_str(alloc, document.text.as_str())?,
    };
    let opened = with_open(alloc, session.opened.as_slice(), text)?;
    Ok(Change::of_opened(session, opened))
}

fn did_open<F: Folders>(
    alloc: Global,
    session: &Session,
    folders: &F,
    document: &Document,
) -> Result<Outcome, TakeFault>
    ensures taken { IfOk result (λ o. IsOpenedAt
        (schema_of (session_of session.now).home (document_view document.now).uri)
        (F.holds folders.now) (session_of session.now) (document_view document.now)
        (changed (session_of session.now) o.change) (texts o.replies.items)) }
    ensures fault { IfErr result (λ fault. fault ≡ TakeFault.NoMemory) }
{
    let Some(path) = path_of(alloc, session, document.uri.as_str())? else {
        return Ok(quiet(alloc, Change::none(session)));
    };
    match opened_at(alloc, session, path, document) {
        Ok(change) => read_after(alloc, session, folders, change),
        Err(NoMemory) => Err(TakeFault::NoMemory),
    }
}

fn did_change(alloc: Global, session: &Session, document: &Document) -> Result<Outcome, TakeFault>
    ensures taken { IfOk result (λ o. IsChangedAt
        (schema_of (session_of session.now).home (document_view document.now).uri)
        (session_of session.now) (document_view document.now)
        (changed (session_of session.now) o.change) (texts o.replies.items)) }
    ensures refused { IfErr result (λ fault. fault ≡ Refused
        → IsRefusedWhile (session_of session.now)
        (did_change (document_view document.now))) }
{
    let Some(path) = path_of(alloc, session, document.uri.as_str())? else {
        return Ok(quiet(alloc, Change::none(session)));
    };
    if !is_open(session.opened.as_slice(), path.as_str()) {
        return Err(TakeFault::Refused);
    }
    match opened_at(alloc, session, path, document) {
        Ok(change) => Ok(quiet(alloc, change)),
        Err(NoMemory) => Err(TakeFault::NoMemory),
    }
}

fn did_change_nothing(
    alloc: Global,
    session: &Session,
    uri: &str,
    version: u64,
) -> Result<Outcome, TakeFault>
    ensures taken { IfOk result (λ o. IsRenumberedAt
        (schema_of (session_of session.now).home uri.now) (session_of session.now) version
        (changed (session_of session.now) o.change) (texts o.replies.items)) }
    ensures fault { IfErr result (λ fault. fault ≡ TakeFault.NoMemory) }
{
    let Some(path) = path_of(alloc, session, uri)? else {
        return Ok(quiet(alloc, Change::none(session)));
    };
    match with_version(alloc, session.opened.as_slice(), path.as_str(), version) {
        Ok(opened) => Ok(quiet(alloc, Change::of_opened(session, opened))),
        Err(_) => Err(TakeFault::NoMemory),
    }
}

fn did_close<F: Folders>(
    alloc: Global,
    session: &Session,
    folders: &F,
    uri: &str,
) -> Result<Outcome, TakeFault>
    ensures taken { IfOk result (λ o. IsClosedAt
        (schema_of (session_of session.now).home uri.now) (F.holds folders.now)
        (session_of session.now)
        (changed (session_of session.now) o.change) (texts o.replies.items)) }
    ensures fault { IfErr result (λ fault. fault ≡ TakeFault.NoMemory) }
{
    let Some(path) = path_of(alloc, session, uri)? else {
        return Ok(quiet(alloc, Change::none(session)));
    };
    match closed(alloc, session.opened.as_slice(), path.as_str()) {
        Ok(opened) => {
            let change = Change::of_opened(session, opened);
            read_after(alloc, session, folders, change)
        }
        Err(_) => Err(TakeFault::NoMemory),
    }
}

// What is said while the session runs.
fn running<F: Folders>(
    alloc: Global,
    session: &Session,
    folders: &F,
    said: &Notification,
) -> Result<Outcome, TakeFault>
    ensures taken { IfOk result (λ o. IsRunningNotification (F.holds folders.now)
        (session_of session.now) (notification_view said.now)
        (changed (session_of session.now) o.change) (texts o.replies.items)) }
    ensures refused { IfErr result (λ fault. fault ≡ Refused
        → IsRefusedWhile (session_of session.now) (notification_view said.now)) }
{
    match said {
        Notification::Initialized => read_again(alloc, session, folders),
        Notification::DidOpen(document) => did_open(alloc, session, folders, document),
        Notification::DidChange(document) => did_change(alloc, session, document),
        Notification::DidChangeNothing(uri, version) => {
            did_change_nothing(alloc, session, uri.as_str(), *version)
        }
        Notification::DidChangeInRange => Err(TakeFault::Refused),
        Notification::DidSave(_) => read_again(alloc, session, folders),
        Notification::DidClose(uri) => did_close(alloc, session, folders, uri.as_str()),
        Notification::Exit => {
            let change = Change::of_phase(session, Phase::EndedEarly);
            Ok(quiet(alloc, change))
        }
        Notification::Malformed => Err(TakeFault::Refused),
        Notification::Other => Ok(quiet(alloc, Change::none(session))),
    }
}

// All is passed over but `exit`, after which the session is in this phase.
fn idle(alloc: Global, session: &Session, said: &Notification, end: Phase) -> Outcome
    ensures { IsIdleNotification end (session_of session.now) (notification_view said.now)
        (changed (session_of session.now) result.change) (texts result.replies.items) }
{
    match said {
        Notification::Exit => quiet(alloc, Change::of_phase(session, end)),
        _ => quiet(alloc, Change::none(session)),
    }
}

/// What a notification makes of a session. It fails when out of memory, and refuses what it cannot
/// take in while it runs.
pub(crate) fn notified<F: Folders>(
    alloc: Global,
    session: &Session,
    folders: &F,
    said: &Notification,
) -> Result<Outcome, TakeFault>
    ensures taken { IfOk result (λ o. IsNotificationIn session.now.phase (F.holds folders.now)
        (session_of session.now) (notification_view said.now)
        (changed (session_of session.now) o.change) (texts o.replies.items)) }
    ensures refused { IfErr result (λ fault. fault ≡ Refused
        → (session.now.phase ≡ Phase.Running)
        × IsRefusedWhile (session_of session.now) (notification_view said.now)) }
{
    match session.phase {
        Phase::Fresh => Ok(idle(alloc, session, said, Phase::EndedEarly)),
        Phase::Running => running(alloc, session, folders, said),
        Phase::ShutDown => Ok(idle(alloc, session, said, Phase::Ended)),
        Phase::Ended => Ok(idle(alloc, session, said, Phase::Ended)),
        Phase::EndedEarly => Ok(idle(alloc, session, said, Phase::EndedEarly)),
    }
}
