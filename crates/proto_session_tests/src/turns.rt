//! Runs sessions line by line, and compares what comes back.

ghost use Rattle.std.specs.Prelude.{None};

use crate::rows::FILES;
use crate::{language_rows, rows};
use proto_base::Profile;
use proto_serving::{Machine, TakeFault};
use proto_session::{Folders, Server};
use proto_store::ReadingFault;
use std::alloc::{AllocError, Global};
use std::cell::Cell;
use std::process::Abort;

/// A folder of the files, unless it is lost; one reading may fail, after so many that do not.
#[derive(Drop)]
struct Shelf<'a> {
    is_lost: &'a Cell<bool>,
    fails_after: &'a Cell<Option<u32>>,
}

impl Shelf<'_> {
    // Whether this reading is the one that fails.
    fn fails_now(&self) -> bool {
        match self.fails_after.get() {
            Some(0) => {
                self.fails_after.set(None);
                true
            }
            Some(left) => {
                self.fails_after.set(Some(left.saturating_sub(1)));
                false
            }
            None => false,
        }
    }
}

fn all_files(alloc: Global) -> Result<Vec<(String, Vec<u8>)>, AllocError> {
    let mut files = Vec::new(alloc);
    for (path, text) in FILES {
        let path = String::from_str(alloc, path)?;
        files.push((path, Vec::from_slice(alloc, text.as_bytes())?))?;
    }
    Ok(files)
}

impl Folders for Shelf<'_> {
    ghost holds = { λ _ _ _. None };

    fn read_all(
        &self,
        alloc: Global,
        _profile: Profile,
        _folder: &[u8],
    ) -> Result<Vec<(String, Vec<u8>)>, ReadingFault> {
        if self.is_lost.get() || self.fails_now() {
            return Err(ReadingFault::Store);
        }
        match all_files(alloc) {
            Ok(files) => Ok(files),
            Err(_) => Err(ReadingFault::NoMemory),
        }
    }
}

// A reply as a text.
fn reply_at(replies: &[Vec<u8>], place: usize) -> &str {
    match replies.get(place) {
        Some(reply) => str::from_utf8(reply.as_slice()).unwrap_or("no text"),
        None => "no reply",
    }
}

// What a server makes of the message of a line.
fn take<R: AllocGlobal + Abort>(
    rt: &R,
    server: &mut Server<Shelf>,
    is_lost: &Cell<bool>,
    line: &str,
) -> Result<Vec<Vec<u8>>, TakeFault> {
    let (mark, said) = line.split_once(' ').expect(rt, "a mark");
    is_lost.set(mark == "!");
    server.take(rt.alloc(), said.as_bytes(), mark == "+")
}

// How a session ends, as its last line says it.
fn end_of(status: u8, end: &Result<(), TakeFault>) -> &'static str {
    match (status, end) {
        (0, Ok(())) => "0",
        (1, Ok(())) => "1",
        (1, Err(TakeFault::Refused)) => "1 refused",
        _ => "otherwise",
    }
}

// Whether this reply is the one of a line. A strict test ends where it is another.
fn is_reply<R: Abort>(rt: &R, found: &str, line: &str, is_strict: bool) -> bool {
    let is_wanted = line.strip_prefix("< ") == Some(found);
    assert!(rt; is_wanted || !is_strict, "{found} in the place of {line}");
    is_wanted
}

// Whether a line of a session is a message.
fn is_message(line: &str) -> bool {
    line.starts_with("> ") || line.starts_with("+ ") || line.starts_with("! ")
}

// Takes the messages of a session up to one that cannot be taken: how that ended, and whether each
// had the replies below it.
fn take_all<R: AllocGlobal + Abort>(
    rt: &R,
    server: &mut Server<Shelf>,
    is_lost: &Cell<bool>,
    session: &str,
    is_strict: bool,
) -> (Result<(), TakeFault>, bool) {
    let mut replies = Vec::new(rt.alloc());
    let mut place = 0usize;
    let mut end = Ok(());
    let mut is_wanted = true;
    for line in session.lines() {
        if line.starts_with("< ") {
            let found = reply_at(replies.as_slice(), place);
            is_wanted = is_reply(rt, found, line, is_strict) && is_wanted;
            place = place.saturating_add(1);
        }
        if is_message(line) && end.is_ok() {
            let are_all = place == replies.len();
            assert!(rt; are_all || !is_strict, "before {line}");
            is_wanted = are_all && is_wanted;
            place = 0;
            replies = Vec::new(rt.alloc());
            match take(rt, server, is_lost, line) {
                Ok(next) => replies = next,
                Err(fault) => end = Err(fault),
            }
        }
    }
    (end, is_wanted && place == replies.len())
}

/// How a session has gone: how it ended, whether all replies were the wanted ones, the exit status,
/// and whether the reading that was to fail did not come.
#[derive(Drop)]
struct Gone {
    end: Result<(), TakeFault>,
    is_wanted: bool,
    status: u8,
    waits: bool,
}

// Runs a session in a language, in which one reading may fail, after so many that do not.
fn run<R: AllocGlobal + Abort>(
    rt: &R,
    session: &str,
    profile: Profile,
    reading: Option<u32>,
    is_strict: bool,
) -> Gone {
    let is_lost = Cell::new(false);
    let fails_after = Cell::new(reading);
    let shelf = Shelf {
        is_lost: &is_lost,
        fails_after: &fails_after,
    };
    let mut server = Server::new(rt.alloc(), profile, None, shelf);
    let (end, is_wanted) = take_all(rt, &mut server, &is_lost, session, is_strict);
    let status = server.status();
    server.release();
    let waits = fails_after.get().is_some();
    Gone {
        end,
        is_wanted,
        status,
        waits,
    }
}

// Runs a session in a language: each message has the replies below it, and it ends as it says.
fn run_session<R: AllocGlobal + Abort>(rt: &R, session: &str, profile: Profile) {
    let (lines, wanted) = session.rsplit_once("\n= ").expect(rt, "an end");
    let gone = run(rt, lines, profile, None, true);
    assert!(rt; gone.is_wanted, "other replies at the end of {session}");
    let found = end_of(gone.status, &gone.end);
    assert!(rt; found == wanted, "{found} at the end of {session}");
}

#[test]
fn a_whole_session_goes_as_said(rt: HostRuntime) {
    run_session(&rt, rows::A_WHOLE_SESSION, Profile::Core);
    run_session(&rt, rows::BEFORE_INITIALIZE, Profile::Core);
    run_session(&rt, rows::NO_MESSAGES, Profile::Core);
    run_session(&rt, rows::MESSAGES_THAT_FOLLOW, Profile::Core);
}

#[test]
fn texts_that_cannot_be_taken_in_end_it(rt: HostRuntime) {
    run_session(
        &rt,
        rows::A_CHANGE_OF_A_TEXT_THAT_IS_NOT_OPEN,
        Profile::Core,
    );
    run_session(&rt, rows::A_CHANGE_OF_A_RANGE, Profile::Core);
    run_session(
        &rt,
        rows::A_NOTIFICATION_WITHOUT_ITS_PARAMETERS,
        Profile::Core,
    );
    run_session(
        &rt,
        rows::A_RANGE_IS_PASSED_OVER_BEFORE_INITIALIZE,
        Profile::Core,
    );
    run_session(&rt, rows::TWO_URIS_OF_ONE_PATH, Profile::Core);
}

#[test]
fn folders_and_texts_are_seen(rt: HostRuntime) {
    run_session(&rt, rows::A_FOLDER_THAT_VANISHES, Profile::Core);
    run_session(&rt, rows::TEXTS_THAT_ARE_NO_SCHEMAS, Profile::Core);
    run_session(&rt, rows::BYTES_AS_UNITS, Profile::Core);
    run_session(&rt, rows::FINDINGS, Profile::Core);
    run_session(&rt, rows::WHAT_STANDS_THERE, Profile::Core);
}

#[test]
fn schemas_are_read_in_their_language(rt: HostRuntime) {
    run_session(&rt, language_rows::A_CUSTOM_OPTION, Profile::AsWritten);
    run_session(
        &rt,
        language_rows::A_CUSTOM_OPTION_IN_THE_CORE_LANGUAGE,
        Profile::Core,
    );
    run_session(
        &rt,
        language_rows::IMPORTS_OF_FILES_THAT_ARE_NOT_THERE,
        Profile::Core,
    );
}

// A session in which one reading fails, after so many that do not: each message is taken, and it ends
// with status 0.
fn survives<R: AllocGlobal + Abort>(rt: &R, session: &str, reading: u32) {
    let gone = run(rt, session, Profile::Core, Some(reading), false);
    assert!(rt;
        gone.end.is_ok() && gone.status == 0 && !gone.waits,
        "reading {reading}"
    );
}

#[test]
fn each_reading_fails(rt: HostRuntime) {
    // Its readings: once it runs, at a text that is opened and closed, and at four renames.
    for reading in 0..7 {
        survives(&rt, rows::A_WHOLE_SESSION, reading);
    }
}

// Whether a session goes on to its end, and each reply is the one that is wanted. Out of memory ends
// it, or is a reply.
fn is_through<R: AllocGlobal + Abort>(rt: &R, session: &str) -> bool {
    let gone = run(rt, session, Profile::Core, None, false);
    match gone.end {
        Ok(()) => gone.is_wanted,
        Err(fault) => {
            assert!(rt; fault == TakeFault::NoMemory);
            false
        }
    }
}

#[test]
fn one_is_refused(rt: HostRuntime) {
    let session = rows::A_WHOLE_SESSION;
    assert!(rt; is_through(&rt, session) || is_through(&rt, session));
}
