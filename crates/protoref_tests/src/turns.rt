//! What comes one behind the other over a store.

use crate::calls::{End, expect_end, given_files};
use crate::stores::{command_of, joined_text, store_of};
use crate::three_files::{Step, files_at};
use protoref_commands::{MemoryStore, RunFault, Status, Store, all_files};
use std::process::Abort;

/// What is asked and printed, or what the store has then.
#[derive(Clone, Copy)]
pub(crate) enum Turn<'a> {
    /// What is asked prints this text, and all is well.
    Done(&'a str, &'a str),
    /// What is asked prints this text, and there is a problem.
    Problem(&'a str, &'a str),
    /// The output fails after so many bytes of this text.
    HalfTold(&'a str, &'a str, usize),
    /// This call of the store fails, and may land. Nothing is printed.
    Cut(&'a str, u64, bool),
    /// The store has these files and this journal.
    Holds(&'a str, &'a str),
    /// The store is at this step, and has these older entries.
    At(Step, &'a str),
}

/// What is asked of a store of these files and this journal prints this line, and changes nothing.
pub(crate) fn expect_kept<'a, R: AllocGlobal + Abort>(
    rt: &R,
    files: &'a str,
    journal: &'a str,
    asked: &'a str,
    line: &'a str,
) {
    let turns = [Turn::Problem(asked, line), Turn::Holds(files, journal)];
    expect_turns(rt, files, journal, &turns);
}

/// The turns hold over a store of these files and this journal, which this function alone owns.
pub(crate) fn expect_turns<R: AllocGlobal + Abort>(
    rt: &R,
    files: &str,
    journal: &str,
    turns: &[Turn],
) {
    let mut store = store_of(rt, files, journal);
    for turn in turns {
        expect_turn(rt, &mut store, turn);
    }
}

fn expect_turn<R: AllocGlobal + Abort>(rt: &R, store: &mut MemoryStore, turn: &Turn) {
    let slow = (7, 4096);
    let (asked, pipe, end) = match *turn {
        Turn::Done(asked, text) => (asked, slow, (Ok(Status::Done), text, text.len())),
        Turn::Problem(asked, text) => (asked, slow, (Ok(Status::Problem), text, text.len())),
        Turn::HalfTold(asked, text, room) => (
            asked,
            (5, room),
            (Err(RunFault::Output), text, room),
        ),
        Turn::Cut(asked, call, lands) => {
            assert!(rt; call > 0);
            store.fail_at(call, lands);
            (asked, (4096, 4096), (Err(RunFault::Store), "", 0))
        }
        Turn::Holds(files, journal) => return expect_holds(rt, store, files, journal),
        Turn::At(step, older) => {
            let (files, journal) = (files_at(rt, step), joined_text(rt, older, step.1));
            return expect_holds(rt, store, files.as_str(), journal.as_str());
        }
    };
    expect_asked(rt, store, asked, pipe, end);
}

// A call of the store has failed where the end says so, and nowhere else. An even room tries the one end of a pipe, an odd room the other.
fn expect_asked<R: AllocGlobal + Abort>(
    rt: &R,
    store: &mut MemoryStore,
    asked: &str,
    (at_once, room): (usize, usize),
    end: End,
) {
    let failed = u64::from(end.0 == Err(RunFault::Store));
    let failures = store.failures().saturating_add(failed);
    let room = (at_once, room, room % 2 == 0);
    expect_end(rt, store, command_of(rt, asked), room, end, failures);
}

// The store has these files and no others, in the order of their paths, and this journal.
fn expect_holds<R: AllocGlobal + Abort>(
    rt: &R,
    store: &mut MemoryStore,
    files: &str,
    journal: &str,
) {
    assert!(rt; store.failures() < u64::MAX);
    let bytes = store.read_journal().expect(rt, "a journal");
    let came = str::from_utf8(bytes.as_slice()).unwrap_or("no text");
    assert!(rt; came == journal, "{came}, not {journal}");
    assert!(rt; store.failures() < u64::MAX);
    let held = all_files(rt.alloc(), store).expect(rt, "files");
    assert!(rt; held == given_files(rt, files), "not {files}");
}
