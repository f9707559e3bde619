//! Files, and running a command over a store.

use crate::pipe::Pipe;
use protoref_commands::{Command, MemoryStore, RunFault, Status, Store, run};
use std::process::Abort;

/// Files for a store: paths and texts.
pub(crate) type Given = Vec<(String, Vec<u8>)>;

/// Puts a file behind others.
pub(crate) fn add<R: AllocGlobal + Abort>(rt: &R, given: &mut Given, path: &str, text: &str) {
    let path = String::from_str(rt.alloc(), path).expect(rt, "memory");
    let text = text.as_bytes().to_vec(rt.alloc()).expect(rt, "memory");
    given.push((path, text)).expect(rt, "memory");
}

/// Files, each its path, which ends with `.proto`, a space and its text, joined by ` | `.
pub(crate) fn given_files<R: AllocGlobal + Abort>(rt: &R, files: &str) -> Given {
    let mut given = Vec::new(rt.alloc());
    for file in files.split(" | ") {
        match file.split_once(".proto ") {
            Some((name, text)) => {
                let path = format!(in rt.alloc(); "{name}.proto").expect(rt, "memory");
                add(rt, &mut given, path.as_str(), text);
            }
            None => assert!(rt; files.is_empty(), "no path of {file}"),
        }
    }
    given
}

/// How many bytes an output takes at once, how many in all, and whether it fails then.
pub(crate) type Room = (usize, usize, bool);

/// Room for all that is printed here.
pub(crate) const WIDE: Room = (4096, 65536, false);

/// How a run ends, and how many bytes of a text it has then printed.
pub(crate) type End<'a> = (Result<Status, RunFault>, &'a str, usize);

fn name_of(ended: &Result<Status, RunFault>) -> &'static str {
    match ended {
        Ok(Status::Done) => "done",
        Ok(Status::Problem) => "a problem",
        Err(fault) => fault.name(),
    }
}

/// The command ends so over a store, of which so many calls have failed then.
pub(crate) fn expect_end<S: Store, R: AllocGlobal + Abort>(
    rt: &R,
    store: &mut S,
    command: Command,
    (at_once, room, breaks): Room,
    (end, text, count): End,
    failures: u64,
) {
    let mut writer = Pipe {
        taken: Vec::new(rt.alloc()),
        at_once,
        room,
        breaks,
    };
    assert!(rt; store.failures() < u64::MAX);
    let ended = run(rt.alloc(), command, store, &mut writer);
    let printed = writer.taken.as_slice();
    let came = str::from_utf8(printed).unwrap_or("no text");
    assert!(rt;
        ended == end,
        "{}, not {}: {came}, for {text}",
        name_of(&ended),
        name_of(&end)
    );
    assert!(rt;
        printed.len() == count && text.as_bytes().starts_with(printed),
        "{came}, not {count} bytes of {text}"
    );
    assert!(rt;
        store.failures() == failures,
        "{} failures of the store, not {failures}, for {text}",
        store.failures()
    );
}

/// The command ends so over a store of these files, which does not fail.
pub(crate) fn expect<R: AllocGlobal + Abort>(
    rt: &R,
    given: Given,
    command: Command,
    room: Room,
    end: End,
) {
    let mut store = MemoryStore::new(rt.alloc(), given, Vec::new(rt.alloc())).expect(rt, "memory");
    expect_end(rt, &mut store, command, room, end, 0);
}
