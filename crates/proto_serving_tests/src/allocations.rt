//! Out of memory: the call fails and nothing is lost, and the next one works. In a run that refuses
//! one allocation this test still passes, whichever it is.

use crate::streams::Writer;
use crate::uris::expect_uri;
use proto_base::{MAX_LEN, NoMemory};
use proto_frames::{FrameFault, WriteFault, read_frame, write_frame};
use proto_positions::{Encoding, have_positions, text_edits};
use proto_text::{Splice, Splices};
use std::process::Abort;

const CONTENT: &[u8] = b"a content of more than forty-eight bytes, so that both texts grow";

const FRAME: &[u8] =
    b"Content-Length: 65\r\n\r\na content of more than forty-eight bytes, so that both texts grow";

fn expect_read<R: AllocGlobal + Abort>(rt: &R) -> Result<(), NoMemory> {
    let mut bytes = FRAME;
    match read_frame(rt.alloc(), &mut bytes, 65) {
        Ok(content) => {
            let content = content.expect(rt, "a frame");
            assert!(rt; content.as_slice() == CONTENT && bytes.is_empty());
            Ok(())
        }
        Err(fault) => {
            assert!(rt; fault == FrameFault::NoMemory);
            Err(NoMemory)
        }
    }
}

// Where memory was refused nothing is written.
fn expect_answer<R: Abort>(
    rt: &R,
    answer: Result<(), WriteFault>,
    written: &[u8],
) -> Result<(), NoMemory> {
    match answer {
        Ok(()) => {
            assert!(rt; written == FRAME);
            Ok(())
        }
        Err(fault) => {
            assert!(rt; fault == WriteFault::NoMemory && written.is_empty());
            Err(NoMemory)
        }
    }
}

fn expect_written<R: AllocGlobal + Abort>(rt: &R) -> Result<(), NoMemory> {
    let mut writer = Writer {
        bytes: Vec::with_capacity(rt.alloc(), FRAME.len())?,
        most: 100,
        calls: 100,
    };
    let answer = write_frame(rt.alloc(), &mut writer, CONTENT);
    expect_answer(rt, answer, writer.bytes.as_slice())
}

fn splices<R: AllocGlobal>(rt: &R) -> Result<Vec<Splice>, NoMemory> {
    let old = String::from_str(rt.alloc(), "b")?;
    let new = String::from_str(rt.alloc(), "éé")?;
    let mut splices = Vec::new(rt.alloc());
    splices.push(Splice { at: 1, old, new })?;
    Ok(splices)
}

fn expect_edits<R: AllocGlobal + Abort>(rt: &R) -> Result<(), NoMemory> {
    let text = b"abc".as_slice();
    let Ok(splices) = Splices::new(splices(rt)?) else {
        return Err(NoMemory);
    };
    assert!(rt; text.len() <= MAX_LEN && have_positions(text, &splices));
    let edits = text_edits(rt.alloc(), text, Encoding::Utf16, &splices)?;
    assert!(rt; edits.len() == 1);
    Ok(())
}

fn expect_answers<R: AllocGlobal + Abort>(rt: &R) -> Result<(), NoMemory> {
    expect_read(rt)?;
    expect_written(rt)?;
    expect_uri(rt, "/ws", "p/é.proto", "file:///ws/p/%C3%A9.proto")?;
    expect_edits(rt)
}

#[test]
fn one_is_refused(rt: HostRuntime) {
    assert!(rt; expect_answers(&rt).is_ok() || expect_answers(&rt).is_ok());
}
