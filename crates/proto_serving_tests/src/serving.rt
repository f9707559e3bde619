//! The loop over a small machine: it answers each content as it is, with `+` where another is waiting;
//! `two` with two replies, `none` with none; it refuses `no`, and takes nothing after `exit`.

ghost use Rattle.std.specs.Prelude.{⊤};

use crate::expecting::{expect_bytes, expect_text, parts};
use crate::streams::{Reader, Writer};
use proto_frames::{FrameFault, WriteFault};
use proto_serving::{Buffered, Machine, ServeFault, TakeFault, serve};
use std::alloc::{AllocError, Global};
use std::io::BufReader;
use std::process::Abort;

/// The longest content that is taken.
const CAP: u64 = 16;

#[derive(Drop)]
struct Echo {
    is_done: bool,
}

fn put_reply(
    replies: &mut Vec<Vec<u8>>,
    alloc: Global,
    content: &[u8],
    is_followed: bool,
) -> Result<(), AllocError> {
    let mut reply = Vec::from_slice(alloc, content)?;
    if is_followed {
        reply.push(b'+')?;
    }
    Ok(replies.push(reply)?)
}

fn put_replies(
    replies: &mut Vec<Vec<u8>>,
    alloc: Global,
    content: &[u8],
    is_followed: bool,
) -> Result<(), AllocError> {
    if content == b"none".as_slice() {
        return Ok(());
    }
    put_reply(replies, alloc, content, is_followed)?;
    if content == b"two".as_slice() {
        return put_reply(replies, alloc, b"2", false);
    }
    Ok(())
}

fn replies_to(
    alloc: Global,
    content: &[u8],
    is_followed: bool,
) -> Result<Vec<Vec<u8>>, AllocError> {
    let mut replies = Vec::new(alloc);
    put_replies(&mut replies, alloc, content, is_followed)?;
    Ok(replies)
}

impl Machine for Echo {
    ghost steps = { λ _ _ _ _ _. ⊤ };

    ghost refuses = { λ _ _. ⊤ };

    ghost done = { λ echo. echo.is_done };

    fn is_done(&self) -> bool {
        self.is_done
    }

    fn take(
        &mut self,
        alloc: Global,
        content: &[u8],
        is_followed: bool,
    ) -> Result<Vec<Vec<u8>>, TakeFault> {
        if content == b"no".as_slice() {
            return Err(TakeFault::Refused);
        }
        match replies_to(alloc, content, is_followed) {
            Ok(replies) => {
                self.is_done = content == b"exit".as_slice();
                Ok(replies)
            }
            Err(_) => Err(TakeFault::NoMemory),
        }
    }
}

/// Streams that a reader has whole in its buffer, what is written, and how the run ends: only a whole
/// frame counts as waiting, and what comes after the end is not read.
const STREAMS: &str = " =>  => Ok(())|\
Content-Length: 1\r\n\r\na => Content-Length: 1\r\n\r\na => Ok(())|\
Content-Length: 1\r\n\r\naContent-Length: 0\r\n\r\n => Content-Length: 2\r\n\r\na+Content-Length: 0\r\n\r\n => Ok(())|\
Content-Length: 1\r\n\r\naContent-Length: 2\r\n\r\nb => Content-Length: 1\r\n\r\na => Err(Frame(Cut))|\
Content-Length: 1\r\n\r\naContent => Content-Length: 1\r\n\r\na => Err(Frame(Cut))|\
Content-Length: 1\r\n\r\na\r\n => Content-Length: 1\r\n\r\na => Err(Frame(Malformed))|\
Content-Length: 1\r\n\r\naContent-Length: 17\r\n\r\n01234567890123456 => Content-Length: 1\r\n\r\na => Err(Frame(TooLong))|\
Content-Length: 16\r\n\r\n0123456789012345 => Content-Length: 16\r\n\r\n0123456789012345 => Ok(())|\
Content-Length: 3\r\n\r\ntwoContent-Length: 4\r\n\r\nnoneContent-Length: 1\r\n\r\na => Content-Length: 4\r\n\r\ntwo+Content-Length: 1\r\n\r\n2Content-Length: 1\r\n\r\na => Ok(())|\
Content-Length: 1\r\n\r\naContent-Length: 2\r\n\r\nnoContent-Length: 1\r\n\r\nb => Content-Length: 2\r\n\r\na+ => Err(Take(Refused))|\
Content-Length: 4\r\n\r\nexitContent-Length: 1\r\n\r\na => Content-Length: 5\r\n\r\nexit+ => Ok(())|\
Content-Length: 4\r\n\r\nexit\r\n => Content-Length: 4\r\n\r\nexit => Ok(())";

/// The same, where a reader has no byte before it is asked.
const SLOW: &str = " =>  => Ok(())|\
Content-Length: 1\r\n\r\naContent-Length: 0\r\n\r\n => Content-Length: 1\r\n\r\naContent-Length: 0\r\n\r\n => Ok(())|\
Content-Length: 3\r\n\r\ntwoContent-Length: 4\r\n\r\nexitContent-Length: 1\r\n\r\na => Content-Length: 3\r\n\r\ntwoContent-Length: 1\r\n\r\n2Content-Length: 4\r\n\r\nexit => Ok(())|\
Content-Length: 1\r\n\r\naContent-Length: 2\r\n\r\nb => Content-Length: 1\r\n\r\na => Err(Frame(Cut))";

/// A writer that takes at most so many bytes a call.
fn writer(alloc: Global, most: usize, calls: usize) -> Result<Writer, AllocError> {
    Ok(Writer {
        bytes: Vec::with_capacity(alloc, 128)?,
        most,
        calls,
    })
}

// Runs the machine over the reader.
fn run<B: Buffered, R: AllocGlobal>(
    rt: &R,
    reader: &mut B,
    writer: &mut Writer,
) -> Result<(), ServeFault> {
    let mut machine = Echo { is_done: false };
    serve(rt.alloc(), reader, writer, &mut machine, CAP)
}

// What is written, and how the run ends.
fn expect_end<R: AllocGlobal + Abort>(
    rt: &R,
    written: &[u8],
    end: Result<(), ServeFault>,
    wanted: (&str, &str),
) {
    expect_bytes(rt, written, wanted.0);
    let ended = format!(in rt.alloc(); "{end:?}").expect(rt, "memory");
    expect_text(rt, ended.as_str(), wanted.1);
}

// Of a stream that a reader has whole.
fn expect_whole<R: AllocGlobal + Abort>(rt: &R, stream: &str, wanted: (&str, &str)) {
    let mut reader = stream.as_bytes();
    let mut writer = writer(rt.alloc(), 1000, 1000).expect(rt, "memory");
    let end = run(rt, &mut reader, &mut writer);
    expect_end(rt, writer.bytes.as_slice(), end, wanted);
}

// The bytes, of which each read gives at most so many, behind a buffer.
fn reader<'a, R: AllocGlobal + Abort>(
    rt: &R,
    stream: &'a str,
    most: usize,
    calls: usize,
) -> BufReader<Reader<'a>> {
    let bytes = stream.as_bytes();
    let inner = Reader { bytes, most, calls };
    BufReader::with_capacity(rt.alloc(), 256, inner).expect(rt, "memory")
}

// At most so many bytes a call, and so many calls that work.
type Pace = (usize, usize);

// Of a stream whose reader and writer have these paces.
fn expect_paced<R: AllocGlobal + Abort>(
    rt: &R,
    stream: &str,
    (reads, writes): (Pace, Pace),
    wanted: (&str, &str),
) {
    let mut reader = reader(rt, stream, reads.0, reads.1);
    let mut writer = writer(rt.alloc(), writes.0, writes.1).expect(rt, "memory");
    let end = run(rt, &mut reader, &mut writer);
    expect_end(rt, writer.bytes.as_slice(), end, wanted);
}

// Of streams that are whole, or whose readers and writers have these paces.
fn expect_rows<R: AllocGlobal + Abort>(rt: &R, rows: &str, paces: Option<(Pace, Pace)>) {
    for row in rows.split('|') {
        let (stream, wanted) = parts(rt, row);
        let wanted = parts(rt, wanted);
        match paces {
            Some(paces) => expect_paced(rt, stream, paces, wanted),
            None => expect_whole(rt, stream, wanted),
        }
    }
}

#[test]
fn streams_are_served(rt: HostRuntime) {
    expect_rows(&rt, STREAMS, None);
    expect_rows(&rt, STREAMS, Some(((256, 1000), (1000, 1000))));
    expect_rows(&rt, SLOW, Some(((1, 1000), (1, 1000))));
}

const THREE: &str =
    "Content-Length: 1\r\n\r\naContent-Length: 1\r\n\r\nbContent-Length: 1\r\n\r\nc";

// So many calls of a writer that takes ten bytes a call work: what is written then.
fn expect_written<R: AllocGlobal + Abort>(rt: &R, calls: usize, written: &str) {
    let end = "Err(Write(Output))";
    expect_paced(rt, THREE, ((1, 1000), (10, calls)), (written, end));
}

#[test]
fn a_write_fails(rt: HostRuntime) {
    expect_written(&rt, 0, "");
    expect_written(&rt, 1, "Content-Le");
    expect_written(&rt, 2, "Content-Length: 1\r\n\r");
    expect_written(&rt, 3, "Content-Length: 1\r\n\r\na");
    expect_written(&rt, 4, "Content-Length: 1\r\n\r\naContent-Le");
    let two = "Content-Length: 1\r\n\r\naContent-Length: 1\r\n\r\nbContent-Length: 1\r\n\r";
    expect_written(&rt, 8, two);
}

// So many reads of a byte work: what is written then. A frame has 22 bytes.
fn expect_read<R: AllocGlobal + Abort>(rt: &R, calls: usize, written: &str) {
    let end = "Err(Frame(Input))";
    expect_paced(rt, THREE, ((1, calls), (1000, 1000)), (written, end));
}

#[test]
fn a_read_fails(rt: HostRuntime) {
    expect_read(&rt, 0, "");
    expect_read(&rt, 21, "");
    expect_read(&rt, 22, "Content-Length: 1\r\n\r\na");
    expect_read(&rt, 43, "Content-Length: 1\r\n\r\na");
    let two = "Content-Length: 1\r\n\r\naContent-Length: 1\r\n\r\nb";
    expect_read(&rt, 44, two);
}

fn is_memory(fault: ServeFault) -> bool {
    fault == ServeFault::Frame(FrameFault::NoMemory)
        || fault == ServeFault::Take(TakeFault::NoMemory)
        || fault == ServeFault::Write(WriteFault::NoMemory)
}

// How a session ends: where memory is refused early, or it does not see that a message is waiting.
fn expect_session<R: Abort>(
    rt: &R,
    written: &[u8],
    end: Result<(), ServeFault>,
) -> Result<(), AllocError> {
    let wanted =
        b"Content-Length: 2\r\n\r\na+Content-Length: 2\r\n\r\nb+Content-Length: 1\r\n\r\nc";
    match end {
        Ok(()) if written == wanted.as_slice() => Ok(()),
        Ok(()) => Err(AllocError),
        Err(fault) => {
            assert!(rt; is_memory(fault));
            Err(AllocError)
        }
    }
}

// The run of a session, unless memory is refused.
fn expect_run<R: AllocGlobal + Abort>(rt: &R) -> Result<(), AllocError> {
    let mut bytes = THREE.as_bytes();
    let mut writer = writer(rt.alloc(), 1000, 1000)?;
    let end = run(rt, &mut bytes, &mut writer);
    expect_session(rt, writer.bytes.as_slice(), end)
}

#[test]
fn one_is_refused(rt: HostRuntime) {
    assert!(rt; expect_run(&rt).is_ok() || expect_run(&rt).is_ok());
}
