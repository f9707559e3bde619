//! Frames, by the base protocol. What is read is written as each content in angle brackets, and
//! then how the stream ends.

use crate::expecting::{expect_bytes, expect_text, parts};
use crate::streams::{Reader, Writer};
use proto_frames::{read_frame, write_frame};
use std::io::{BufRead, BufReader};
use std::process::Abort;

/// The longest content that is taken.
const CAP: u64 = 64;

/// Streams, and what is read of each: other fields, names in any case, the longest content, and one
/// longer, of which nothing has to be there.
const STREAMS: &str = " => end|\
Content-Length: 2\r\n\r\n{} => <{}>end|\
Content-Length: 0\r\n\r\nContent-Length: 2\r\n\r\n[] => <><[]>end|\
Content-Length: 2\r\n\r\né => <é>end|\
Content-Length: 0000000002\r\n\r\n\r\n => <\r\n>end|\
Content-Type: application/vscode-jsonrpc; charset=utf-8\r\nContent-Length: 2\r\nX: \r\n\r\n{} => <{}>end|\
content-length: 2\r\n\r\n{} => <{}>end|\
CONTENT-LENGTH: 2\r\n\r\n{} => <{}>end|\
Content-Length: 64\r\n\r\n0123456789012345678901234567890123456789012345678901234567890123 => <0123456789012345678901234567890123456789012345678901234567890123>end|\
Content-Length: 65\r\n\r\n => TooLong|\
Content-Length: 9999999999\r\n\r\n{} => TooLong";

/// Streams that end too early.
const CUT: &str = "\
C => Cut|\
Content-Length: 2\r => Cut|\
Content-Length: 2\r\n => Cut|\
Content-Length: 2\r\n\r => Cut|\
Content-Length: 2\r\n\r\n => Cut|\
Content-Length: 2\r\n\r\n{ => Cut|\
Content-Length: 2\r\n\r\n{}{ => <{}>Cut|\
{\"jsonrpc\": \"2.0\"} => Cut";

/// No length, or two; no number; no field; other line ends; what does not begin at a header.
const MALFORMED: &str = "\
\r\n => Malformed|\
Content-Type: x\r\n\r\n{} => Malformed|\
Content-Lengths: 2\r\n\r\n{} => Malformed|\
Content-Length: 2\r\nContent-Length: 2\r\n\r\n{} => Malformed|\
Content-Length: 2\r\ncontent-length: 3\r\n\r\n{} => Malformed|\
Content-Length: 2\r\nContent-Length:3\r\n\r\n{} => Malformed|\
Content-Length: \r\n\r\n{} => Malformed|\
Content-Length: -2\r\n\r\n{} => Malformed|\
Content-Length: +2\r\n\r\n{} => Malformed|\
Content-Length:  2\r\n\r\n{} => Malformed|\
Content-Length: 2 \r\n\r\n{} => Malformed|\
Content-Length: 0x2\r\n\r\n{} => Malformed|\
Content-Length: 2.0\r\n\r\n{} => Malformed|\
Content-Length: 00000000002\r\n\r\n{} => Malformed|\
Content-Length: 18446744073709551618\r\n\r\n{} => Malformed|\
Content-Length:2\r\n\r\n{} => Malformed|\
Content-Length 2\r\n\r\n{} => Malformed|\
: 2\r\nContent-Length: 2\r\n\r\n{} => Malformed|\
GET / HTTP/1.1\r\nContent-Length: 2\r\n\r\n{} => Malformed|\
Content-Length: 2\n\n{} => Malformed|\
Content-Length: 2\r\r\n\r\n{} => Malformed|\
Content-Length: 2\r\n\n{} => Malformed|\
\r\nContent-Length: 2\r\n\r\n{} => Malformed|\
Content-Length: 1\r\n\r\n{} => <{>Cut|\
Content-Length: 1\r\n\r\n{}Content-Length: 2\r\n\r\n{} => <{>Malformed";

fn put_content<R: AllocGlobal + Abort>(rt: &R, out: &mut String, content: &[u8]) {
    match str::from_utf8(content) {
        Ok(text) => write!(out, "<{text}>").expect(rt, "memory"),
        Err(_) => write!(out, "<?>").expect(rt, "memory"),
    }
}

// What is read of the stream.
fn shown<R: AllocGlobal + Abort, B: BufRead>(rt: &R, reader: &mut B) -> String {
    let mut out = String::new(rt.alloc());
    for _ in 0..100 {
        match read_frame(rt.alloc(), reader, CAP) {
            Ok(Some(content)) => put_content(rt, &mut out, content.as_slice()),
            Ok(None) => {
                out.push_str("end").expect(rt, "memory");
                return out;
            }
            Err(fault) => {
                write!(out, "{fault:?}").expect(rt, "memory");
                return out;
            }
        }
    }
    out
}

// What is read where each call gives at most so many bytes, and fails after so many calls.
fn expect_by<R: AllocGlobal + Abort>(
    rt: &R,
    bytes: &[u8],
    (most, calls): (usize, usize),
    said: &str,
) {
    let reader = Reader { bytes, most, calls };
    let mut reader = BufReader::new(rt.alloc(), reader).expect(rt, "memory");
    let found = shown(rt, &mut reader);
    expect_text(rt, found.as_str(), said);
}

fn expect_read<R: AllocGlobal + Abort>(rt: &R, stream: &[u8], said: &str) {
    let mut bytes = stream;
    let found = shown(rt, &mut bytes);
    expect_text(rt, found.as_str(), said);
    expect_by(rt, stream, (1, usize::MAX), said);
    expect_by(rt, stream, (7, usize::MAX), said);
    expect_by(rt, stream, (5000, usize::MAX), said);
}

fn expect_streams<R: AllocGlobal + Abort>(rt: &R, rows: &str) {
    for row in rows.split('|') {
        let (stream, said) = parts(rt, row);
        expect_read(rt, stream.as_bytes(), said);
    }
}

#[test]
fn streams_are_read(rt: HostRuntime) {
    expect_streams(&rt, STREAMS);
    expect_streams(&rt, CUT);
    expect_streams(&rt, MALFORMED);
}

// A text that stands so often before another one, and what is read of both.
fn expect_long<R: AllocGlobal + Abort>(rt: &R, unit: &str, count: usize, rest: &str, said: &str) {
    let mut stream = unit.repeat(rt.alloc(), count).expect(rt, "memory");
    stream.push_str(rest).expect(rt, "memory");
    expect_read(rt, stream.as_bytes(), said);
}

#[test]
fn long_streams_are_read(rt: HostRuntime) {
    // A line has at most 1,023 bytes.
    let rest = ": \r\nContent-Length: 2\r\n\r\n{}";
    expect_long(&rt, "a", 1021, rest, "<{}>end");
    expect_long(&rt, "a", 1022, rest, "Malformed");
    expect_long(&rt, "a", 1023, "", "Cut");
    expect_long(&rt, "a", 1024, "", "Malformed");
    expect_long(&rt, "a", 100000, "", "Malformed");
    // A header has at most 31 fields.
    let rest = "Content-Length: 2\r\n\r\n{}";
    expect_long(&rt, "A: b\r\n", 30, rest, "<{}>end");
    expect_long(&rt, "A: b\r\n", 31, rest, "Malformed");
    expect_long(&rt, "A: b\r\n", 31, "", "Cut");
    expect_long(&rt, "A: b\r\n", 32, "", "Malformed");
    expect_long(&rt, "A: b\r\n", 10000, "", "Malformed");
}

const TWO: &[u8] = b"Content-Length: 2\r\n\r\n{}Content-Length: 2\r\n\r\n[]";

// What is read of two frames of 23 bytes, where a reader answers so many calls before it fails.
#[test]
fn readers_fail(rt: HostRuntime) {
    expect_by(&rt, TWO, (1, 0), "Input");
    expect_by(&rt, TWO, (1, 1), "Input");
    expect_by(&rt, TWO, (1, 17), "Input");
    expect_by(&rt, TWO, (1, 22), "Input");
    expect_by(&rt, TWO, (1, 23), "<{}>Input");
    expect_by(&rt, TWO, (1, 45), "<{}>Input");
    expect_by(&rt, TWO, (1, 46), "<{}><[]>Input");
    expect_by(&rt, TWO, (1, 47), "<{}><[]>end");
}

// What a writer has that takes so many bytes a call and answers so many calls, and how the write
// of the content ends.
fn expect_written<R: AllocGlobal + Abort>(
    rt: &R,
    content: &str,
    (most, calls): (usize, usize),
    wanted: &str,
    ending: &str,
) {
    let bytes = Vec::new(rt.alloc());
    let mut writer = Writer { bytes, most, calls };
    let answer = write_frame(rt.alloc(), &mut writer, content.as_bytes());
    expect_bytes(rt, writer.bytes.as_slice(), wanted);
    let ended = format!(in rt.alloc(); "{answer:?}").expect(rt, "memory");
    expect_text(rt, ended.as_str(), ending);
}

#[test]
fn frames_are_written(rt: HostRuntime) {
    let braces = "Content-Length: 2\r\n\r\n{}";
    expect_written(&rt, "{}", (100, 1), braces, "Ok(())");
    expect_written(&rt, "{}", (1, 23), braces, "Ok(())");
    let nothing = "Content-Length: 0\r\n\r\n";
    expect_written(&rt, "", (100, 9), nothing, "Ok(())");
    let wide = "Content-Length: 6\r\n\r\né😀";
    expect_written(&rt, "é😀", (100, 9), wide, "Ok(())");
    let digits = "Content-Length: 10\r\n\r\n0123456789";
    expect_written(&rt, "0123456789", (7, 9), digits, "Ok(())");
    expect_written(&rt, "{}", (1, 0), "", "Err(Output)");
    expect_written(&rt, "{}", (1, 3), "Con", "Err(Output)");
    let cut = "Content-Length: 2\r\n\r\n{";
    expect_written(&rt, "{}", (1, 22), cut, "Err(Output)");
    expect_written(&rt, "{}", (0, 9), "", "Err(Output)");
}
