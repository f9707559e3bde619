//! Reading a frame.

ghost use Rattle.std.specs.Prelude.{◌≡◌, ◌↔◌, [], None, Some, IfOk, IfErr, IsTrue};
ghost use Rattle.proto_base.specs.Texts.{Text};
ghost use Rattle.proto_frames.specs.Frames.{Gives, GivesByte, GivesFrame, content_at, frame_or_end, header_at, line_at, line_ended, line_limit, lines_limit};

use crate::fault::FrameFault;
use crate::fields::length_after;
use std::alloc::Global;
use std::io::{BufRead, Read};

// The most bytes of a header field, with its carriage return.
const LINE_LIMIT: usize = 1024;

// The most lines of a header, with the empty one.
const LINES_LIMIT: usize = 32;

// How many bytes of a content are asked for at once: memory grows by what has come, never by what a
// header says.
const CHUNK: usize = 4096;

// The next byte; none at the end of the stream.
fn next_byte<R: Read>(reader: &mut R) -> Result<Option<u8>, FrameFault>
    ensures byte { IfOk result (GivesByte (R.remaining reader.old) (R.remaining reader.new)) }
    ensures err { IfErr result (λ e. e ≡ FrameFault.Input) }
{
    let mut buffer = [0u8; 1];
    match reader.read(&mut buffer) {
        Ok(0) => Ok(None),
        Ok(_) => Ok(Some(buffer[0])),
        Err(_) => Err(FrameFault::Input),
    }
}

// Reads the line feed that follows a carriage return.
fn end_line<R: Read>(reader: &mut R) -> Result<(), FrameFault>
    ensures { (bytes : Text) → R.remaining reader.old ≡ Some bytes
        → Gives (λ _. []) (R.remaining reader.new) result (line_ended bytes) }
{
    match next_byte(reader)? {
        None => Err(FrameFault::Cut),
        Some(b'\n') => Ok(()),
        Some(_) => Err(FrameFault::Malformed),
    }
}

// A line of a header, without its end.
fn read_line<R: Read>(alloc: Global, reader: &mut R) -> Result<Vec<u8>, FrameFault>
    ensures { (bytes : Text) → R.remaining reader.old ≡ Some bytes
        → Gives (λ v. v.items) (R.remaining reader.new) result (line_at line_limit bytes) }
{
    let mut line = Vec::new(alloc);
    for _at in 0..LINE_LIMIT {
        match next_byte(reader)? {
            None => return Err(FrameFault::Cut),
            Some(b'\r') => {
                end_line(reader)?;
                return Ok(line);
            }
            Some(b'\n') => return Err(FrameFault::Malformed),
            Some(byte) => line.push(byte)?,
        }
    }
    Err(FrameFault::Malformed)
}

// The length that a header says.
fn read_header<R: Read>(alloc: Global, reader: &mut R) -> Result<u64, FrameFault>
    ensures { (bytes : Text) → R.remaining reader.old ≡ Some bytes
        → Gives (λ n. n) (R.remaining reader.new) result (header_at lines_limit None bytes) }
{
    let mut len = None;
    for _at in 0..LINES_LIMIT {
        let line = read_line(alloc, reader)?;
        if line.is_empty() {
            return len.ok_or(FrameFault::Malformed);
        }
        len = length_after(len, line.as_slice())?;
    }
    Err(FrameFault::Malformed)
}

// So many bytes.
fn read_content<R: Read>(
    alloc: Global,
    reader: &mut R,
    cap: u64,
    len: u64,
) -> Result<Vec<u8>, FrameFault>
    ensures { (bytes : Text) → R.remaining reader.old ≡ Some bytes
        → Gives (λ v. v.items) (R.remaining reader.new) result (content_at cap len bytes) }
{
    if len > cap {
        return Err(FrameFault::TooLong);
    }
    let len = len as usize;
    let mut content = Vec::new(alloc);
    let mut buffer = [0u8; CHUNK];
    while content.len() < len {
        let room = (len - content.len()).min(CHUNK);
        match reader.read(&mut buffer[..room]) {
            Ok(0) => return Err(FrameFault::Cut),
            Ok(count) => content.extend_from_slice(&buffer[..count])?,
            Err(_) => return Err(FrameFault::Input),
        }
    }
    Ok(content)
}

/// The content of the next frame of the stream, or none where the stream is at its end. A content
/// of more than `cap` bytes is refused before it is read. Nothing is taken of what follows the
/// frame.
pub fn read_frame<R: BufRead>(
    alloc: Global,
    reader: &mut R,
    cap: u64,
) -> Result<Option<Vec<u8>>, FrameFault>
    ensures { (bytes : Text) → R.remaining reader.old ≡ Some bytes
        → GivesFrame (R.remaining reader.new) result (frame_or_end cap bytes) }
{
    if is_at_end(reader)? {
        return Ok(None);
    }
    let len = read_header(alloc, reader)?;
    let content = read_content(alloc, reader, cap, len)?;
    Ok(Some(content))
}

// Whether nothing is left to read.
fn is_at_end<R: BufRead>(reader: &mut R) -> Result<bool, FrameFault>
    ensures end { (bytes : Text) → R.remaining reader.old ≡ Some bytes
        → (R.remaining reader.new ≡ Some bytes) × IfOk result (λ end. IsTrue end ↔ (bytes ≡ [])) }
    ensures err { IfErr result (λ e. e ≡ FrameFault.Input) }
{
    match reader.fill_buf() {
        Ok(bytes) => Ok(bytes.is_empty()),
        Err(_) => Err(FrameFault::Input),
    }
}
