//! The loop: reads, takes, writes.

ghost use Rattle.std.specs.Prelude.{◌≡◌, Some, IfErr, OnErr, OnOk, flat_map, true};
ghost use Rattle.std.specs.Io.KnownBytes.{Appends};
ghost use Rattle.proto_base.specs.Texts.{Text};
ghost use Rattle.proto_frames.specs.Frames.{frame};
ghost use Rattle.proto_frames.specs.Writing.{AppendsBeginning};
ghost use Rattle.proto_serving.specs.Serving.{Failed, HasFrame, Served, texts};

use crate::buffered::Buffered;
use crate::fault::ServeFault;
use crate::machine::Machine;
use proto_frames::{WriteFault, read_frame, write_frame};
use std::alloc::Global;
use std::io::Write;

// Whether a whole frame stands at the front. Out of memory it is not seen.
fn has_frame(alloc: Global, bytes: &[u8], cap: u64) -> bool
    ensures { result ≡ true → HasFrame cap bytes.now }
{
    let mut rest = bytes;
    match read_frame(alloc, &mut rest, cap) {
        Ok(Some(_)) => true,
        _ => false,
    }
}

// Whether another whole frame is in the reader's buffer.
fn is_followed<R: Buffered>(alloc: Global, reader: &R, cap: u64) -> bool
    ensures { (bytes : Text) → R.remaining reader.now ≡ Some bytes
        → result ≡ true → HasFrame cap bytes }
{
    has_frame(alloc, reader.buffer(), cap)
}

// Writes each reply as a frame.
fn write_all<W: Write>(alloc: Global, writer: &mut W, replies: &[Vec<u8>]) -> Result<(), WriteFault>
    ensures ok { OnOk result (Appends (W.contents writer.old) (W.contents writer.new)
        (flat_map frame (texts replies.now))) }
    ensures err { OnErr result (AppendsBeginning (W.contents writer.old) (W.contents writer.new)
        (flat_map frame (texts replies.now))) }
{
    for reply in replies {
        if let Err(fault) = write_frame(alloc, writer, reply.as_slice()) {
            return Err(fault);
        }
    }
    Ok(())
}

/// Takes each message of the stream and writes its replies, until the machine takes no more or the
/// stream is at its end. A message has at most `cap` bytes. Nothing is flushed.
///
/// Fails where the stream gives no message (`Frame`), where the machine does not take one
/// (`Take`), where a reply is not written whole (`Write`), and after 2^64 - 1 messages
/// (`TooMany`). All replies to the messages before are written.
pub fn serve<R: Buffered, W: Write, M: Machine>(
    alloc: Global,
    reader: &mut R,
    writer: &mut W,
    machine: &mut M,
    cap: u64,
) -> Result<(), ServeFault>
    ensures ok { (bytes : Text) → R.remaining reader.old ≡ Some bytes → OnOk result
        (Served M.steps M.done cap bytes machine.old machine.new
        (W.contents writer.old) (W.contents writer.new)) }
    ensures err { (bytes : Text) → R.remaining reader.old ≡ Some bytes → IfErr result
        (λ fault. Failed M.steps M.refuses M.done cap fault bytes machine.old machine.new
        (W.contents writer.old) (W.contents writer.new)) }
{
    for _turn in 0..u64::MAX {
        if machine.is_done() {
            return Ok(());
        }
        let content = match read_frame(alloc, reader, cap) {
            Ok(Some(content)) => content,
            Ok(None) => return Ok(()),
            Err(fault) => return Err(ServeFault::Frame(fault)),
        };
        let is_followed = is_followed(alloc, reader, cap);
        let replies = match machine.take(alloc, content.as_slice(), is_followed) {
            Ok(replies) => replies,
            Err(fault) => return Err(ServeFault::Take(fault)),
        };
        if let Err(fault) = write_all(alloc, writer, replies.as_slice()) {
            return Err(ServeFault::Write(fault));
        }
    }
    Err(ServeFault::TooMany)
}
