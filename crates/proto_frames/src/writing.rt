//! Writing a frame.

ghost use Rattle.std.specs.Prelude.{◌≡◌, IfErr, OnErr, OnOk, IfOk};
ghost use Rattle.std.specs.Io.KnownBytes.{Appends};
ghost use Rattle.proto_frames.specs.Frames.{frame};
ghost use Rattle.proto_frames.specs.Writing.{AppendsBeginning};

use std::alloc::{AllocError, Global};
use std::io::Write;
use thiserror::Error;

/// Why a frame was not written whole.
#[derive(Clone, Copy, Debug, PartialEq, Eq, Error)]
pub enum WriteFault {
    /// A write failed, or took no byte; a part of the frame may be written.
    #[error("the output failed")]
    Output,
    /// Out of memory; nothing was written.
    #[error("out of memory")]
    NoMemory,
}

// Writes the whole text, in as many calls as it takes.
fn write_text<W: Write>(writer: &mut W, text: &[u8]) -> Result<(), WriteFault>
    ensures ok { OnOk result (Appends (W.contents writer.old) (W.contents writer.new) text.now) }
    ensures err { OnErr result (AppendsBeginning
        (W.contents writer.old) (W.contents writer.new) text.now) }
    ensures output { IfErr result (λ e. e ≡ WriteFault.Output) }
{
    let mut rest = text;
    while !rest.is_empty() {
        match writer.write(rest) {
            Ok(count) if count > 0 => {
                let (_, after) = rest.split_at(count);
                rest = after;
            }
            _ => return Err(WriteFault::Output),
        }
    }
    Ok(())
}

// The content after its header.
fn framed(alloc: Global, content: &[u8]) -> Result<Vec<u8>, AllocError>
    ensures { IfOk result (λ v. v.items ≡ frame content.now) }
{
    let header = format!(in alloc; "Content-Length: {}\r\n\r\n", content.len())?;
    let mut text = Vec::new(alloc);
    text.extend_from_slice(header.as_bytes())?;
    text.extend_from_slice(content)?;
    Ok(text)
}

/// Writes the content after its header. Nothing is flushed.
pub fn write_frame<W: Write>(
    alloc: Global,
    writer: &mut W,
    content: &[u8],
) -> Result<(), WriteFault>
    ensures ok { OnOk result
        (Appends (W.contents writer.old) (W.contents writer.new) (frame content.now)) }
    ensures err { OnErr result (AppendsBeginning
        (W.contents writer.old) (W.contents writer.new) (frame content.now)) }
    ensures memory { IfErr result (λ e. e ≡ WriteFault.NoMemory
        → W.contents writer.new ≡ W.contents writer.old) }
{
    match framed(alloc, content) {
        Ok(text) => write_text(writer, text.as_slice()),
        Err(_) => Err(WriteFault::NoMemory),
    }
}
