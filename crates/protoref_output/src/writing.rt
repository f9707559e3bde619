//! Writing a text whole.

ghost use Rattle.std.specs.Prelude.{OnErr, OnOk};
ghost use Rattle.std.specs.Io.KnownBytes.{Appends};
ghost use Rattle.protoref_output.specs.Writing.{AppendsBeginning};

use std::io::Write;
use thiserror::Error;

/// A write failed, or took no byte.
#[derive(Clone, Copy, Debug, PartialEq, Eq, Error)]
#[error("the output failed")]
pub struct OutputFault;

/// Writes the whole text, in as many calls as it takes.
pub fn write_text<W: Write>(writer: &mut W, text: &[u8]) -> Result<(), OutputFault>
    ensures ok { OnOk result (Appends (W.contents writer.old) (W.contents writer.new) text.now) }
    ensures err { OnErr result (AppendsBeginning
        (W.contents writer.old) (W.contents writer.new) text.now) }
{
    let mut rest = text;
    while !rest.is_empty() {
        match writer.write(rest) {
            Ok(count) if count > 0 => {
                let (_, after) = rest.split_at(count);
                rest = after;
            }
            _ => return Err(OutputFault),
        }
    }
    Ok(())
}
