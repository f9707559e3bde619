//! Readers that show what they have read ahead.

ghost use Rattle.std.specs.Prelude.{IfSome};
ghost use Rattle.proto_serving.specs.Serving.{HasPrefix};

use std::io::{BufRead, BufReader, Read};

/// A reader that shows what it has read ahead.
pub trait Buffered: BufRead {
    /// The bytes that are read already and come next. Nothing is read for it.
    fn buffer(&self) -> &[u8]
        ensures { IfSome (Self.remaining self.now) (HasPrefix result.now) };
}

impl<R: Read> Buffered for BufReader<R> {
    fn buffer(&self) -> &[u8] {
        BufReader::buffer(self)
    }
}

impl Buffered for &[u8] {
    fn buffer(&self) -> &[u8] {
        self
    }
}
