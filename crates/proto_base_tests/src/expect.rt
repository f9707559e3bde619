//! How a row of a table is asserted, and the texts that are made of rows.

use proto_text::Source;
use std::process::Abort;

/// Ends the test with the row unless the answer is yes.
pub(crate) fn expect(rt: &impl Abort, is_row: bool, row: &str) {
    assert!(rt; is_row, "{row}");
}

/// A copy of the text.
pub(crate) fn owned_text<R: AllocGlobal + Abort>(rt: &R, text: &str) -> String {
    String::from_str(rt.alloc(), text).expect(rt, "memory")
}

/// One piece so many times, and behind it another so many times.
pub(crate) fn repeated_text<R: AllocGlobal + Abort>(
    rt: &R,
    first: &str,
    count: usize,
    second: &str,
    more: usize,
) -> String {
    let mut text = first.repeat(rt.alloc(), count).expect(rt, "memory");
    let behind = second.repeat(rt.alloc(), more).expect(rt, "memory");
    text.push_str(behind.as_str()).expect(rt, "memory");
    text
}

/// The text as a source.
pub(crate) fn source_of<R: AllocGlobal + Abort>(rt: &R, text: &str) -> Source {
    let bytes = Vec::from_slice(rt.alloc(), text.as_bytes()).expect(rt, "memory");
    Source::new(bytes).expect(rt, "a source")
}
