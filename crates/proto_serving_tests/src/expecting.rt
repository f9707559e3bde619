//! Rows of tests: each on a line or behind a `|`, its parts between ` => `.

use std::process::Abort;

/// The part of a row before the first ` => `, and what follows it.
pub(crate) fn parts<'a, R: Abort>(rt: &R, row: &'a str) -> (&'a str, &'a str) {
    row.split_once(" => ").expect(rt, "two parts")
}

/// Ends the test unless the texts are the same.
pub(crate) fn expect_text<R: Abort>(rt: &R, found: &str, wanted: &str) {
    assert!(rt; found == wanted, "{found} in the place of {wanted}");
}

/// Ends the test with the wanted text unless these are its bytes.
pub(crate) fn expect_bytes<R: Abort>(rt: &R, found: &[u8], wanted: &str) {
    assert!(rt; found == wanted.as_bytes(), "{wanted}");
}

/// Ends the test with the row unless the answer is yes.
pub(crate) fn expect_that<R: Abort>(rt: &R, is_so: bool, row: &str) {
    assert!(rt; is_so, "{row}");
}
