//! Line ends, and the edits of which all editors make the same.

ghost use Rattle.std.specs.Prelude.{◌≢◌, ◌↔◌, ◌<◌, ℕ, IsTrue, All, length};
ghost use Rattle.std.specs.String.{string_bytes};
ghost use Rattle.proto_answers.specs.LineEnds.{HasLoneReturn, HasNoLineEnd, HasNoMixedEnds, HasNoReturn, IsLoneReturn, SuitEditors};

use proto_positions::have_positions;
use proto_text::{Splice, Splices};

/// Whether the carriage return at the offset stands alone; false where there is none.
fn is_lone_return(text: &[u8], offset: usize) -> bool
    requires { offset < length text.now }
    ensures { IsTrue result ↔ IsLoneReturn text.now offset }
{
    if text[offset] != b'\r' {
        return false;
    }
    let next = offset + 1;
    if next == text.len() {
        return true;
    }
    text[next] != b'\n'
}

/// Whether a carriage return stands alone.
fn has_lone_return(text: &[u8]) -> bool
    ensures { IsTrue result ↔ HasLoneReturn text.now }
{
    for offset in 0..text.len() {
        if is_lone_return(text, offset) {
            return true;
        }
    }
    false
}

fn has_no_return(text: &[u8]) -> bool
    ensures { IsTrue result ↔ HasNoReturn text.now }
{
    text.iter().all(|byte| *byte != b'\r')
}

fn has_no_line_end(text: &[u8]) -> bool
    ensures { IsTrue result ↔ HasNoLineEnd text.now }
{
    text.iter().all(|byte| *byte != b'\r' && *byte != b'\n')
}

/// Whether no new text has a line end.
fn have_no_line_end(splices: &[Splice]) -> bool
    ensures { IsTrue result ↔ All (λ s. HasNoLineEnd (string_bytes s.new)) splices.now }
{
    splices
        .iter()
        .all(|splice| has_no_line_end(splice.new.as_bytes()))
}

/// Whether no new line end comes into a text with a carriage return.
fn has_no_mixed_ends(text: &[u8], splices: &Splices) -> bool
    ensures { IsTrue result ↔ HasNoMixedEnds text.now splices.now }
{
    if has_no_return(text) {
        return true;
    }
    have_no_line_end(splices.as_slice())
}

/// Whether all editors make the same of these splices of the text. Takes no memory.
pub(crate) fn suit_editors(text: &[u8], splices: &Splices) -> bool
    ensures { IsTrue result ↔ SuitEditors text.now splices.now }
{
    if has_lone_return(text) {
        return false;
    }
    if !have_positions(text, splices) {
        return false;
    }
    has_no_mixed_ends(text, splices)
}
