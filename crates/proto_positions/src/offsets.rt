//! Which offsets have positions of their own.

ghost use Rattle.std.specs.Prelude.{◌↔◌, IsTrue};
ghost use Rattle.std.specs.List.{AllByRecursion};
ghost use Rattle.proto_positions.specs.Positions.{HasPosition};
ghost use Rattle.proto_positions.specs.TextEdits.{HavePositions};

use proto_text::Splices;

/// Whether an offset, in bytes from 0, has a position of its own: a character begins there or the
/// text ends, and it is not within a line end. Takes no memory.
pub fn has_position(text: &[u8], offset: usize) -> bool
    ensures { IsTrue result ↔ HasPosition text.now offset }
{
    if offset >= text.len() {
        return offset == text.len();
    }
    let byte = text[offset];
    if byte >= 128 && byte < 192 {
        return false;
    }
    !(byte == b'\n' && offset > 0 && text[offset - 1] == b'\r')
}

/// Whether both ends of each splice have positions of their own. Takes no memory.
pub fn have_positions(text: &[u8], splices: &Splices) -> bool
    ensures { IsTrue result ↔ AllByRecursion (HavePositions text.now) splices.now }
{
    for splice in splices.as_slice() {
        let start = splice.at as usize;
        if !has_position(text, start) || !has_position(text, start + splice.old.len()) {
            return false;
        }
    }
    true
}
