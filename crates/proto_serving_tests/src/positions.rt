//! Positions and offsets, counted by hand.

use crate::expecting::{expect_text, parts};
use proto_base::MAX_LEN;
use proto_positions::{Cursor, Encoding, Position, has_position, offset_of};
use std::process::Abort;

/// a is byte 0, é 1 and 2, 😀 3 to 6, b 7, CR LF 8 and 9, c 10, a lone CR 11, d 12, LF 13.
const TEXT: &str = "aé😀b\r\nc\rd\n";

/// Texts, and of each offset from 0 to one past the end its line, its column in UTF-16 and that in
/// UTF-8; `-` where it has no position of its own. The first text is that above. CR, CR LF and LF end
/// a line each; U+FFFF is one unit of UTF-16, U+10000 two; each mark on a letter is a unit of its own;
/// none of U+000B, U+000C, U+0085 and U+2028 ends a line.
const PLACES: &str = "\
aé😀b\r\nc\rd\n => 0:0/0 0:1/1 - 0:2/3 - - - 0:4/7 0:5/8 - 1:0/0 1:1/1 2:0/0 2:1/1 3:0/0 - |\
\x20=> 0:0/0 - |\
\r\r\n\n => 0:0/0 1:0/0 - 2:0/0 3:0/0 - |\
\n\r => 0:0/0 1:0/0 2:0/0 - |\
\u{ffff}\u{10000}e\u{301}x => 0:0/0 - - 0:1/3 - - - 0:3/7 0:4/8 - 0:5/10 0:6/11 - |\
a\u{b}\u{c}\u{85}\u{2028}b => 0:0/0 0:1/1 0:2/2 0:3/3 - 0:4/5 - - 0:5/8 0:6/9 - ";

fn at(line: u32, character: u32) -> Position {
    Position { line, character }
}

// The position of an offset, which is found from it again.
fn position<R: Abort>(rt: &R, text: &[u8], encoding: Encoding, offset: usize) -> Position {
    assert!(rt; text.len() <= MAX_LEN && offset <= text.len());
    let position = Cursor::new().moved_to(text, encoding, offset).position();
    assert!(rt; offset_of(text, encoding, position) == offset);
    position
}

fn put_place<R: AllocGlobal + Abort>(rt: &R, out: &mut String, text: &[u8], offset: usize) {
    if !has_position(text, offset) {
        out.push_str("- ").expect(rt, "memory");
        return;
    }
    let wide = position(rt, text, Encoding::Utf16, offset);
    let bytes = position(rt, text, Encoding::Utf8, offset);
    assert!(rt; bytes.line == wide.line);
    let (line, column) = (wide.line, wide.character);
    write!(out, "{line}:{column}/{} ", bytes.character).expect(rt, "memory");
}

fn expect_places<R: AllocGlobal + Abort>(rt: &R, text: &str, wanted: &str) {
    let mut out = String::new(rt.alloc());
    for offset in 0..text.len() + 2 {
        put_place(rt, &mut out, text.as_bytes(), offset);
    }
    expect_text(rt, out.as_str(), wanted);
}

#[test]
fn offsets_have_positions(rt: HostRuntime) {
    for row in PLACES.split('|') {
        let (text, wanted) = parts(&rt, row);
        expect_places(&rt, text, wanted);
    }
}

// The offset in the first text that a position leads to.
fn offset<R: Abort>(rt: &R, encoding: Encoding, line: u32, column: u32) -> usize {
    assert!(rt; TEXT.len() <= MAX_LEN);
    offset_of(TEXT.as_bytes(), encoding, at(line, column))
}

// The offsets that the columns 0 to 9 of a line lead to.
fn expect_columns<R: AllocGlobal + Abort>(rt: &R, encoding: Encoding, line: u32, wanted: &str) {
    let mut out = String::new(rt.alloc());
    for column in 0..10 {
        write!(out, "{} ", offset(rt, encoding, line, column)).expect(rt, "memory");
    }
    expect_text(rt, out.as_str(), wanted);
}

#[test]
fn other_positions_lead_to_ends(rt: HostRuntime) {
    // Within a character, its end; past a line, that of the line.
    expect_columns(&rt, Encoding::Utf16, 0, "0 1 3 7 7 8 8 8 8 8 ");
    expect_columns(&rt, Encoding::Utf8, 0, "0 1 3 3 7 7 7 7 8 8 ");
    expect_columns(&rt, Encoding::Utf16, 1, "10 11 11 11 11 11 11 11 11 11 ");
    expect_columns(&rt, Encoding::Utf16, 2, "12 13 13 13 13 13 13 13 13 13 ");
    // Past the file.
    expect_columns(&rt, Encoding::Utf16, 3, "14 14 14 14 14 14 14 14 14 14 ");
    expect_columns(&rt, Encoding::Utf8, 4, "14 14 14 14 14 14 14 14 14 14 ");
    assert!(rt; offset(&rt, Encoding::Utf16, 0, u32::MAX) == 8);
    assert!(rt; offset(&rt, Encoding::Utf16, u32::MAX, u32::MAX) == 14);
}

#[test]
fn a_cursor_goes_back(rt: HostRuntime) {
    let text = TEXT.as_bytes();
    assert!(rt; text.len() == 14);
    let end = Cursor::new().moved_to(text, Encoding::Utf16, 14);
    let back = end.moved_to(text, Encoding::Utf16, 11);
    assert!(rt; end.position() == at(3, 0) && back.position() == at(1, 1));
}

#[test]
fn a_file_has_a_million_lines(rt: HostRuntime) {
    let text = b"\n".repeat(rt.alloc(), 1048576).expect(&rt, "memory");
    assert!(rt; text.len() == 1048576);
    assert!(rt; offset_of(text.as_slice(), Encoding::Utf16, at(1048575, 7)) == 1048575);
}
