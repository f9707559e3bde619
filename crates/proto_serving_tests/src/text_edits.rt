//! Splices as text edits, written as `LINE:COLUMN-LINE:COLUMN=NEW;`.

use crate::expecting::{expect_text, parts};
use proto_base::MAX_LEN;
use proto_positions::{Encoding, RangeEdit, have_positions, text_edits};
use proto_text::{Splice, Splices};
use std::process::Abort;

/// a is byte 0, é 1 and 2, 😀 3 to 6, b 7, CR LF 8 and 9, c 10, a lone CR 11, d 12, LF 13.
const TEXT: &str = "aé😀b\r\nc\rd\n";

/// Splices of that text, written as `OFFSET=OLD=NEW;`, and their text edits in UTF-16 and in UTF-8,
/// or `none`: two that stand at one offset keep their order; an end within a line end, or past the
/// text, has no position.
const SPLICES: &str = " =>  => |\
0=a=b; => 0:0-0:1=b; => 0:0-0:1=b;|\
1=é=e;3=😀=;7=b\r\n=x; => 0:1-0:2=e;0:2-0:4=;0:4-1:0=x; => 0:1-0:3=e;0:3-0:7=;0:7-1:0=x;|\
10==x;10==y;11=\rd=é; => 1:0-1:0=x;1:0-1:0=y;1:1-2:1=é; => 1:0-1:0=x;1:0-1:0=y;1:1-2:1=é;|\
14==e; => 3:0-3:0=e; => 3:0-3:0=e;|\
8=\r=; => none => none|\
9=\n=; => none => none|\
14=a=; => none => none";

fn splice<R: AllocGlobal + Abort>(rt: &R, written: &str) -> Splice {
    let (at, rest) = written.split_once('=').expect(rt, "an offset");
    let (old, new) = rest.split_once('=').expect(rt, "two texts");
    Splice {
        at: at.parse().expect(rt, "a number"),
        old: String::from_str(rt.alloc(), old).expect(rt, "memory"),
        new: String::from_str(rt.alloc(), new).expect(rt, "memory"),
    }
}

fn splices<R: AllocGlobal + Abort>(rt: &R, written: &str) -> Vec<Splice> {
    let mut splices = Vec::new(rt.alloc());
    for part in written.split_terminator(';') {
        splices.push(splice(rt, part)).expect(rt, "memory");
    }
    splices
}

fn put_edit<R: AllocGlobal + Abort>(rt: &R, out: &mut String, edit: &RangeEdit) {
    let (start, end) = (edit.start, edit.end);
    write!(
        out,
        "{}:{}-{}:{}={};",
        start.line, start.character, end.line, end.character, edit.new
    )
    .expect(rt, "memory");
}

// The text edits of the splices, or that they have none.
fn shown<R: AllocGlobal + Abort>(rt: &R, encoding: Encoding, splices: &Splices) -> String {
    let mut out = String::new(rt.alloc());
    let text = TEXT.as_bytes();
    if text.len() > MAX_LEN || !have_positions(text, splices) {
        out.push_str("none").expect(rt, "memory");
        return out;
    }
    let edits = text_edits(rt.alloc(), text, encoding, splices).expect(rt, "memory");
    for edit in &edits {
        put_edit(rt, &mut out, edit);
    }
    out
}

fn expect_edits<R: AllocGlobal + Abort>(rt: &R, written: &str, wide: &str, bytes: &str) {
    let splices = Splices::new(splices(rt, written)).expect(rt, "splices in order");
    let found = shown(rt, Encoding::Utf16, &splices);
    expect_text(rt, found.as_str(), wide);
    let found = shown(rt, Encoding::Utf8, &splices);
    expect_text(rt, found.as_str(), bytes);
}

#[test]
fn splices_are_text_edits(rt: HostRuntime) {
    for row in SPLICES.split('|') {
        let (written, wanted) = parts(&rt, row);
        let (wide, bytes) = parts(&rt, wanted);
        expect_edits(&rt, written, wide, bytes);
    }
}
