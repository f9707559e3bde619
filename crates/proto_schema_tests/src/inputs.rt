//! Truncated and largest input.

use crate::calls::*;
use proto_base::{Profile, SchemaFault};
use std::process::Abort;

const WHOLE: &str = "syntax = \"proto3\"; message A { string b_c = 1; }";

const COMPILED: &str =
    "{\"file\":[{\"messageType\":[{\"field\":[{\"jsonName\":\"bC\",\"label\":\"LABEL_OPTIONAL\",\"name\":\"b_c\",\"number\":1,\"type\":\"TYPE_STRING\"}],\"name\":\"A\"}],\"name\":\"a.proto\",\"syntax\":\"proto3\"}]}";

/// The least and the greatest length of some fronts of the file, and the answer to each of them. A statement that is cut off
/// is a fault at its first token, but a block with nothing cut off in it is one at the end.
type Fronts = (usize, usize, &'static str);

const FRONTS: &[Fronts] = &[
    (0, 0, "{\"file\":[{\"name\":\"a.proto\"}]}"),
    (1, 9, "a.proto:0: 8 Syntax"),
    (10, 16, "a.proto:9: 5 OpenString"),
    (17, 17, "a.proto:0: 8 Syntax"),
    (
        18,
        19,
        "{\"file\":[{\"name\":\"a.proto\",\"syntax\":\"proto3\"}]}",
    ),
    (20, 29, "a.proto:19: 8 Syntax"),
    (30, 30, "a.proto:30: 8 Syntax"),
    (31, 31, "a.proto:31: 8 Syntax"),
    (32, 45, "a.proto:31: 8 Syntax"),
    (46, 46, "a.proto:46: 8 Syntax"),
    (47, 47, "a.proto:47: 8 Syntax"),
    (48, 48, COMPILED),
];

// One file of these bytes.
fn alone<R: AllocGlobal + Abort>(rt: &R, path: &str, bytes: &[u8]) -> Given {
    let mut files = Vec::new(rt.alloc());
    add(rt.alloc(), &mut files, path, bytes).expect(rt, "memory");
    files
}

// The first bytes of a text, so many, as `a.proto`.
fn front<R: AllocGlobal + Abort>(rt: &R, text: &str, count: usize) -> Given {
    let bytes = text.as_bytes();
    alone(rt, "a.proto", &bytes[..count.min(bytes.len())])
}

#[test]
fn fronts_of_a_file(rt: HostRuntime) {
    for (least, greatest, wanted) in FRONTS {
        for count in *least..=*greatest {
            expect(&rt, front(&rt, WHOLE, count), wanted);
        }
    }
}

const CUT: &[&str] = &[
    "message M { enum E { V = 0; } optional E e = 1 [default = V]; } message N { enum F { V = 0; } optional F f = 1 [default = V]; }",
    "syntax = \"proto3\"; message M { map<string,int32> foo = 1; }",
    "syntax = \"proto3\"; package p; message M {} message A { p . /* x */ M f = 1; }",
];

// Whether a front compiles, or has a fault that stands inside it or at its end.
fn is_placed<R: AllocGlobal + Abort>(rt: &R, text: &str, count: usize) -> bool {
    match compiled_json(rt, Profile::Core, front(rt, text, count), None) {
        Ok(_json) => true,
        Err(SchemaFault::Schema(fault)) => {
            fault.path.as_str() == "a.proto" && fault.offset as usize <= count
        }
        Err(SchemaFault::NoMemory) => false,
    }
}

#[test]
fn faults_stand_inside_what_is_left(rt: HostRuntime) {
    for text in CUT {
        for count in 0..=text.len() {
            assert!(rt; is_placed(&rt, text, count), "{count} bytes of {text}");
        }
    }
}

// So many of one piece, and so many of another behind them.
fn repeated_text<R: AllocGlobal + Abort>(
    rt: &R,
    (first, count): (&str, usize),
    (second, more): (&str, usize),
) -> String {
    let mut text = first.repeat(rt.alloc(), count).expect(rt, "memory");
    for _ in 0..more {
        text.push_str(second).expect(rt, "memory");
    }
    text
}

// The file, with spaces behind it up to this length, is answered so.
fn expect_filled<R: AllocGlobal + Abort>(rt: &R, length: usize, wanted: &str) {
    let text = repeated_text(rt, (WHOLE, 1), (" ", length.saturating_sub(WHOLE.len())));
    expect(rt, alone(rt, "a.proto", text.as_bytes()), wanted);
}

#[test]
fn the_largest_file(rt: HostRuntime) {
    expect_filled(&rt, 1048576, COMPILED);
    expect_filled(&rt, 1048577, "a.proto:0: 1 TooLarge");
}

// An empty file with a path of this length is answered so: what stands before the path, and behind it.
fn expect_path<R: AllocGlobal + Abort>(rt: &R, length: usize, before: &str, behind: &str) {
    let path = repeated_text(rt, ("a", length.saturating_sub(6)), (".proto", 1));
    assert!(rt; path.len() == length);
    let path = path.as_str();
    let wanted = format!(in rt.alloc(); "{before}{path}{behind}").expect(rt, "memory");
    expect(rt, alone(rt, path, &[]), wanted.as_str());
}

#[test]
fn the_longest_path(rt: HostRuntime) {
    expect_path(&rt, 255, "{\"file\":[{\"name\":\"", "\"}]}");
    expect_path(&rt, 256, "", ":0: 33 BadPath");
}

// Each `{` stands behind nine bytes; the 33rd is one too many.
#[test]
fn the_deepest_messages(rt: HostRuntime) {
    let text = repeated_text(&rt, ("message M{", 32), ("}", 32));
    expect_ends(
        &rt,
        alone(&rt, "a.proto", text.as_bytes()),
        "{\"file\":[{\"messageType\":",
        "}],\"name\":\"a.proto\"}]}",
    );
    let deeper = repeated_text(&rt, ("message M{", 33), ("}", 33));
    expect(
        &rt,
        alone(&rt, "a.proto", deeper.as_bytes()),
        "a.proto:329: 9 TooDeep",
    );
}
