//! Worked examples.

use crate::expect::{expect, owned_text, source_of};
use proto_text::{
    Source, Splice, SpliceFault, Splices, TextFault, TokenKind, apply_splices, invert, lex,
    stands_for, string_value,
};
use std::process::Abort;

// Puts each token's kind and text.
fn put_tokens<R: AllocGlobal + Abort>(
    rt: &R,
    out: &mut String,
    bytes: Vec<u8>,
) -> Result<(), TextFault> {
    let source = Source::new(bytes)?;
    for token in &lex(rt.alloc(), &source)? {
        let (kind, word) = (token.kind, source.text(token.span));
        write!(out, "{kind:?}<{word}>").expect(rt, "memory");
    }
    Ok(())
}

// Whether the text, so many times, has these tokens or this fault.
fn is_shown<R: AllocGlobal + Abort>(rt: &R, text: &[u8], count: usize, said: &str) -> bool {
    let bytes = text.repeat(rt.alloc(), count).expect(rt, "memory");
    let mut shown = String::new(rt.alloc());
    if let Err(fault) = put_tokens(rt, &mut shown, bytes) {
        let (number, name, offset) = (fault.number(), fault.name(), fault.offset());
        write!(shown, "{number} {name} {offset}").expect(rt, "memory");
    }
    shown.as_str() == said
}

/// Texts, each with its tokens or its fault.
const TEXTS: &[(&str, &str)] = &[
    (
        "syntax = \"proto3\"; // x",
        "Word<syntax>Punctuation<=>Text<\"proto3\">Punctuation<;>",
    ),
    (
        "a/* ** */b\u{b}0x1F 07 0 19",
        "Word<a>Word<b>Number<0x1F>Number<07>Number<0>Number<19>",
    ),
    ("1.5", "Number<1>Punctuation<.>Number<5>"),
    ("0Xa", "Number<0Xa>"),
    ("a\tb\u{c}c\rd", "Word<a>Word<b>Word<c>Word<d>"),
    (
        "{}[]()<>;,=.-",
        "Punctuation<{>Punctuation<}>Punctuation<[>Punctuation<]>Punctuation<(>Punctuation<)>Punctuation<<>Punctuation<>>Punctuation<;>Punctuation<,>Punctuation<=>Punctuation<.>Punctuation<->",
    ),
    ("_a1'x'2", "Word<_a1>Text<'x'>Number<2>"),
    ("/*é\u{feff}*/'\u{feff}'", "Text<'\u{feff}'>"),
    (
        "'\\101\\x4\\n\\''\"\\303\\251\"",
        "Text<'\\101\\x4\\n\\''>Text<\"\\303\\251\">",
    ),
    ("/**/", ""),
    ("", ""),
    // Comments and strings that are open.
    ("/*", "4 OpenComment 0"),
    ("/*/", "4 OpenComment 0"),
    ("a /*/", "4 OpenComment 2"),
    ("\"abc", "5 OpenString 0"),
    ("'a\n", "5 OpenString 0"),
    ("'a\u{0}'", "5 OpenString 0"),
    ("'\\'", "5 OpenString 0"),
    ("'\\\u{0}'", "5 OpenString 0"),
    ("\"\\\n\"", "5 OpenString 0"),
    // Bad numbers.
    ("1x", "7 BadNumber 0"),
    (" 08", "7 BadNumber 1"),
    ("0x", "7 BadNumber 0"),
    ("1e5", "7 BadNumber 0"),
    // Bad escapes.
    ("\"\\q\"", "6 BadEscape 0"),
    ("\"\\400\"", "6 BadEscape 0"),
    ("'\\377'", "6 BadEscape 0"),
    ("'\\X41'", "6 BadEscape 0"),
    ("'\\u0041'", "6 BadEscape 0"),
    ("'\\x'", "6 BadEscape 0"),
    ("'\\xg'", "6 BadEscape 0"),
    ("'\\8'", "6 BadEscape 0"),
    ("'\\9'", "6 BadEscape 0"),
    ("'\\é'", "6 BadEscape 0"),
    // Bad signs.
    ("a $", "3 BadChar 2"),
    ("a / b", "3 BadChar 2"),
    ("/", "3 BadChar 0"),
    ("\u{feff}a", "3 BadChar 0"),
    ("é", "3 BadChar 0"),
    ("a\u{0}", "3 BadChar 1"),
];

/// Texts, how often each stands in a file, and what is said of that.
const LIMITS: &[(&[u8], usize, &str)] = &[
    (b" ", 1048576, ""),
    (b" ", 1048577, "1 TooLarge 0"),
    (b"a\xff", 1, "2 NotUtf8 0"),
];

#[test]
fn tokens(rt: HostRuntime) {
    for (text, said) in TEXTS {
        expect(&rt, is_shown(&rt, text.as_bytes(), 1, said), text);
    }
    for (text, count, said) in LIMITS {
        expect(&rt, is_shown(&rt, text, *count, said), said);
    }
}

const PLACED: &str = "ab\ncé\r\n\nd";

/// Each offset of that text and the one behind it, with its line and its column.
const PLACES: &[(u32, u32, u32)] = &[
    (0, 1, 1),
    (1, 1, 2),
    (2, 1, 3),
    (3, 2, 1),
    (4, 2, 2),
    (5, 2, 3),
    (6, 2, 4),
    (7, 2, 5),
    (8, 3, 1),
    (9, 4, 1),
    (10, 4, 2),
];

fn is_place(source: &Source, offset: u32, line: u32, column: u32) -> bool {
    if offset as usize > source.as_bytes().len() {
        return false;
    }
    let place = source.line_col(offset);
    place.0 == line && place.1 == column
}

#[test]
fn lines_and_columns(rt: HostRuntime) {
    assert!(rt; PLACED.len() == 10);
    let source = source_of(&rt, PLACED);
    for (offset, line, column) in PLACES {
        assert!(rt; is_place(&source, *offset, *line, *column), "{offset}");
    }
}

// Puts the values of the string tokens, one after the other, but none that its token does not stand for.
fn put_values<R: AllocGlobal + Abort>(
    rt: &R,
    out: &mut String,
    source: &Source,
) -> Result<(), TextFault> {
    for token in &lex(rt.alloc(), source)? {
        if let TokenKind::Text = token.kind {
            let word = source.text(token.span);
            let value = string_value(rt.alloc(), word).expect(rt, "memory");
            if stands_for(word, value.as_bytes()) {
                out.push_str(value.as_str()).expect(rt, "memory");
            }
        }
    }
    Ok(())
}

/// String tokens.
const STRINGS: &str =
    "'plain' '' \"proto\\x33\" '\\1234\\x414' '\\101\\x4\\n\\'' '\\0\\08' '\\303\\251é' '\\xC3\\xA9' '\\a\\b\\f\\r\\t\\v\\?\\\\\\\"'";

/// Their values, one after the other.
const VALUES: &str = "plainproto3S4A4A\u{4}\n'\u{0}\u{0}8ééé\u{7}\u{8}\u{c}\r\t\u{b}?\\\"";

/// String tokens and what is none, each with another value.
const OTHER_VALUES: &[(&str, &str)] = &[
    ("'a'", "b"),
    ("'ab'", "a"),
    ("'a'", "ab"),
    ("'\\q'", "q"),
    ("'", ""),
];

#[test]
fn string_values(rt: HostRuntime) {
    for (text, value) in OTHER_VALUES {
        expect(&rt, !stands_for(text, value.as_bytes()), text);
    }
    let mut values = String::new(rt.alloc());
    put_values(&rt, &mut values, &source_of(&rt, STRINGS)).expect(&rt, "tokens");
    expect(&rt, values.as_str() == VALUES, values.as_str());
}

/// Splices: the offset, the old and the new text of each.
type Rows = &'static [(u32, &'static str, &'static str)];

const TWO: Rows = &[(0, "ab", "xyz"), (3, "cd", "")];

const TWO_BACK: Rows = &[(0, "xyz", "ab"), (4, "", "cd")];

const DISORDER: Answer = Answer::Fault(3, "Disorder");

/// What splices answer.
enum Answer {
    /// The text with them.
    Text(&'static str),
    /// The number and the name of a fault.
    Fault(u32, &'static str),
}

/// Splices; what they are when they are inverted, where they are so first; a text, and how often it stands in the one that
/// they are put into; and the answer.
type Trial = (Rows, Option<Rows>, &'static [u8], usize, Answer);

const TRIALS: &[Trial] = &[
    (TWO, None, b"ab cd", 1, Answer::Text("xyz ")),
    (TWO, None, b"ab ce", 1, Answer::Fault(1, "Stale")),
    (TWO, Some(TWO_BACK), b"xyz ", 1, Answer::Text("ab cd")),
    (
        &[(0, "", "b")],
        None,
        b" ",
        1048576,
        Answer::Fault(2, "TooLarge"),
    ),
    (&[(1, "ab", ""), (2, "c", "")], None, b"", 1, DISORDER),
    // None ends past the limit, in either text.
    (&[(1048576, "a", "")], None, b"", 1, DISORDER),
    (&[(1048576, "", "a")], None, b"", 1, DISORDER),
    (
        &[(1048576, "", "")],
        None,
        b"",
        1,
        Answer::Fault(1, "Stale"),
    ),
];

fn splices_of<R: AllocGlobal + Abort>(rt: &R, rows: Rows) -> Vec<Splice> {
    let mut splices = Vec::new(rt.alloc());
    for (at, old, new) in rows {
        let splice = Splice {
            at: *at,
            old: owned_text(rt, old),
            new: owned_text(rt, new),
        };
        splices.push(splice).expect(rt, "memory");
    }
    splices
}

fn are_splices(splices: &[Splice], rows: Rows) -> bool {
    for (splice, (at, old, new)) in splices.iter().zip(rows) {
        if splice.at != *at || splice.old.as_str() != *old || splice.new.as_str() != *new {
            return false;
        }
    }
    splices.len() == rows.len()
}

fn is_fault(fault: &SpliceFault, answer: &Answer) -> bool {
    match answer {
        Answer::Text(_) => false,
        Answer::Fault(number, name) => fault.number() == *number && fault.name() == *name,
    }
}

// Whether the text of the trial with the splices, or the fault, is the answer.
fn are_put<R: AllocGlobal + Abort>(rt: &R, splices: &Splices, trial: &Trial) -> bool {
    let (_, _, text, count, answer) = trial;
    let text = text.repeat(rt.alloc(), *count).expect(rt, "memory");
    match apply_splices(rt.alloc(), text.as_slice(), splices) {
        Ok(new) => match answer {
            Answer::Text(wanted) => new.as_slice() == wanted.as_bytes(),
            Answer::Fault(_, _) => false,
        },
        Err(fault) => is_fault(&fault, answer),
    }
}

fn is_answered<R: AllocGlobal + Abort>(rt: &R, trial: &Trial) -> bool {
    let (rows, back, _, _, answer) = trial;
    match Splices::new(splices_of(rt, rows)) {
        Ok(splices) => {
            let splices = if back.is_some() {
                invert(splices)
            } else {
                splices
            };
            are_splices(splices.as_slice(), back.unwrap_or(*rows)) && are_put(rt, &splices, trial)
        }
        Err(fault) => is_fault(&fault, answer),
    }
}

#[test]
fn splices(rt: HostRuntime) {
    for (place, trial) in TRIALS.iter().enumerate() {
        assert!(rt; is_answered(&rt, trial), "{place}");
    }
}
