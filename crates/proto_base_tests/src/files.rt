//! Tests of the files of a workspace, through public calls alone.

use crate::expect::{expect, owned_text, repeated_text};
use proto_base::{FaultKind, SchemaFault};
use proto_files::{
    Files, Paths, Words, all_paths, are_read, fault_at_token, is_workspace_path, offset_of,
};
use proto_text::{Span, Token, TokenKind};
use std::process::Abort;

#[test]
fn longest_path(rt: HostRuntime) {
    let longest = repeated_text(&rt, "a", 249, ".proto", 1);
    let is_path = longest.len() == 255 && is_workspace_path(longest.as_str());
    expect(&rt, is_path, "255 bytes");
    let longer = repeated_text(&rt, "a", 249, ".protoa.proto", 1);
    expect(&rt, !is_workspace_path(longer.as_str()), "more bytes");
}

/// A fault: its number, its name, its path and its offset.
struct Said(u32, &'static str, &'static str, u32);

fn is_fault(fault: &SchemaFault, said: &Said) -> bool {
    let Said(number, name, path, offset) = said;
    match fault {
        SchemaFault::Schema(fault) => {
            fault.number() == *number
                && fault.name() == *name
                && fault.path.as_str() == *path
                && fault.offset == *offset
        }
        SchemaFault::NoMemory => false,
    }
}

/// Files: paths and bytes.
pub(crate) type Given = Vec<(String, Vec<u8>)>;

// Puts one more file, with the text so many times.
pub(crate) fn put_file<R: AllocGlobal + Abort>(
    rt: &R,
    files: &mut Given,
    path: &str,
    text: &[u8],
    count: usize,
) {
    let text = text.repeat(rt.alloc(), count).expect(rt, "memory");
    files
        .push((owned_text(rt, path), text))
        .expect(rt, "memory");
}

// Files from one text: the path of each, a `:` and its text, with `|` between them.
pub(crate) fn given_files<R: AllocGlobal + Abort>(rt: &R, texts: &str) -> Given {
    let mut files = Vec::new(rt.alloc());
    for file in texts.split('|') {
        if let Some((path, text)) = file.split_once(':') {
            put_file(rt, &mut files, path, text.as_bytes(), 1);
        }
    }
    files
}

// Reads files, of which there may be so many if it is said.
pub(crate) fn read<R: AllocGlobal>(
    rt: &R,
    limit: Option<usize>,
    given: Given,
) -> Result<Files, SchemaFault> {
    let paths = match limit {
        Some(limit) => Paths::up_to(rt.alloc(), limit.min(4096), given)?,
        None => Paths::new(rt.alloc(), given)?,
    };
    Files::read(rt.alloc(), paths)
}

/// What files answer when they are read, or what is asked of them then.
enum Answer {
    Fault(Said),
    Count(usize),
    /// All paths.
    Paths(&'static [&'static str]),
    /// A path, and the place of its file.
    Place(&'static str, Option<u32>),
    /// A file, its path, and how many bytes and tokens it has.
    File(u32, &'static str, usize, usize),
    /// A file, a token, where that begins, its text, and its value if it is a string. A token behind the last one begins at 0
    /// and has no text.
    Token(u32, u32, u32, &'static str, Option<&'static str>),
    /// A file, a token, and the fault at it of a name that is there twice.
    Duplicate(u32, u32, Said),
}

/// How many files there may be, if it is said, the files as one text, and the answer.
type Row = (Option<usize>, &'static str, Answer);

// Whether a file has this path, so many bytes and so many tokens.
fn is_file(files: &Files, file: u32, path: &str, length: usize, tokens: usize) -> bool {
    if file as usize >= files.len() {
        return false;
    }
    let _tree = files.tree(file);
    files.path(file) == path
        && files.source(file).as_bytes().len() == length
        && files.tokens(file).len() == tokens
}

// Whether a loop over the files meets these paths, in their order.
fn meets(files: &Files, paths: &[&str]) -> bool {
    let mut left = paths.iter();
    for file in files {
        match left.next() {
            Some(path) if file.path.as_str() == *path => {}
            _ => return false,
        }
    }
    left.next().is_none()
}

// Whether the file with this path has this place.
fn is_place(files: &Files, path: &str, place: Option<u32>) -> bool {
    are_read(files);
    files.place_of_path(path) == place
}

// Whether a token has this text and begins at this byte.
fn has_text(files: &Files, file: u32, token: u32, offset: u32, text: &str) -> bool {
    if file as usize >= files.len() {
        return false;
    }
    let tokens = files.tokens(file);
    let is_text = match tokens.get(token as usize) {
        Some(_) => files.token_text(file, token) == text,
        None => text.is_empty(),
    };
    let word = Words::new(files, file).get(token);
    is_text && word == text && offset_of(tokens, token) == offset
}

// Whether a token is a string of this value, or none.
fn has_value<R: AllocGlobal + Abort>(
    rt: &R,
    files: &Files,
    file: u32,
    token: u32,
    value: Option<&str>,
) -> bool {
    if file as usize >= files.len() {
        return false;
    }
    match files.tokens(file).get(token as usize) {
        Some(
            Token {
                kind: TokenKind::Text,
                ..
            },
        ) => {
            let string = files
                .string_value(rt.alloc(), file, token)
                .expect(rt, "memory");
            value == Some(string.as_str())
        }
        _ => value.is_none(),
    }
}

// The same, also of the words of the file, which say of no other value that it is the token's.
fn is_token<R: AllocGlobal + Abort>(
    rt: &R,
    files: &Files,
    file: u32,
    token: u32,
    value: Option<&str>,
) -> bool {
    if file as usize >= files.len() {
        return false;
    }
    let words = Words::new(files, file);
    let said = match value {
        Some(value) => words.says(token, value.as_bytes()) && !words.says(token, b"proto"),
        None => !words.says(token, words.get(token).as_bytes()),
    };
    let string = words.string(rt.alloc(), token).expect(rt, "memory");
    said && value == string.as_deref() && has_value(rt, files, file, token, value)
}

// Whether files answer this.
fn is_given<R: AllocGlobal + Abort>(rt: &R, files: &Files, answer: &Answer) -> bool {
    match answer {
        Answer::Fault(_) => false,
        Answer::Count(count) => files.len() == *count && files.is_empty() == (*count == 0),
        Answer::Paths(paths) => {
            all_paths(rt.alloc(), files).expect(rt, "memory").as_slice() == *paths
                && meets(files, paths)
        }
        Answer::Place(path, place) => is_place(files, path, *place),
        Answer::File(file, path, length, tokens) => is_file(files, *file, path, *length, *tokens),
        Answer::Token(file, token, offset, text, value) => {
            has_text(files, *file, *token, *offset, text)
                && is_token(rt, files, *file, *token, *value)
        }
        Answer::Duplicate(file, token, said) => {
            if *file as usize >= files.len() {
                return false;
            }
            let kind = FaultKind::DuplicateName;
            is_fault(
                &fault_at_token(rt.alloc(), files, *file, *token, kind),
                said,
            )
        }
    }
}

// The one owner of files.
fn is_answered<R: AllocGlobal + Abort>(
    rt: &R,
    limit: Option<usize>,
    given: Given,
    answer: &Answer,
) -> bool {
    match read(rt, limit, given) {
        Ok(files) => {
            let is_so = is_given(rt, &files, answer);
            files.release();
            is_so
        }
        Err(fault) => match answer {
            Answer::Fault(said) => is_fault(&fault, said),
            _ => false,
        },
    }
}

// Ends the test with the first row of this table that is not so.
fn expect_answers<R: AllocGlobal + Abort>(rt: &R, table: &str, rows: &[Row]) {
    for (place, (limit, texts, answer)) in rows.iter().enumerate() {
        let is_row = is_answered(rt, *limit, given_files(rt, texts), answer);
        assert!(rt; is_row, "{table}, row {place} from 0");
    }
}

/// Faults of paths, and files without one.
const PATH_FAULTS: &[Row] = &[
    (
        Some(4096),
        "b.proto: |a/c.proto: |a.proto: ",
        Answer::Count(3),
    ),
    (
        Some(4096),
        "b.proto: |a.proto: |b.proto: ",
        Answer::Fault(Said(34, "DoublePath", "b.proto", 0)),
    ),
    (
        Some(4096),
        "b.txt: |a.proto: |b.txt: ",
        Answer::Fault(Said(33, "BadPath", "b.txt", 0)),
    ),
    (
        Some(1),
        "b.proto: |a.proto: ",
        Answer::Fault(Said(35, "TooManyFiles", "b.proto", 0)),
    ),
    (Some(2), "b.proto: |a.proto: ", Answer::Count(2)),
    (
        Some(1),
        "b.proto: |a.proto: |c.txt: ",
        Answer::Fault(Said(35, "TooManyFiles", "b.proto", 0)),
    ),
    (
        Some(1),
        "b.proto: |a.proto: |a.proto: ",
        Answer::Fault(Said(34, "DoublePath", "a.proto", 0)),
    ),
    (
        Some(0),
        "b.proto: |a.proto: ",
        Answer::Fault(Said(35, "TooManyFiles", "a.proto", 0)),
    ),
    (None, "c.proto: |a.proto: ", Answer::Count(2)),
    (
        None,
        "c.proto: |.: ",
        Answer::Fault(Said(33, "BadPath", ".", 0)),
    ),
];

/// Faults of texts and of grammar.
const TEXT_FAULTS: &[Row] = &[
    (
        None,
        "b.proto:1x|a.proto:message",
        Answer::Fault(Said(7, "BadNumber", "b.proto", 0)),
    ),
    (
        None,
        "b.proto:/*|a.proto:a $",
        Answer::Fault(Said(3, "BadChar", "a.proto", 2)),
    ),
    (
        None,
        "a.proto:|b.proto: /*",
        Answer::Fault(Said(4, "OpenComment", "b.proto", 1)),
    ),
    (
        None,
        "a.proto:import 'b",
        Answer::Fault(Said(5, "OpenString", "a.proto", 7)),
    ),
    (
        None,
        "a.proto:'\\q'",
        Answer::Fault(Said(6, "BadEscape", "a.proto", 0)),
    ),
    (
        None,
        "a.proto:|b.proto: message",
        Answer::Fault(Said(8, "Syntax", "b.proto", 1)),
    ),
    (
        None,
        "a.proto:message M {}|b.proto:message M { a b }",
        Answer::Fault(Said(8, "Syntax", "b.proto", 12)),
    ),
];

/// Files as one text, the path of one more file, how often a text stands in that, and the answer.
const LONG: &[(&str, &str, &[u8], usize, Answer)] = &[
    // Messages in messages, 33 deep.
    (
        "b.proto:message",
        "a.proto",
        b"message M{",
        33,
        Answer::Fault(Said(9, "TooDeep", "a.proto", 329)),
    ),
    (
        "b.proto:",
        "a.proto",
        b"\xff",
        1,
        Answer::Fault(Said(2, "NotUtf8", "a.proto", 0)),
    ),
    (
        "b.proto:",
        "a.proto",
        b" ",
        1048577,
        Answer::Fault(Said(1, "TooLarge", "a.proto", 0)),
    ),
];

#[test]
fn faults_of_files(rt: HostRuntime) {
    assert!(rt; FaultKind::BadPath.phase() == 0);
    expect_answers(&rt, "PATH_FAULTS", PATH_FAULTS);
    expect_answers(&rt, "TEXT_FAULTS", TEXT_FAULTS);
    for (place, (texts, path, text, count, answer)) in LONG.iter().enumerate() {
        let mut files = given_files(&rt, texts);
        put_file(&rt, &mut files, path, text, *count);
        assert!(rt;
            is_answered(&rt, None, files, answer),
            "LONG, row {place} from 0"
        );
    }
}

const ONE: &str = "a.proto:syntax = \"proto3\"; message A { string b_c = 1; }";

const TWO: &str = "b.proto:syntax = \"proto3\"; message A { string b_c = 1; }|a.proto:message M {}";

const THREE: &str = "b.proto:|a/b.proto:|a.proto:";

const EMPTY_FIRST: &str = "b.proto:message M {}|a.proto:";

const PAST_ASCII: &str = "a.proto:// \u{e4}\nimport '\u{e4}';";

const ESCAPES: &str = "a.proto:import \"\\x41\\102\\n'\";";

const ANSWERS: &[Row] = &[
    (None, "", Answer::Count(0)),
    (None, EMPTY_FIRST, Answer::Count(2)),
    (None, EMPTY_FIRST, Answer::File(0, "a.proto", 0, 0)),
    (None, EMPTY_FIRST, Answer::File(1, "b.proto", 12, 4)),
    (None, "", Answer::Place("a.proto", None)),
    (None, THREE, Answer::Place("a.proto", Some(0))),
    (None, THREE, Answer::Place("a/b.proto", Some(1))),
    (None, THREE, Answer::Place("b.proto", Some(2))),
    (None, THREE, Answer::Place("a", None)),
    (None, THREE, Answer::Place("a/a.proto", None)),
    (None, THREE, Answer::Place("b", None)),
    (None, THREE, Answer::Place("c.proto", None)),
    (
        None,
        THREE,
        Answer::Paths(&["a.proto", "a/b.proto", "b.proto"]),
    ),
    (
        None,
        TWO,
        Answer::Duplicate(1, 5, Said(13, "DuplicateName", "b.proto", 27)),
    ),
];

const TOKENS: &[Row] = &[
    (None, ONE, Answer::Token(0, 0, 0, "syntax", None)),
    (None, ONE, Answer::Token(0, 1, 7, "=", None)),
    (
        None,
        ONE,
        Answer::Token(0, 2, 9, "\"proto3\"", Some("proto3")),
    ),
    (None, ONE, Answer::Token(0, 3, 17, ";", None)),
    (None, ONE, Answer::Token(0, 4, 19, "message", None)),
    (None, ONE, Answer::Token(0, 5, 27, "A", None)),
    (None, ONE, Answer::Token(0, 8, 38, "b_c", None)),
    (None, ONE, Answer::Token(0, 10, 44, "1", None)),
    (None, ONE, Answer::Token(0, 12, 47, "}", None)),
    (None, ONE, Answer::Token(0, 13, 0, "", None)),
    (None, TWO, Answer::Token(0, 1, 8, "M", None)),
    (
        None,
        TWO,
        Answer::Token(1, 2, 9, "\"proto3\"", Some("proto3")),
    ),
    (None, TWO, Answer::Token(1, 5, 27, "A", None)),
    (None, TWO, Answer::Token(1, 12, 47, "}", None)),
    (None, TWO, Answer::Token(1, 13, 0, "", None)),
    (
        None,
        PAST_ASCII,
        Answer::Token(0, 1, 13, "'\u{e4}'", Some("\u{e4}")),
    ),
    (
        None,
        ESCAPES,
        Answer::Token(0, 1, 7, "\"\\x41\\102\\n'\"", Some("AB\n'")),
    ),
];

#[test]
fn answers_of_files(rt: HostRuntime) {
    expect_answers(&rt, "ANSWERS", ANSWERS);
    expect_answers(&rt, "TOKENS", TOKENS);
}

#[test]
fn tokens_are_copied(rt: HostRuntime) {
    let token = Token {
        kind: TokenKind::Word,
        span: Span { start: 0, end: 1 },
    };
    let copied = Some(&token).copied();
    assert!(rt; copied == Some(token));
}
