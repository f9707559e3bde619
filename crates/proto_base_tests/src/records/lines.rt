//! Lines: what is written for a record, and which lines are read.

use super::calls::*;
use proto_edit_entries::Edit;
use proto_journal_records::{Record, State, entry_text};
use std::process::Abort;

// The line of one splice, of which no edit is known.
fn written_line<R: AllocGlobal + Abort>(rt: &R, new: &str, after: u32) -> String {
    let entry = entry_of(rt, new, after).expect(rt, "memory");
    let noted = Record::new(State::Done, entry, None).expect(rt, "a record");
    entry_text(rt.alloc(), &noted).expect(rt, "memory")
}

#[test]
fn a_rename_is_written(rt: HostRuntime) {
    assert!(rt; written_line(&rt, "d_e", 48).as_str() == NULL_LINE);
    let entry = entry_of(&rt, "d_e", 48).expect(&rt, "memory");
    let edit = edit_of(&rt).expect(&rt, "memory");
    let noted = Record::new(State::Done, entry, Some(edit)).expect(&rt, "a record");
    let text = entry_text(rt.alloc(), &noted).expect(&rt, "memory");
    assert!(rt; text.as_str() == SECOND_LINE);
}

// The line of a new text, which has this for its part, and is read again.
fn expect_written<R: AllocGlobal + Abort>(rt: &R, new: &str, after: u32, part: &str) {
    let line = format!(in rt.alloc();
        "{{\"edit\":null,\"files\":[{{\"after\":{after},\"before\":48,\"path\":\"a.proto\",\"splices\":[{{\"at\":38,\"new\":\"{part}\",\"old\":\"b_c\"}}]}}],\"state\":\"done\",\"version\":2}}\n"
    ).expect(rt, "memory");
    let is_so = written_line(rt, new, after).as_str() == line.as_str()
        && is_record(rt, line.as_str());
    expect(rt, is_so, part);
}

// A new text, how long the file is then, and how the text is written.
const ESCAPED: &[(&str, u32, &str)] = &[
    ("\"", 46, "\\\""),
    ("\\", 46, "\\\\"),
    ("/'\u{7f}", 48, "/'\u{7f}"),
    ("\u{8}\t\n\u{c}\r", 50, "\\b\\t\\n\\f\\r"),
    ("\u{0}", 46, "\\u0000"),
    ("\u{1f}", 46, "\\u001f"),
    ("é", 47, "é"),
    ("\u{2028}", 48, "\u{2028}"),
    ("\u{1f600}", 49, "\u{1f600}"),
    ("", 45, ""),
];

#[test]
fn texts_are_escaped(rt: HostRuntime) {
    for (new, after, part) in ESCAPED {
        expect_written(&rt, new, *after, part);
    }
}

// The line with a text in place of its first.
fn line_with<R: AllocGlobal + Abort>(rt: &R, line: &str, from: &str, to: &str) -> String {
    let (front, back) = line.split_once(from).expect(rt, "a part of the line");
    format!(in rt.alloc(); "{front}{to}{back}").expect(rt, "memory")
}

// Whether the lines are read that have the second text of a row in place of the first: that of the first version.
fn expect_first<R: AllocGlobal + Abort>(rt: &R, rows: &[(&str, &str)], is_read: bool) {
    for (from, to) in rows {
        let line = line_with(rt, LINE, from, to);
        expect(rt, is_first_record(rt, line.as_str()) == is_read, to);
    }
}

// The same of the second version.
fn expect_second<R: AllocGlobal + Abort>(rt: &R, rows: &[(&str, &str)], is_read: bool) {
    for (from, to) in rows {
        let line = line_with(rt, SECOND_LINE, from, to);
        expect(rt, is_record(rt, line.as_str()) == is_read, to);
    }
}

// The same of both.
fn expect_read<R: AllocGlobal + Abort>(rt: &R, rows: &[(&str, &str)], is_read: bool) {
    expect_first(rt, rows, is_read);
    expect_second(rt, rows, is_read);
}

// The new text of the line, which in the second version is that of the edit too.
const NEW_TEXT: &str = "new\":\"d_e";

const READ: &[(&str, &str)] = &[
    ("38", "38"),
    ("38", "37"),
    ("38", "0"),
    ("38", "45"),
    ("done", "open"),
    ("48,\"before\":48", "1048576,\"before\":1048576"),
    ("a.proto", "a/b-1/_.x.proto"),
    (NEW_TEXT, "new\":\"d\\\"e"),
    (NEW_TEXT, "new\":\"\\\\\\n\\u0001"),
    (NEW_TEXT, "new\":\"é_"),
];

#[test]
fn lines_that_are_read(rt: HostRuntime) {
    expect_read(&rt, READ, true);
}

const NUMBERS: &[(&str, &str)] = &[
    ("38", "38.0"),
    ("38", "1e1"),
    ("38", "-0"),
    ("38", "-38"),
    ("38", "038"),
    ("38", "+38"),
    ("38", "4294967296"),
    ("38", "4294967334"),
    ("38", "18446744073709551616"),
    ("38", "\"38\""),
];

const FIRST_VERSIONS: &[(&str, &str)] = &[
    ("\"version\":1", "\"version\":2"),
    ("\"version\":1", "\"version\":3"),
    ("\"version\":1", "\"version\":0"),
    ("\"version\":1", "\"version\":1.0"),
    ("\"version\":1", "\"version\":true"),
    ("\"version\":1", "\"version\":1,\"x\":0"),
    (",\"version\":1", ""),
    ("{\"files\"", " {\"files\""),
    ("{\"files\"", "\u{feff}{\"files\""),
    ("{\"files\"", "{\"edit\":null,\"files\""),
    (
        "{\"files\"",
        "{\"edit\":{\"kind\":\"rename\",\"name\":\"A.b_c\",\"to\":\"d_e\"},\"files\"",
    ),
];

const SECOND_VERSIONS: &[(&str, &str)] = &[
    ("\"version\":2", "\"version\":1"),
    ("\"version\":2", "\"version\":3"),
    ("\"version\":2", "\"version\":0"),
    ("\"version\":2", "\"version\":2.0"),
    ("\"version\":2", "\"version\":true"),
    ("\"version\":2", "\"version\":2,\"x\":0"),
    (",\"version\":2", ""),
    ("{\"edit\"", " {\"edit\""),
    ("{\"edit\"", "\u{feff}{\"edit\""),
    (EDIT, ""),
    ("{\"edit\"", "{\"edit\":null,\"edit\""),
];

const STATES: &[(&str, &str)] = &[
    ("\"done\"", "\"Done\""),
    ("\"done\"", "\"\""),
    ("\"done\"", "null"),
    ("\"done\"", "[\"done\"]"),
    ("\"after\":48", "\"after\":49"),
    ("\"before\":48", "\"before\":47"),
];

#[test]
fn numbers_versions_and_states(rt: HostRuntime) {
    expect_read(&rt, NUMBERS, false);
    expect_first(&rt, FIRST_VERSIONS, false);
    expect_second(&rt, SECOND_VERSIONS, false);
    expect_read(&rt, STATES, false);
}

const SPACES: &[(&str, &str)] = &[
    (":38", ": 38"),
    (",\"new\"", ", \"new\""),
    ("}\n", "} \n"),
    ("}\n", "}"),
    ("}\n", "}\r\n"),
    ("}\n", "}\n\n"),
    ("}\n", "}\n "),
    ("[{\"at\"", "[\n{\"at\""),
];

const OTHER_KEYS: &[(&str, &str)] = &[
    ("\"at\":38", "\"at\":38,\"at\":38"),
    ("\"at\":38", "\"at\":37,\"at\":38"),
    ("\"at\":38,", ""),
    (
        "\"new\":\"d_e\",\"old\":\"b_c\"",
        "\"old\":\"b_c\",\"new\":\"d_e\"",
    ),
    ("\"after\":48,\"before\":48", "\"before\":48,\"after\":48"),
    ("\"state\":\"done\",", ""),
    ("\"at\"", "\"\\u0061t\""),
];

#[test]
fn spaces_and_other_keys(rt: HostRuntime) {
    expect_read(&rt, SPACES, false);
    expect_read(&rt, OTHER_KEYS, false);
}

const TEXTS: &[(&str, &str)] = &[
    (NEW_TEXT, "new\":\"d\\u005fe"),
    (NEW_TEXT, "new\":\"\\/_e"),
    (NEW_TEXT, "new\":\"\\u001F_e"),
    (NEW_TEXT, "new\":\"\\u0009_e"),
    (NEW_TEXT, "new\":\"d\te"),
    (NEW_TEXT, "new\":\"\\u00e9_"),
    (NEW_TEXT, "new\":\"\\ud83d"),
    (NEW_TEXT, "new\":\"d\"e"),
    ("a.proto", "a\\u002eproto"),
    ("done", "\\u0064one"),
];

const NO_CHANGES: &[(&str, &str)] = &[
    (NEW_TEXT, "new\":\"b_c"),
    (NEW_TEXT, "new\":\"d_ef"),
    ("38", "46"),
    ("[{\"at\":38,\"new\":\"d_e\",\"old\":\"b_c\"}]", "[]"),
    ("[{\"at\":38,\"new\":\"d_e\",\"old\":\"b_c\"}]", "{}"),
    ("a.proto", "/a.proto"),
    ("a.proto", "a/../b.proto"),
    ("a.proto", "a.txt"),
    ("a.proto", ""),
    ("48,\"before\":48", "1048577,\"before\":1048577"),
];

#[test]
fn texts_of_another_spelling_and_no_changes(rt: HostRuntime) {
    expect_read(&rt, TEXTS, false);
    expect_read(&rt, NO_CHANGES, false);
}

// The one file of the line.
const FILE: &str =
    r#"{"after":48,"before":48,"path":"a.proto","splices":[{"at":38,"new":"d_e","old":"b_c"}]}"#;

const FILES: &[(&str, &str)] = &[
    (
        FILE,
        r#"{"after":9,"before":8,"path":"a.proto","splices":[{"at":0,"new":"x","old":""}]}"#,
    ),
    (
        FILE,
        r#"{"after":0,"before":1,"path":"b.proto","splices":[{"at":0,"new":"","old":"x"}]}"#,
    ),
    (
        FILE,
        r#"{"after":9,"before":8,"path":"a.proto","splices":[{"at":0,"new":"x","old":""}]},{"after":0,"before":1,"path":"b.proto","splices":[{"at":0,"new":"","old":"x"}]}"#,
    ),
];

const NO_FILES: &[(&str, &str)] = &[
    (FILE, ""),
    (FILE, "null"),
    (
        FILE,
        r#"{"after":0,"before":1,"path":"b.proto","splices":[{"at":0,"new":"","old":"x"}]},{"after":9,"before":8,"path":"a.proto","splices":[{"at":0,"new":"x","old":""}]}"#,
    ),
    (
        FILE,
        r#"{"after":9,"before":8,"path":"a.proto","splices":[{"at":0,"new":"x","old":""}]},{"after":9,"before":8,"path":"a.proto","splices":[{"at":0,"new":"x","old":""}]}"#,
    ),
];

#[test]
fn files_rise(rt: HostRuntime) {
    expect_read(&rt, FILES, true);
    expect_read(&rt, NO_FILES, false);
}

const SPLICES: &[(&str, &str)] = &[
    (
        FILE,
        r#"{"after":8,"before":8,"path":"a.proto","splices":[{"at":1,"new":"x","old":"y"},{"at":2,"new":"x","old":"y"}]}"#,
    ),
    (
        FILE,
        r#"{"after":8,"before":8,"path":"a.proto","splices":[{"at":1,"new":"x","old":"y"},{"at":7,"new":"x","old":"y"}]}"#,
    ),
    (
        FILE,
        r#"{"after":8,"before":8,"path":"a.proto","splices":[{"at":1,"new":"x","old":"y"},{"at":2,"new":"x","old":"x"}]}"#,
    ),
];

const NO_SPLICES: &[(&str, &str)] = &[
    (
        FILE,
        r#"{"after":8,"before":8,"path":"a.proto","splices":[{"at":2,"new":"x","old":"y"},{"at":1,"new":"x","old":"y"}]}"#,
    ),
    (
        FILE,
        r#"{"after":8,"before":8,"path":"a.proto","splices":[{"at":1,"new":"xx","old":"yy"},{"at":2,"new":"x","old":"y"}]}"#,
    ),
    (
        FILE,
        r#"{"after":8,"before":8,"path":"a.proto","splices":[{"at":1,"new":"x","old":"y"},{"at":8,"new":"x","old":"y"}]}"#,
    ),
    (
        FILE,
        r#"{"after":8,"before":8,"path":"a.proto","splices":[{"at":1,"new":"xx","old":"y"},{"at":2,"new":"x","old":"yy"}]}"#,
    ),
    (
        FILE,
        r#"{"after":8,"before":8,"path":"a.proto","splices":[{"at":1,"new":"x","old":"x"},{"at":2,"new":"y","old":"y"}]}"#,
    ),
];

#[test]
fn splices_are_in_order(rt: HostRuntime) {
    expect_read(&rt, SPLICES, true);
    expect_read(&rt, NO_SPLICES, false);
}

// What the whole line is in its place.
const NO_OBJECTS: &[&str] = &[
    "", "\n", "null\n", "[]\n", "{}\n", "1\n", "\"\"\n", "{\n", "}\n", "x",
];

#[test]
fn what_is_no_object(rt: HostRuntime) {
    for line in NO_OBJECTS {
        expect(
            &rt,
            !is_first_record(&rt, line) && !is_record(&rt, line),
            line,
        );
    }
}

// The edit of the line of the second version.
const EDIT: &str = "\"edit\":{\"kind\":\"rename\",\"name\":\"A.b_c\",\"to\":\"d_e\"},";

// Edits that a record tells.
const EDITS: &[&str] = &[
    "null",
    r#"{"kind":"rename","name":"A.b_c","to":"message"}"#,
    r#"{"kind":"rename","name":"X.y","to":"_9"}"#,
    r#"{"kind":"delete-field","name":"A.b_c"}"#,
    r#"{"kind":"delete-field","name":"a"}"#,
    r#"{"file":"a.proto","kind":"add-import","path":"p/b.proto"}"#,
    r#"{"file":"a.proto","kind":"drop-import","path":"a.proto"}"#,
    r#"{"kind":"rename","name":"message.enum","to":"string"}"#,
    r#"{"kind":"delete-field","name":"_.a9._"}"#,
    r#"{"file":"a/b-1/_.x.proto","kind":"add-import","path":"b.proto"}"#,
];

// Edits that none tells.
const NO_EDITS: &[&str] = &[
    r#"{"name":"A.b_c","kind":"rename","to":"d_e"}"#,
    r#"{"kind":"rename","to":"d_e","name":"A.b_c"}"#,
    r#"{"kind":"rename","name":"","to":"d_e"}"#,
    r#"{"kind":"rename","name":".A.b_c","to":"d_e"}"#,
    r#"{"kind":"rename","name":"A.b_c.","to":"d_e"}"#,
    r#"{"kind":"rename","name":"A..b_c","to":"d_e"}"#,
    r#"{"kind":"rename","name":"1Entry.b","to":"d_e"}"#,
    r#"{"kind":"rename","name":"A.b_c","to":"a.b"}"#,
    r#"{"kind":"rename","name":"A.b_c","to":""}"#,
    r#"{"kind":"rename","name":"A.b_c","to":"é"}"#,
    r#"{"kind":"rename","name":"A.b\u005fc","to":"d_e"}"#,
    r#"{"kind":"rename","name":"A.b_c"}"#,
    r#"{"kind":"rename","name":"A.b_c","to":null}"#,
    r#"{"kind":"Rename","name":"A.b_c","to":"d_e"}"#,
    r#"{"kind":"delete-field","name":"A.b_c","to":"d_e"}"#,
    r#"{"kind":"delete-field","name":""}"#,
    r#"{"file":"a.proto","kind":"add-import","path":"b"}"#,
    r#"{"file":"b","kind":"add-import","path":"a.proto"}"#,
    r#"{"file":"/a.proto","kind":"drop-import","path":"a.proto"}"#,
    r#"{"file":"a.proto","kind":"drop-import"}"#,
    r#"{"kind":"add-import","file":"a.proto","path":"a.proto"}"#,
    r#"{"file":"a.proto","kind":"delete-field","path":"a.proto"}"#,
    r#"{"kind":"rename","name":"A.b_c","to":"d_e","x":0}"#,
    r#"{"file":"a.proto","kind":"rename","name":"A.b_c","to":"d_e"}"#,
    r#"{"kind":"rename","kind":"rename","name":"A.b_c","to":"d_e"}"#,
    r#"{"kind":"rename","name":"A.b_c","name":"A.b_c","to":"d_e"}"#,
    r#"{"kind":"rename","name":"A.b_c","to": "d_e"}"#,
    r#"{"kind":"rename","name":"A b_c","to":"d_e"}"#,
    r#"{"kind":"rename","name":"A.b_c","to":"9e"}"#,
    r#"{"kind":"rename","name":["A","b_c"],"to":"d_e"}"#,
    r#"{"kind":"\u0072ename","name":"A.b_c","to":"d_e"}"#,
    r#"{"\u006bind":"rename","name":"A.b_c","to":"d_e"}"#,
    r#"{"name":"A.b_c","to":"d_e"}"#,
    r#"{"kind":"delete_field","name":"A.b_c"}"#,
    r#"{"kind":"undo"}"#,
    r#"{"file":"a.proto","kind":"add-import","path":"a\u002eproto"}"#,
    r#"{"file":"a.proto","kind":"add-import","path":"a/../b.proto"}"#,
    r#"{"file":"","kind":"drop-import","path":"a.proto"}"#,
    r#"{"file":"a.proto","kind":"add-import","name":"A.b_c"}"#,
    r#"{}"#,
    r#"[]"#,
    r#"[null]"#,
    r#""rename""#,
    r#""null""#,
    r#""""#,
    r#"0"#,
    r#"false"#,
    r#" null"#,
    r#"Null"#,
];

// The line of the second version with another edit.
fn with_edit<R: AllocGlobal + Abort>(rt: &R, edit: &str) -> String {
    let to = format!(in rt.alloc(); "\"edit\":{edit},").expect(rt, "memory");
    line_with(rt, SECOND_LINE, EDIT, to.as_str())
}

#[test]
fn edits_are_told(rt: HostRuntime) {
    for edit in EDITS {
        expect(&rt, is_record(&rt, with_edit(&rt, edit).as_str()), edit);
    }
    for edit in NO_EDITS {
        expect(&rt, !is_record(&rt, with_edit(&rt, edit).as_str()), edit);
    }
}

fn text<R: AllocGlobal + Abort>(rt: &R, text: &str) -> String {
    String::from_str(rt.alloc(), text).expect(rt, "memory")
}

// Whether there is a record of this edit.
fn has_record<R: AllocGlobal + Abort>(rt: &R, edit: Edit) -> bool {
    let entry = entry_of(rt, "d_e", 48).expect(rt, "memory");
    Record::new(State::Done, entry, Some(edit)).is_some()
}

// Whether there is one of this rename.
fn is_told<R: AllocGlobal + Abort>(rt: &R, name: &str, to: &str) -> bool {
    let name = text(rt, name);
    let to = text(rt, to);
    has_record(rt, Edit::Rename { name, to })
}

// Of this deleted field.
fn is_deletion_told<R: AllocGlobal + Abort>(rt: &R, name: &str) -> bool {
    let name = text(rt, name);
    has_record(rt, Edit::DeleteField { name })
}

// Of this import, added and dropped.
fn is_import_told<R: AllocGlobal + Abort>(rt: &R, file: &str, path: &str) -> bool {
    let added = Edit::AddImport {
        file: text(rt, file),
        path: text(rt, path),
    };
    let dropped = Edit::DropImport {
        file: text(rt, file),
        path: text(rt, path),
    };
    let is_added = has_record(rt, added);
    assert!(rt; has_record(rt, dropped) == is_added);
    is_added
}

// A name, a new name, and whether a record may tell of that rename.
const RENAMES: &[(&str, &str, bool)] = &[
    ("A.b_c", "d_e", true),
    ("X.y", "message", true),
    (".A.b_c", "d_e", false),
    ("", "d_e", false),
    ("A.b_c", "a.b", false),
    ("1Entry.b", "d_e", false),
];

// A field, and whether a record may tell of its deletion.
const DELETIONS: &[(&str, bool)] = &[
    ("A.b_c", true),
    ("b_c", true),
    ("A.", false),
    ("A..b_c", false),
];

// A file, a path, and whether a record may tell of that import.
const IMPORTS: &[(&str, &str, bool)] = &[
    ("a.proto", "p/b.proto", true),
    ("a.proto", "b", false),
    ("", "b.proto", false),
    ("../a.proto", "b.proto", false),
];

#[test]
fn records_of_edits(rt: HostRuntime) {
    for (name, to, may) in RENAMES {
        expect(&rt, is_told(&rt, name, to) == *may, name);
    }
    for (name, may) in DELETIONS {
        expect(&rt, is_deletion_told(&rt, name) == *may, name);
    }
    for (file, path, may) in IMPORTS {
        expect(&rt, is_import_told(&rt, file, path) == *may, path);
    }
}
