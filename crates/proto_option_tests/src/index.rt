//! Which files are noted for a word. The key of a word is its bytes as digits of a number of base 31; of three files there are four sets,
//! so `x` (120) has the first, with `t` (116), `y` (121) the second, `z` (122) the third and `w` (119) the last.

ghost use Rattle.std.specs.Prelude.{◌≡◌, length};
ghost use Rattle.std.specs.List.{All};

use crate::calls::{expect_text, read_texts};
use proto_base::{NoMemory, SchemaFault, word_key};
use proto_files::Files;
use proto_option_files::{OptionFiles, options_in};
use std::alloc::Global;
use std::fmt::Write;
use std::process::Abort;

// A word, and the numbers of the files that are noted for it.
type Noted = (&'static str, &'static str);

// The numbers of the files that are noted, of so many.
fn noted_text(
    alloc: Global,
    index: &OptionFiles,
    word: &str,
    count: u32,
) -> Result<String, NoMemory> {
    let set = index.files_of(word_key(word));
    let mut text = String::new(alloc);
    for file in 0..count {
        if set.contains(file) {
            write!(text, "{file};")?;
        }
    }
    Ok(text)
}

fn expect_noted<R: AllocGlobal + Abort>(
    rt: &R,
    index: &OptionFiles,
    rows: &[Noted],
) -> Result<(), NoMemory> {
    for (word, said) in rows {
        let found = noted_text(rt.alloc(), index, word, 3)?;
        expect_text(rt, word, found.as_str(), said);
    }
    Ok(())
}

// The path `x` in the first file, the value `y` in the second.
const BEFORE: &str =
    r#"a.proto import "b.proto"; message A { optional int32 f = 1 [(m).x = 1]; }|b.proto import "o.proto"; enum E { y = 0; } message M { optional int32 x = 1; optional int32 z = 2; } extend google.protobuf.FieldOptions { optional M m = 1000; optional E e = 1001; } message B { optional int32 f = 1 [(e) = y]; }|o.proto package google.protobuf; message FieldOptions { extensions 1000 to max; }"#;

const FIRST: &[Noted] = &[
    ("x", "0;"),
    ("y", "1;"),
    ("z", ""),
    ("w", ""),
    ("t", "0;"),
    // 120 * 31 + 121
    ("xy", "1;"),
];

// The first file has the path `z`, and `x` no more.
const AFTER: &str =
    r#"a.proto import "b.proto"; message A { optional int32 f = 1 [(m).z = 1]; }|b.proto import "o.proto"; enum E { y = 0; } message M { optional int32 x = 1; optional int32 z = 2; } extend google.protobuf.FieldOptions { optional M m = 1000; optional E e = 1001; } message B { optional int32 f = 1 [(e) = y]; }|o.proto package google.protobuf; message FieldOptions { extensions 1000 to max; }"#;

// What was noted stays.
const THEN: &[Noted] = &[("x", "0;"), ("y", "1;"), ("z", "0;"), ("w", "")];

// Those of files that are opened are theirs alone.
const AFRESH: &[Noted] = &[("x", ""), ("y", "1;"), ("z", "0;"), ("w", "")];

fn expect_changed<R: AllocGlobal + Abort>(
    rt: &R,
    before: &Files,
    after: &Files,
) -> Result<(), NoMemory> {
    if before.len() != 3 || after.len() != 3 {
        assert!(rt; false, "another number of files");
        return Ok(());
    }
    let mut index = OptionFiles::new(rt.alloc(), before)?;
    expect_noted(rt, &index, FIRST)?;
    let copy = index.copy(rt.alloc())?;
    index.add_changed(rt.alloc(), after, &[0]);
    expect_noted(rt, &index, THEN)?;
    expect_noted(rt, &copy, FIRST)?;
    expect_noted(rt, &OptionFiles::new(rt.alloc(), after)?, AFRESH)
}

// The one owner of files.
fn expect_files<R: AllocGlobal + Abort>(rt: &R) -> Result<(), SchemaFault> {
    let before = read_texts(rt.alloc(), BEFORE)?;
    let after = read_texts(rt.alloc(), AFTER)?;
    let answer = expect_changed(rt, &before, &after);
    before.release();
    after.release();
    Ok(answer?)
}

#[test]
fn words_are_noted(rt: HostRuntime) {
    expect_files(&rt).expect(&rt, "files");
}

// ---- the options of a file

// The options messages of the elements that have the custom options of the first file, in order.
fn options_text(alloc: Global, files: &Files) -> Result<String, NoMemory> {
    let mut text = String::new(alloc);
    if files.len() > 0 {
        for option in options_in(alloc, files, 0)?.as_slice() {
            let message = option.message;
            write!(text, "{message};")?;
        }
    }
    Ok(text)
}

// A text of one file, and its options.
type Options = (&'static str, &'static str);

const OPTIONS: &[Options] = &[
    (
        "a.proto option (a).b = 1; message A { option (c) = d; optional int32 f = 1 [(e) = 1, deprecated = true, (g).h = { i: 1 }]; }",
        "FileOptions;MessageOptions;FieldOptions;FieldOptions;",
    ),
    (
        "a.proto enum E { option (a) = b; V = 0 [(c) = 1]; } service S { option (d) = 1; rpc M (A) returns (A) { option (e) = 1; } } message A { oneof o { option (f) = 1; int32 x = 1; } }",
        "EnumOptions;EnumValueOptions;ServiceOptions;MethodOptions;OneofOptions;",
    ),
    (
        "a.proto option java_package = \"a\"; message A { optional int32 x = 1 [deprecated = true]; }",
        "",
    ),
];

fn expect_options<R: AllocGlobal + Abort>(rt: &R, row: &Options) -> Result<(), SchemaFault> {
    let files = read_texts(rt.alloc(), row.0)?;
    let found = options_text(rt.alloc(), &files);
    files.release();
    expect_text(rt, row.0, found?.as_str(), row.1);
    Ok(())
}

#[test]
fn options_stand_in_order(rt: HostRuntime) {
    for row in OPTIONS {
        expect_options(&rt, row).expect(&rt, row.0);
    }
}
