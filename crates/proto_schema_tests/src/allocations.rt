//! Out of memory: nothing has changed then, and the same call again answers as if it had not come.
//! In a run that refuses one allocation this test still passes, whichever it is.

use crate::calls::*;
use proto_base::{NoMemory, Profile, SchemaFault};
use proto_desc::{Schema, to_json};
use proto_lint::{Finding, RuleSet, lint};
use std::alloc::Global;
use std::fmt::Write;
use std::process::Abort;

/// Files, their descriptors, and what all rules find in them, each finding as `path:offset RULE name;`.
pub(crate) type Row = (&'static str, &'static str, &'static str);

const ROWS: &[Row] = &[
    (
        "a.proto syntax = \"proto3\"; message A { string b_c = 1; }",
        "{\"file\":[{\"messageType\":[{\"field\":[{\"jsonName\":\"bC\",\"label\":\"LABEL_OPTIONAL\",\"name\":\"b_c\",\"number\":1,\"type\":\"TYPE_STRING\"}],\"name\":\"A\"}],\"name\":\"a.proto\",\"syntax\":\"proto3\"}]}",
        "a.proto:0 PACKAGE_DEFINED -;",
    ),
    (
        "a.proto syntax = \"proto3\"; import \"b.proto\"; message A { C c = 1; }|b.proto syntax = \"proto3\"; import public \"c.proto\";|c.proto syntax = \"proto3\"; message C {}",
        "{\"file\":[{\"dependency\":[\"b.proto\"],\"messageType\":[{\"field\":[{\"jsonName\":\"c\",\"label\":\"LABEL_OPTIONAL\",\"name\":\"c\",\"number\":1,\"type\":\"TYPE_MESSAGE\",\"typeName\":\".C\"}],\"name\":\"A\"}],\"name\":\"a.proto\",\"syntax\":\"proto3\"},{\"dependency\":[\"c.proto\"],\"name\":\"b.proto\",\"publicDependency\":[0],\"syntax\":\"proto3\"},{\"messageType\":[{\"name\":\"C\"}],\"name\":\"c.proto\",\"syntax\":\"proto3\"}]}",
        "a.proto:0 PACKAGE_DEFINED -;b.proto:0 PACKAGE_DEFINED -;b.proto:19 IMPORT_NO_PUBLIC c.proto;c.proto:0 PACKAGE_DEFINED -;",
    ),
    (
        "p/v1/c.proto syntax = \"proto3\"; package p.v1; enum Color { RED = 0; }",
        "{\"file\":[{\"enumType\":[{\"name\":\"Color\",\"value\":[{\"name\":\"RED\",\"number\":0}]}],\"name\":\"p/v1/c.proto\",\"package\":\"p.v1\",\"syntax\":\"proto3\"}]}",
        "p/v1/c.proto:46 ENUM_VALUE_PREFIX p.v1.RED;p/v1/c.proto:46 ENUM_ZERO_VALUE_SUFFIX p.v1.RED;",
    ),
];

/// Whether these are the files, in the order of their paths.
pub(crate) fn are_texts(schema: &Schema, texts: &str) -> bool {
    let files = schema.files();
    let mut place: u32 = 0;
    for file in texts.split('|') {
        let (path, text) = file.split_once(' ').unwrap_or((file, ""));
        if place as usize >= files.len()
            || files.path(place) != path
            || files.source(place).as_bytes() != text.as_bytes()
        {
            return false;
        }
        place += 1;
    }
    place as usize == files.len()
}

fn findings_text(alloc: Global, found: &[Finding]) -> Result<String, NoMemory> {
    let mut text = String::new(alloc);
    for finding in found {
        let (path, offset) = (finding.path.as_str(), finding.offset);
        let (rule, name) = (finding.rule.name(), finding.name.as_str());
        write!(text, "{path}:{offset} {rule} {name};")?;
    }
    Ok(text)
}

// What all rules find.
fn found_text(alloc: Global, schema: &Schema) -> Result<String, NoMemory> {
    let findings = lint(alloc, schema.files(), schema.link(), &RuleSet::all())?;
    findings_text(alloc, findings.as_slice())
}

fn expect_texts<R: Abort>(rt: &R, schema: &Schema, texts: &str) {
    assert!(rt; are_texts(schema, texts), "{texts}");
}

// This is the text, or memory is wanting.
fn expect_made<R: Abort>(
    rt: &R,
    text: Result<String, NoMemory>,
    wanted: &str,
) -> Result<(), NoMemory> {
    expect_text(rt, text?.as_str(), wanted);
    Ok(())
}

// Files, descriptors and findings are those of the row, or memory is wanting.
fn expect_row<R: AllocGlobal + Abort>(
    rt: &R,
    schema: &Schema,
    (texts, json, found): Row,
) -> Result<(), NoMemory> {
    expect_texts(rt, schema, texts);
    expect_made(rt, to_json(rt.alloc(), schema.descriptors()), json)?;
    expect_made(rt, found_text(rt.alloc(), schema), found)
}

/// The row, if there is one, holds twice, and once more where memory was wanting for one of them.
pub(crate) fn expect_kept<R: AllocGlobal + Abort>(rt: &R, schema: &Schema, row: Option<Row>) {
    if let Some(row) = row {
        let first = expect_row(rt, schema, row).is_ok();
        let second = expect_row(rt, schema, row).is_ok();
        let is_kept = first && second || (first || second) && expect_row(rt, schema, row).is_ok();
        assert!(rt; is_kept, "no memory");
    }
}

fn expect_opened<R: AllocGlobal + Abort>(rt: &R, row: Row) -> Result<(), SchemaFault> {
    let files = given_files(rt.alloc(), row.0)?;
    compiled_json(rt, Profile::Core, files, Some(row))?;
    Ok(())
}

// The files are opened at the second call if there is no memory for the first.
#[test]
fn one_is_refused(rt: HostRuntime) {
    for row in ROWS {
        let opened = match expect_opened(&rt, *row) {
            Err(SchemaFault::NoMemory) => expect_opened(&rt, *row),
            answer => answer,
        };
        assert!(rt; opened.is_ok(), "{}", row.1);
    }
}

const FAULTY: &str = "a.proto syntax = \"proto3\"; message A { string b = 19000; }";

fn expect_fault<R: AllocGlobal + Abort>(rt: &R) -> Result<(), NoMemory> {
    let found = answer(rt, given_files(rt.alloc(), FAULTY)?)?;
    expect_text(rt, found.as_str(), "a.proto:42: 17 NumberRange");
    Ok(())
}

// A fault that was found and could not be told is found again.
#[test]
fn one_is_refused_before_a_fault(rt: HostRuntime) {
    assert!(rt; expect_fault(&rt).is_ok() || expect_fault(&rt).is_ok());
}

const BEFORE: &str =
    "a.proto syntax = \"proto3\"; import \"b.proto\"; message A { M m = 1; }|b.proto syntax = \"proto3\"; message M {}";

const AFTER: Row = (
    "a.proto syntax = \"proto3\"; import \"b.proto\"; message A { M m = 1; }|b.proto syntax = \"proto3\"; message M { string s = 1; }",
    "{\"file\":[{\"dependency\":[\"b.proto\"],\"messageType\":[{\"field\":[{\"jsonName\":\"m\",\"label\":\"LABEL_OPTIONAL\",\"name\":\"m\",\"number\":1,\"type\":\"TYPE_MESSAGE\",\"typeName\":\".M\"}],\"name\":\"A\"}],\"name\":\"a.proto\",\"syntax\":\"proto3\"},{\"messageType\":[{\"field\":[{\"jsonName\":\"s\",\"label\":\"LABEL_OPTIONAL\",\"name\":\"s\",\"number\":1,\"type\":\"TYPE_STRING\"}],\"name\":\"M\"}],\"name\":\"b.proto\",\"syntax\":\"proto3\"}]}",
    "a.proto:0 PACKAGE_DEFINED -;b.proto:0 PACKAGE_DEFINED -;",
);

fn replace_second(alloc: Global, schema: &mut Schema) -> Result<(), SchemaFault> {
    if schema.files().len() < 2 {
        return Ok(());
    }
    let mut texts = Vec::new(alloc);
    let text = "syntax = \"proto3\"; message M { string s = 1; }";
    texts.push(Vec::from_slice(alloc, text.as_bytes())?)?;
    schema.replace(alloc, &[1], texts)
}

// The second file gets its text, at the second call if there is no memory for the first; until then the files are as before.
fn expect_replaced<R: AllocGlobal + Abort>(rt: &R, schema: &mut Schema) -> Result<(), SchemaFault> {
    if let Err(SchemaFault::NoMemory) = replace_second(rt.alloc(), schema) {
        expect_texts(rt, schema, BEFORE);
        replace_second(rt.alloc(), schema)?;
    }
    expect_kept(rt, schema, Some(AFTER));
    Ok(())
}

fn open_and_replace<R: AllocGlobal + Abort>(rt: &R) -> Result<(), SchemaFault> {
    let mut schema = Schema::open(rt.alloc(), given_files(rt.alloc(), BEFORE)?)?;
    let answer = expect_replaced(rt, &mut schema);
    schema.release();
    answer
}

#[test]
fn one_is_refused_of_another_text(rt: HostRuntime) {
    let replaced = match open_and_replace(&rt) {
        Err(SchemaFault::NoMemory) => open_and_replace(&rt),
        answer => answer,
    };
    assert!(rt; replaced.is_ok(), "{BEFORE}");
}
