//! What a reference means in scopes that are given, declared or not.

ghost use Rattle.std.specs.Prelude.{◌≡◌, ℕ, List};
ghost use Rattle.proto_names_rules.specs.Joined.{joined, ArePlain};
ghost use Rattle.proto_names.specs.LinkOfFiles.{IsLinkOf};

use super::calls::{expect_text, given_files, read};
use proto_base::NoMemory;
use proto_files::{Files, Words};
use proto_names::Link;
use proto_tree::{Behind, Reference, Separated, Sequence};
use std::alloc::Global;
use std::process::Abort;

const TEXTS: &str =
    "a.proto package p; message foo {} message A { message foo {} optional foo x = 1; }|b.proto message b { message X {} } message A { message b {} optional .b.X y = 2; }";

// The token of the type of `x`.
const FIELD_TYPE: u32 = 15;

// The tokens of the type of `y`.
const DOT: u32 = 16;

const OUTER: u32 = 17;

const SEPARATOR: u32 = 18;

const INNER: u32 = 19;

// What the type of `x`, as a reference, means in a scope; it need not be that of `x`.
fn meaning_in<'a>(alloc: Global, link: &'a Link, files: &Files, scope: &str) -> &'a str
    requires link { IsLinkOf files.now link.now }
    requires scope { (path : List (List ℕ)) × ArePlain path × (scope.now ≡ joined path) }
{
    if files.is_empty() {
        return "no file";
    }
    let words = Words::new(files, 0);
    if words.get(FIELD_TYPE) != "foo" {
        return "another word";
    }
    let reference = Reference {
        dot: None,
        words: Separated {
            first: FIELD_TYPE,
            rest: Sequence::new(alloc),
        },
    };
    match link.resolve(files, 0, scope, &reference) {
        Some(id) => link.name_of(id).unwrap_or("no name"),
        None => "nothing",
    }
}

// What the words of the type of `y` mean in a scope, behind this dot or with none.
fn meant_of_two<'a>(
    alloc: Global,
    link: &'a Link,
    files: &Files,
    scope: &str,
    dot: Option<u32>,
) -> Result<&'a str, NoMemory>
    requires link { IsLinkOf files.now link.now }
    requires scope { (path : List (List ℕ)) × ArePlain path × (scope.now ≡ joined path) }
{
    if files.len() < 2 {
        return Ok("no second file");
    }
    let words = Words::new(files, 1);
    if words.get(OUTER) != "b" {
        return Ok("another first word");
    }
    if words.get(INNER) != "X" {
        return Ok("another second word");
    }
    let mut rest = Sequence::new(alloc);
    rest.push(Behind {
        separator: SEPARATOR,
        item: INNER,
    })?;
    let reference = Reference {
        dot,
        words: Separated { first: OUTER, rest },
    };
    match link.resolve(files, 1, scope, &reference) {
        Some(id) => Ok(link.name_of(id).unwrap_or("no name")),
        None => Ok("nothing"),
    }
}

// A scope need not be declared.
fn expect_scopes<R: AllocGlobal + Abort>(rt: &R, link: &Link, files: &Files)
    requires { IsLinkOf files.now link.now }
{
    let alloc = rt.alloc();
    expect_text(rt, "p.A", meaning_in(alloc, link, files, "p.A"), "p.A.foo");
    expect_text(rt, "p", meaning_in(alloc, link, files, "p"), "p.foo");
    expect_text(rt, "", meaning_in(alloc, link, files, ""), "nothing");
    expect_text(
        rt,
        "p.zzz.y",
        meaning_in(alloc, link, files, "p.zzz.y"),
        "p.foo",
    );
    expect_text(rt, "q", meaning_in(alloc, link, files, "q"), "nothing");
}

// Below `A` the first word means `A.b`, which has no `X`: the search does not go on outward. An absolute reference is not
// looked for in the scope.
fn expect_nearest<R: AllocGlobal + Abort>(rt: &R, link: &Link, files: &Files)
    requires { IsLinkOf files.now link.now }
{
    let alloc = rt.alloc();
    let below = meant_of_two(alloc, link, files, "A", None).expect(rt, "memory");
    expect_text(rt, "A", below, "nothing");
    let outside = meant_of_two(alloc, link, files, "", None).expect(rt, "memory");
    expect_text(rt, "", outside, "b.X");
    let absolute = meant_of_two(alloc, link, files, "A", Some(DOT)).expect(rt, "memory");
    expect_text(rt, "A", absolute, "b.X");
}

fn expect_meant<R: AllocGlobal + Abort>(rt: &R, files: &Files) {
    let link = Link::new(rt.alloc(), files).expect(rt, "a link");
    expect_scopes(rt, &link, files);
    expect_nearest(rt, &link, files);
    link.release();
}

#[test]
fn references_in_given_scopes(rt: HostRuntime) {
    let files = read(&rt, given_files(&rt, TEXTS)).expect(&rt, "files");
    expect_meant(&rt, &files);
    files.release();
}
