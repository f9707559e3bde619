//! URIs and paths, by RFC 3986 and as editors write them.

use crate::expecting::{expect_bytes, expect_text, parts};
use proto_uris::{file_of, path_of, uri_of};
use std::alloc::AllocError;
use std::process::Abort;

/// A URI, a root, and the path below the root: escapes in either case and none, what is no escape, and
/// other roots.
const PATHS: &str = r"file:///ws/a.proto => /ws => a.proto
file:///ws/shop/a.proto => /ws => shop/a.proto
file:///ws/shop/a%20b%23%c3%a9.proto => /ws => shop/a b#é.proto
file:///ws/shop/a%20b%23%C3%A9.proto => /ws => shop/a b#é.proto
file:///ws/shop/a b%23é.proto => /ws => shop/a b#é.proto
file:///%77s/%61.proto => /ws => a.proto
file:///ws/a%2Fb.proto => /ws => a/b.proto
FILE:///ws/a.proto => /ws => a.proto
file:///ws/100%.proto => /ws => 100%.proto
file:///ws/%zz%4.proto => /ws => %zz%4.proto
file:///ws/%2520.proto => /ws => %20.proto
file:///a.proto =>  => a.proto
file:///w%20s/a.proto => /w s => a.proto
file:///ws/p/..a/...b => /ws/p => ..a/...b";

/// Other schemes, an authority, a query, a fragment, and what is outside the root.
const NO_PATHS: &str = r" => /ws => none
/ws/a.proto => /ws => none
http:///ws/a.proto => /ws => none
untitled:///ws/a.proto => /ws => none
files:///ws/a.proto => /ws => none
file:/ws/a.proto => /ws => none
 file:///ws/a.proto => /ws => none
file://host/ws/a.proto => /ws => none
file://localhost/ws/a.proto => /ws => none
file://%2Fws/a.proto => /ws => none
file://ws/a.proto => ws => none
file:///ws/a.proto?b => /ws => none
file:///ws/a.proto#L1 => /ws => none
file:/// => /ws => none
file:///ws => /ws => none
file:///ws/ => /ws => none
file:///w/a.proto => /ws => none
file:///wsx/a.proto => /ws => none
file:///WS/a.proto => /ws => none
file:///other/ws/a.proto => /ws => none
file:///ws/../a.proto => /ws => none
file:///ws/%2e%2E/a.proto => /ws => none
file:///ws/p/../../a.proto => /ws => none
file:///ws/./a.proto => /ws => none
file:///ws//a.proto => /ws => none
file:///ws/a.proto/ => /ws => none";

// The path below a root, or `none`, unless memory is refused.
fn expect_path<R: AllocGlobal + Abort>(
    rt: &R,
    root: &str,
    uri: &str,
    wanted: &str,
) -> Result<(), AllocError> {
    match path_of(rt.alloc(), root.as_bytes(), uri)? {
        Some(path) => expect_bytes(rt, path.as_slice(), wanted),
        None => expect_text(rt, "none", wanted),
    }
    Ok(())
}

fn expect_paths<R: AllocGlobal + Abort>(rt: &R, rows: &str) {
    for row in rows.lines() {
        let (uri, rest) = parts(rt, row);
        let (root, path) = parts(rt, rest);
        expect_path(rt, root, uri, path).expect(rt, "memory");
    }
}

#[test]
fn paths_are_below_the_root(rt: HostRuntime) {
    expect_paths(&rt, PATHS);
    expect_paths(&rt, NO_PATHS);
}

#[test]
fn a_path_may_be_no_utf8(rt: HostRuntime) {
    let path = path_of(rt.alloc(), b"/ws", "file:///ws/%ff").expect(&rt, "memory");
    assert!(rt; path.expect(&rt, "a path").as_slice() == b"\xff".as_slice());
}

#[test]
fn a_root_is_a_file(rt: HostRuntime) {
    let root = file_of(rt.alloc(), "file:///w%20s/").expect(&rt, "memory");
    expect_bytes(&rt, root.expect(&rt, "a path").as_slice(), "/w s/");
    let none = file_of(rt.alloc(), "file://w/s").expect(&rt, "memory");
    assert!(rt; none.is_none());
}

/// The URI of the path below the root, which leads back to it, unless memory is refused.
pub(crate) fn expect_uri<R: AllocGlobal + Abort>(
    rt: &R,
    root: &str,
    path: &str,
    wanted: &str,
) -> Result<(), AllocError> {
    let uri = uri_of(rt.alloc(), root.as_bytes(), path.as_bytes())?;
    expect_text(rt, uri.as_str(), wanted);
    expect_path(rt, root, wanted, path)
}

fn expect_one<R: AllocGlobal + Abort>(rt: &R, root: &str, path: &str, wanted: &str) {
    expect_uri(rt, root, path, wanted).expect(rt, "memory");
}

#[test]
fn files_have_uris(rt: HostRuntime) {
    expect_one(&rt, "/ws", "a.proto", "file:///ws/a.proto");
    expect_one(&rt, "", "p/a.proto", "file:///p/a.proto");
    let wanted = "file:///ws/shop/a%20b%23%C3%A9.proto";
    expect_one(&rt, "/ws", "shop/a b#é.proto", wanted);
    let wanted = "file:///w%20s/a%2Bb%25.proto";
    expect_one(&rt, "/w s", "a+b%.proto", wanted);
    let wanted = "file:///ws/a%3Fb~_-%26.proto";
    expect_one(&rt, "/ws", "a?b~_-&.proto", wanted);
}
