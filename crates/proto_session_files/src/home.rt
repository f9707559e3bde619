//! Where the schemas lie.

ghost use Rattle.std.specs.Prelude.{◌≡◌, ◌++◌, ◌&&◌, IfOk, OnOk, codes, nat_eq, option_and_then, option_map, string_bytes};
ghost use Rattle.std.specs.List.{ends_with, list_all};
ghost use Rattle.proto_uris.specs.Uris.{file_of};
ghost use Rattle.proto_session_files.specs.Homes.{home_below, home_of, home_of_absolute, is_absolute, is_plain_part, leads_on, only_schema, parts, rooted, rooted_part, schema_of};
ghost use Rattle.proto_session_files.specs.Views.{home_view};

use proto_uris::{file_of, path_of};
use std::alloc::{AllocError, Global};

/// Where the schemas lie.
#[derive(Drop)]
pub struct Home {
    /// The folder that is read.
    pub folder: Vec<u8>,
    /// The root below which the client has its files: parts with `/` before each.
    pub root: Vec<u8>,
}

// Whether a part of a path leads to another place.
fn leads_on(part: &[u8]) -> bool
    ensures { result ≡ leads_on part.now }
{
    !part.is_empty() && part != b".".as_slice()
}

// Adds a part with `/` before it, if it leads on.
fn add_part(whole: &mut Vec<u8>, part: &[u8]) -> Result<(), AllocError>
    ensures { OnOk result (whole.new.items ≡ whole.old.items ++ rooted_part part.now) }
{
    if leads_on(part) {
        whole.extend_from_slice(b"/")?;
        whole.extend_from_slice(part)?;
    }
    Ok(())
}

// A path with `/` before each of its parts that lead on.
fn rooted(alloc: Global, path: &[u8]) -> Result<Vec<u8>, AllocError>
    ensures { IfOk result (λ whole. whole.items ≡ rooted path.now) }
{
    let mut whole = Vec::new(alloc);
    for part in path.split(|byte| *byte == b'/') {
        add_part(&mut whole, part)?;
    }
    Ok(whole)
}

// The path of a client's root.
fn client_root(alloc: Global, uri: Option<&str>) -> Result<Option<Vec<u8>>, AllocError>
    ensures { IfOk result (λ path. option_map (λ v. v.items) path
        ≡ option_and_then file_of (option_map (λ u. u.now) uri.entry)) }
{
    match uri {
        Some(uri) => file_of(alloc, uri),
        None => Ok(None),
    }
}

// The home of a ROOT below the path of the client's root.
fn home_below(alloc: Global, word: &[u8], path: Vec<u8>) -> Result<Home, AllocError>
    ensures { IfOk result (λ home. home_view home ≡ home_below word.now path.items) }
{
    let mut whole = path;
    whole.extend_from_slice(b"/")?;
    whole.extend_from_slice(word)?;
    Ok(Home {
        folder: Vec::from_slice(alloc, word)?,
        root: rooted(alloc, whole.as_slice())?,
    })
}

// Whether a path begins with `/`.
fn is_absolute(path: &[u8]) -> bool
    ensures { result ≡ is_absolute path.now }
{
    match path.first() {
        Some(first) => *first == b'/',
        None => false,
    }
}

// The home at a path that begins with `/`.
fn home_of_absolute(alloc: Global, path: &[u8]) -> Result<Home, AllocError>
    ensures { IfOk result (λ home. home_view home ≡ home_of_absolute path.now) }
{
    Ok(Home {
        folder: Vec::from_slice(alloc, path)?,
        root: rooted(alloc, path)?,
    })
}

/// The home for the ROOT of the command line and the URI of the client's root: ROOT, below the
/// client's root where it does not begin with `/`; where no ROOT is given, the client's root. None
/// where neither leads anywhere. Fails only when out of memory.
pub fn find_home(
    alloc: Global,
    word: Option<&str>,
    uri: Option<&str>,
) -> Result<Option<Home>, AllocError>
    ensures { IfOk result (λ home. option_map home_view home
        ≡ home_of (option_map (λ w. w.now) word.entry) (option_map (λ u. u.now) uri.entry)) }
{
    let Some(word) = word else {
        return match client_root(alloc, uri)? {
            Some(path) => Ok(Some(home_of_absolute(alloc, path.as_slice())?)),
            None => Ok(None),
        };
    };
    let word = word.as_bytes();
    if is_absolute(word) {
        return Ok(Some(home_of_absolute(alloc, word)?));
    }
    match client_root(alloc, uri)? {
        Some(path) => Ok(Some(home_below(alloc, word, path)?)),
        None => Ok(None),
    }
}

// Whether a part of a path does not begin with a dot.
fn is_plain_part(part: &str) -> bool
    ensures { result ≡ is_plain_part part.now }
{
    match part.as_bytes().first() {
        Some(first) => *first != b'.',
        None => false,
    }
}

fn has_plain_parts(path: &str) -> bool
    ensures { result ≡ list_all is_plain_part (parts path.now) }
{
    path.split('/').all(|part| is_plain_part(part))
}

fn has_proto_ending(path: &str) -> bool
    ensures { result ≡ ends_with nat_eq path.now (codes ".proto") }
{
    path.ends_with(".proto")
}

// Whether a folder that has a file at the path lists it as a schema.
fn is_schema_path(path: &str) -> bool
    ensures { result ≡ (ends_with nat_eq path.now (codes ".proto")
        && list_all is_plain_part (parts path.now)) }
{
    has_proto_ending(path) && has_plain_parts(path)
}

// The path as a text, where it is that of a schema.
fn only_schema(path: Vec<u8>) -> Option<String>
    ensures { option_map string_bytes result ≡ only_schema path.items }
{
    match String::from_utf8(path) {
        Ok(path) => {
            if is_schema_path(path.as_str()) {
                Some(path)
            } else {
                None
            }
        }
        Err(_fault) => None,
    }
}

/// The path below the root of the schema that a URI names; none where it names no schema there.
/// Fails only when out of memory.
pub fn schema_of(
    alloc: Global,
    home: Option<&Home>,
    uri: &str,
) -> Result<Option<String>, AllocError>
    ensures { IfOk result (λ path. option_map string_bytes path
        ≡ schema_of (option_map (λ h. home_view h.now) home.entry) uri.now) }
{
    let Some(home) = home else {
        return Ok(None);
    };
    match path_of(alloc, home.root.as_slice(), uri)? {
        Some(path) => Ok(only_schema(path)),
        None => Ok(None),
    }
}
