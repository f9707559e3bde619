//! File URIs, and the paths of files below a root.
#![tactic(auto)]

ghost use Rattle.std.specs.Prelude.{◌≡◌, ◌++◌, codes, true, IfOk, Some, option_and_then, option_map, string_bytes};
ghost use Rattle.std.specs.List.{list_all};
ghost use Rattle.proto_uris.specs.Uris.{IsRoot, after, after_scheme, below, file_of, is_coded_path, is_of_path, is_part, leads_down, only_path, path_below, uri_below};

use percent_encoding::{AsciiSet, NON_ALPHANUMERIC, ascii_set, percent_decode, percent_encode};
use std::alloc::{AllocError, Global};

const SCHEME: &[u8; 7] = b"file://";

/// What `uri_of` escapes: all but ASCII letters, digits and `/ - . _ ~`.
pub const ESCAPED: AsciiSet = ascii_set!(
    NON_ALPHANUMERIC
        .remove(b'/')
        .remove(b'-')
        .remove(b'.')
        .remove(b'_')
        .remove(b'~')
);

// What follows the prefix, where the text has it.
fn after<'a>(prefix: &[u8], text: &'a [u8]) -> Option<&'a [u8]>
    ensures { option_map (λ s. s.now) result ≡ after prefix.now text.now }
{
    match text.split_at_checked(prefix.len()) {
        Some((start, rest)) if start == prefix => Some(rest),
        _ => None,
    }
}

// What follows the scheme of file URIs.
fn after_scheme(uri: &[u8]) -> Option<&[u8]>
    ensures { option_map (λ s. s.now) result ≡ after_scheme uri.now }
{
    match uri.split_at_checked(7) {
        Some((start, rest)) if start.eq_ignore_ascii_case(SCHEME) => Some(rest),
        _ => None,
    }
}

// Whether a byte belongs to the path of a URI.
fn is_of_path(byte: u8) -> bool
    ensures { result ≡ is_of_path byte }
{
    byte != b'?' && byte != b'#'
}

// Whether neither a query nor a fragment follows the path.
fn is_all_path(coded: &[u8]) -> bool
    ensures { result ≡ list_all is_of_path coded.now }
{
    coded.iter().all(|byte| is_of_path(*byte))
}

// Whether this is the path of a URI and no more.
fn is_coded_path(coded: &[u8]) -> bool
    ensures { result ≡ is_coded_path coded.now }
{
    match coded.split_first() {
        Some((first, rest)) => *first == b'/' && is_all_path(rest),
        None => false,
    }
}

// The path of a file URI, as it is written there.
fn coded_path(uri: &[u8]) -> Option<&[u8]>
    ensures { option_map (λ s. s.now) result ≡ option_and_then only_path (after_scheme uri.now) }
{
    match after_scheme(uri) {
        Some(coded) if is_coded_path(coded) => Some(coded),
        _ => None,
    }
}

// Whether a part of a path leads one step down.
fn is_part(part: &[u8]) -> bool
    ensures { result ≡ is_part part.now }
{
    !part.is_empty() && part != b".".as_slice() && part != b"..".as_slice()
}

// Whether each part of a path leads one step down.
fn leads_down(path: &[u8]) -> bool
    ensures { result ≡ leads_down path.now }
{
    path.split(|byte| *byte == b'/').all(|part| is_part(part))
}

// The path below a root of a file.
fn below<'a>(root: &[u8], file: &'a [u8]) -> Option<&'a [u8]>
    ensures { option_map (λ s. s.now) result ≡ below root.now file.now }
{
    let rest = after(root, file)?;
    let path = after(b"/", rest)?;
    if leads_down(path) { Some(path) } else { None }
}

/// The path of the file that a URI names, decoded: one that begins with `file:///`, in letters of
/// either case, and has no query and no fragment. None where it is no such URI, as one with an
/// authority. A `%` with no two hexadecimal digits after it stands for itself.
pub fn file_of(alloc: Global, uri: &str) -> Result<Option<Vec<u8>>, AllocError>
    ensures { IfOk result (λ o. option_map (λ v. v.items) o ≡ file_of uri.now) }
{
    let Some(coded) = coded_path(uri.as_bytes()) else {
        return Ok(None);
    };
    let mut file = Vec::new(alloc);
    percent_decode(coded).append_to(&mut file)?;
    Ok(Some(file))
}

/// The path below the root of the file that a URI names, which may be no UTF-8. The root has no `/`
/// at its end. None where the URI names no file, or one that is not below the root: a part of a
/// path that is empty, `.` or `..` leads nowhere.
pub fn path_of(alloc: Global, root: &[u8], uri: &str) -> Result<Option<Vec<u8>>, AllocError>
    ensures { IfOk result (λ o. option_map (λ v. v.items) o ≡ path_below root.now uri.now) }
{
    let Some(file) = file_of(alloc, uri)? else {
        return Ok(None);
    };
    match below(root, file.as_slice()) {
        Some(path) => Ok(Some(Vec::from_slice(alloc, path)?)),
        None => Ok(None),
    }
}

// The path of the file at a path below the root.
fn joined(alloc: Global, root: &[u8], path: &[u8]) -> Result<Vec<u8>, AllocError>
    ensures { IfOk result (λ v. v.items ≡ root.now ++ (codes "/" ++ path.now)) }
{
    let mut whole = Vec::from_slice(alloc, root)?;
    whole.extend_from_slice(b"/")?;
    whole.extend_from_slice(path)?;
    Ok(whole)
}

/// The URI of the file at a path below the root, which has no `/` at its end. `path_of` leads back
/// to the path, where none of its parts is empty, `.` or `..`.
pub fn uri_of(alloc: Global, root: &[u8], path: &[u8]) -> Result<String, AllocError>
    ensures exact { IfOk result (λ uri. string_bytes uri ≡ uri_below root.now path.now) }
    ensures back { IsRoot root.now → leads_down path.now ≡ true
        → IfOk result (λ uri. path_below root.now (string_bytes uri) ≡ Some path.now) }
{
    let whole = joined(alloc, root, path)?;
    let mut uri = String::from_str(alloc, "file://")?;
    percent_encode(whole.as_slice(), ESCAPED).append_to(&mut uri)?;
    Ok(uri)
}
