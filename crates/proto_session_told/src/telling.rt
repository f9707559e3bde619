//! What the client is told of the files that it sees.

ghost use Rattle.std.specs.Prelude.{◌≡◌, ◌++◌, ◌≤◌, ◌<◌, IfOk, IfSome, OnOk, flat_map, is_some, length, map};
ghost use Rattle.proto_serving.specs.Serving.{texts};
ghost use Rattle.proto_session_files.specs.Views.{view_at};
ghost use Rattle.proto_session_told.specs.Runs.{run_len};
ghost use Rattle.proto_session_told.specs.Shown.{runs, shown_of};
ghost use Rattle.proto_session_told.specs.Telling.{AreTellings, IsTellingOf, IsToldOf, cleared, end_of, is_same, is_shown_at, news, news_of, path_of_run, told_of, was_told};

use crate::diagnostics::document;
use crate::shown::{Shown, shown_of_files};
use proto_base::NoMemory;
use proto_edit::Workspace;
use proto_messages::{DocumentDiagnostics, diagnostics_message};
use proto_session_files::View;
use std::alloc::Global;

/// A document of which something is shown.
#[derive(Drop)]
pub struct Told {
    /// Its URI.
    pub uri: String,
    /// The message that said what is shown.
    pub message: Vec<u8>,
}

// How many from the first on have its path.
fn run_len(shown: &[Shown]) -> usize
    ensures len { result ≡ run_len (map shown_of shown.now) }
    ensures within { result ≤ length shown.now }
{
    let Some(first) = shown.first() else {
        return 0;
    };
    for (len, other) in shown.iter().enumerate() {
        if other.path != first.path {
            return len;
        }
    }
    shown.len()
}

// The path of a run, of which all is shown of one file.
fn path_of_run(run: &[Shown]) -> &str
    ensures { result.now ≡ path_of_run (map shown_of run.now) }
{
    match run.first() {
        Some(first) => first.path.as_str(),
        None => "",
    }
}

// What is told of a file.
fn telling(alloc: Global, view: &View, run: &[Shown]) -> Result<Told, NoMemory>
    ensures { IfOk result (λ told.
        IsTellingOf (view_at view.now) (map shown_of run.now) (told_of told)) }
{
    let document = document(alloc, view, path_of_run(run), run)?;
    let message = diagnostics_message(alloc, &document)?;
    Ok(Told {
        uri: document.uri,
        message,
    })
}

// What is told of the files of which something is shown.
fn tellings(alloc: Global, view: &View, shown: &[Shown]) -> Result<Vec<Told>, NoMemory>
    ensures { IfOk result (λ told. AreTellings (view_at view.now)
        (runs (map shown_of shown.now)) (map told_of told.items)) }
{
    let mut told = Vec::new(alloc);
    let mut rest = shown;
    while !rest.is_empty() {
        let (run, others) = rest.split_at(run_len(rest));
        told.push(telling(alloc, view, run)?)?;
        rest = others;
    }
    Ok(told)
}

/// What is to be told of the files that the client sees. `good` is their workspace where they
/// compile. Fails only when out of memory.
pub fn to_be_told(
    alloc: Global,
    good: &mut Option<Workspace>,
    view: &View,
) -> Result<Vec<Told>, NoMemory>
    ensures { IfOk result (λ told. IsToldOf (view_at view.now) (map told_of told.items)) }
{
    let shown = shown_of_files(alloc, good, view.files, view.profile)?;
    tellings(alloc, view, shown.as_slice())
}

// The message that clears a document.
fn cleared(alloc: Global, uri: &str) -> Result<Vec<u8>, NoMemory>
    ensures { IfOk result (λ message. message.items ≡ cleared uri.now) }
{
    let document = DocumentDiagnostics {
        uri: String::from_str(alloc, uri)?,
        version: None,
        diagnostics: Vec::new(alloc),
    };
    Ok(diagnostics_message(alloc, &document)?)
}

// Whether both tell the same, in the same bytes.
fn is_same(old: &Told, new: &Told) -> bool
    ensures { result ≡ is_same (told_of new.now) (told_of old.now) }
{
    old.uri == new.uri && old.message == new.message
}

// The place of a document that was told in these very bytes.
fn place_told(told: &[Told], new: &Told) -> Option<usize>
    ensures same { is_some result ≡ was_told (map told_of told.now) (told_of new.now) }
    ensures within { IfSome result (λ place. place < length told.now) }
{
    for (place, old) in told.iter().enumerate() {
        if is_same(old, new) {
            return Some(place);
        }
    }
    None
}

// The same, looked for from a place on and then before it.
fn next_told(told: &[Told], from: usize, new: &Told) -> Option<usize>
    requires from { from ≤ length told.now }
    ensures same { is_some result ≡ was_told (map told_of told.now) (told_of new.now) }
    ensures within { IfSome result (λ place. place < length told.now) }
{
    let (before, behind) = told.split_at(from);
    match place_told(behind, new) {
        Some(place) => Some(from + place),
        None => place_told(before, new),
    }
}

// The place of a document under this URI.
fn place_shown(told: &[Told], uri: &str) -> Option<usize>
    ensures same { is_some result ≡ is_shown_at (map told_of told.now) uri.now }
    ensures within { IfSome result (λ place. place < length told.now) }
{
    for (place, old) in told.iter().enumerate() {
        if old.uri.as_str() == uri {
            return Some(place);
        }
    }
    None
}

// The same, looked for from a place on and then before it.
fn next_shown(told: &[Told], from: usize, uri: &str) -> Option<usize>
    requires from { from ≤ length told.now }
    ensures same { is_some result ≡ is_shown_at (map told_of told.now) uri.now }
    ensures within { IfSome result (λ place. place < length told.now) }
{
    let (before, behind) = told.split_at(from);
    match place_shown(behind, uri) {
        Some(place) => Some(from + place),
        None => place_shown(before, uri),
    }
}

// Adds the messages of documents that the client was not told. Both lists are in the order of their
// paths, so a document is looked for first behind the one that was found before it.
fn add_new(
    alloc: Global,
    messages: &mut Vec<Vec<u8>>,
    old: &[Told],
    new: &[Told],
) -> Result<(), NoMemory>
    ensures { OnOk result (texts messages.new.items ≡ texts messages.old.items
        ++ flat_map (news_of (map told_of old.now)) (map told_of new.now)) }
{
    let mut from = 0;
    for told in new {
        match next_told(old, from, told) {
            Some(place) => from = place,
            None => messages.push(Vec::from_slice(alloc, told.message.as_slice())?)?,
        }
    }
    Ok(())
}

// Adds the messages that clear documents of which nothing is shown any more.
fn add_ended(
    alloc: Global,
    messages: &mut Vec<Vec<u8>>,
    old: &[Told],
    new: &[Told],
) -> Result<(), NoMemory>
    ensures { OnOk result (texts messages.new.items ≡ texts messages.old.items
        ++ flat_map (end_of (map told_of new.now)) (map told_of old.now)) }
{
    let mut from = 0;
    for told in old {
        match next_shown(new, from, told.uri.as_str()) {
            Some(place) => from = place,
            None => messages.push(cleared(alloc, told.uri.as_str())?)?,
        }
    }
    Ok(())
}

/// Adds what a client that was told the first is told so that it was told the second. Fails only
/// when out of memory.
pub fn add_news(
    alloc: Global,
    messages: &mut Vec<Vec<u8>>,
    old: &[Told],
    new: &[Told],
) -> Result<(), NoMemory>
    ensures { OnOk result (texts messages.new.items
        ≡ texts messages.old.items ++ news (map told_of old.now) (map told_of new.now)) }
{
    add_new(alloc, messages, old, new)?;
    add_ended(alloc, messages, old, new)
}
