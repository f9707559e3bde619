//! What is shown of a file, as the protocol has it.

ghost use Rattle.std.specs.Prelude.{◌≡◌, ◌≤◌, [], IfOk, length, map, string_bytes};
ghost use Rattle.std.specs.List.{prefix_len};
ghost use Rattle.std.specs.Option.{unwrap_or};
ghost use Rattle.proto_base.specs.GivenFiles.{files_of};
ghost use Rattle.proto_positions.specs.Positions.{IsCursorIn};
ghost use Rattle.proto_store.specs.Stores.{bytes_at};
ghost use Rattle.proto_session_files.specs.Views.{view_at};
ghost use Rattle.proto_session_told.specs.Shown.{diagnostic_in, diagnostic_of, is_of_google, is_of_word, message_in, shown_of, word_end, word_range};
ghost use Rattle.proto_session_told.specs.Telling.{SaysRun, path_of_run};

use crate::shown::Shown;
use proto_base::NoMemory;
use proto_messages::{Diagnostic, DocumentDiagnostics, Range as SentRange};
use proto_positions::{Cursor, Encoding};
use proto_session_files::{View, position_from, sent_position, uri_at, version_at};
use std::alloc::Global;

// What is said besides where a file of google/protobuf is imported and not there.
const GOOGLE_ADVICE: &str =
    ". The files of google/protobuf are not bundled, and have to lie below ROOT.";

fn is_of_word(byte: u8) -> bool
    ensures { result ≡ is_of_word byte }
{
    byte.is_ascii_alphanumeric() || byte == b'_'
}

// How many bytes of a word the bytes begin with.
fn word_len(bytes: &[u8]) -> usize
    ensures len { result ≡ prefix_len is_of_word bytes.now }
    ensures within { result ≤ length bytes.now }
{
    bytes.iter().take_while(|byte| is_of_word(**byte)).count()
}

// The end of the word that begins at an offset; the offset, where none does.
fn word_end(text: &[u8], offset: usize) -> usize
    ensures { result ≡ word_end text.now offset }
{
    match text.split_at_checked(offset) {
        Some((_, rest)) => offset + word_len(rest),
        None => offset,
    }
}

// The range of the word that begins at an offset of a text, and the cursor at that offset.
fn word_range(text: &[u8], encoding: Encoding, cursor: Cursor, offset: u32) -> (SentRange, Cursor)
    requires { IsCursorIn encoding text.now cursor }
    ensures range { result.0 ≡ word_range encoding text.now offset }
    ensures there { IsCursorIn encoding text.now result.1 }
{
    let start = offset as usize;
    let (first, at_start) = position_from(text, encoding, cursor, start);
    let (last, _) = position_from(text, encoding, at_start, word_end(text, start));
    let range = SentRange {
        start: sent_position(first),
        end: sent_position(last),
    };
    (range, at_start)
}

// Whether the string that begins at an offset of a text names a path below `google/protobuf/`.
fn is_of_google(text: &[u8], offset: u32) -> bool
    ensures { result ≡ is_of_google text.now offset }
{
    match text.split_at_checked(offset as usize + 1) {
        Some((_, rest)) => rest.starts_with(b"google/protobuf/"),
        None => false,
    }
}

// What a user reads at an offset of a text.
fn message_in(alloc: Global, text: &[u8], shown: &Shown) -> Result<String, NoMemory>
    ensures { IfOk result (λ message. string_bytes message
        ≡ message_in text.now (shown_of shown.now)) }
{
    let mut message = String::from_str(alloc, shown.message.as_str())?;
    if shown.is_unknown_import && is_of_google(text, shown.offset) {
        message.push_str(GOOGLE_ADVICE)?;
    }
    Ok(message)
}

// What is shown at an offset of a text, as a diagnostic, and the cursor at that offset.
fn as_diagnostic(
    alloc: Global,
    text: &[u8],
    encoding: Encoding,
    cursor: Cursor,
    shown: &Shown,
) -> Result<(Diagnostic, Cursor), NoMemory>
    requires { IsCursorIn encoding text.now cursor }
    ensures diagnostic { IfOk result (λ x. diagnostic_of x.0
        ≡ diagnostic_in encoding text.now (shown_of shown.now)) }
    ensures there { IfOk result (λ x. IsCursorIn encoding text.now x.1) }
{
    let (range, next) = word_range(text, encoding, cursor, shown.offset);
    let diagnostic = Diagnostic {
        range,
        severity: shown.severity,
        code: String::from_str(alloc, shown.code.as_str())?,
        message: message_in(alloc, text, shown)?,
    };
    Ok((diagnostic, next))
}

// What is shown of a text, as diagnostics. As the offsets rise, it is gone through once.
fn diagnostics(
    alloc: Global,
    text: &[u8],
    encoding: Encoding,
    run: &[Shown],
) -> Result<Vec<Diagnostic>, NoMemory>
    ensures { IfOk result (λ all. map diagnostic_of all.items
        ≡ map (diagnostic_in encoding text.now) (map shown_of run.now)) }
{
    let mut all = Vec::new(alloc);
    let mut cursor = Cursor::new();
    for shown in run {
        let (diagnostic, next) = as_diagnostic(alloc, text, encoding, cursor, shown)?;
        cursor = next;
        all.push(diagnostic)?;
    }
    Ok(all)
}

// The bytes of the first file at a path; none where there is no such file.
fn text_at<'a>(files: &'a [(String, Vec<u8>)], path: &str) -> &'a [u8]
    ensures { result.now ≡ unwrap_or (bytes_at path.now (files_of files.now)) [] }
{
    for file in files {
        if path == file.0.as_str() {
            return file.1.as_slice();
        }
    }
    &[]
}

/// A document that says what is shown of one of the files. Fails only when out of memory.
pub(crate) fn document(
    alloc: Global,
    view: &View,
    path: &str,
    run: &[Shown],
) -> Result<DocumentDiagnostics, NoMemory>
    requires { path.now ≡ path_of_run (map shown_of run.now) }
    ensures { IfOk result (SaysRun (view_at view.now) (map shown_of run.now)) }
{
    let text = text_at(view.files, path);
    Ok(DocumentDiagnostics {
        uri: uri_at(alloc, view, path)?,
        version: version_at(view, path),
        diagnostics: diagnostics(alloc, text, view.encoding, run)?,
    })
}
