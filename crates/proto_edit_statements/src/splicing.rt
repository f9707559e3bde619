//! The change of one file by one splice.

ghost use Rattle.std.specs.Prelude.{◌<◌, length, IfOk};
ghost use Rattle.proto_text.specs.SourceFacts.{IsSpan};
ghost use Rattle.proto_files.specs.GivenFiles.{file_at};
ghost use Rattle.proto_edit_rules.specs.Statements.{splice};
ghost use Rattle.proto_edit_statements.specs.Spliced.{IsSpliced};

use proto_base::{MAX_LEN, NoMemory};
use proto_edit_entries::{Change, one_splice};
use proto_files::Files;
use proto_text::Span;
use std::alloc::Global;

/// The change that puts a text in place of what stands at the span of a file; none where the
/// file would have more than 1,048,576 bytes.
pub fn splice_change(
    alloc: Global,
    files: &Files,
    file: u32,
    span: Span,
    new: &str,
) -> Result<Option<Change>, NoMemory>
    requires file { file < length files.now }
    requires span { IsSpan (file_at files.now file).bytes span }
    ensures { IfOk result (λ found. IsSpliced (file_at files.now file)
        (splice (file_at files.now file).bytes span.start span.end new.now) found) }
{
    let source = files.source(file);
    let before = source.as_bytes().len();
    let old = source.text(span);
    let kept = before - old.len();
    if new.len() > MAX_LEN - kept {
        return Ok(None);
    }
    Ok(Some(Change {
        path: files.path(file).to_string(alloc)?,
        before: before as u32,
        after: (kept + new.len()) as u32,
        splices: one_splice(alloc, span.start, old, new)?,
    }))
}
