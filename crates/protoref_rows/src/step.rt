//! Steps: edits, and undos of the last edit that stands.

use crate::input::next_text;
use proto_edit::Edit;
use std::alloc::Global;
use std::io;

/// A step of the walk.
#[derive(Drop)]
pub(crate) enum Step {
    /// An edit is asked.
    Edit(Edit),
    /// The last edit that stands is taken back.
    Undo,
}

/// The first step, and what stands behind it; none at the end.
pub(crate) fn next_step(alloc: Global, input: &str) -> io::Result<Option<(Step, &str)>> {
    match next_words(input) {
        Some((kind, first, second, rest)) => {
            let step = step_of(alloc, kind, first, second)?;
            Ok(Some((step, rest)))
        }
        None => Ok(None),
    }
}

fn next_words(input: &str) -> Option<(&str, &str, &str, &str)> {
    let (kind, behind) = next_text(input)?;
    let (first, behind) = next_text(behind)?;
    let (second, rest) = next_text(behind)?;
    Some((kind, first, second, rest))
}

fn step_of(alloc: Global, kind: &str, first: &str, second: &str) -> io::Result<Step> {
    let first = first.to_string(alloc)?;
    let second = second.to_string(alloc)?;
    Ok(match kind {
        "rename" => Step::Edit(Edit::Rename {
            name: first,
            to: second,
        }),
        "delete-field" => Step::Edit(Edit::DeleteField { name: first }),
        "add-import" => Step::Edit(Edit::AddImport {
            file: first,
            path: second,
        }),
        "drop-import" => Step::Edit(Edit::DropImport {
            file: first,
            path: second,
        }),
        _ => Step::Undo,
    })
}
