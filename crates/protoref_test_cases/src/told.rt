//! What an edit is answered, in words.

ghost use Rattle.std.specs.Prelude.{◌≡◌, ◌++◌, flat_map, string_bytes, IfOk, OnOk};
ghost use Rattle.proto_edit_entries.specs.Entries.{change_of};
ghost use Rattle.proto_text.specs.Splicing.{edit_of};
ghost use Rattle.protoref_test_cases.specs.Told.{change_told, places_told, refusal_told, splice_told, told_of};

use crate::unlike::{Unlike, expect};
use proto_base::NoMemory;
use proto_edit::{Change, Entry, Refusal};
use proto_text::Splice;
use std::alloc::Global;
use std::fmt::Write;

// A refusal as `number name`, behind which a reference has its `path offset`, or the changes of an
// entry, each as `path before after (at old new)..;`.
fn answer_text(alloc: Global, answer: &Result<Entry, Refusal>) -> Result<String, NoMemory>
    ensures { IfOk result (λ s. string_bytes s ≡ told_of answer.now) }
{
    let mut out = String::new(alloc);
    match answer {
        Ok(entry) => tell_entry(&mut out, entry)?,
        Err(refusal) => tell_refusal(&mut out, refusal)?,
    }
    Ok(out)
}

fn tell_refusal(out: &mut String, refusal: &Refusal) -> Result<(), NoMemory>
    ensures { OnOk result (string_bytes out.new
        ≡ string_bytes out.old ++ refusal_told refusal.now) }
{
    let (number, name) = (refusal.number(), refusal.name());
    write!(out, "{number} {name}")?;
    tell_place(out, refusal)
}

fn tell_place(out: &mut String, refusal: &Refusal) -> Result<(), NoMemory>
    ensures { OnOk result (string_bytes out.new
        ≡ string_bytes out.old ++ places_told refusal.now) }
{
    if let Refusal::Captured { path, offset }
    | Refusal::Needed { path, offset }
    | Refusal::OptionValue { path, offset } = refusal
    {
        write!(out, " {path} {offset}")?;
    }
    Ok(())
}

fn tell_entry(out: &mut String, entry: &Entry) -> Result<(), NoMemory>
    ensures { OnOk result (string_bytes out.new
        ≡ string_bytes out.old ++ flat_map change_told entry.now) }
{
    for change in entry.changes() {
        tell_change(out, change)?;
    }
    Ok(())
}

fn tell_change(out: &mut String, change: &Change) -> Result<(), NoMemory>
    ensures { OnOk result (string_bytes out.new
        ≡ string_bytes out.old ++ change_told (change_of change.now)) }
{
    let (path, before, after) = (change.path.as_str(), change.before, change.after);
    write!(out, "{path} {before} {after}")?;
    for splice in change.splices.as_slice() {
        tell_splice(out, splice)?;
    }
    out.push(';')?;
    Ok(())
}

fn tell_splice(out: &mut String, splice: &Splice) -> Result<(), NoMemory>
    ensures { OnOk result (string_bytes out.new
        ≡ string_bytes out.old ++ splice_told (edit_of splice.now)) }
{
    let (at, old, new) = (splice.at, splice.old.as_str(), splice.new.as_str());
    write!(out, " ({at} {old} {new})")?;
    Ok(())
}

/// The edit is answered so.
pub(crate) fn expect_told(
    alloc: Global,
    answer: &Result<Entry, Refusal>,
    wanted: &str,
) -> Result<(), Unlike>
    ensures { OnOk result (told_of answer.now ≡ wanted.now) }
{
    let told = answer_text(alloc, answer)?;
    expect(alloc, told.as_str() == wanted, told.as_str(), wanted)
}
