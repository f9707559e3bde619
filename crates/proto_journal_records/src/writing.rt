//! The text of a record.

ghost use Rattle.std.specs.Prelude.{◌≡◌, [], ◌∷◌, ◌++◌, All, IfOk, OnOk, Option, codes, decimal, map, option_map};
ghost use Rattle.std.specs.Str.{IsUtf8};
ghost use Rattle.std.specs.String.{string_bytes};
ghost use Rattle.json.specs.Token.{begin_object, end_object, key as key_token, number, string};
ghost use Rattle.serde_json.specs.Data.{array};
ghost use Rattle.serde_json.specs.View.{items_of};
ghost use Rattle.serde_json.specs.Written.{compact_text};
ghost use Rattle.proto_text.specs.Splicing.{edit_of, edits};
ghost use Rattle.proto_edit_entries.specs.EditsAsked.{Asked, asked};
ghost use Rattle.proto_edit_entries.specs.Entries.{change_of, IsEntry};
ghost use Rattle.proto_journal_records.specs.declared.record.Version.TheVariants.{First as first, Second as second};
ghost use Rattle.proto_journal_records.specs.RecordText.{asked_data, splice_data, change_data, edit_data, record_data, record_text, state_name};
ghost use Rattle.proto_journal_records.specs.DataTokens.{AddsTokens, data_tokens};
ghost use Rattle.proto_journal_records.specs.Journals.{IsTextual, IsTold, AreTextual, IsRecord};
ghost use Rattle.proto_journal_records.specs.Records.{record_of};

use crate::record::{Record, RecordParts, State, Version};
use json::Writer;
use proto_base::NoMemory;
use proto_edit_entries::{Change, Edit, Entry};
use proto_text::{Splice, Splices};
use std::alloc::{AllocError, Global};

// Most lines are no longer; a longer one grows.
const LINE_ROOM: usize = 256;

fn write_text(writer: &mut Writer, key: &str, text: &str) -> Result<(), AllocError>
    ensures { OnOk result (AddsTokens writer.old writer.new
        (key_token key.now ∷ string text.now ∷ [])) }
{
    writer.key(key)?;
    writer.string(text)
}

fn write_number(writer: &mut Writer, key: &str, n: u32) -> Result<(), AllocError>
    ensures { OnOk result (AddsTokens writer.old writer.new
        (key_token key.now ∷ number (decimal n) ∷ [])) }
{
    writer.key(key)?;
    writer.u64(u64::from(n))
}

#[tactic(auto, unfolding(crate::specs::RecordText::splice_data))]
fn write_splice(writer: &mut Writer, splice: &Splice) -> Result<(), AllocError>
    ensures { OnOk result
        (AddsTokens writer.old writer.new (data_tokens (splice_data (edit_of splice.now)))) }
{
    writer.begin_object()?;
    write_number(writer, "at", splice.at)?;
    write_text(writer, "new", &splice.new)?;
    write_text(writer, "old", &splice.old)?;
    writer.end_object()
}

fn write_splices(writer: &mut Writer, splices: &[Splice]) -> Result<(), AllocError>
    ensures { OnOk result (AddsTokens writer.old writer.new
        (data_tokens (array (items_of (map splice_data (edits splices.now)))))) }
{
    writer.begin_array()?;
    for splice in splices {
        write_splice(writer, splice)?;
    }
    writer.end_array()
}

// The splices of a change, which are texts.
fn write_edits(writer: &mut Writer, splices: &Splices) -> Result<(), AllocError>
    ensures written { OnOk result (AddsTokens writer.old writer.new
        (data_tokens (array (items_of (map splice_data splices.now))))) }
    ensures texts { All IsTextual splices.now }
{
    write_splices(writer, splices.as_slice())
}

#[tactic(auto, unfolding(crate::specs::RecordText::change_data))]
fn write_change(writer: &mut Writer, change: &Change) -> Result<(), AllocError>
    ensures written { OnOk result
        (AddsTokens writer.old writer.new (data_tokens (change_data (change_of change.now)))) }
    ensures texts { OnOk result (All IsTextual change.now.splices) }
{
    writer.begin_object()?;
    write_number(writer, "after", change.after)?;
    write_number(writer, "before", change.before)?;
    write_text(writer, "path", &change.path)?;
    writer.key("splices")?;
    write_edits(writer, &change.splices)?;
    writer.end_object()
}

fn write_changes(writer: &mut Writer, changes: &[Change]) -> Result<(), AllocError>
    ensures written { OnOk result (AddsTokens writer.old writer.new
        (data_tokens (array (items_of (map change_data (map change_of changes.now)))))) }
    ensures texts { OnOk result (AreTextual (map change_of changes.now)) }
{
    writer.begin_array()?;
    for change in changes {
        write_change(writer, change)?;
    }
    writer.end_array()
}

/// The word of a state: `open` or `done`.
pub fn state_text(state: State) -> &'static str
    ensures { result.now ≡ state_name state }
{
    match state {
        State::Open => "open",
        State::Done => "done",
    }
}

// The changes of an entry.
fn write_files(writer: &mut Writer, entry: &Entry) -> Result<(), AllocError>
    ensures written { OnOk result (AddsTokens writer.old writer.new
        (data_tokens (array (items_of (map change_data entry.now))))) }
    ensures texts { OnOk result (AreTextual entry.now) }
    ensures entry { IsEntry entry.now }
{
    write_changes(writer, entry.changes())
}

// An object of two texts.
fn write_pair(
    writer: &mut Writer,
    first: (&str, &str),
    last: (&str, &str),
) -> Result<(), AllocError>
    ensures { OnOk result (AddsTokens writer.old writer.new (begin_object
        ∷ key_token first.entry.0.now ∷ string first.entry.1.now
        ∷ key_token last.entry.0.now ∷ string last.entry.1.now ∷ end_object ∷ [])) }
{
    writer.begin_object()?;
    write_text(writer, first.0, first.1)?;
    write_text(writer, last.0, last.1)?;
    writer.end_object()
}

// An object of three texts.
fn write_three(
    writer: &mut Writer,
    first: (&str, &str),
    middle: (&str, &str),
    last: (&str, &str),
) -> Result<(), AllocError>
    ensures { OnOk result (AddsTokens writer.old writer.new (begin_object
        ∷ key_token first.entry.0.now ∷ string first.entry.1.now
        ∷ key_token middle.entry.0.now ∷ string middle.entry.1.now
        ∷ key_token last.entry.0.now ∷ string last.entry.1.now ∷ end_object ∷ [])) }
{
    writer.begin_object()?;
    write_text(writer, first.0, first.1)?;
    write_text(writer, middle.0, middle.1)?;
    write_text(writer, last.0, last.1)?;
    writer.end_object()
}

#[tactic(auto, unfolding(crate::specs::RecordText::asked_data))]
fn write_asked(writer: &mut Writer, edit: &Edit) -> Result<(), AllocError>
    ensures { OnOk result
        (AddsTokens writer.old writer.new (data_tokens (asked_data (asked edit.now)))) }
{
    match edit {
        Edit::Rename { name, to } => {
            write_three(writer, ("kind", "rename"), ("name", name), ("to", to))
        }
        Edit::DeleteField { name } => write_pair(writer, ("kind", "delete-field"), ("name", name)),
        Edit::AddImport { file, path } => {
            write_three(
                writer,
                ("file", file),
                ("kind", "add-import"),
                ("path", path),
            )
        }
        Edit::DropImport { file, path } => {
            write_three(
                writer,
                ("file", file),
                ("kind", "drop-import"),
                ("path", path),
            )
        }
    }
}

#[tactic(auto, unfolding(crate::specs::RecordText::edit_data))]
fn write_edit(writer: &mut Writer, edit: Option<&Edit>) -> Result<(), AllocError>
    ensures { OnOk result (AddsTokens writer.old writer.new
        (data_tokens (edit_data (option_map (λ e. asked e.now) edit.entry)))) }
{
    match edit {
        Some(edit) => write_asked(writer, edit),
        None => writer.null(),
    }
}

// What stands behind the edit of a record, with the number of the version.
fn write_rest(
    writer: &mut Writer,
    state: State,
    entry: &Entry,
    version: u32,
) -> Result<(), AllocError>
    ensures written { OnOk result (AddsTokens writer.old writer.new
        (key_token (codes "files") ∷ (data_tokens (array (items_of (map change_data entry.now)))
        ++ key_token (codes "state") ∷ string (state_name state)
        ∷ key_token (codes "version") ∷ number (decimal version) ∷ end_object ∷ []))) }
    ensures texts { OnOk result (AreTextual entry.now) }
    ensures entry { OnOk result (IsEntry entry.now) }
{
    writer.key("files")?;
    write_files(writer, entry)?;
    write_text(writer, "state", state_text(state))?;
    write_number(writer, "version", version)?;
    writer.end_object()
}

#[tactic(auto, unfolding(crate::specs::RecordText::record_data))]
fn write_first(writer: &mut Writer, state: State, entry: &Entry) -> Result<(), AllocError>
    ensures written { OnOk result ((edit : Option Asked) → AddsTokens writer.old writer.new
        (data_tokens
        (record_data first (record { state = state; entry = entry.now; edit = edit })))) }
    ensures texts { OnOk result (AreTextual entry.now) }
    ensures entry { OnOk result (IsEntry entry.now) }
{
    writer.begin_object()?;
    write_rest(writer, state, entry, 1)
}

#[tactic(auto, unfolding(crate::specs::RecordText::record_data))]
fn write_second(writer: &mut Writer, parts: &RecordParts) -> Result<(), AllocError>
    ensures written { OnOk result (AddsTokens writer.old writer.new
        (data_tokens (record_data second (record_of parts.now)))) }
    ensures texts { OnOk result (AreTextual (record_of parts.now).entry) }
    ensures entry { OnOk result (IsEntry (record_of parts.now).entry) }
{
    writer.begin_object()?;
    writer.key("edit")?;
    write_edit(writer, parts.edit)?;
    write_rest(writer, parts.state, parts.entry, 2)
}

fn write_record(
    writer: &mut Writer,
    version: Version,
    parts: &RecordParts,
) -> Result<(), AllocError>
    ensures written { OnOk result (AddsTokens writer.old writer.new
        (data_tokens (record_data version (record_of parts.now)))) }
    ensures texts { OnOk result (AreTextual (record_of parts.now).entry) }
    ensures entry { OnOk result (IsEntry (record_of parts.now).entry) }
{
    match version {
        Version::First => write_first(writer, parts.state, parts.entry),
        Version::Second => write_second(writer, parts),
    }
}

// The bytes of the record of these parts before its line feed.
fn bytes_of(alloc: Global, version: Version, parts: &RecordParts) -> Result<Vec<u8>, NoMemory>
    requires { IsTold version (record_of parts.now).edit }
    ensures text { IfOk result (λ bytes. bytes.items
        ≡ compact_text (record_data version (record_of parts.now))) }
    ensures utf8 { IfOk result (λ bytes. IsUtf8 bytes.items) }
    ensures is { OnOk result (IsRecord version (record_of parts.now)) }
{
    let mut writer = Writer::new(Vec::with_capacity(alloc, LINE_ROOM)?);
    write_record(&mut writer, version, parts)?;
    Ok(writer.into_inner())
}

/// The text of the record of these parts, with its line feed. The first version does not tell the
/// edit, so none is given there.
pub fn line_of(alloc: Global, version: Version, parts: &RecordParts) -> Result<String, NoMemory>
    requires { IsTold version (record_of parts.now).edit }
    ensures text { IfOk result
        (λ s. string_bytes s ≡ record_text version (record_of parts.now)) }
    ensures is { OnOk result (IsRecord version (record_of parts.now)) }
{
    let bytes = bytes_of(alloc, version, parts)?;
    let mut text = String::from_utf8(bytes).unwrap();
    text.push('\n')?;
    Ok(text)
}

/// The text of a record in the second version: one line of JSON, with its line feed.
pub fn entry_text(alloc: Global, noted: &Record) -> Result<String, NoMemory>
    ensures text { IfOk result (λ s. string_bytes s ≡ record_text second noted.now) }
    ensures is { OnOk result (IsRecord second noted.now) }
{
    line_of(alloc, Version::Second, &noted.parts())
}
