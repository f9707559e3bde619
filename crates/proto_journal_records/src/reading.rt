//! The record that a line is the text of.

ghost use Rattle.std.specs.Prelude.{◌≡◌, ◌≢◌, ◌⊎◌, ◌↔◌, ◌^◌, ◌<◌, ℕ, List, All, map, IfOk, IfErr, OnOk, IsSomeAnd, IfSome, IsTrue, Option, None, option_map, option_and_then, Some, Err, codes, decimal};
ghost use Rattle.std.specs.Str.{IsUtf8};
ghost use Rattle.std.specs.String.{string_bytes};
ghost use Rattle.json.specs.Json.{Json, document};
ghost use Rattle.json.specs.Value.{value_view, items_view};
ghost use Rattle.json.specs.Find.{get, as_number, as_str, as_array};
ghost use Rattle.serde_json.specs.View.{items_of};
ghost use Rattle.serde_json.specs.Written.{compact_text, outline, items_outline};
ghost use Rattle.proto_text.specs.Edits.{Edit as SpliceOf, AreShort};
ghost use Rattle.proto_text.specs.Splicing.{edit_of, edits};
ghost use Rattle.proto_edit_entries.specs.EditsAsked.{Asked, asked, rename as rename_asked, delete_field as delete_asked, add_import as add_asked, drop_import as drop_asked};
ghost use Rattle.proto_edit_entries.specs.Entries.{ChangeOf, change_of, IsMeasured, IsEntry};
ghost use Rattle.proto_journal_records.specs.RecordText.{asked_data, splice_data, change_data, edit_data, record_data, record_text, state_name};
ghost use Rattle.proto_journal_records.specs.Journals.{IsRecord, IsTold};
ghost use Rattle.proto_journal_records.specs.declared.record.State.{State as StateOf};
ghost use Rattle.proto_journal_records.specs.declared.record.Version.TheVariants.{First as first, Second as second};
ghost use Rattle.proto_journal_records.specs.Records.{RecordOf};
ghost use Rattle.proto_journal_records.specs.declared.fault.JournalFault.TheVariants as JournalFault;

use crate::fault::JournalFault;
use crate::matching::is_text_of;
use crate::record::{Record, State, Version};
use json::{Error, Scratch, Value};
use proto_base::NoMemory;
use proto_edit_entries::{Change, Edit, Entry};
use proto_text::{Splice, Splices};
use std::alloc::Global;

fn small_number_at(value: &Value<'_>, key: &str) -> Option<u32>
    ensures { (n : ℕ) → n < 2 ^ 32
        → option_and_then as_number (get key.now (value_view value.now)) ≡ Some (decimal n)
        → result ≡ Some n }
{
    let number = value.get(key)?.as_u64()?;
    u32::try_from(number).ok()
}

fn text_at<'a>(value: &Value<'a>, key: &str) -> Option<&'a str>
    ensures { option_map (λ s. s.now) result
        ≡ option_and_then as_str (get key.now (value_view value.now)) }
{
    value.get(key)?.as_str()
}

fn list_at<'v, 'a>(value: &'v Value<'a>, key: &str) -> Option<&'v Vec<Value<'a>>>
    ensures { option_map (λ v. items_view v.now.items) result
        ≡ option_and_then as_array (get key.now (value_view value.now)) }
{
    match value.get(key)? {
        Value::Array(list) => Some(list),
        _ => None,
    }
}

// Copies of the texts at two keys, if there are both.
fn two_texts(
    alloc: Global,
    value: &Value<'_>,
    first_key: &str,
    second_key: &str,
) -> Result<Option<(String, String)>, NoMemory>
    ensures { IfOk result (λ found.
        option_map {U = List ℕ × List ℕ} (λ x. (string_bytes x.0, string_bytes x.1)) found
        ≡ option_and_then (λ a. option_map {U = List ℕ × List ℕ} (λ b. (a, b))
        (option_and_then as_str (get second_key.now (value_view value.now))))
        (option_and_then as_str (get first_key.now (value_view value.now)))) }
{
    let Some(first_text) = text_at(value, first_key) else {
        return Ok(None);
    };
    let Some(second_text) = text_at(value, second_key) else {
        return Ok(None);
    };
    let first_copy = String::from_str(alloc, first_text)?;
    let second_copy = String::from_str(alloc, second_text)?;
    Ok(Some((first_copy, second_copy)))
}

#[tactic(auto, unfolding(crate::specs::RecordText::splice_data))]
fn read_splice(alloc: Global, value: &Value<'_>) -> Result<Option<Splice>, NoMemory>
    ensures { IfOk result (λ found. (e : SpliceOf) → e.at < 2 ^ 32
        → value_view value.now ≡ outline (splice_data e)
        → IsSomeAnd found (λ splice. edit_of splice ≡ e)) }
{
    let Some(at) = small_number_at(value, "at") else {
        return Ok(None);
    };
    let Some(texts) = two_texts(alloc, value, "old", "new")? else {
        return Ok(None);
    };
    let (old, new) = texts;
    Ok(Some(Splice { at, old, new }))
}

fn read_splice_list(alloc: Global, values: &Vec<Value<'_>>) -> Result<Option<Vec<Splice>>, NoMemory>
    ensures { IfOk result (λ found. (es : List SpliceOf) → All (λ e. e.at < 2 ^ 32) es
        → items_view values.now.items ≡ items_outline (items_of (map splice_data es))
        → IsSomeAnd found (λ list. edits list.items ≡ es)) }
{
    let mut list = Vec::with_capacity(alloc, values.len())?;
    for value in values {
        let Some(splice) = read_splice(alloc, value)? else {
            return Ok(None);
        };
        list.push(splice)?;
    }
    Ok(Some(list))
}

fn read_splices(alloc: Global, values: &Vec<Value<'_>>) -> Result<Option<Splices>, NoMemory>
    ensures { IfOk result (λ found. (es : List SpliceOf) → AreShort 0 0 es
        → items_view values.now.items ≡ items_outline (items_of (map splice_data es))
        → IsSomeAnd found (λ splices. splices ≡ es)) }
{
    let Some(list) = read_splice_list(alloc, values)? else {
        return Ok(None);
    };
    match Splices::new(list) {
        Ok(splices) => Ok(Some(splices)),
        Err(_) => Ok(None),
    }
}

#[tactic(auto, unfolding(crate::specs::RecordText::change_data))]
fn read_change(alloc: Global, value: &Value<'_>) -> Result<Option<Change>, NoMemory>
    ensures { IfOk result (λ found. (c : ChangeOf) → IsMeasured c
        → value_view value.now ≡ outline (change_data c)
        → IsSomeAnd found (λ change. change_of change ≡ c)) }
{
    let Some(path) = text_at(value, "path") else {
        return Ok(None);
    };
    let Some(before) = small_number_at(value, "before") else {
        return Ok(None);
    };
    let Some(after) = small_number_at(value, "after") else {
        return Ok(None);
    };
    let Some(list) = list_at(value, "splices") else {
        return Ok(None);
    };
    let path = String::from_str(alloc, path)?;
    let Some(splices) = read_splices(alloc, list)? else {
        return Ok(None);
    };
    Ok(Some(Change {
        path,
        before,
        after,
        splices,
    }))
}

fn read_changes(alloc: Global, values: &Vec<Value<'_>>) -> Result<Option<Vec<Change>>, NoMemory>
    ensures { IfOk result (λ found. (cs : List ChangeOf) → All IsMeasured cs
        → items_view values.now.items ≡ items_outline (items_of (map change_data cs))
        → IsSomeAnd found (λ changes. map change_of changes.items ≡ cs)) }
{
    let mut changes = Vec::with_capacity(alloc, values.len())?;
    for value in values {
        let Some(change) = read_change(alloc, value)? else {
            return Ok(None);
        };
        changes.push(change)?;
    }
    Ok(Some(changes))
}

fn read_state(value: &Value<'_>) -> Option<State>
    ensures { (s : StateOf)
        → option_and_then as_str (get (codes "state") (value_view value.now)) ≡ Some (state_name s)
        → result ≡ Some s }
{
    let text = text_at(value, "state")?;
    if text == "open" {
        return Some(State::Open);
    }
    if text == "done" {
        return Some(State::Done);
    }
    None
}

fn read_files(alloc: Global, values: &Vec<Value<'_>>) -> Result<Option<Entry>, NoMemory>
    ensures { IfOk result (λ found. (cs : List ChangeOf) → IsEntry cs
        → items_view values.now.items ≡ items_outline (items_of (map change_data cs))
        → IsSomeAnd found (λ entry. entry ≡ cs)) }
{
    let Some(changes) = read_changes(alloc, values)? else {
        return Ok(None);
    };
    Ok(Entry::new(changes))
}

// The state and the entry of a record.
fn read_parts(alloc: Global, value: &Value<'_>) -> Result<Option<(State, Entry)>, NoMemory>
    ensures { IfOk result (λ found. (s : StateOf) (cs : List ChangeOf) → IsEntry cs
        → option_and_then as_str (get (codes "state") (value_view value.now)) ≡ Some (state_name s)
        → option_and_then as_array (get (codes "files") (value_view value.now))
        ≡ Some (items_outline (items_of (map change_data cs)))
        → IsSomeAnd found (λ x. (x.0 ≡ s) × (x.1 ≡ cs))) }
{
    let Some(state) = read_state(value) else {
        return Ok(None);
    };
    let Some(list) = list_at(value, "files") else {
        return Ok(None);
    };
    match read_files(alloc, list)? {
        Some(entry) => Ok(Some((state, entry))),
        None => Ok(None),
    }
}

#[tactic(auto, unfolding(crate::specs::RecordText::asked_data))]
fn read_rename(alloc: Global, value: &Value<'_>) -> Result<Option<Edit>, NoMemory>
    ensures { IfOk result (λ found. (name to : List ℕ)
        → value_view value.now ≡ outline (asked_data (rename_asked name to))
        → IsSomeAnd found (λ edit. asked edit ≡ rename_asked name to)) }
{
    let Some(texts) = two_texts(alloc, value, "name", "to")? else {
        return Ok(None);
    };
    let (name, to) = texts;
    Ok(Some(Edit::Rename { name, to }))
}

#[tactic(auto, unfolding(crate::specs::RecordText::asked_data))]
fn read_deletion(alloc: Global, value: &Value<'_>) -> Result<Option<Edit>, NoMemory>
    ensures { IfOk result (λ found. (name : List ℕ)
        → value_view value.now ≡ outline (asked_data (delete_asked name))
        → IsSomeAnd found (λ edit. asked edit ≡ delete_asked name)) }
{
    let Some(name) = text_at(value, "name") else {
        return Ok(None);
    };
    let name = String::from_str(alloc, name)?;
    Ok(Some(Edit::DeleteField { name }))
}

#[tactic(auto, unfolding(crate::specs::RecordText::asked_data))]
fn read_addition(alloc: Global, value: &Value<'_>) -> Result<Option<Edit>, NoMemory>
    ensures { IfOk result (λ found. (file path : List ℕ)
        → value_view value.now ≡ outline (asked_data (add_asked file path))
        → IsSomeAnd found (λ edit. asked edit ≡ add_asked file path)) }
{
    let Some(texts) = two_texts(alloc, value, "file", "path")? else {
        return Ok(None);
    };
    let (file, path) = texts;
    Ok(Some(Edit::AddImport { file, path }))
}

#[tactic(auto, unfolding(crate::specs::RecordText::asked_data))]
fn read_drop(alloc: Global, value: &Value<'_>) -> Result<Option<Edit>, NoMemory>
    ensures { IfOk result (λ found. (file path : List ℕ)
        → value_view value.now ≡ outline (asked_data (drop_asked file path))
        → IsSomeAnd found (λ edit. asked edit ≡ drop_asked file path)) }
{
    let Some(texts) = two_texts(alloc, value, "file", "path")? else {
        return Ok(None);
    };
    let (file, path) = texts;
    Ok(Some(Edit::DropImport { file, path }))
}

// The edit of its kind.
fn read_asked(alloc: Global, value: &Value<'_>) -> Result<Option<Edit>, NoMemory>
    ensures { IfOk result (λ found. (e : Asked) → value_view value.now ≡ outline (asked_data e)
        → IsSomeAnd found (λ edit. asked edit ≡ e)) }
{
    let Some(kind) = text_at(value, "kind") else {
        return Ok(None);
    };
    if kind == "rename" {
        return read_rename(alloc, value);
    }
    if kind == "delete-field" {
        return read_deletion(alloc, value);
    }
    if kind == "add-import" {
        return read_addition(alloc, value);
    }
    if kind == "drop-import" {
        return read_drop(alloc, value);
    }
    Ok(None)
}

// The edit that a record tells, or that it tells none.
fn read_edit(alloc: Global, value: &Value<'_>) -> Result<Option<Option<Edit>>, NoMemory>
    ensures { IfOk result (λ found. (o : Option Asked)
        → get (codes "edit") (value_view value.now) ≡ Some (outline (edit_data o))
        → IsSomeAnd found (λ edit. option_map asked edit ≡ o)) }
{
    let Some(told) = value.get("edit") else {
        return Ok(None);
    };
    if told.is_null() {
        return Ok(Some(None));
    }
    let Some(edit) = read_asked(alloc, told)? else {
        return Ok(None);
    };
    Ok(Some(Some(edit)))
}

#[tactic(auto, unfolding(crate::specs::RecordText::record_data))]
fn read_first(alloc: Global, value: &Value<'_>) -> Result<Option<Record>, NoMemory>
    ensures shape { IfOk result (λ found. (r : RecordOf)
        → IsEntry r.entry → IsTold first r.edit
        → value_view value.now ≡ outline (record_data first r)
        → IsSomeAnd found (λ s. s ≡ r)) }
    ensures told { IfOk result (λ found. IfSome found (λ s. IsTold first s.edit)) }
{
    let Some(parts) = read_parts(alloc, value)? else {
        return Ok(None);
    };
    let (state, entry) = parts;
    Ok(Record::new(state, entry, None))
}

#[tactic(auto, unfolding(crate::specs::RecordText::record_data))]
fn read_second(alloc: Global, value: &Value<'_>) -> Result<Option<Record>, NoMemory>
    ensures shape { IfOk result (λ found. (r : RecordOf)
        → IsEntry r.entry → IsTold second r.edit
        → value_view value.now ≡ outline (record_data second r)
        → IsSomeAnd found (λ s. s ≡ r)) }
    ensures told { IfOk result (λ found. IfSome found (λ s. IsTold second s.edit)) }
{
    let Some(edit) = read_edit(alloc, value)? else {
        return Ok(None);
    };
    let Some(parts) = read_parts(alloc, value)? else {
        return Ok(None);
    };
    let (state, entry) = parts;
    Ok(Record::new(state, entry, edit))
}

fn read_record(
    alloc: Global,
    version: Version,
    value: &Value<'_>,
) -> Result<Option<Record>, NoMemory>
    ensures shape { IfOk result (λ found. (r : RecordOf)
        → IsEntry r.entry → IsTold version r.edit
        → value_view value.now ≡ outline (record_data version r)
        → IsSomeAnd found (λ s. s ≡ r)) }
    ensures told { IfOk result (λ found. IfSome found (λ s. IsTold version s.edit)) }
{
    match version {
        Version::First => read_first(alloc, value),
        Version::Second => read_second(alloc, value),
    }
}

fn read_value<'a>(
    alloc: Global,
    line: &'a [u8],
    scratch: &'a mut Scratch,
) -> Result<Option<Value<'a>>, NoMemory>
    ensures { IfOk result (λ found. (j : Json) → IsUtf8 line.now → document line.now ≡ Some j
        → IsSomeAnd found (λ value. value_view value ≡ j)) }
{
    match Value::from_slice(alloc, line, scratch) {
        Ok(value) => Ok(Some(value)),
        Err(Error::OutOfMemory) => Err(NoMemory),
        Err(_) => Ok(None),
    }
}

// The record of this shape, if there is one: what is read of a record's text is that record.
fn read_shape(
    alloc: Global,
    version: Version,
    line: &[u8],
    scratch: &mut Scratch,
) -> Result<Option<Record>, NoMemory>
    ensures shape { IfOk result (λ found. (r : RecordOf)
        → IsRecord version r → line.now ≡ compact_text (record_data version r)
        → IsSomeAnd found (λ s. s ≡ r)) }
    ensures told { IfOk result (λ found. IfSome found (λ s. IsTold version s.edit)) }
{
    let Some(value) = read_value(alloc, line, scratch)? else {
        return Ok(None);
    };
    read_record(alloc, version, &value)
}

/// The record that has these bytes for its text in this version: a line with its line feed. Each
/// record has one spelling, and any other is BadJournal, as are bytes that are no record's text.
/// Beside that it fails only when out of memory.
pub(crate) fn read_line(
    alloc: Global,
    version: Version,
    bytes: &[u8],
    scratch: &mut Scratch,
) -> Result<Record, JournalFault>
    ensures ok { IfOk result (λ r. (record_text version r ≡ bytes.now) × IsRecord version r) }
    ensures err { IfErr result (λ e. (e ≡ JournalFault.BadJournal) ⊎ (e ≡ JournalFault.NoMemory)) }
    ensures bad { result ≡ Err JournalFault.BadJournal
        → (r : RecordOf) → IsRecord version r → record_text version r ≢ bytes.now }
{
    let Some((last, line)) = bytes.split_last() else {
        return Err(JournalFault::BadJournal);
    };
    if *last != b'\n' {
        return Err(JournalFault::BadJournal);
    }
    let Some(found) = read_shape(alloc, version, line, scratch)? else {
        return Err(JournalFault::BadJournal);
    };
    if is_text_of(version, line, &found) {
        Ok(found)
    } else {
        Err(JournalFault::BadJournal)
    }
}

/// The record that has these bytes for its text in the second version: a line with its line feed.
/// Each record has one spelling, and any other is BadJournal, as are bytes that are no record's
/// text. Beside that it fails only when out of memory.
pub fn read_entry(alloc: Global, bytes: &[u8]) -> Result<Record, JournalFault>
    ensures ok { IfOk result (λ r. (record_text second r ≡ bytes.now) × IsRecord second r) }
    ensures err { IfErr result (λ e. (e ≡ JournalFault.BadJournal) ⊎ (e ≡ JournalFault.NoMemory)) }
    ensures bad { result ≡ Err JournalFault.BadJournal
        → (r : RecordOf) → IsRecord second r → record_text second r ≢ bytes.now }
{
    read_line(alloc, Version::Second, bytes, &mut Scratch::new(alloc))
}
