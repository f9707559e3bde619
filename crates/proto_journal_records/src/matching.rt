//! What stands behind the text of a record in bytes that begin with it: so a line is compared with
//! that text, which is not written for it. Takes no memory.

ghost use Rattle.std.specs.Prelude.{◌≡◌, ◌↔◌, ◌++◌, ◌<◌, All, IsTrue, codes, decimal, map, option_map};
ghost use Rattle.std.specs.Char.{digit_char};
ghost use Rattle.json.specs.Print.{escape, escape_byte, escape_letter, quoted};
ghost use Rattle.serde_json.specs.Data.{array};
ghost use Rattle.serde_json.specs.View.{items_of};
ghost use Rattle.serde_json.specs.Written.{comma_if, compact_text};
ghost use Rattle.proto_text.specs.Splicing.{edit_of, edits};
ghost use Rattle.proto_edit_entries.specs.EditsAsked.{asked};
ghost use Rattle.proto_edit_entries.specs.Entries.{IsEntry, change_of};
ghost use Rattle.proto_journal_records.specs.Behind.{IsBehind};
ghost use Rattle.proto_journal_records.specs.Journals.{AreTextual, IsRecord, IsTextual, IsTold};
ghost use Rattle.proto_journal_records.specs.RecordText.{asked_data, change_data, edit_data, record_data, splice_data, state_name};
ghost use Rattle.proto_journal_records.specs.Records.{record_of};

use crate::record::{Record, RecordParts, State, Version};
use crate::writing::state_text;
use itoa::Buffer;
use proto_edit_entries::{Change, Edit, Entry};
use proto_text::{Splice, Splices};

// What stands behind this text in the bytes; none where they begin with another one, and where
// there are none.
fn behind<'a>(bytes: Option<&'a [u8]>, text: &[u8]) -> Option<&'a [u8]>
    ensures { IsBehind text.now bytes.entry result }
{
    bytes?.strip_prefix(text)
}

fn behind_number<'a>(bytes: Option<&'a [u8]>, n: u32) -> Option<&'a [u8]>
    ensures { IsBehind (decimal n) bytes.entry result }
{
    let mut digits = Buffer::new();
    behind(bytes, digits.format(n).as_bytes())
}

// A hexadecimal digit, in lower case.
fn hex_digit(n: u8) -> u8
    requires { n < 16 }
    ensures { result ≡ digit_char n }
{
    if n < 10 { b'0' + n } else { b'a' + n - 10 }
}

// The letter of the short escape of a byte, or 0 where it has none.
fn short_escape(byte: u8) -> u8
    ensures { result ≡ escape_letter byte }
{
    match byte {
        b'"' => b'"',
        b'\\' => b'\\',
        8 => b'b',
        b'\t' => b't',
        b'\n' => b'n',
        12 => b'f',
        b'\r' => b'r',
        _ => 0,
    }
}

// As `behind`, of a byte as it stands in a string.
fn behind_byte<'a>(bytes: Option<&'a [u8]>, byte: u8) -> Option<&'a [u8]>
    ensures { IsBehind (escape_byte byte) bytes.entry result }
{
    let letter = short_escape(byte);
    if letter > 0 {
        return behind(bytes, &[b'\\', letter]);
    }
    if byte < 32 {
        let high = hex_digit(byte / 16);
        let low = hex_digit(byte % 16);
        return behind(bytes, &[b'\\', b'u', b'0', b'0', high, low]);
    }
    behind(bytes, &[byte])
}

// As `behind`, of bytes as they stand in a string.
fn behind_escaped<'a>(bytes: Option<&'a [u8]>, text: &[u8]) -> Option<&'a [u8]>
    ensures { IsBehind (escape text.now) bytes.entry result }
{
    let mut rest = bytes;
    for byte in text {
        rest = behind_byte(rest, *byte);
    }
    rest
}

fn behind_string<'a>(bytes: Option<&'a [u8]>, text: &str) -> Option<&'a [u8]>
    ensures { IsBehind (quoted text.now) bytes.entry result }
{
    let rest = behind(bytes, b"\"");
    let rest = behind_escaped(rest, text.as_bytes());
    behind(rest, b"\"")
}

// As `behind`, of the comma between an item and a later one.
fn behind_comma(bytes: Option<&[u8]>, is_later: bool) -> Option<&[u8]>
    ensures { IsBehind (comma_if is_later) bytes.entry result }
{
    if is_later { behind(bytes, b",") } else { bytes }
}

#[tactic(auto, unfolding(crate::specs::RecordText::splice_data))]
fn behind_splice<'a>(bytes: Option<&'a [u8]>, splice: &Splice) -> Option<&'a [u8]>
    ensures { IsBehind (compact_text (splice_data (edit_of splice.now))) bytes.entry result }
{
    let rest = behind(bytes, b"{\"at\":");
    let rest = behind_number(rest, splice.at);
    let rest = behind(rest, b",\"new\":");
    let rest = behind_string(rest, &splice.new);
    let rest = behind(rest, b",\"old\":");
    let rest = behind_string(rest, &splice.old);
    behind(rest, b"}")
}

fn behind_splices<'a>(bytes: Option<&'a [u8]>, splices: &[Splice]) -> Option<&'a [u8]>
    ensures { IsBehind (compact_text (array (items_of (map splice_data (edits splices.now)))))
        bytes.entry result }
{
    let mut rest = behind(bytes, b"[");
    let mut is_later = false;
    for splice in splices {
        rest = behind_comma(rest, is_later);
        rest = behind_splice(rest, splice);
        is_later = true;
    }
    behind(rest, b"]")
}

// The splices of a change, which are texts.
fn behind_edits<'a>(bytes: Option<&'a [u8]>, splices: &Splices) -> Option<&'a [u8]>
    ensures behind { IsBehind (compact_text (array (items_of (map splice_data splices.now))))
        bytes.entry result }
    ensures texts { All IsTextual splices.now }
{
    behind_splices(bytes, splices.as_slice())
}

#[tactic(auto, unfolding(crate::specs::RecordText::change_data))]
fn behind_change<'a>(bytes: Option<&'a [u8]>, change: &Change) -> Option<&'a [u8]>
    ensures behind { IsBehind (compact_text (change_data (change_of change.now)))
        bytes.entry result }
    ensures texts { All IsTextual change.now.splices }
{
    let rest = behind(bytes, b"{\"after\":");
    let rest = behind_number(rest, change.after);
    let rest = behind(rest, b",\"before\":");
    let rest = behind_number(rest, change.before);
    let rest = behind(rest, b",\"path\":");
    let rest = behind_string(rest, &change.path);
    let rest = behind(rest, b",\"splices\":");
    let rest = behind_edits(rest, &change.splices);
    behind(rest, b"}")
}

fn behind_changes<'a>(bytes: Option<&'a [u8]>, changes: &[Change]) -> Option<&'a [u8]>
    ensures behind { IsBehind
        (compact_text (array (items_of (map change_data (map change_of changes.now)))))
        bytes.entry result }
    ensures texts { AreTextual (map change_of changes.now) }
{
    let mut rest = behind(bytes, b"[");
    let mut is_later = false;
    for change in changes {
        rest = behind_comma(rest, is_later);
        rest = behind_change(rest, change);
        is_later = true;
    }
    behind(rest, b"]")
}

// As `behind`, of an object of two texts: `begin` stands before the first one.
fn behind_texts<'a>(
    bytes: Option<&'a [u8]>,
    begin: &[u8],
    first: &str,
    middle: &[u8],
    last: &str,
) -> Option<&'a [u8]>
    ensures { IsBehind (begin.now ++ (quoted first.now
        ++ (middle.now ++ (quoted last.now ++ codes "}")))) bytes.entry result }
{
    let rest = behind(bytes, begin);
    let rest = behind_string(rest, first);
    let rest = behind(rest, middle);
    let rest = behind_string(rest, last);
    behind(rest, b"}")
}

#[tactic(auto, unfolding(crate::specs::RecordText::asked_data))]
fn behind_asked<'a>(bytes: Option<&'a [u8]>, edit: &Edit) -> Option<&'a [u8]>
    ensures { IsBehind (compact_text (asked_data (asked edit.now))) bytes.entry result }
{
    match edit {
        Edit::Rename { name, to } => {
            behind_texts(
                bytes,
                b"{\"kind\":\"rename\",\"name\":",
                name,
                b",\"to\":",
                to,
            )
        }
        Edit::DeleteField { name } => {
            let rest = behind(bytes, b"{\"kind\":\"delete-field\",\"name\":");
            let rest = behind_string(rest, name);
            behind(rest, b"}")
        }
        Edit::AddImport { file, path } => {
            let middle = b",\"kind\":\"add-import\",\"path\":";
            behind_texts(bytes, b"{\"file\":", file, middle, path)
        }
        Edit::DropImport { file, path } => {
            let middle = b",\"kind\":\"drop-import\",\"path\":";
            behind_texts(bytes, b"{\"file\":", file, middle, path)
        }
    }
}

#[tactic(auto, unfolding(crate::specs::RecordText::edit_data))]
fn behind_edit<'a>(bytes: Option<&'a [u8]>, edit: Option<&Edit>) -> Option<&'a [u8]>
    ensures { IsBehind (compact_text (edit_data (option_map (λ e. asked e.now) edit.entry)))
        bytes.entry result }
{
    match edit {
        Some(edit) => behind_asked(bytes, edit),
        None => behind(bytes, b"null"),
    }
}

// As `behind`, of what stands behind `"files":` in a record, with the number of the version.
fn behind_rest<'a>(
    bytes: Option<&'a [u8]>,
    state: State,
    entry: &Entry,
    version: u32,
) -> Option<&'a [u8]>
    ensures behind { IsBehind (compact_text (array (items_of (map change_data entry.now)))
        ++ (codes ",\"state\":" ++ (quoted (state_name state)
        ++ (codes ",\"version\":" ++ (decimal version ++ codes "}"))))) bytes.entry result }
    ensures texts { AreTextual entry.now }
    ensures entry { IsEntry entry.now }
{
    let rest = behind_changes(bytes, entry.changes());
    let rest = behind(rest, b",\"state\":");
    let rest = behind_string(rest, state_text(state));
    let rest = behind(rest, b",\"version\":");
    let rest = behind_number(rest, version);
    behind(rest, b"}")
}

#[tactic(auto, unfolding(crate::specs::RecordText::record_data))]
fn behind_record<'a>(
    bytes: Option<&'a [u8]>,
    version: Version,
    parts: &RecordParts,
) -> Option<&'a [u8]>
    requires { IsTold version (record_of parts.now).edit }
    ensures behind { IsBehind (compact_text (record_data version (record_of parts.now)))
        bytes.entry result }
    ensures is { IsRecord version (record_of parts.now) }
{
    match version {
        Version::First => {
            let rest = behind(bytes, b"{\"files\":");
            behind_rest(rest, parts.state, parts.entry, 1)
        }
        Version::Second => {
            let rest = behind(bytes, b"{\"edit\":");
            let rest = behind_edit(rest, parts.edit);
            let rest = behind(rest, b",\"files\":");
            behind_rest(rest, parts.state, parts.entry, 2)
        }
    }
}

/// Whether a line, without its line feed, is the text of a record. The first version does not tell
/// the edit, so the record has none there.
pub(crate) fn is_text_of(version: Version, line: &[u8], noted: &Record) -> bool
    requires { IsTold version noted.now.edit }
    ensures same { IsTrue result ↔ (compact_text (record_data version noted.now) ≡ line.now) }
    ensures is { IsRecord version noted.now }
{
    match behind_record(Some(line), version, &noted.parts()) {
        Some(rest) => rest.is_empty(),
        None => false,
    }
}
