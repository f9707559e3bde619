//! Journals: records, a line each.

ghost use Rattle.std.specs.Prelude.{◌≡◌, ◌⊎◌, ℕ, List, [], ◌∷◌, ◌++◌, IfOk, IfErr, OnOk, Err, slice_index_or};
ghost use Rattle.proto_journal_records.specs.RecordText.{record_text};
ghost use Rattle.proto_journal_records.specs.Journals.{IsRecord, IsTold, is_last_open, journal_text, IsJournal, IsJournalIn, IsFirstLine};
ghost use Rattle.proto_journal_records.specs.declared.record.Version.{Version as VersionOf};
ghost use Rattle.proto_journal_records.specs.declared.record.Version.TheVariants.{Second as second};
ghost use Rattle.proto_journal_records.specs.Records.{RecordOf, record_of};
ghost use Rattle.proto_journal_records.specs.declared.fault.JournalFault.TheVariants as JournalFault;

use crate::fault::JournalFault;
use crate::reading::read_line;
use crate::record::{Record, RecordParts, State, Version};
use crate::writing::{entry_text, line_of};
use json::Scratch;
use memchr::memchr;
use proto_base::{MAX_JOURNAL_LEN, NoMemory};
use std::alloc::Global;

/// Whether the last record is open.
pub fn last_is_open(records: &[Record]) -> bool
    ensures { result ≡ is_last_open records.now }
{
    match records {
        [.., last] => match last.state() {
            State::Open => true,
            State::Done => false,
        },
        [] => false,
    }
}

// The first line with its line feed, and what stands behind
// it. All is in the first line where no line feed is.
fn first_line(bytes: &[u8]) -> (&[u8], &[u8])
    ensures { IsFirstLine bytes.now result.0.now result.1.now }
{
    match memchr(b'\n', bytes) {
        Some(place) => bytes.split_at(place + 1),
        None => (bytes, &[]),
    }
}

// The byte at a place, or 0 behind the end.
fn byte_at(bytes: &[u8], place: usize) -> u8
    ensures { result ≡ slice_index_or bytes.now place 0 }
{
    match bytes.get(place) {
        Some(byte) => *byte,
        None => 0,
    }
}

// The version of a journal that begins with a record: the first key is `files` or `edit`.
fn version_of(bytes: &[u8]) -> Version
    ensures told { (v : VersionOf) (r : RecordOf) (more : List ℕ)
        → bytes.now ≡ record_text v r ++ more → result ≡ v }
    ensures empty { bytes.now ≡ [] → result ≡ second }
{
    if byte_at(bytes, 2) == b'f' {
        Version::First
    } else {
        Version::Second
    }
}

// The records of a journal of this version.
fn read_all(alloc: Global, version: Version, bytes: &[u8]) -> Result<Vec<Record>, JournalFault>
    ensures ok { IfOk result (λ records. IsJournalIn version bytes.now records.items) }
    ensures err { IfErr result (λ e. (e ≡ JournalFault.BadJournal) ⊎ (e ≡ JournalFault.NoMemory)) }
    ensures bad { result ≡ Err JournalFault.BadJournal
        → (records : List RecordOf) → IsJournalIn version bytes.now records → ⊥ }
{
    if bytes.len() > MAX_JOURNAL_LEN {
        return Err(JournalFault::BadJournal);
    }
    let mut scratch = Scratch::new(alloc);
    let mut records = Vec::new(alloc);
    let mut left = bytes;
    while !left.is_empty() {
        if last_is_open(&records) {
            return Err(JournalFault::BadJournal);
        }
        let (line, rest) = first_line(left);
        let noted = read_line(alloc, version, line, &mut scratch)?;
        records.push(noted)?;
        left = rest;
    }
    Ok(records)
}

/// The records of a journal, as `read_records` answers them, with their version. That of an empty
/// journal is the second.
pub fn read_journal(alloc: Global, bytes: &[u8]) -> Result<(Version, Vec<Record>), JournalFault>
    ensures ok { IfOk result (λ x. IsJournalIn x.0 bytes.now x.1.items) }
    ensures empty { IfOk result (λ x. bytes.now ≡ [] → x.0 ≡ second) }
    ensures err { IfErr result (λ e. (e ≡ JournalFault.BadJournal) ⊎ (e ≡ JournalFault.NoMemory)) }
    ensures bad { result ≡ Err JournalFault.BadJournal
        → (records : List RecordOf) → IsJournal bytes.now records → ⊥ }
{
    let version = version_of(bytes);
    let records = read_all(alloc, version, bytes)?;
    Ok((version, records))
}

/// The records of a journal, exactly where the bytes are one: at most 16,777,216 bytes that are
/// texts of records, all of the first version or all of the second, each record done that another
/// one follows. Otherwise BadJournal; beside that it fails only when out of memory.
pub fn read_records(alloc: Global, bytes: &[u8]) -> Result<Vec<Record>, JournalFault>
    ensures ok { IfOk result (λ records. IsJournal bytes.now records.items) }
    ensures err { IfErr result (λ e. (e ≡ JournalFault.BadJournal) ⊎ (e ≡ JournalFault.NoMemory)) }
    ensures bad { result ≡ Err JournalFault.BadJournal
        → (records : List RecordOf) → IsJournal bytes.now records → ⊥ }
{
    let (_, records) = read_journal(alloc, bytes)?;
    Ok(records)
}

/// The text of these records in the second version.
pub fn second_text(alloc: Global, records: &[Record]) -> Result<Vec<u8>, NoMemory>
    ensures { IfOk result (λ bytes. bytes.items ≡ journal_text second records.now) }
{
    let mut bytes = Vec::new(alloc);
    for noted in records {
        let line = entry_text(alloc, noted)?;
        bytes.extend_from_slice(line.as_bytes())?;
    }
    Ok(bytes)
}

/// The bytes of a journal of this version with the text of one more record behind them. The first
/// version does not tell the edit, so none is given there.
pub fn with_record(
    alloc: Global,
    version: Version,
    journal: &[u8],
    parts: &RecordParts,
) -> Result<Vec<u8>, NoMemory>
    requires { IsTold version (record_of parts.now).edit }
    ensures text { IfOk result
        (λ bytes. bytes.items ≡ journal.now ++ record_text version (record_of parts.now)) }
    ensures is { OnOk result (IsRecord version (record_of parts.now)) }
{
    let line = line_of(alloc, version, parts)?;
    let mut bytes = Vec::with_capacity(alloc, journal.len() + line.len())?;
    bytes.extend_from_slice(journal)?;
    bytes.extend_from_slice(line.as_bytes())?;
    Ok(bytes)
}

/// The bytes of a journal before the text of its last record.
pub fn without_last(journal: &[u8]) -> &[u8]
    ensures { (v : VersionOf) (records : List RecordOf) (last : RecordOf) → IsRecord v last
        → journal.now ≡ journal_text v (records ++ last ∷ [])
        → result.now ≡ journal_text v records }
{
    let Some((_, mut left)) = journal.split_last() else {
        return journal;
    };
    while let Some((byte, front)) = left.split_last() {
        if *byte == b'\n' {
            return left;
        }
        left = front;
    }
    left
}
