//! The calls of these tests, and what each says of the answer.

use proto_base::NoMemory;
use proto_edit_entries::{Change, Edit, Entry, one_splice};
use proto_journal_records::{
    JournalFault, Record, RecordParts, State, Version, entry_text, read_entry, read_records,
    with_record,
};
use std::process::Abort;

/// The line of the first version of a rename of `b_c` to `d_e` in a file of 48 bytes.
pub(crate) const LINE: &str =
    "{\"files\":[{\"after\":48,\"before\":48,\"path\":\"a.proto\",\"splices\":[{\"at\":38,\"new\":\"d_e\",\"old\":\"b_c\"}]}],\"state\":\"done\",\"version\":1}\n";

pub(crate) const OPEN_LINE: &str =
    "{\"files\":[{\"after\":48,\"before\":48,\"path\":\"a.proto\",\"splices\":[{\"at\":38,\"new\":\"d_e\",\"old\":\"b_c\"}]}],\"state\":\"open\",\"version\":1}\n";

/// The line of the second version of that rename, with its edit.
pub(crate) const SECOND_LINE: &str =
    "{\"edit\":{\"kind\":\"rename\",\"name\":\"A.b_c\",\"to\":\"d_e\"},\"files\":[{\"after\":48,\"before\":48,\"path\":\"a.proto\",\"splices\":[{\"at\":38,\"new\":\"d_e\",\"old\":\"b_c\"}]}],\"state\":\"done\",\"version\":2}\n";

pub(crate) const OPEN_SECOND_LINE: &str =
    "{\"edit\":{\"kind\":\"rename\",\"name\":\"A.b_c\",\"to\":\"d_e\"},\"files\":[{\"after\":48,\"before\":48,\"path\":\"a.proto\",\"splices\":[{\"at\":38,\"new\":\"d_e\",\"old\":\"b_c\"}]}],\"state\":\"open\",\"version\":2}\n";

/// The line of the second version where no edit is known.
pub(crate) const NULL_LINE: &str =
    "{\"edit\":null,\"files\":[{\"after\":48,\"before\":48,\"path\":\"a.proto\",\"splices\":[{\"at\":38,\"new\":\"d_e\",\"old\":\"b_c\"}]}],\"state\":\"done\",\"version\":2}\n";

/// The entry of one splice in place of `b_c` at byte 38 of a file of 48 bytes.
pub(crate) fn entry_of<R: AllocGlobal + Abort>(
    rt: &R,
    new: &str,
    after: u32,
) -> Result<Entry, NoMemory> {
    assert!(rt; new.len() <= 100);
    let path = String::from_str(rt.alloc(), "a.proto")?;
    let splices = one_splice(rt.alloc(), 38, "b_c", new)?;
    let mut changes = Vec::new(rt.alloc());
    changes.push(Change {
        path,
        before: 48,
        after,
        splices,
    })?;
    Ok(Entry::new(changes).expect(rt, "an entry"))
}

/// The rename of `A.b_c` to `d_e`.
pub(crate) fn edit_of<R: AllocGlobal + Abort>(rt: &R) -> Result<Edit, NoMemory> {
    Ok(Edit::Rename {
        name: String::from_str(rt.alloc(), "A.b_c")?,
        to: String::from_str(rt.alloc(), "d_e")?,
    })
}

/// Sees that a journal of the first version with one record more is this text.
pub(crate) fn expect_longer<R: AllocGlobal + Abort>(
    rt: &R,
    journal: &str,
    state: State,
    wanted: &str,
) -> Result<(), NoMemory> {
    let entry = entry_of(rt, "d_e", 48)?;
    let bytes = journal.as_bytes();
    let parts = RecordParts {
        state,
        entry: &entry,
        edit: None,
    };
    let longer = with_record(rt.alloc(), Version::First, bytes, &parts)?;
    assert!(rt; longer.as_slice() == wanted.as_bytes());
    Ok(())
}

/// Sees that a journal of the second version with one record more is this text.
pub(crate) fn expect_longer_second<R: AllocGlobal + Abort>(
    rt: &R,
    journal: &str,
    state: State,
    wanted: &str,
) -> Result<(), NoMemory> {
    let longer = longer_second(rt, journal, state)?;
    assert!(rt; longer.as_slice() == wanted.as_bytes());
    Ok(())
}

// The journal with the record of the rename and its edit.
fn longer_second<R: AllocGlobal + Abort>(
    rt: &R,
    journal: &str,
    state: State,
) -> Result<Vec<u8>, NoMemory> {
    let entry = entry_of(rt, "d_e", 48)?;
    let edit = edit_of(rt)?;
    with_one_more(rt, journal, state, &entry, &edit)
}

// The journal with a record of these parts.
fn with_one_more<'a, R: AllocGlobal + Abort>(
    rt: &R,
    journal: &str,
    state: State,
    entry: &'a Entry,
    edit: &'a Edit,
) -> Result<Vec<u8>, NoMemory> {
    assert!(rt; edit.is_notable());
    let parts = RecordParts {
        state,
        entry,
        edit: Some(edit),
    };
    with_record(rt.alloc(), Version::Second, journal.as_bytes(), &parts)
}

/// Ends the test with the row unless the answer is yes.
pub(crate) fn expect<R: Abort>(rt: &R, is_row: bool, row: &str) {
    assert!(rt; is_row, "{row}");
}

/// Sees that a fault has this number and name.
pub(crate) fn expect_fault<R: Abort>(rt: &R, fault: JournalFault, number: u32, name: &str) {
    assert!(rt; fault.number() == number && fault.name() == name);
}

/// Whether a line is the text of a record in the second version. It then is read as one, and else
/// BadJournal is answered.
pub(crate) fn is_record<R: AllocGlobal + Abort>(rt: &R, line: &str) -> bool {
    match read_entry(rt.alloc(), line.as_bytes()) {
        Ok(noted) => {
            let text = entry_text(rt.alloc(), &noted).expect(rt, "memory");
            assert!(rt; text.as_str() == line);
            true
        }
        Err(fault) => {
            expect_fault(rt, fault, 1, "BadJournal");
            false
        }
    }
}

/// Whether a line is the text of a record in the first version.
pub(crate) fn is_first_record<R: AllocGlobal + Abort>(rt: &R, line: &str) -> bool {
    match read_records(rt.alloc(), line.as_bytes()) {
        Ok(records) => {
            expect_first_texts(rt, records.as_slice(), line.as_bytes()).expect(rt, "memory");
            records.len() == 1
        }
        Err(fault) => {
            expect_fault(rt, fault, 1, "BadJournal");
            false
        }
    }
}

/// Sees that the records have this for their texts in the first version, one behind the other.
pub(crate) fn expect_first_texts<R: AllocGlobal + Abort>(
    rt: &R,
    records: &[Record],
    bytes: &[u8],
) -> Result<(), NoMemory> {
    let mut texts = Vec::new(rt.alloc());
    for noted in records {
        assert!(rt; noted.edit().is_none());
        let parts = RecordParts {
            state: noted.state(),
            entry: noted.entry(),
            edit: None,
        };
        let line = with_record(rt.alloc(), Version::First, &[], &parts)?;
        texts.extend_from_slice(line.as_slice())?;
    }
    assert!(rt; texts.as_slice() == bytes);
    Ok(())
}

/// Sees that the records have this for their texts in the second version, one behind the other.
pub(crate) fn expect_texts<R: AllocGlobal + Abort>(
    rt: &R,
    records: &[Record],
    bytes: &[u8],
) -> Result<(), NoMemory> {
    let mut texts = String::new(rt.alloc());
    for noted in records {
        texts.push_str(entry_text(rt.alloc(), noted)?.as_str())?;
    }
    assert!(rt; texts.as_bytes() == bytes);
    Ok(())
}

/// Whether the bytes are a journal of the first version. Its records
/// then are read, and else BadJournal is answered.
pub(crate) fn is_first_journal<R: AllocGlobal + Abort>(rt: &R, bytes: &[u8]) -> bool {
    match read_records(rt.alloc(), bytes) {
        Ok(records) => {
            expect_first_texts(rt, records.as_slice(), bytes).expect(rt, "memory");
            true
        }
        Err(fault) => {
            expect_fault(rt, fault, 1, "BadJournal");
            false
        }
    }
}

/// Whether the bytes are a journal of the second version. Its records
/// then are read, and else BadJournal is answered.
pub(crate) fn is_second_journal<R: AllocGlobal + Abort>(rt: &R, bytes: &[u8]) -> bool {
    match read_records(rt.alloc(), bytes) {
        Ok(records) => {
            expect_texts(rt, records.as_slice(), bytes).expect(rt, "memory");
            true
        }
        Err(fault) => {
            expect_fault(rt, fault, 1, "BadJournal");
            false
        }
    }
}

/// One text behind another.
pub(crate) fn joined_text<R: AllocGlobal + Abort>(rt: &R, first: &str, second: &str) -> String {
    let mut text = String::from_str(rt.alloc(), first).expect(rt, "memory");
    text.push_str(second).expect(rt, "memory");
    text
}
