//! Journals: which bytes are one, and one record more or less.

use super::calls::*;
use proto_journal_records::{State, last_is_open, read_records, without_last};
use std::process::Abort;

#[test]
fn no_front_of_a_line_is_a_journal(rt: HostRuntime) {
    let bytes = LINE.as_bytes();
    assert!(rt; bytes.len() == 127);
    for len in 1..127usize {
        assert!(rt; !is_first_journal(&rt, bytes.split_at(len).0));
    }
    assert!(rt; is_first_journal(&rt, &[]) && is_first_journal(&rt, bytes));
}

#[test]
fn no_front_of_a_line_of_the_second_version_is_a_journal(rt: HostRuntime) {
    let bytes = SECOND_LINE.as_bytes();
    assert!(rt; bytes.len() == 178 && NULL_LINE.len() == 139);
    for len in 1..178usize {
        assert!(rt; !is_second_journal(&rt, bytes.split_at(len).0));
    }
    assert!(rt; is_second_journal(&rt, bytes) && is_second_journal(&rt, NULL_LINE.as_bytes()));
}

// Whether the line with this byte at this place is a record's text, by the rules of docs/journal.md: the path may begin with
// another character of a path, the splice may stand at another place that leaves room for the old text, and the new and the
// old text may have another character that is written as it is.
fn is_spelled(place: usize, byte: u8) -> bool {
    match place {
        42 => matches!(byte, b'a'..=b'z' | b'A'..=b'Z' | b'0'..=b'9' | b'_' | b'-' | b'.'),
        68 => matches!(byte, b'1'..=b'3'),
        69 => matches!(byte, b'0'..=b'9'),
        78..=80 | 90..=92 => matches!(byte, b' '..=0x7f) && byte != b'"' && byte != b'\\',
        _ => LINE.as_bytes().get(place) == Some(&byte),
    }
}

// Whether the line with this byte at this place is read exactly where it is a record's text.
fn is_exact<R: AllocGlobal + Abort>(rt: &R, place: usize, byte: u8) -> bool {
    let mut bytes = Vec::from_slice(rt.alloc(), LINE.as_bytes()).expect(rt, "memory");
    if let Some(there) = bytes.get_mut(place) {
        *there = byte;
    }
    is_first_journal(rt, bytes.as_slice()) == is_spelled(place, byte)
}

#[test]
fn every_change_of_one_byte(rt: HostRuntime) {
    let mut spelled: usize = 0;
    for place in 0..127usize {
        for byte in 0..=255u8 {
            assert!(rt; is_exact(&rt, place, byte), "{byte} at {place}");
            if is_spelled(place, byte) {
                spelled = spelled.saturating_add(1);
            }
        }
    }
    // The line itself at each place, and 633 others.
    assert!(rt; spelled == 127 + 633);
}

// Whether the line of the second version with this byte at this place is a record's text: the words of the name
// and the new name may have other letters, and what stands behind is that of the first version, 51 bytes on.
fn is_spelled_second(place: usize, byte: u8) -> bool {
    match place {
        33 | 35 | 46 => matches!(byte, b'a'..=b'z' | b'A'..=b'Z' | b'_'),
        34 | 36 => matches!(byte, b'a'..=b'z' | b'A'..=b'Z' | b'0'..=b'9' | b'_' | b'.'),
        37 | 47 | 48 => matches!(byte, b'a'..=b'z' | b'A'..=b'Z' | b'0'..=b'9' | b'_'),
        93 | 119 | 120 | 129..=131 | 141..=143 => is_spelled(place - 51, byte),
        _ => SECOND_LINE.as_bytes().get(place) == Some(&byte),
    }
}

// Whether the line of the second version with this byte at this place is read exactly where it is a record's text.
fn is_exact_second<R: AllocGlobal + Abort>(rt: &R, place: usize, byte: u8) -> bool {
    let mut bytes = Vec::from_slice(rt.alloc(), SECOND_LINE.as_bytes()).expect(rt, "memory");
    if let Some(there) = bytes.get_mut(place) {
        *there = byte;
    }
    is_second_journal(rt, bytes.as_slice()) == is_spelled_second(place, byte)
}

#[test]
fn every_change_of_one_byte_of_the_second_version(rt: HostRuntime) {
    let mut spelled: usize = 0;
    for place in 0..178usize {
        for byte in 0..=255u8 {
            assert!(rt; is_exact_second(&rt, place, byte), "{byte} at {place}");
            if is_spelled_second(place, byte) {
                spelled = spelled.saturating_add(1);
            }
        }
    }
    // The line itself at each place, and 1,101 others.
    assert!(rt; spelled == 178 + 1_101);
}

// Two texts one behind the other of the second version, and whether they are a journal.
const SECOND_PAIRS: &[(&str, &str, bool)] = &[
    (SECOND_LINE, SECOND_LINE, true),
    (SECOND_LINE, NULL_LINE, true),
    (NULL_LINE, OPEN_SECOND_LINE, true),
    (OPEN_SECOND_LINE, "", true),
    (OPEN_SECOND_LINE, SECOND_LINE, false),
    (OPEN_SECOND_LINE, OPEN_SECOND_LINE, false),
    (SECOND_LINE, "\n", false),
    ("\n", SECOND_LINE, false),
    (SECOND_LINE, "x", false),
    (SECOND_LINE, " ", false),
    (SECOND_LINE, LINE, false),
    (NULL_LINE, LINE, false),
    (NULL_LINE, OPEN_LINE, false),
];

// Two texts one behind the other, and whether they are a journal.
const PAIRS: &[(&str, &str, bool)] = &[
    (LINE, LINE, true),
    (LINE, OPEN_LINE, true),
    (OPEN_LINE, "", true),
    (OPEN_LINE, LINE, false),
    (OPEN_LINE, OPEN_LINE, false),
    (LINE, "\n", false),
    ("\n", LINE, false),
    (LINE, "x", false),
    (LINE, " ", false),
    (LINE, SECOND_LINE, false),
    (LINE, NULL_LINE, false),
    (LINE, OPEN_SECOND_LINE, false),
];

#[test]
fn several_lines(rt: HostRuntime) {
    for (first, second, is_read) in PAIRS {
        let journal = joined_text(&rt, first, second);
        let is_so = is_first_journal(&rt, journal.as_bytes()) == *is_read;
        expect(&rt, is_so, journal.as_str());
    }
}

#[test]
fn several_lines_of_the_second_version(rt: HostRuntime) {
    for (first, second, is_read) in SECOND_PAIRS {
        let journal = joined_text(&rt, first, second);
        let is_so = is_second_journal(&rt, journal.as_bytes()) == *is_read;
        expect(&rt, is_so, journal.as_str());
    }
}

// The last line of a journal, which is open or is not, and what stands before it.
fn expect_last<R: AllocGlobal + Abort>(rt: &R, front: &str, last: &str, open: bool) {
    let journal = joined_text(rt, front, last);
    let records = read_records(rt.alloc(), journal.as_bytes()).expect(rt, "a journal");
    assert!(rt; last_is_open(records.as_slice()) == open);
    assert!(rt; without_last(journal.as_bytes()) == front.as_bytes());
}

#[test]
fn the_last_record(rt: HostRuntime) {
    expect_last(&rt, "", "", false);
    expect_last(&rt, "", LINE, false);
    expect_last(&rt, "", OPEN_LINE, true);
    expect_last(&rt, LINE, LINE, false);
    expect_last(&rt, LINE, OPEN_LINE, true);
    expect_last(&rt, "", SECOND_LINE, false);
    expect_last(&rt, NULL_LINE, OPEN_SECOND_LINE, true);
}

#[test]
fn one_record_more(rt: HostRuntime) {
    let both = joined_text(&rt, LINE, OPEN_LINE);
    expect_longer(&rt, LINE, State::Open, both.as_str()).expect(&rt, "memory");
    expect_longer(&rt, "", State::Done, LINE).expect(&rt, "memory");
    let second = joined_text(&rt, NULL_LINE, OPEN_SECOND_LINE);
    expect_longer_second(&rt, NULL_LINE, State::Open, second.as_str()).expect(&rt, "memory");
    expect_longer_second(&rt, "", State::Done, SECOND_LINE).expect(&rt, "memory");
}

// So many copies of a line.
fn copies<R: AllocGlobal + Abort>(rt: &R, line: &str, count: usize) -> Vec<u8> {
    let mut bytes = Vec::new(rt.alloc());
    for _ in 0..count {
        bytes
            .extend_from_slice(line.as_bytes())
            .expect(rt, "memory");
    }
    bytes
}

// So many copies of a line are a journal of so many bytes, and one more are none.
fn expect_largest<R: AllocGlobal + Abort>(rt: &R, line: &str, count: usize, length: usize) {
    let bytes = copies(rt, line, count);
    assert!(rt; bytes.len() == length);
    let records = read_records(rt.alloc(), bytes.as_slice()).expect(rt, "a journal");
    assert!(rt; records.len() == count);
    let mut longer = bytes;
    longer
        .extend_from_slice(line.as_bytes())
        .expect(rt, "memory");
    match read_records(rt.alloc(), longer.as_slice()) {
        Ok(_) => panic!(rt; "{line}"),
        Err(fault) => expect_fault(rt, fault, 1, "BadJournal"),
    }
}

#[test]
fn the_largest_journal(rt: HostRuntime) {
    expect_largest(&rt, LINE, 132_104, 16_777_208);
}

#[test]
fn the_largest_journals_of_the_second_version(rt: HostRuntime) {
    expect_largest(&rt, SECOND_LINE, 94_254, 16_777_212);
    expect_largest(&rt, NULL_LINE, 120_699, 16_777_161);
}
