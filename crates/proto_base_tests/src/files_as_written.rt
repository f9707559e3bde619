//! Files in the core language and in the language as written: their faults, and copies of them.

use crate::expect::expect;
use crate::files::given_files;
use proto_base::{Profile, SchemaFault};
use proto_files::{Files, Paths};
use std::process::Abort;

/// What reading files answers: how many there are, or the number, path and offset of a fault.
enum Is {
    Read(usize),
    Fault(u32, &'static str, u32),
}

fn read<R: AllocGlobal + Abort>(
    rt: &R,
    profile: Profile,
    texts: &str,
) -> Result<Files, SchemaFault> {
    let paths = Paths::new_as(rt.alloc(), given_files(rt, texts), profile)?;
    Files::read(rt.alloc(), paths)
}

// Whether there are so many files, all of the language.
fn are_files(files: &Files, profile: Profile, count: usize) -> bool {
    for place in 0..files.len() as u32 {
        if files.profile(place) != profile {
            return false;
        }
    }
    files.len() == count
}

// Whether there are so many files of the language, and as many in a copy.
fn are_copied<R: AllocGlobal + Abort>(
    rt: &R,
    files: &Files,
    profile: Profile,
    count: usize,
) -> bool {
    let copy = files.copy(rt.alloc()).expect(rt, "memory");
    let is_so = are_files(files, profile, count) && are_files(&copy, profile, count);
    copy.release();
    is_so
}

fn is_fault(fault: &SchemaFault, number: u32, path: &str, offset: u32) -> bool {
    match fault {
        SchemaFault::Schema(fault) => {
            fault.number() == number && fault.path.as_str() == path && fault.offset == offset
        }
        SchemaFault::NoMemory => false,
    }
}

fn is_answered<R: AllocGlobal + Abort>(rt: &R, profile: Profile, texts: &str, is: &Is) -> bool {
    match read(rt, profile, texts) {
        Ok(files) => {
            let is_so = match is {
                Is::Read(count) => are_copied(rt, &files, profile, *count),
                Is::Fault(..) => false,
            };
            files.release();
            is_so
        }
        Err(fault) => match is {
            Is::Read(_) => false,
            Is::Fault(number, path, offset) => is_fault(&fault, *number, path, *offset),
        },
    }
}

/// Files as one text, each with what they are in the core language and what they are as written.
const FILES: &[(&str, Is, Is)] = &[
    (
        "a.proto:message M {}|b.proto:import 'a.proto'; option java_package = \"c\";",
        Is::Read(2),
        Is::Read(2),
    ),
    (
        "a.proto:option (x) = 1;",
        Is::Fault(8, "a.proto", 0),
        Is::Read(1),
    ),
    (
        "a.proto:message M {}|b.proto:option (x) = { a: 1 };",
        Is::Fault(3, "b.proto", 16),
        Is::Read(2),
    ),
    // A fault of a text comes before one of the grammar.
    (
        "a.proto:option (x) = {|b.proto:message M { # }",
        Is::Fault(3, "b.proto", 12),
        Is::Fault(3, "b.proto", 12),
    ),
    (
        "a.proto:option (x) = { [y]: 1 };|b.proto:message",
        Is::Fault(3, "a.proto", 18),
        Is::Fault(8, "a.proto", 0),
    ),
    (
        "b.proto:option (x) = 1;|a.txt:option (x) = {",
        Is::Fault(33, "a.txt", 0),
        Is::Fault(33, "a.txt", 0),
    ),
];

#[test]
fn files_of_both_languages(rt: HostRuntime) {
    for (texts, core, written) in FILES {
        expect(&rt, is_answered(&rt, Profile::Core, texts, core), texts);
        expect(
            &rt,
            is_answered(&rt, Profile::AsWritten, texts, written),
            texts,
        );
    }
}
