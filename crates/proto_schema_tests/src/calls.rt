//! Compiling, with what tests say of the answers.

use crate::allocations::{Row, expect_kept};
use proto_base::{NoMemory, Profile, SchemaFault};
use proto_desc::{Schema, to_json};
use std::alloc::Global;
use std::process::Abort;

/// Files for a workspace: paths and bytes.
pub(crate) type Given = Vec<(String, Vec<u8>)>;

/// Puts a file behind others.
pub(crate) fn add(
    alloc: Global,
    files: &mut Given,
    path: &str,
    bytes: &[u8],
) -> Result<(), NoMemory> {
    let path = String::from_str(alloc, path)?;
    files.push((path, Vec::from_slice(alloc, bytes)?))?;
    Ok(())
}

/// Files that are written as one text, `|` between them: the path of each, a space, and its text.
pub(crate) fn given_files(alloc: Global, texts: &str) -> Result<Given, NoMemory> {
    let mut files = Vec::new(alloc);
    for file in texts.split('|') {
        let (path, text) = file.split_once(' ').unwrap_or((file, ""));
        add(alloc, &mut files, path, text.as_bytes())?;
    }
    Ok(files)
}

/// The descriptors of files of a language as JSON. Where a row is given, it holds of them: here alone a schema is owned.
pub(crate) fn compiled_json<R: AllocGlobal + Abort>(
    rt: &R,
    profile: Profile,
    files: Given,
    row: Option<Row>,
) -> Result<String, SchemaFault> {
    let schema = Schema::open_as(rt.alloc(), files, profile)?;
    expect_kept(rt, &schema, row);
    let json = to_json(rt.alloc(), schema.descriptors());
    schema.release();
    match json {
        Ok(json) => Ok(json),
        Err(NoMemory) => Err(SchemaFault::NoMemory),
    }
}

/// The fault as `path:offset: number name`.
pub(crate) fn fault_text(alloc: Global, fault: SchemaFault) -> Result<String, NoMemory> {
    match fault {
        SchemaFault::Schema(fault) => {
            let (offset, number, name) = (fault.offset, fault.number(), fault.name());
            let path = fault.path.as_str();
            Ok(format!(in alloc; "{path}:{offset}: {number} {name}")?)
        }
        SchemaFault::NoMemory => Err(NoMemory),
    }
}

/// The descriptors of files of a language as JSON, or their fault.
pub(crate) fn answer_in<R: AllocGlobal + Abort>(
    rt: &R,
    profile: Profile,
    files: Given,
) -> Result<String, NoMemory> {
    match compiled_json(rt, profile, files, None) {
        Ok(json) => Ok(json),
        Err(fault) => fault_text(rt.alloc(), fault),
    }
}

/// The same of files of the core language.
pub(crate) fn answer<R: AllocGlobal + Abort>(rt: &R, files: Given) -> Result<String, NoMemory> {
    answer_in(rt, Profile::Core, files)
}

/// Ends the test unless this was found.
pub(crate) fn expect_text<R: Abort>(rt: &R, found: &str, wanted: &str) {
    assert!(rt; found == wanted, "{found}, not {wanted}");
}

/// This is answered to the files.
pub(crate) fn expect<R: AllocGlobal + Abort>(rt: &R, files: Given, wanted: &str) {
    let found = answer(rt, files).expect(rt, "memory");
    expect_text(rt, found.as_str(), wanted);
}

/// The files of each row are answered so.
pub(crate) fn expect_answers<R: AllocGlobal + Abort>(rt: &R, rows: &[(&str, &str)]) {
    for (texts, wanted) in rows {
        let files = given_files(rt.alloc(), texts).expect(rt, "memory");
        expect(rt, files, wanted);
    }
}

/// The answer to the files begins and ends so.
pub(crate) fn expect_ends<R: AllocGlobal + Abort>(rt: &R, files: Given, start: &str, end: &str) {
    let found = answer(rt, files).expect(rt, "memory");
    let found = found.as_str();
    assert!(rt; found.starts_with(start) && found.ends_with(end), "{found}");
}
