//! The public calls, with what tests say of their answers.

use crate::calls::{self, Given};
use proto_base::{Profile, SchemaFault};
use proto_files::{Files, Paths};
use proto_names::{Kind, Link, RefId, SymbolId};
use std::fmt::Write;
use std::process::Abort;

/// Files that are written as one text, as those that are compiled.
pub(crate) fn given_files<R: AllocGlobal + Abort>(rt: &R, texts: &str) -> Given {
    calls::given_files(rt.alloc(), texts).expect(rt, "memory")
}

// The files of a workspace of a language, read.
fn read_as<R: AllocGlobal>(rt: &R, profile: Profile, given: Given) -> Result<Files, SchemaFault> {
    let paths = Paths::new_as(rt.alloc(), given, profile)?;
    Files::read(rt.alloc(), paths)
}

/// The same of the core language.
pub(crate) fn read<R: AllocGlobal>(rt: &R, given: Given) -> Result<Files, SchemaFault> {
    read_as(rt, Profile::Core, given)
}

// The one owner of a link, which tells each row, as do its copy and the link of the same files in
// its place.
fn link_of<R: AllocGlobal + Abort>(
    rt: &R,
    files: &Files,
    rows: &[Told],
) -> Result<(), SchemaFault> {
    let mut link = Link::new(rt.alloc(), files)?;
    expect_rows(rt, &link, files, rows);
    expect_copy(rt, &link, files, rows)?;
    link.replace(rt.alloc(), files, &[])?;
    expect_rows(rt, &link, files, rows);
    link.release();
    Ok(())
}

// A copy tells each row.
fn expect_copy<R: AllocGlobal + Abort>(
    rt: &R,
    link: &Link,
    files: &Files,
    rows: &[Told],
) -> Result<(), SchemaFault> {
    let copy = link.copy(rt.alloc())?;
    expect_rows(rt, &copy, files, rows);
    copy.release();
    Ok(())
}

// The one owner of files.
fn link_as<R: AllocGlobal + Abort>(
    rt: &R,
    profile: Profile,
    given: Given,
    rows: &[Told],
) -> Result<(), SchemaFault> {
    let files = read_as(rt, profile, given)?;
    let linked = link_of(rt, &files, rows);
    files.release();
    linked
}

/// Links the files, and asks for each row.
pub(crate) fn expect_linked<R: AllocGlobal + Abort>(rt: &R, given: Given, rows: &[Told]) {
    link_as(rt, Profile::Core, given, rows).expect(rt, "a link");
}

/// The same of files that are written as one text.
pub(crate) fn expect_told<R: AllocGlobal + Abort>(rt: &R, texts: &str, rows: &[Told]) {
    expect_linked(rt, given_files(rt, texts), rows);
}

/// The same as written.
pub(crate) fn expect_told_as_written<R: AllocGlobal + Abort>(rt: &R, texts: &str, rows: &[Told]) {
    link_as(rt, Profile::AsWritten, given_files(rt, texts), rows).expect(rt, "a link");
}

/// Ends the test with the row unless this was found.
pub(crate) fn expect_text<R: Abort>(rt: &R, row: &str, found: &str, said: &str) {
    assert!(rt; found == said, "{row}: {found}, not {said}");
}

/// A link is there, or this fault, as `path:offset: number name`.
pub(crate) fn expect_fault<R: AllocGlobal + Abort>(
    rt: &R,
    linked: Result<(), SchemaFault>,
    said: &str,
) {
    match linked {
        Ok(()) => expect_text(rt, "files", "links", said),
        Err(SchemaFault::Schema(fault)) => {
            let (offset, number, name) = (fault.offset, fault.number(), fault.name());
            let path = fault.path.as_str();
            let found = format!(in rt.alloc(); "{path}:{offset}: {number} {name}").expect(
                rt, "memory",
            );
            expect_text(rt, "files", found.as_str(), said);
        }
        Err(SchemaFault::NoMemory) => expect_text(rt, "files", "no memory", said),
    }
}

/// The files link, or have this fault.
pub(crate) fn expect<R: AllocGlobal + Abort>(rt: &R, given: Given, said: &str) {
    expect_fault(rt, link_as(rt, Profile::Core, given, &[]), said);
}

/// Files that are written as one text, and what is answered for them.
pub(crate) type Answer = (&'static str, &'static str);

pub(crate) fn expect_answers<R: AllocGlobal + Abort>(rt: &R, rows: &[Answer]) {
    for (texts, said) in rows {
        expect(rt, given_files(rt, texts), said);
    }
}

/// The same as written.
pub(crate) fn expect_answers_as_written<R: AllocGlobal + Abort>(rt: &R, rows: &[Answer]) {
    for (texts, said) in rows {
        let linked = link_as(rt, Profile::AsWritten, given_files(rt, texts), &[]);
        expect_fault(rt, linked, said);
    }
}

fn kind_name(kind: Kind) -> &'static str {
    match kind {
        Kind::Package => "package",
        Kind::Message => "message",
        Kind::Entry => "entry",
        Kind::Enum => "enum",
        Kind::Service => "service",
        Kind::Field => "field",
        Kind::EntryField => "entry field",
        Kind::Oneof => "oneof",
        Kind::Value => "value",
        Kind::Method => "method",
        Kind::Extension => "extension",
    }
}

fn put<R: Abort>(rt: &R, out: &mut String, text: &str) {
    out.push_str(text).expect(rt, "memory");
}

// A place as `path:offset`.
fn tell_token<R: Abort>(rt: &R, out: &mut String, files: &Files, file: u32, token: u32) {
    if file as usize >= files.len() {
        put(rt, out, "no file");
        return;
    }
    let path = files.path(file);
    match files.tokens(file).get(token as usize) {
        Some(token) => write!(out, "{path}:{}", token.span.start).expect(rt, "memory"),
        None => put(rt, out, "no token"),
    }
}

// What a link says of a name: `name kind path:offset`.
fn tell_id<R: Abort>(rt: &R, out: &mut String, link: &Link, files: &Files, id: SymbolId) {
    let name = link.name_of(id).unwrap_or("no name");
    let kind = match link.kind_of(id) {
        Some(kind) => kind_name(kind),
        None => "no kind",
    };
    write!(out, "{name} {kind} ").expect(rt, "memory");
    match (link.file_of(id), link.token_of(id)) {
        (Some(file), Some(token)) => tell_token(rt, out, files, file, token),
        (None, None) => put(rt, out, "nowhere"),
        _ => put(rt, out, "half a place"),
    }
}

// References: `path:offset` each, joined by commas.
fn tell_references<R: Abort>(rt: &R, out: &mut String, files: &Files, references: &[RefId]) {
    for reference in references {
        if !out.is_empty() {
            put(rt, out, ",");
        }
        tell_token(rt, out, files, reference.file, reference.token);
    }
}

// What the references of a file mean: `path:offset name` each, joined by commas.
fn tell_meant<R: Abort>(rt: &R, out: &mut String, link: &Link, files: &Files, file: u32) {
    for meant in link.meant_in(file) {
        if !out.is_empty() {
            put(rt, out, ",");
        }
        tell_token(rt, out, files, file, meant.token());
        put(rt, out, " ");
        put(rt, out, link.name_of(meant.symbol()).unwrap_or("no name"));
    }
}

// The names that a file declares, joined by commas.
fn tell_declared<R: Abort>(rt: &R, out: &mut String, link: &Link, file: u32) {
    let names = link.declared_in(file);
    for place in 0..names.len() {
        if !out.is_empty() {
            put(rt, out, ",");
        }
        let name = names.get(place).and_then(|id| link.name_of(id));
        put(rt, out, name.unwrap_or("no name"));
    }
}

/// What a link is asked.
#[derive(Drop)]
pub(crate) enum Ask {
    /// What the name is.
    Name,
    /// Where the name is referred to.
    References,
    /// Whether a file sees the name.
    Seen(u32),
    /// The name that is meant at a token of a file.
    Meant(u32, u32),
    /// Each reference of a file, and the name that it means.
    MeantIn(u32),
    /// The names that a file declares.
    DeclaredIn(u32),
    /// What the name is that another link calls so.
    Other(SymbolId),
    /// Where that is referred to.
    OtherReferences(SymbolId),
}

/// What is asked, of which name, and the answer.
pub(crate) type Told = (Ask, &'static str, &'static str);

// What the link says of a name of its own.
fn tell_name<R: Abort>(rt: &R, out: &mut String, link: &Link, files: &Files, row: &Told) {
    let (ask, name, _) = row;
    match (link.symbol(name), ask) {
        (Some(id), Ask::Name) => tell_id(rt, out, link, files, id),
        (Some(id), _) => tell_references(rt, out, files, link.references(id)),
        (None, _) => put(rt, out, "unknown"),
    }
}

fn tell<R: Abort>(rt: &R, out: &mut String, link: &Link, files: &Files, row: &Told) {
    let (ask, name, _) = row;
    match ask {
        Ask::Name | Ask::References => tell_name(rt, out, link, files, row),
        Ask::Other(id) => tell_id(rt, out, link, files, *id),
        Ask::OtherReferences(id) => tell_references(rt, out, files, link.references(*id)),
        Ask::MeantIn(file) => tell_meant(rt, out, link, files, *file),
        Ask::DeclaredIn(file) => tell_declared(rt, out, link, *file),
        Ask::Seen(file) if link.visible(*file, name) => put(rt, out, "seen"),
        Ask::Seen(_) => put(rt, out, "not seen"),
        Ask::Meant(file, token) => {
            let meant = link.meaning(*file, *token);
            let name = meant.and_then(|id| link.name_of(id));
            put(rt, out, name.unwrap_or("nothing"));
        }
    }
}

/// The link of the files tells each row.
pub(crate) fn expect_rows<R: AllocGlobal + Abort>(
    rt: &R,
    link: &Link,
    files: &Files,
    rows: &[Told],
) {
    for row in rows {
        let mut found = String::new(rt.alloc());
        tell(rt, &mut found, link, files, row);
        expect_text(rt, row.1, found.as_str(), row.2);
    }
}
