//! All faults of imports, of names and of references, where a link answers the least one. In a run that refuses one allocation a
//! row still passes, whichever it is.

use super::calls::read;
use crate::calls::{expect_text, fault_text, given_files};
use proto_base::{Fault, NoMemory, SchemaFault};
use proto_files::Files;
use proto_names_faults::{import_faults, name_faults, reference_faults};
use std::alloc::Global;
use std::process::Abort;

/// Files, and all faults of the first of these phases that has any, each as `path:offset: number name;`.
type Row = (&'static str, &'static str);

const ROWS: &[Row] = &[
    ("a.proto ", ""),
    ("a.proto message M { optional M m = 1; }", ""),
    // Imports: one that no file has, twice; two that lead back, and one of these twice.
    (
        r#"a.proto import "x"; import "b.proto"; import "x";|b.proto import "a.proto"; import public "a.proto";"#,
        "a.proto:7: 10 UnknownImport;a.proto:19: 12 ImportCycle;a.proto:37: 10 UnknownImport;a.proto:37: 11 DoubleImport;b.proto:7: 12 ImportCycle;b.proto:32: 11 DoubleImport;b.proto:32: 12 ImportCycle;",
    ),
    // A file that leads to a cycle is on none, and a file that imports itself is.
    (
        r#"a.proto import "b.proto";|b.proto import "b.proto"; import "c.proto";|c.proto import "b.proto";"#,
        "b.proto:7: 12 ImportCycle;b.proto:25: 12 ImportCycle;c.proto:7: 12 ImportCycle;",
    ),
    // Neither names nor references are looked at.
    (
        r#"a.proto import "x.proto"; message M { optional N n = 1; } message M {}|b.proto message M {}"#,
        "a.proto:7: 10 UnknownImport;",
    ),
    // Names: each but the first; a value stands beside its enum.
    (
        "a.proto message A {} message A {} enum A { A = 0; }",
        "a.proto:21: 13 DuplicateName;a.proto:31: 13 DuplicateName;a.proto:35: 13 DuplicateName;",
    ),
    // A map field with its entry, its key and its value counts once. References are not looked at.
    (
        "a.proto message M { message FooEntry { optional M key = 1; } map<int32,M> foo = 1; optional N foo = 2; }",
        "a.proto:66: 13 DuplicateName;a.proto:86: 13 DuplicateName;",
    ),
    // A package of a later file comes before what has the name of its prefix.
    (
        "a.proto message p {} enum q { r = 0; }|b.proto package p.s; enum q { r = 0; s = 1; }",
        "a.proto:8: 13 DuplicateName;",
    ),
    (
        "a.proto enum q { r = 0; }|b.proto enum p { r = 0; q = 1; }",
        "b.proto:9: 13 DuplicateName;b.proto:16: 13 DuplicateName;",
    ),
    // References: nothing, an entry, and enums where a message is wanted, one of them absolute.
    (
        "a.proto enum E { V = 0; } message M { map<string,X> foo = 0; optional FooEntry y = 0; } service S { rpc R (E) returns (.E); } extend E {}",
        "a.proto:41: 14 Unresolved;a.proto:62: 16 MapEntryRef;a.proto:99: 15 WrongKind;a.proto:111: 15 WrongKind;a.proto:125: 15 WrongKind;",
    ),
    // A file that is not imported is not seen.
    (
        "a.proto message A { optional X x = 1; }|b.proto message B { optional Y y = 1; optional A a = 2; }",
        "a.proto:21: 14 Unresolved;b.proto:21: 14 Unresolved;b.proto:39: 14 Unresolved;",
    ),
];

// All faults of the first of these phases that has any.
fn faults_of(alloc: Global, files: &Files) -> Result<Vec<Fault>, NoMemory> {
    let imports = import_faults(alloc, files)?;
    if !imports.is_empty() {
        return Ok(imports);
    }
    let names = name_faults(alloc, files)?;
    if !names.is_empty() {
        return Ok(names);
    }
    reference_faults(alloc, files)
}

// The faults, each as it is told.
fn listed(alloc: Global, faults: Vec<Fault>) -> Result<String, NoMemory> {
    let mut text = String::new(alloc);
    for fault in faults {
        text.push_str(fault_text(alloc, SchemaFault::Schema(fault))?.as_str())?;
        text.push_str(";")?;
    }
    Ok(text)
}

fn all_faults<R: AllocGlobal + Abort>(rt: &R, texts: &str) -> Result<String, SchemaFault> {
    let files = read(rt, given_files(rt.alloc(), texts)?)?;
    let faults = faults_of(rt.alloc(), &files);
    let text = match faults {
        Ok(faults) => listed(rt.alloc(), faults),
        Err(NoMemory) => Err(NoMemory),
    };
    text.map_err(|_| SchemaFault::NoMemory)
}

#[test]
fn all_faults_are_listed(rt: HostRuntime) {
    for (texts, wanted) in ROWS {
        let found = match all_faults(&rt, texts) {
            Err(SchemaFault::NoMemory) => all_faults(&rt, texts),
            answer => answer,
        };
        let found = found.expect(&rt, "faults of another phase");
        expect_text(&rt, found.as_str(), wanted);
    }
}
