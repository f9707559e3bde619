//! Where references and faults stand: the path, the line and the column in bytes, counted by hand.

use crate::calls::{add, given_files};
use proto_base::SchemaFault;
use proto_journal::Workspace;
use protoref_output::{Location, locations_of_references, place_of_fault, schema_line};
use std::process::Abort;

/// Files; a name; other files, in which its references are looked up, if they are not the same;
/// and where these then stand.
type Row = (&'static str, &'static str, &'static str, &'static str);

const REFERENCES: &[Row] = &[
    // In the order of files and of places; a leading dot belongs to a reference.
    (
        "b.proto import \"a.proto\"; package q; message C { repeated .p.A c = 1; } | a.proto syntax = \"proto3\"; package p; message A {}\nmessage B {\n  A a = 1; p.A b = 2;\n}",
        "p.A",
        "",
        "a.proto:3:3 a.proto:3:12 b.proto:1:51 ",
    ),
    // Columns count bytes, and a carriage return is one of a line.
    (
        "a.proto message A {}\r\n/* \u{e9} */ message B { optional A a = 1; }\r\n\r message C { optional A a = 1; }",
        "A",
        "",
        "a.proto:2:31 a.proto:3:24 ",
    ),
    ("a.proto message A {}", "A", "", ""),
    // In files that have no such token, and no such file.
    (
        "a.proto message A { optional A a = 1; } | b.proto import \"a.proto\"; message B { optional A a = 1; }",
        "A",
        "c.proto \n\nmessage C {}",
        "c.proto:1:1 :1:1 ",
    ),
];

fn open_workspace<R: AllocGlobal + Abort>(rt: &R, files: &str) -> Workspace {
    Workspace::open(rt.alloc(), given_files(rt, files)).expect(rt, "a workspace")
}

// Where the references to a name stand, looked up in the files of a workspace.
fn locations<'a, R: AllocGlobal + Abort>(
    rt: &R,
    workspace: &Workspace,
    name: &str,
    others: &'a Workspace,
) -> Vec<Location<'a>> {
    let link = workspace.link();
    match link.symbol(name) {
        Some(symbol) => {
            let references = link.references(symbol);
            locations_of_references(rt.alloc(), others.files(), references).expect(rt, "memory")
        }
        None => panic!(rt; "no {name}"),
    }
}

fn printed_text<R: AllocGlobal + Abort>(rt: &R, locations: &[Location]) -> String {
    let mut text = String::new(rt.alloc());
    for location in locations {
        let one = format!(in rt.alloc(); "{location} ").expect(rt, "memory");
        text.push_str(one.as_str()).expect(rt, "memory");
    }
    text
}

#[test]
fn tells_where_references_stand(rt: HostRuntime) {
    for (files, name, others, wanted) in REFERENCES {
        let others = if others.is_empty() { files } else { others };
        let workspace = open_workspace(&rt, files);
        let looked = open_workspace(&rt, others);
        let text = printed_text(&rt, locations(&rt, &workspace, name, &looked).as_slice());
        looked.release();
        workspace.release();
        assert!(rt; text.as_str() == *wanted, "{text}");
    }
}

// A service of 10,000 methods, a line each, with two references.
fn many_methods<R: AllocGlobal + Abort>(rt: &R) -> String {
    let mut text = String::new(rt.alloc());
    text.push_str("message A {}\nservice S {\n")
        .expect(rt, "memory");
    for number in 10_000..20_000u32 {
        let line = format!(in rt.alloc(); "rpc r{number}(A) returns (A);\n").expect(rt, "memory");
        text.push_str(line.as_str()).expect(rt, "memory");
    }
    text.push_str("}").expect(rt, "memory");
    text
}

#[test]
fn tells_where_many_references_stand(rt: HostRuntime) {
    let mut files = Vec::new(rt.alloc());
    add(&rt, &mut files, "a.proto", many_methods(&rt).as_str());
    let workspace = Workspace::open(rt.alloc(), files).expect(&rt, "a workspace");
    let found = locations(&rt, &workspace, "A", &workspace);
    assert!(rt; found.len() == 20_000);
    for (number, location) in found.iter().enumerate() {
        let column = if number % 2 == 0 { 12 } else { 24 };
        assert!(rt;
            location.line == 3 + number / 2 && location.column == column,
            "{location}"
        );
    }
    drop(found);
    workspace.release();
}

/// Files that have a fault; the files in which it is looked up, and its line.
const FAULTS: &[(&str, &str, &str)] = &[
    (
        "a.proto message A { optional b.X f = 1; } | b.proto package b; message X {}",
        "b.proto package b; message X {} | a.proto message A { optional b.X f = 1; }",
        "a.proto:1:22: 14 Unresolved\n",
    ),
    (
        "a.proto message A {} | b.proto message B {\n  optional A a = 1;\n}",
        "a.proto message A {} | b.proto message B {\n  optional A a = 1;\n}",
        "b.proto:2:12: 14 Unresolved\n",
    ),
    (
        "a.proto \n/* \u{e9} */ message B { optional X x = 1; }",
        "a.proto \n/* \u{e9} */ message B { optional X x = 1; }",
        "a.proto:2:31: 14 Unresolved\n",
    ),
    (
        "a.proto message A {} | a.proto \nmessage A {}",
        "a.proto message A {} | a.proto \nmessage A {}",
        "a.proto:1:1: 34 DoublePath\n",
    ),
    // The first file at the path is looked at, as far as it goes, and none where there is none.
    (
        "a.proto message A { optional X x = 1; }",
        "b.proto \n\n\n | a.proto 123\n5 | a.proto \n\n\n",
        "a.proto:2:2: 14 Unresolved\n",
    ),
    (
        "a.proto message A { optional X x = 1; }",
        "b.proto \n\n\n",
        "a.proto:1:1: 14 Unresolved\n",
    ),
];

// The line of the fault of files, looked up in others.
fn line_of_fault<R: AllocGlobal + Abort>(rt: &R, files: &str, others: &str) -> String {
    match Workspace::open(rt.alloc(), given_files(rt, files)) {
        Ok(workspace) => {
            workspace.release();
            String::new(rt.alloc())
        }
        Err(SchemaFault::Schema(fault)) => {
            let place = place_of_fault(given_files(rt, others).as_slice(), &fault);
            schema_line(rt.alloc(), &fault, place).expect(rt, "memory")
        }
        Err(SchemaFault::NoMemory) => panic!(rt; "no memory"),
    }
}

#[test]
fn tells_where_faults_stand(rt: HostRuntime) {
    for (files, others, wanted) in FAULTS {
        let line = line_of_fault(&rt, files, others);
        assert!(rt; line.as_str() == *wanted, "{line}");
    }
}
