//! Schemas of which some files get other texts. Places are counted in the texts.

ghost use Rattle.std.specs.Prelude.{◌<◌, length};

use crate::allocations::are_texts;
use crate::calls::{expect_text, fault_text, given_files};
use proto_base::{NoMemory, Profile, SchemaFault};
use proto_desc::{Schema, to_json};
use std::alloc::Global;
use std::process::Abort;

/// Files; the files with other texts; the places of those that get them, two at most; and the descriptors then, or the fault.
type Row = (&'static str, &'static str, &'static [u32], &'static str);

// The text of the file at a place, among files that are written as one text.
fn text_at(alloc: Global, written: &str, place: u32) -> Result<Vec<u8>, NoMemory> {
    let file = written.split('|').nth(place as usize).unwrap_or("");
    let (_, text) = file.split_once(' ').unwrap_or((file, ""));
    Ok(Vec::from_slice(alloc, text.as_bytes())?)
}

fn replace_one(
    alloc: Global,
    schema: &mut Schema,
    after: &str,
    place: u32,
) -> Result<(), SchemaFault>
    requires { place < length schema.old }
{
    let mut texts = Vec::new(alloc);
    texts.push(text_at(alloc, after, place)?)?;
    schema.replace(alloc, &[place], texts)
}

fn replace_two(
    alloc: Global,
    schema: &mut Schema,
    after: &str,
    first: u32,
    second: u32,
) -> Result<(), SchemaFault>
    requires { second < length schema.old }
{
    if first >= second {
        return Ok(());
    }
    let mut texts = Vec::new(alloc);
    texts.push(text_at(alloc, after, first)?)?;
    texts.push(text_at(alloc, after, second)?)?;
    schema.replace(alloc, &[first, second], texts)
}

// The files at the places get their texts. Nothing is done where the row is none: then it does not hold.
fn replace(
    alloc: Global,
    schema: &mut Schema,
    after: &str,
    places: &[u32],
) -> Result<(), SchemaFault> {
    let count = schema.files().len();
    match places {
        [] => schema.replace(alloc, &[], Vec::new(alloc)),
        [place] if (*place as usize) < count => replace_one(alloc, schema, after, *place),
        [first, second] if (*second as usize) < count => {
            replace_two(alloc, schema, after, *first, *second)
        }
        _ => Ok(()),
    }
}

// The row holds of a schema of its files, which are as they were where a fault is found.
fn expect_replaced<R: AllocGlobal + Abort>(
    rt: &R,
    schema: &mut Schema,
    (before, after, places, wanted): Row,
) -> Result<(), NoMemory> {
    let old = to_json(rt.alloc(), schema.descriptors())?;
    match replace(rt.alloc(), schema, after, places) {
        Ok(()) => {
            let json = to_json(rt.alloc(), schema.descriptors())?;
            expect_text(rt, json.as_str(), wanted);
            assert!(rt; are_texts(schema, after), "{after}");
        }
        Err(fault) => {
            let fault = fault_text(rt.alloc(), fault)?;
            expect_text(rt, fault.as_str(), wanted);
            let json = to_json(rt.alloc(), schema.descriptors())?;
            expect_text(rt, json.as_str(), old.as_str());
            assert!(rt; are_texts(schema, before), "{before}");
        }
    }
    Ok(())
}

// The one owner of a schema.
fn expect_row<R: AllocGlobal + Abort>(
    rt: &R,
    row: Row,
    profile: Profile,
) -> Result<(), SchemaFault> {
    let mut schema = Schema::open_as(rt.alloc(), given_files(rt.alloc(), row.0)?, profile)?;
    let answer = expect_replaced(rt, &mut schema, row);
    schema.release();
    Ok(answer?)
}

const TEXTS: &[Row] = &[
    // A message has another name, in both files that have it.
    (
        "a.proto syntax = \"proto3\"; import \"b.proto\"; message A { M m = 1; }|b.proto syntax = \"proto3\"; message M { string s = 1; }|c.proto syntax = \"proto3\"; enum E { Z = 0; }",
        "a.proto syntax = \"proto3\"; import \"b.proto\"; message A { Node m = 1; }|b.proto syntax = \"proto3\"; message Node { string s = 1; }|c.proto syntax = \"proto3\"; enum E { Z = 0; }",
        &[0, 1],
        "{\"file\":[{\"dependency\":[\"b.proto\"],\"messageType\":[{\"field\":[{\"jsonName\":\"m\",\"label\":\"LABEL_OPTIONAL\",\"name\":\"m\",\"number\":1,\"type\":\"TYPE_MESSAGE\",\"typeName\":\".Node\"}],\"name\":\"A\"}],\"name\":\"a.proto\",\"syntax\":\"proto3\"},{\"messageType\":[{\"field\":[{\"jsonName\":\"s\",\"label\":\"LABEL_OPTIONAL\",\"name\":\"s\",\"number\":1,\"type\":\"TYPE_STRING\"}],\"name\":\"Node\"}],\"name\":\"b.proto\",\"syntax\":\"proto3\"},{\"enumType\":[{\"name\":\"E\",\"value\":[{\"name\":\"Z\",\"number\":0}]}],\"name\":\"c.proto\",\"syntax\":\"proto3\"}]}",
    ),
    // A file is another one.
    (
        "a.proto syntax = \"proto3\"; import \"b.proto\"; message A { M m = 1; }|b.proto syntax = \"proto3\"; message M { string s = 1; }|c.proto syntax = \"proto3\"; enum E { Z = 0; }",
        "a.proto syntax = \"proto3\"; import \"b.proto\"; message A { M m = 1; }|b.proto syntax = \"proto3\"; message M { string s = 1; }|c.proto syntax = \"proto3\"; message N { E m = 1; } enum E { Z = 0; Y = 1; }",
        &[2],
        "{\"file\":[{\"dependency\":[\"b.proto\"],\"messageType\":[{\"field\":[{\"jsonName\":\"m\",\"label\":\"LABEL_OPTIONAL\",\"name\":\"m\",\"number\":1,\"type\":\"TYPE_MESSAGE\",\"typeName\":\".M\"}],\"name\":\"A\"}],\"name\":\"a.proto\",\"syntax\":\"proto3\"},{\"messageType\":[{\"field\":[{\"jsonName\":\"s\",\"label\":\"LABEL_OPTIONAL\",\"name\":\"s\",\"number\":1,\"type\":\"TYPE_STRING\"}],\"name\":\"M\"}],\"name\":\"b.proto\",\"syntax\":\"proto3\"},{\"enumType\":[{\"name\":\"E\",\"value\":[{\"name\":\"Z\",\"number\":0},{\"name\":\"Y\",\"number\":1}]}],\"messageType\":[{\"field\":[{\"jsonName\":\"m\",\"label\":\"LABEL_OPTIONAL\",\"name\":\"m\",\"number\":1,\"type\":\"TYPE_ENUM\",\"typeName\":\".E\"}],\"name\":\"N\"}],\"name\":\"c.proto\",\"syntax\":\"proto3\"}]}",
    ),
    // The same text.
    (
        "a.proto syntax = \"proto3\"; import \"b.proto\"; message A { M m = 1; }|b.proto syntax = \"proto3\"; message M { string s = 1; }|c.proto syntax = \"proto3\"; enum E { Z = 0; }",
        "a.proto syntax = \"proto3\"; import \"b.proto\"; message A { M m = 1; }|b.proto syntax = \"proto3\"; message M { string s = 1; }|c.proto syntax = \"proto3\"; enum E { Z = 0; }",
        &[1],
        "{\"file\":[{\"dependency\":[\"b.proto\"],\"messageType\":[{\"field\":[{\"jsonName\":\"m\",\"label\":\"LABEL_OPTIONAL\",\"name\":\"m\",\"number\":1,\"type\":\"TYPE_MESSAGE\",\"typeName\":\".M\"}],\"name\":\"A\"}],\"name\":\"a.proto\",\"syntax\":\"proto3\"},{\"messageType\":[{\"field\":[{\"jsonName\":\"s\",\"label\":\"LABEL_OPTIONAL\",\"name\":\"s\",\"number\":1,\"type\":\"TYPE_STRING\"}],\"name\":\"M\"}],\"name\":\"b.proto\",\"syntax\":\"proto3\"},{\"enumType\":[{\"name\":\"E\",\"value\":[{\"name\":\"Z\",\"number\":0}]}],\"name\":\"c.proto\",\"syntax\":\"proto3\"}]}",
    ),
    // No text.
    (
        "a.proto syntax = \"proto3\"; import \"b.proto\"; message A { M m = 1; }|b.proto syntax = \"proto3\"; message M { string s = 1; }|c.proto syntax = \"proto3\"; enum E { Z = 0; }",
        "a.proto syntax = \"proto3\"; import \"b.proto\"; message A { M m = 1; }|b.proto syntax = \"proto3\"; message M { string s = 1; }|c.proto syntax = \"proto3\"; enum E { Z = 0; }",
        &[],
        "{\"file\":[{\"dependency\":[\"b.proto\"],\"messageType\":[{\"field\":[{\"jsonName\":\"m\",\"label\":\"LABEL_OPTIONAL\",\"name\":\"m\",\"number\":1,\"type\":\"TYPE_MESSAGE\",\"typeName\":\".M\"}],\"name\":\"A\"}],\"name\":\"a.proto\",\"syntax\":\"proto3\"},{\"messageType\":[{\"field\":[{\"jsonName\":\"s\",\"label\":\"LABEL_OPTIONAL\",\"name\":\"s\",\"number\":1,\"type\":\"TYPE_STRING\"}],\"name\":\"M\"}],\"name\":\"b.proto\",\"syntax\":\"proto3\"},{\"enumType\":[{\"name\":\"E\",\"value\":[{\"name\":\"Z\",\"number\":0}]}],\"name\":\"c.proto\",\"syntax\":\"proto3\"}]}",
    ),
    // An import and what it is for go.
    (
        "a.proto syntax = \"proto3\"; import \"b.proto\"; message A { M m = 1; }|b.proto syntax = \"proto3\"; message M { string s = 1; }|c.proto syntax = \"proto3\"; enum E { Z = 0; }",
        "a.proto syntax = \"proto3\"; message A { int32 m = 1; }|b.proto syntax = \"proto3\"; message M { string s = 1; }|c.proto syntax = \"proto3\"; enum E { Z = 0; }",
        &[0],
        "{\"file\":[{\"messageType\":[{\"field\":[{\"jsonName\":\"m\",\"label\":\"LABEL_OPTIONAL\",\"name\":\"m\",\"number\":1,\"type\":\"TYPE_INT32\"}],\"name\":\"A\"}],\"name\":\"a.proto\",\"syntax\":\"proto3\"},{\"messageType\":[{\"field\":[{\"jsonName\":\"s\",\"label\":\"LABEL_OPTIONAL\",\"name\":\"s\",\"number\":1,\"type\":\"TYPE_STRING\"}],\"name\":\"M\"}],\"name\":\"b.proto\",\"syntax\":\"proto3\"},{\"enumType\":[{\"name\":\"E\",\"value\":[{\"name\":\"Z\",\"number\":0}]}],\"name\":\"c.proto\",\"syntax\":\"proto3\"}]}",
    ),
    // An enum has another value, and a file that has a field of it is as it was.
    (
        "a.proto import \"b.proto\"; message A { optional E e = 1; }|b.proto enum E { X = 0; }",
        "a.proto import \"b.proto\"; message A { optional E e = 1; }|b.proto enum E { Y = 0; }",
        &[1],
        "{\"file\":[{\"dependency\":[\"b.proto\"],\"messageType\":[{\"field\":[{\"jsonName\":\"e\",\"label\":\"LABEL_OPTIONAL\",\"name\":\"e\",\"number\":1,\"type\":\"TYPE_ENUM\",\"typeName\":\".E\"}],\"name\":\"A\"}],\"name\":\"a.proto\"},{\"enumType\":[{\"name\":\"E\",\"value\":[{\"name\":\"Y\",\"number\":0}]}],\"name\":\"b.proto\"}]}",
    ),
    // An enum is a message now, so a field of another file has another type; and the other way round.
    (
        "a.proto import \"b.proto\"; message A { optional E e = 1; }|b.proto enum E { X = 0; }",
        "a.proto import \"b.proto\"; message A { optional E e = 1; }|b.proto message E {}",
        &[1],
        "{\"file\":[{\"dependency\":[\"b.proto\"],\"messageType\":[{\"field\":[{\"jsonName\":\"e\",\"label\":\"LABEL_OPTIONAL\",\"name\":\"e\",\"number\":1,\"type\":\"TYPE_MESSAGE\",\"typeName\":\".E\"}],\"name\":\"A\"}],\"name\":\"a.proto\"},{\"messageType\":[{\"name\":\"E\"}],\"name\":\"b.proto\"}]}",
    ),
    (
        "a.proto import \"b.proto\"; message A { optional E e = 1; }|b.proto message E {}",
        "a.proto import \"b.proto\"; message A { optional E e = 1; }|b.proto enum E { X = 0; }",
        &[1],
        "{\"file\":[{\"dependency\":[\"b.proto\"],\"messageType\":[{\"field\":[{\"jsonName\":\"e\",\"label\":\"LABEL_OPTIONAL\",\"name\":\"e\",\"number\":1,\"type\":\"TYPE_ENUM\",\"typeName\":\".E\"}],\"name\":\"A\"}],\"name\":\"a.proto\"},{\"enumType\":[{\"name\":\"E\",\"value\":[{\"name\":\"X\",\"number\":0}]}],\"name\":\"b.proto\"}]}",
    ),
    // A message stands in another file, which the first sees too.
    (
        "a.proto import \"b.proto\"; message A { optional E e = 1; }|b.proto import public \"c.proto\"; message E {}|c.proto ",
        "a.proto import \"b.proto\"; message A { optional E e = 1; }|b.proto import public \"c.proto\";|c.proto message E {}",
        &[1, 2],
        "{\"file\":[{\"dependency\":[\"b.proto\"],\"messageType\":[{\"field\":[{\"jsonName\":\"e\",\"label\":\"LABEL_OPTIONAL\",\"name\":\"e\",\"number\":1,\"type\":\"TYPE_MESSAGE\",\"typeName\":\".E\"}],\"name\":\"A\"}],\"name\":\"a.proto\"},{\"dependency\":[\"c.proto\"],\"name\":\"b.proto\",\"publicDependency\":[0]},{\"messageType\":[{\"name\":\"E\"}],\"name\":\"c.proto\"}]}",
    ),
    // A nearer name has come, which a reference of a file as it was means now.
    (
        "a.proto package p; import \"b.proto\"; import \"c.proto\"; message A { optional M m = 1; }|b.proto message M {}|c.proto package p;",
        "a.proto package p; import \"b.proto\"; import \"c.proto\"; message A { optional M m = 1; }|b.proto message M {}|c.proto package p; message M {}",
        &[2],
        "{\"file\":[{\"dependency\":[\"b.proto\",\"c.proto\"],\"messageType\":[{\"field\":[{\"jsonName\":\"m\",\"label\":\"LABEL_OPTIONAL\",\"name\":\"m\",\"number\":1,\"type\":\"TYPE_MESSAGE\",\"typeName\":\".p.M\"}],\"name\":\"A\"}],\"name\":\"a.proto\",\"package\":\"p\"},{\"messageType\":[{\"name\":\"M\"}],\"name\":\"b.proto\"},{\"messageType\":[{\"name\":\"M\"}],\"name\":\"c.proto\",\"package\":\"p\"}]}",
    ),
];

#[test]
fn have_other_texts(rt: HostRuntime) {
    for row in TEXTS {
        expect_row(&rt, *row, Profile::Core).expect(&rt, "a schema");
    }
}

const FAULTS: &[Row] = &[
    // What other files refer to.
    (
        "a.proto syntax = \"proto3\"; import \"b.proto\"; message A { M m = 1; }|b.proto syntax = \"proto3\"; message M { string s = 1; }|c.proto syntax = \"proto3\"; enum E { Z = 0; }",
        "a.proto syntax = \"proto3\"; import \"b.proto\"; message A { M m = 1; }|b.proto syntax = \"proto3\"; message Node { string s = 1; }|c.proto syntax = \"proto3\"; enum E { Z = 0; }",
        &[1],
        "a.proto:49: 14 Unresolved",
    ),
    // What the file itself refers to.
    (
        "a.proto syntax = \"proto3\"; import \"b.proto\"; message A { M m = 1; }|b.proto syntax = \"proto3\"; message M { string s = 1; }|c.proto syntax = \"proto3\"; enum E { Z = 0; }",
        "a.proto syntax = \"proto3\"; import \"b.proto\"; message A { M m = 1; }|b.proto syntax = \"proto3\"; message M { X s = 1; }|c.proto syntax = \"proto3\"; enum E { Z = 0; }",
        &[1],
        "b.proto:31: 14 Unresolved",
    ),
    // An import that was there.
    (
        "a.proto syntax = \"proto3\"; import \"b.proto\"; message A { M m = 1; }|b.proto syntax = \"proto3\"; message M { string s = 1; }|c.proto syntax = \"proto3\"; enum E { Z = 0; }",
        "a.proto syntax = \"proto3\"; message A { M m = 1; }|b.proto syntax = \"proto3\"; message M { string s = 1; }|c.proto syntax = \"proto3\"; enum E { Z = 0; }",
        &[0],
        "a.proto:31: 14 Unresolved",
    ),
    // An import of a file that is not there.
    (
        "a.proto syntax = \"proto3\"; import \"b.proto\"; message A { M m = 1; }|b.proto syntax = \"proto3\"; message M { string s = 1; }|c.proto syntax = \"proto3\"; enum E { Z = 0; }",
        "a.proto syntax = \"proto3\"; import \"b.proto\"; message A { M m = 1; }|b.proto syntax = \"proto3\"; message M { string s = 1; }|c.proto syntax = \"proto3\"; import \"d.proto\"; enum E { Z = 0; }",
        &[2],
        "c.proto:26: 10 UnknownImport",
    ),
    // A cycle, whose least import is of a file that is as it was.
    (
        "a.proto syntax = \"proto3\"; import \"b.proto\"; message A { M m = 1; }|b.proto syntax = \"proto3\"; message M { string s = 1; }|c.proto syntax = \"proto3\"; enum E { Z = 0; }",
        "a.proto syntax = \"proto3\"; import \"b.proto\"; message A { M m = 1; }|b.proto syntax = \"proto3\"; import \"a.proto\"; message M { string s = 1; }|c.proto syntax = \"proto3\"; enum E { Z = 0; }",
        &[1],
        "a.proto:26: 12 ImportCycle",
    ),
    // A name that an earlier file has, and one that a later file then has again.
    (
        "a.proto syntax = \"proto3\"; import \"b.proto\"; message A { M m = 1; }|b.proto syntax = \"proto3\"; message M { string s = 1; }|c.proto syntax = \"proto3\"; enum E { Z = 0; }",
        "a.proto syntax = \"proto3\"; import \"b.proto\"; message A { M m = 1; }|b.proto syntax = \"proto3\"; message M { string s = 1; }|c.proto syntax = \"proto3\"; enum A { Z = 0; }",
        &[2],
        "c.proto:24: 13 DuplicateName",
    ),
    (
        "a.proto syntax = \"proto3\"; import \"b.proto\"; message A { M m = 1; }|b.proto syntax = \"proto3\"; message M { string s = 1; }|c.proto syntax = \"proto3\"; enum E { Z = 0; }",
        "a.proto syntax = \"proto3\"; import \"b.proto\"; message E { M m = 1; }|b.proto syntax = \"proto3\"; message M { string s = 1; }|c.proto syntax = \"proto3\"; enum E { Z = 0; }",
        &[0],
        "c.proto:24: 13 DuplicateName",
    ),
    // The number of a field.
    (
        "a.proto syntax = \"proto3\"; import \"b.proto\"; message A { M m = 1; }|b.proto syntax = \"proto3\"; message M { string s = 1; }|c.proto syntax = \"proto3\"; enum E { Z = 0; }",
        "a.proto syntax = \"proto3\"; import \"b.proto\"; message A { M m = 1; }|b.proto syntax = \"proto3\"; message M { string s = 1; }|c.proto syntax = \"proto3\"; message N { string s = 19000; }",
        &[2],
        "c.proto:42: 17 NumberRange",
    ),
    // A text that is no number, before what is wrong in an earlier file.
    (
        "a.proto syntax = \"proto3\"; import \"b.proto\"; message A { M m = 1; }|b.proto syntax = \"proto3\"; message M { string s = 1; }|c.proto syntax = \"proto3\"; enum E { Z = 0; }",
        "a.proto syntax = \"proto3\"; import \"b.proto\"; message A { X m = 1; }|b.proto syntax = \"proto3\"; message M { string s = 1; }|c.proto 1x",
        &[0, 2],
        "c.proto:0: 7 BadNumber",
    ),
    // The least of two texts.
    (
        "a.proto syntax = \"proto3\"; import \"b.proto\"; message A { M m = 1; }|b.proto syntax = \"proto3\"; message M { string s = 1; }|c.proto syntax = \"proto3\"; enum E { Z = 0; }",
        "a.proto syntax = \"proto3\"; import \"b.proto\"; message A { M m = 1; }|b.proto syntax = \"proto3\"; message M { X s = 1; }|c.proto syntax = \"proto3\"; message N { Y s = 1; }",
        &[1, 2],
        "b.proto:31: 14 Unresolved",
    ),
    // The range of a number, in a later file.
    (
        "a.proto import \"b.proto\"; extend M { optional int32 x = 100; }|b.proto message M { extensions 100 to 199; }",
        "a.proto import \"b.proto\"; extend M { optional int32 x = 100; }|b.proto message M { extensions 200 to 299; }",
        &[1],
        "a.proto:48: 36 NotExtendable",
    ),
    // A number that a later file has.
    (
        "a.proto |b.proto message M { extensions 100 to 199; }|c.proto import \"b.proto\"; extend M { optional int32 y = 100; }",
        "a.proto import \"b.proto\"; extend M { optional int32 x = 100; }|b.proto message M { extensions 100 to 199; }|c.proto import \"b.proto\"; extend M { optional int32 y = 100; }",
        &[0],
        "c.proto:48: 37 DuplicateExtension",
    ),
    // A value that a default of another file names.
    (
        "a.proto import \"b.proto\"; message A { optional E e = 1 [default = X]; }|b.proto enum E { X = 0; }",
        "a.proto import \"b.proto\"; message A { optional E e = 1 [default = X]; }|b.proto enum E { Y = 0; }",
        &[1],
        "a.proto:48: 28 BadDefault",
    ),
    // An enum of another version, in a file that is as it was.
    (
        "a.proto syntax = \"proto3\"; import \"b.proto\"; message A { E e = 1; }|b.proto syntax = \"proto3\"; enum E { Z = 0; }",
        "a.proto syntax = \"proto3\"; import \"b.proto\"; message A { E e = 1; }|b.proto enum E { Z = 0; }",
        &[1],
        "a.proto:49: 24 ClosedEnum",
    ),
    // The first value of an enum that a map of another file has.
    (
        "a.proto import \"b.proto\"; message A { map<string, E> m = 1; }|b.proto enum E { X = 0; }",
        "a.proto import \"b.proto\"; message A { map<string, E> m = 1; }|b.proto enum E { X = 1; }",
        &[1],
        "a.proto:42: 23 FirstNotZero",
    ),
    // A message that is an enum now, where a method of another file takes it.
    (
        "a.proto import \"b.proto\"; service S { rpc R (M) returns (M); }|b.proto message M {}",
        "a.proto import \"b.proto\"; service S { rpc R (M) returns (M); }|b.proto enum M { Z = 0; }",
        &[1],
        "a.proto:37: 15 WrongKind",
    ),
];

#[test]
fn are_as_they_were_where_a_fault_is_found(rt: HostRuntime) {
    for row in FAULTS {
        expect_row(&rt, *row, Profile::Core).expect(&rt, "a schema");
    }
}

/// Files as written: what elements the options have is asked again where a file is read anew that decides it.
const OPTIONS: &[Row] = &[
    // An extension that options of another file name extends another message.
    (
        "a.proto import \"b.proto\"; message A { option (p.x) = 1; }|b.proto package p; import \"d.proto\"; extend google.protobuf.MessageOptions { optional int32 x = 1000; }|d.proto package google.protobuf; message MessageOptions { extensions 1000; } message FieldOptions { extensions 1000; }",
        "a.proto import \"b.proto\"; message A { option (p.x) = 1; }|b.proto package p; import \"d.proto\"; extend google.protobuf.FieldOptions { optional int32 x = 1000; }|d.proto package google.protobuf; message MessageOptions { extensions 1000; } message FieldOptions { extensions 1000; }",
        &[1],
        "a.proto:38: 39 NotAnOption",
    ),
    // What an extension extends means another message, by a file that is read anew.
    (
        "a.proto import \"b.proto\"; message A { option (p.x) = 1; }|b.proto package p; import \"c.proto\"; import \"d.proto\"; extend google.protobuf.MessageOptions { optional int32 x = 1000; }|c.proto package p;|d.proto package google.protobuf; message MessageOptions { extensions 1000; }",
        "a.proto import \"b.proto\"; message A { option (p.x) = 1; }|b.proto package p; import \"c.proto\"; import \"d.proto\"; extend google.protobuf.MessageOptions { optional int32 x = 1000; }|c.proto package p; message google { message protobuf { message MessageOptions { extensions 1000; } } }|d.proto package google.protobuf; message MessageOptions { extensions 1000; }",
        &[2],
        "a.proto:38: 39 NotAnOption",
    ),
    // The name of an option means another extension, by a file that is read anew.
    (
        "a.proto package p; import \"b.proto\"; import \"c.proto\"; message A { option (x) = 1; }|b.proto import \"d.proto\"; extend google.protobuf.MessageOptions { optional int32 x = 1000; }|c.proto package p; import \"d.proto\";|d.proto package google.protobuf; message MessageOptions { extensions 1000; } message FieldOptions { extensions 1000; }",
        "a.proto package p; import \"b.proto\"; import \"c.proto\"; message A { option (x) = 1; }|b.proto import \"d.proto\"; extend google.protobuf.MessageOptions { optional int32 x = 1000; }|c.proto package p; import \"d.proto\"; extend google.protobuf.FieldOptions { optional int32 x = 1000; }|d.proto package google.protobuf; message MessageOptions { extensions 1000; } message FieldOptions { extensions 1000; }",
        &[2],
        "a.proto:67: 39 NotAnOption",
    ),
    // The same by a public import of a file that is read anew.
    (
        "a.proto package p; import \"b.proto\"; import \"c.proto\"; message A { option (x) = 1; }|b.proto import \"d.proto\"; extend google.protobuf.MessageOptions { optional int32 x = 1000; }|c.proto package p;|d.proto package google.protobuf; message MessageOptions { extensions 1000; } message FieldOptions { extensions 1000; }|e.proto package p; import \"d.proto\"; extend google.protobuf.FieldOptions { optional int32 x = 1000; }",
        "a.proto package p; import \"b.proto\"; import \"c.proto\"; message A { option (x) = 1; }|b.proto import \"d.proto\"; extend google.protobuf.MessageOptions { optional int32 x = 1000; }|c.proto package p; import public \"e.proto\";|d.proto package google.protobuf; message MessageOptions { extensions 1000; } message FieldOptions { extensions 1000; }|e.proto package p; import \"d.proto\"; extend google.protobuf.FieldOptions { optional int32 x = 1000; }",
        &[2],
        "a.proto:67: 39 NotAnOption",
    ),
    // An option of another element.
    (
        "a.proto import \"b.proto\"; message A { option (x) = 1; }|b.proto import \"d.proto\"; extend google.protobuf.MessageOptions { optional int32 x = 1000; }|d.proto package google.protobuf; message MessageOptions { extensions 1000; }",
        "a.proto import \"b.proto\"; message A { optional int32 a = 1 [(x) = 1]; }|b.proto import \"d.proto\"; extend google.protobuf.MessageOptions { optional int32 x = 1000; }|d.proto package google.protobuf; message MessageOptions { extensions 1000; }",
        &[0],
        "a.proto:53: 39 NotAnOption",
    ),
    // A block of a proto3 file that extends another message.
    (
        "a.proto syntax = \"proto3\"; import \"b.proto\"; import \"c.proto\"; package p; extend google.protobuf.MessageOptions { int32 x = 1000; }|b.proto package google.protobuf; message MessageOptions { extensions 1000; }|c.proto package p;",
        "a.proto syntax = \"proto3\"; import \"b.proto\"; import \"c.proto\"; package p; extend google.protobuf.MessageOptions { int32 x = 1000; }|b.proto package google.protobuf; message MessageOptions { extensions 1000; }|c.proto package p; message google { message protobuf { message MessageOptions { extensions 1000; } } }",
        &[2],
        "a.proto:66: 31 NotInProto3",
    ),
    // An option of its own element comes.
    (
        "a.proto import \"b.proto\"; message A { option (p.x) = 1; }|b.proto package p; import \"d.proto\"; extend google.protobuf.MessageOptions { optional int32 x = 1000; }|d.proto package google.protobuf; message MessageOptions { extensions 1000; } message FieldOptions { extensions 1000; }",
        "a.proto import \"b.proto\"; message A { option (p.x) = 1; }|b.proto package p; import \"d.proto\"; message M { option (x) = 2; } extend google.protobuf.MessageOptions { optional int32 x = 1000; }|d.proto package google.protobuf; message MessageOptions { extensions 1000; } message FieldOptions { extensions 1000; }",
        &[1],
        "{\"file\":[{\"dependency\":[\"b.proto\"],\"messageType\":[{\"name\":\"A\"}],\"name\":\"a.proto\"},{\"dependency\":[\"d.proto\"],\"extension\":[{\"extendee\":\".google.protobuf.MessageOptions\",\"label\":\"LABEL_OPTIONAL\",\"name\":\"x\",\"number\":1000,\"type\":\"TYPE_INT32\"}],\"messageType\":[{\"name\":\"M\"}],\"name\":\"b.proto\",\"package\":\"p\"},{\"messageType\":[{\"extensionRange\":[{\"end\":1001,\"start\":1000}],\"name\":\"MessageOptions\"},{\"extensionRange\":[{\"end\":1001,\"start\":1000}],\"name\":\"FieldOptions\"}],\"name\":\"d.proto\",\"package\":\"google.protobuf\"}]}",
    ),
];

#[test]
fn options_are_asked_again(rt: HostRuntime) {
    for row in OPTIONS {
        expect_row(&rt, *row, Profile::AsWritten).expect(&rt, "a schema");
    }
}
