//! Descriptors as they are printed.

use crate::calls::{expect, expect_answers};

const ROWS: &[(&str, &str)] = &[
    (
        "a.proto syntax = \"proto3\"; message A { string b_c = 1; }",
        "{\"file\":[{\"messageType\":[{\"field\":[{\"jsonName\":\"bC\",\"label\":\"LABEL_OPTIONAL\",\"name\":\"b_c\",\"number\":1,\"type\":\"TYPE_STRING\"}],\"name\":\"A\"}],\"name\":\"a.proto\",\"syntax\":\"proto3\"}]}",
    ),
    ("a.proto ", "{\"file\":[{\"name\":\"a.proto\"}]}"),
    (
        "a.proto message M { reserved 2 to max; extensions 1; }",
        "{\"file\":[{\"messageType\":[{\"extensionRange\":[{\"end\":2,\"start\":1}],\"name\":\"M\",\"reservedRange\":[{\"end\":536870912,\"start\":2}]}],\"name\":\"a.proto\"}]}",
    ),
    (
        "a.proto enum E { reserved -1, 2 to max; V = 0; }",
        "{\"file\":[{\"enumType\":[{\"name\":\"E\",\"reservedRange\":[{\"end\":-1,\"start\":-1},{\"end\":2147483647,\"start\":2}],\"value\":[{\"name\":\"V\",\"number\":0}]}],\"name\":\"a.proto\"}]}",
    ),
    (
        "a.proto message M { optional int32 a = 1 [default = -0, deprecated = true]; }",
        "{\"file\":[{\"messageType\":[{\"field\":[{\"defaultValue\":\"0\",\"jsonName\":\"a\",\"label\":\"LABEL_OPTIONAL\",\"name\":\"a\",\"number\":1,\"options\":{\"deprecated\":true},\"type\":\"TYPE_INT32\"}],\"name\":\"M\"}],\"name\":\"a.proto\"}]}",
    ),
    (
        "a.proto syntax = \"proto3\"; message M { map<string,int32> FooEntry = 1; }",
        "{\"file\":[{\"messageType\":[{\"field\":[{\"jsonName\":\"FooEntry\",\"label\":\"LABEL_REPEATED\",\"name\":\"FooEntry\",\"number\":1,\"type\":\"TYPE_MESSAGE\",\"typeName\":\".M.FooEntryEntry\"}],\"name\":\"M\",\"nestedType\":[{\"field\":[{\"jsonName\":\"key\",\"label\":\"LABEL_OPTIONAL\",\"name\":\"key\",\"number\":1,\"type\":\"TYPE_STRING\"},{\"jsonName\":\"value\",\"label\":\"LABEL_OPTIONAL\",\"name\":\"value\",\"number\":2,\"type\":\"TYPE_INT32\"}],\"name\":\"FooEntryEntry\",\"options\":{\"mapEntry\":true}}]}],\"name\":\"a.proto\",\"syntax\":\"proto3\"}]}",
    ),
    (
        "a.proto message M { optional uint32 a = 1 [default = -0]; }",
        "{\"file\":[{\"messageType\":[{\"field\":[{\"defaultValue\":\"0\",\"jsonName\":\"a\",\"label\":\"LABEL_OPTIONAL\",\"name\":\"a\",\"number\":1,\"type\":\"TYPE_UINT32\"}],\"name\":\"M\"}],\"name\":\"a.proto\"}]}",
    ),
    (
        "a.proto message M { optional string a = 1 [default = \"\"]; }",
        "{\"file\":[{\"messageType\":[{\"field\":[{\"defaultValue\":\"\",\"jsonName\":\"a\",\"label\":\"LABEL_OPTIONAL\",\"name\":\"a\",\"number\":1,\"type\":\"TYPE_STRING\"}],\"name\":\"M\"}],\"name\":\"a.proto\"}]}",
    ),
    (
        "a.proto message M { optional int32 a = 1 [json_name = \"\"]; }",
        "{\"file\":[{\"messageType\":[{\"field\":[{\"jsonName\":\"\",\"label\":\"LABEL_OPTIONAL\",\"name\":\"a\",\"number\":1,\"type\":\"TYPE_INT32\"}],\"name\":\"M\"}],\"name\":\"a.proto\"}]}",
    ),
    (
        "a.proto message M { optional int32 _1 = 1; }",
        "{\"file\":[{\"messageType\":[{\"field\":[{\"jsonName\":\"1\",\"label\":\"LABEL_OPTIONAL\",\"name\":\"_1\",\"number\":1,\"type\":\"TYPE_INT32\"}],\"name\":\"M\"}],\"name\":\"a.proto\"}]}",
    ),
    (
        "a.proto message M { map<int32,int32> _1 = 1; }",
        "{\"file\":[{\"messageType\":[{\"field\":[{\"jsonName\":\"1\",\"label\":\"LABEL_REPEATED\",\"name\":\"_1\",\"number\":1,\"type\":\"TYPE_MESSAGE\",\"typeName\":\".M.1Entry\"}],\"name\":\"M\",\"nestedType\":[{\"field\":[{\"jsonName\":\"key\",\"label\":\"LABEL_OPTIONAL\",\"name\":\"key\",\"number\":1,\"type\":\"TYPE_INT32\"},{\"jsonName\":\"value\",\"label\":\"LABEL_OPTIONAL\",\"name\":\"value\",\"number\":2,\"type\":\"TYPE_INT32\"}],\"name\":\"1Entry\",\"options\":{\"mapEntry\":true}}]}],\"name\":\"a.proto\"}]}",
    ),
    // Numbers at the edges of their limits, and `0` with octal digits.
    (
        "a.proto syntax = \"proto3\"; message A { string b_c = 536870911; }",
        "{\"file\":[{\"messageType\":[{\"field\":[{\"jsonName\":\"bC\",\"label\":\"LABEL_OPTIONAL\",\"name\":\"b_c\",\"number\":536870911,\"type\":\"TYPE_STRING\"}],\"name\":\"A\"}],\"name\":\"a.proto\",\"syntax\":\"proto3\"}]}",
    ),
    (
        "a.proto syntax = \"proto3\"; message A { string b_c = 18999; }",
        "{\"file\":[{\"messageType\":[{\"field\":[{\"jsonName\":\"bC\",\"label\":\"LABEL_OPTIONAL\",\"name\":\"b_c\",\"number\":18999,\"type\":\"TYPE_STRING\"}],\"name\":\"A\"}],\"name\":\"a.proto\",\"syntax\":\"proto3\"}]}",
    ),
    (
        "a.proto syntax = \"proto3\"; message A { string b_c = 010; }",
        "{\"file\":[{\"messageType\":[{\"field\":[{\"jsonName\":\"bC\",\"label\":\"LABEL_OPTIONAL\",\"name\":\"b_c\",\"number\":8,\"type\":\"TYPE_STRING\"}],\"name\":\"A\"}],\"name\":\"a.proto\",\"syntax\":\"proto3\"}]}",
    ),
];

const OF_EXTENSIONS: &[(&str, &str)] = &[
    (
        "a.proto message M { extensions 100 to 199; } extend M { optional int32 x = 100; }",
        "{\"file\":[{\"extension\":[{\"extendee\":\".M\",\"label\":\"LABEL_OPTIONAL\",\"name\":\"x\",\"number\":100,\"type\":\"TYPE_INT32\"}],\"messageType\":[{\"extensionRange\":[{\"end\":200,\"start\":100}],\"name\":\"M\"}],\"name\":\"a.proto\"}]}",
    ),
    (
        "a.proto message M { extensions 1; } extend M {}",
        "{\"file\":[{\"messageType\":[{\"extensionRange\":[{\"end\":2,\"start\":1}],\"name\":\"M\"}],\"name\":\"a.proto\"}]}",
    ),
    // Block by block, where the blocks stand, beside the fields of the message around them.
    (
        "a.proto package p; extend p.M { optional string b = 4 [default = \"x\"]; } message M { extensions 1 to max; } message N { extend M { optional N n = 1; repeated E e = 2 [packed = true, deprecated = true]; } enum E { A = 0; } optional int32 x = 1; extend .p.M { optional E f_g = 3 [default = A]; } } extend M { repeated M m = 5; }",
        "{\"file\":[{\"extension\":[{\"defaultValue\":\"x\",\"extendee\":\".p.M\",\"label\":\"LABEL_OPTIONAL\",\"name\":\"b\",\"number\":4,\"type\":\"TYPE_STRING\"},{\"extendee\":\".p.M\",\"label\":\"LABEL_REPEATED\",\"name\":\"m\",\"number\":5,\"type\":\"TYPE_MESSAGE\",\"typeName\":\".p.M\"}],\"messageType\":[{\"extensionRange\":[{\"end\":536870912,\"start\":1}],\"name\":\"M\"},{\"enumType\":[{\"name\":\"E\",\"value\":[{\"name\":\"A\",\"number\":0}]}],\"extension\":[{\"extendee\":\".p.M\",\"label\":\"LABEL_OPTIONAL\",\"name\":\"n\",\"number\":1,\"type\":\"TYPE_MESSAGE\",\"typeName\":\".p.N\"},{\"extendee\":\".p.M\",\"label\":\"LABEL_REPEATED\",\"name\":\"e\",\"number\":2,\"options\":{\"deprecated\":true,\"packed\":true},\"type\":\"TYPE_ENUM\",\"typeName\":\".p.N.E\"},{\"defaultValue\":\"A\",\"extendee\":\".p.M\",\"label\":\"LABEL_OPTIONAL\",\"name\":\"f_g\",\"number\":3,\"type\":\"TYPE_ENUM\",\"typeName\":\".p.N.E\"}],\"field\":[{\"jsonName\":\"x\",\"label\":\"LABEL_OPTIONAL\",\"name\":\"x\",\"number\":1,\"type\":\"TYPE_INT32\"}],\"name\":\"N\"}],\"name\":\"a.proto\",\"package\":\"p\"}]}",
    ),
    // Beside map fields, and messages within with blocks of their own.
    (
        "a.proto message M { extensions 1 to 9, 536870911; map<string,int32> m = 536870910; extend M { optional M.N n = 1; } message N { extend M { optional bool x = 2 [default = true]; } } optional int32 f = 536870909; extend M { repeated bytes b = 536870911; } }",
        "{\"file\":[{\"messageType\":[{\"extension\":[{\"extendee\":\".M\",\"label\":\"LABEL_OPTIONAL\",\"name\":\"n\",\"number\":1,\"type\":\"TYPE_MESSAGE\",\"typeName\":\".M.N\"},{\"extendee\":\".M\",\"label\":\"LABEL_REPEATED\",\"name\":\"b\",\"number\":536870911,\"type\":\"TYPE_BYTES\"}],\"extensionRange\":[{\"end\":10,\"start\":1},{\"end\":536870912,\"start\":536870911}],\"field\":[{\"jsonName\":\"m\",\"label\":\"LABEL_REPEATED\",\"name\":\"m\",\"number\":536870910,\"type\":\"TYPE_MESSAGE\",\"typeName\":\".M.MEntry\"},{\"jsonName\":\"f\",\"label\":\"LABEL_OPTIONAL\",\"name\":\"f\",\"number\":536870909,\"type\":\"TYPE_INT32\"}],\"name\":\"M\",\"nestedType\":[{\"field\":[{\"jsonName\":\"key\",\"label\":\"LABEL_OPTIONAL\",\"name\":\"key\",\"number\":1,\"type\":\"TYPE_STRING\"},{\"jsonName\":\"value\",\"label\":\"LABEL_OPTIONAL\",\"name\":\"value\",\"number\":2,\"type\":\"TYPE_INT32\"}],\"name\":\"MEntry\",\"options\":{\"mapEntry\":true}},{\"extension\":[{\"defaultValue\":\"true\",\"extendee\":\".M\",\"label\":\"LABEL_OPTIONAL\",\"name\":\"x\",\"number\":2,\"type\":\"TYPE_BOOL\"}],\"name\":\"N\"}]}],\"name\":\"a.proto\"}]}",
    ),
    // A field hides no message.
    (
        "a.proto message M { extensions 100; } message P { optional int32 M = 1; extend M { optional int32 x = 100; } }",
        "{\"file\":[{\"messageType\":[{\"extensionRange\":[{\"end\":101,\"start\":100}],\"name\":\"M\"},{\"extension\":[{\"extendee\":\".M\",\"label\":\"LABEL_OPTIONAL\",\"name\":\"x\",\"number\":100,\"type\":\"TYPE_INT32\"}],\"field\":[{\"jsonName\":\"M\",\"label\":\"LABEL_OPTIONAL\",\"name\":\"M\",\"number\":1,\"type\":\"TYPE_INT32\"}],\"name\":\"P\"}],\"name\":\"a.proto\"}]}",
    ),
    // What the message around the block reserves is for its own fields.
    (
        "a.proto message M { extensions 5; } message P { reserved \"x\"; reserved 5; extend M { optional int32 x = 5; } }",
        "{\"file\":[{\"messageType\":[{\"extensionRange\":[{\"end\":6,\"start\":5}],\"name\":\"M\"},{\"extension\":[{\"extendee\":\".M\",\"label\":\"LABEL_OPTIONAL\",\"name\":\"x\",\"number\":5,\"type\":\"TYPE_INT32\"}],\"name\":\"P\",\"reservedName\":[\"x\"],\"reservedRange\":[{\"end\":6,\"start\":5}]}],\"name\":\"a.proto\"}]}",
    ),
    // What is extended may stand in another file.
    (
        "a.proto import \"b.proto\"; extend b.M { optional int32 x = 1; }|b.proto package b; message M { extensions 1; }",
        "{\"file\":[{\"dependency\":[\"b.proto\"],\"extension\":[{\"extendee\":\".b.M\",\"label\":\"LABEL_OPTIONAL\",\"name\":\"x\",\"number\":1,\"type\":\"TYPE_INT32\"}],\"name\":\"a.proto\"},{\"messageType\":[{\"extensionRange\":[{\"end\":2,\"start\":1}],\"name\":\"M\"}],\"name\":\"b.proto\",\"package\":\"b\"}]}",
    ),
];

#[test]
fn extensions_are_printed(rt: HostRuntime) {
    expect_answers(&rt, OF_EXTENSIONS);
}

#[test]
fn descriptors_are_printed(rt: HostRuntime) {
    expect_answers(&rt, ROWS);
    // No file has no descriptor.
    expect(&rt, Vec::new(rt.alloc()), "{}");
}
