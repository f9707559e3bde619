//! Names of custom options: what they mean in the scope of each element, and the references to extensions.

use super::calls::{Answer, Ask, Told, expect_answers_as_written, expect_told_as_written};

/// Files as written, and what is answered for them; protoc accepts them or has an error at the same name.
const MEANINGS: &[Answer] = &[
    // The name of one word fits all that is seen, outward from the message of a field.
    (
        "a.proto package google.protobuf; message FieldOptions { extensions 1000 to max; } extend FieldOptions { optional bool x = 1000; } message A { optional int32 y = 1 [(x) = true]; }",
        "links",
    ),
    (
        "a.proto package google.protobuf; message FieldOptions { extensions 1000 to max; } extend FieldOptions { optional bool x = 1000; } message A { optional int32 x = 1 [(x) = true]; }",
        "a.proto:157: 14 Unresolved",
    ),
    (
        "a.proto package google.protobuf; message FieldOptions { extensions 1000 to max; } extend FieldOptions { optional bool x = 1000; } message A { oneof x { int32 y = 1 [(x) = true]; } }",
        "a.proto:158: 14 Unresolved",
    ),
    (
        "a.proto package google.protobuf; message FieldOptions { extensions 1000 to max; } extend FieldOptions { optional bool x = 1000; } message A { map<int32, int32> x = 1; optional int32 y = 2 [(x) = true]; }",
        "a.proto:182: 14 Unresolved",
    ),
    (
        "a.proto package google.protobuf; message FieldOptions { extensions 1000 to max; } extend FieldOptions { optional bool x = 1000; } message A { map<int32, int32> x = 1; optional int32 y = 2 [(XEntry) = true]; }",
        "a.proto:182: 14 Unresolved",
    ),
    (
        "a.proto package google.protobuf; message FieldOptions { extensions 1000 to max; } extend FieldOptions { optional bool x = 1000; } message A { enum E { x = 0; } optional int32 y = 2 [(x) = true]; }",
        "a.proto:175: 14 Unresolved",
    ),
    (
        "a.proto package google.protobuf; message FieldOptions { extensions 1000 to max; } extend FieldOptions { optional bool x = 1000; } message A { message x { } optional int32 y = 2 [(x) = true]; }",
        "a.proto:171: 14 Unresolved",
    ),
    (
        "a.proto package google.protobuf; message FieldOptions { extensions 1000 to max; } extend FieldOptions { optional bool x = 1000; } message A { enum x { V = 0; } map<int32, int32> y = 2 [(x) = true]; }",
        "a.proto:178: 14 Unresolved",
    ),
    (
        "a.proto package google.protobuf; message FieldOptions { extensions 1000 to max; } extend FieldOptions { optional bool x = 1000; } message A { extend FieldOptions { optional bool x = 1001; } optional int32 y = 2 [(x) = true]; }",
        "links",
    ),
    (
        "a.proto package google.protobuf; message FieldOptions { extensions 1000 to max; } extend FieldOptions { optional bool x = 1000; } message A { extend FieldOptions { optional bool x = 1001 [(x) = true]; } }",
        "links",
    ),
    (
        r#"a.proto import "d.proto"; import "c.proto"; package p.q; message A { optional int32 y = 2 [(x) = true]; }|c.proto package p.q.x;|d.proto package p; import "o.proto"; extend google.protobuf.FieldOptions { optional bool x = 1000; }|o.proto package google.protobuf; message FieldOptions { extensions 1000 to max; }"#,
        "a.proto:84: 14 Unresolved",
    ),
    (
        r#"a.proto import "d.proto"; package p.q; service x { } message A { optional int32 y = 2 [(x) = true]; }|d.proto package p; import "o.proto"; extend google.protobuf.FieldOptions { optional bool x = 1000; }|o.proto package google.protobuf; message FieldOptions { extensions 1000 to max; }"#,
        "a.proto:80: 14 Unresolved",
    ),
    // The first of more words fits what may have names below it, and the search ends there.
    (
        "a.proto package google.protobuf; message FieldOptions { extensions 1000 to max; } extend FieldOptions { optional bool x = 1000; } message A { optional int32 x = 1 [(protobuf.x) = true]; }",
        "links",
    ),
    (
        "a.proto package google.protobuf; message FieldOptions { extensions 1000 to max; } extend FieldOptions { optional bool x = 1000; } message A { optional int32 x = 1 [(google.protobuf.x) = true]; }",
        "links",
    ),
    (
        "a.proto package google.protobuf; message FieldOptions { extensions 1000 to max; } extend FieldOptions { optional bool x = 1000; } message A { optional int32 protobuf = 1 [(protobuf.x) = true]; }",
        "links",
    ),
    (
        "a.proto package google.protobuf; message FieldOptions { extensions 1000 to max; } extend FieldOptions { optional bool x = 1000; } message A { enum E { protobuf = 0; } optional int32 y = 1 [(protobuf.x) = true]; }",
        "links",
    ),
    (
        "a.proto package google.protobuf; message FieldOptions { extensions 1000 to max; } extend FieldOptions { optional bool x = 1000; } message protobuf { } message A { optional int32 y = 1 [(protobuf.x) = true]; }",
        "a.proto:178: 14 Unresolved",
    ),
    (
        "a.proto package google.protobuf; message FieldOptions { extensions 1000 to max; } extend FieldOptions { optional bool x = 1000; } message A { enum protobuf { V = 0; } optional int32 y = 1 [(protobuf.x) = true]; }",
        "a.proto:182: 14 Unresolved",
    ),
    (
        "a.proto package google.protobuf; message FieldOptions { extensions 1000 to max; } extend FieldOptions { optional bool x = 1000; } service protobuf { } message A { optional int32 y = 1 [(protobuf.x) = true]; }",
        "a.proto:178: 14 Unresolved",
    ),
    (
        "a.proto package google.protobuf; message FieldOptions { extensions 1000 to max; } extend FieldOptions { optional bool x = 1000; } message A { optional int32 y = 1 [(FieldOptions.x) = true]; }",
        "a.proto:157: 14 Unresolved",
    ),
    (
        "a.proto package google.protobuf; message FieldOptions { extensions 1000 to max; } extend FieldOptions { optional bool x = 1000; } message A { message B { extend FieldOptions { optional bool z = 1001; } } optional int32 y = 1 [(B.z) = true]; }",
        "links",
    ),
    // A name behind a dot is whole.
    (
        "a.proto package google.protobuf; message FieldOptions { extensions 1000 to max; } extend FieldOptions { optional bool x = 1000; } message A { optional int32 x = 1 [(.google.protobuf.x) = true]; }",
        "links",
    ),
    (
        "a.proto package google.protobuf; message FieldOptions { extensions 1000 to max; } extend FieldOptions { optional bool x = 1000; } message A { optional int32 y = 1 [(.x) = true]; }",
        "a.proto:157: 14 Unresolved",
    ),
    (
        "a.proto package google.protobuf; message FieldOptions { extensions 1000 to max; } extend FieldOptions { optional bool x = 1000; } message A { optional int32 y = 1 [(.protobuf.x) = true]; }",
        "a.proto:157: 14 Unresolved",
    ),
    (
        "a.proto package google.protobuf; message FieldOptions { extensions 1000 to max; } extend FieldOptions { optional bool x = 1000; } message A { optional int32 y = 1 [(.google.protobuf.A.y) = true]; }",
        "a.proto:157: 14 Unresolved",
    ),
    // What is not seen is not found: an extension of a file that is imported by another alone.
    (
        r#"a.proto import "b.proto"; message A { optional int32 y = 1 [(x) = true]; }|b.proto import "c.proto";|c.proto import "o.proto"; extend google.protobuf.FieldOptions { optional bool x = 1000; }|o.proto package google.protobuf; message FieldOptions { extensions 1000 to max; }"#,
        "a.proto:53: 14 Unresolved",
    ),
    (
        r#"a.proto import "b.proto"; message A { optional int32 y = 1 [(x) = true]; }|b.proto import public "c.proto";|c.proto import "o.proto"; extend google.protobuf.FieldOptions { optional bool x = 1000; }|o.proto package google.protobuf; message FieldOptions { extensions 1000 to max; }"#,
        "links",
    ),
    // A file has its package as the scope.
    (
        "a.proto package google.protobuf; message FileOptions { extensions 1000 to max; } extend FileOptions { optional bool x = 1000; } option (x) = true;",
        "links",
    ),
    (
        "a.proto package google.protobuf; message FileOptions { extensions 1000 to max; } extend FileOptions { optional bool x = 1000; } option (protobuf.x) = true;",
        "links",
    ),
    (
        "a.proto package google.protobuf; message FileOptions { extensions 1000 to max; } extend FileOptions { optional bool x = 1000; } message x1 { extend FileOptions { optional bool y = 1001; } } option (y) = true;",
        "a.proto:190: 14 Unresolved",
    ),
    (
        "a.proto package google.protobuf; message FileOptions { extensions 1000 to max; } extend FileOptions { optional bool x = 1000; } message A { extend FileOptions { optional bool y = 1001; } } option (A.y) = true;",
        "links",
    ),
    // A message, an enum and a service have what stands around them.
    (
        "a.proto package google.protobuf; message MessageOptions { extensions 1000 to max; } extend MessageOptions { optional bool x = 1000; } message A { option (x) = true; optional int32 x = 1; }",
        "links",
    ),
    (
        "a.proto package google.protobuf; message MessageOptions { extensions 1000 to max; } extend MessageOptions { optional bool x = 1000; } message A { extend MessageOptions { optional bool y = 1001; } option (y) = true; }",
        "a.proto:196: 14 Unresolved",
    ),
    (
        "a.proto package google.protobuf; message MessageOptions { extensions 1000 to max; } extend MessageOptions { optional bool x = 1000; } message A { extend MessageOptions { optional bool y = 1001; } option (A.y) = true; }",
        "links",
    ),
    (
        "a.proto package google.protobuf; message MessageOptions { extensions 1000 to max; } extend MessageOptions { optional bool x = 1000; } message A { extend MessageOptions { optional bool y = 1001; } message B { option (y) = true; optional int32 y = 1; } }",
        "links",
    ),
    (
        "a.proto package google.protobuf; message MessageOptions { extensions 1000 to max; } extend MessageOptions { optional bool x = 1000; } message A { optional int32 x = 1; message B { option (x) = true; } }",
        "a.proto:180: 14 Unresolved",
    ),
    (
        "a.proto package google.protobuf; message EnumOptions { extensions 1000 to max; } extend EnumOptions { optional bool x = 1000; } enum E { option (x) = true; V = 0; }",
        "links",
    ),
    (
        "a.proto package google.protobuf; message EnumOptions { extensions 1000 to max; } extend EnumOptions { optional bool x = 1000; } message A { optional int32 x = 1; enum E { option (x) = true; V = 0; } }",
        "a.proto:171: 14 Unresolved",
    ),
    (
        "a.proto package google.protobuf; message EnumOptions { extensions 1000 to max; } extend EnumOptions { optional bool x = 1000; } message A { extend EnumOptions { optional bool y = 1001; } enum E { option (y) = true; V = 0; } }",
        "links",
    ),
    (
        "a.proto package google.protobuf; message ServiceOptions { extensions 1000 to max; } extend ServiceOptions { optional bool x = 1000; } service S { option (x) = true; rpc x (M) returns (M); } message M { }",
        "links",
    ),
    (
        "a.proto package google.protobuf; message ServiceOptions { extensions 1000 to max; } extend ServiceOptions { optional bool x = 1000; } service S { option (S.x) = true; rpc x (M) returns (M); } message M { }",
        "a.proto:146: 14 Unresolved",
    ),
    // A value has what stands around its enum.
    (
        "a.proto package google.protobuf; message EnumValueOptions { extensions 1000 to max; } extend EnumValueOptions { optional bool x = 1000; } enum E { V = 0 [(x) = true]; }",
        "links",
    ),
    (
        "a.proto package google.protobuf; message EnumValueOptions { extensions 1000 to max; } extend EnumValueOptions { optional bool x = 1000; } message A { optional int32 x = 1; enum E { V = 0 [(x) = true]; } }",
        "a.proto:181: 14 Unresolved",
    ),
    (
        "a.proto package google.protobuf; message EnumValueOptions { extensions 1000 to max; } extend EnumValueOptions { optional bool x = 1000; } message A { extend EnumValueOptions { optional bool y = 1001; } enum E { V = 0 [(y) = true]; } }",
        "links",
    ),
    (
        "a.proto package google.protobuf; message EnumValueOptions { extensions 1000 to max; } extend EnumValueOptions { optional bool x = 1000; } message A { extend EnumValueOptions { optional bool y = 1001; } enum E { V = 0 [(E.y) = true]; } }",
        "a.proto:211: 14 Unresolved",
    ),
    // A oneof and what stands in it have the message.
    (
        "a.proto package google.protobuf; message OneofOptions { extensions 1000 to max; } extend OneofOptions { optional bool x = 1000; } message A { oneof o { option (x) = true; int32 y = 1; } }",
        "links",
    ),
    (
        "a.proto package google.protobuf; message OneofOptions { extensions 1000 to max; } extend OneofOptions { optional bool x = 1000; } message A { oneof o { option (x) = true; int32 x = 1; } }",
        "a.proto:152: 14 Unresolved",
    ),
    (
        "a.proto package google.protobuf; message OneofOptions { extensions 1000 to max; } extend OneofOptions { optional bool x = 1000; } message A { oneof x { option (x) = true; int32 y = 1; } }",
        "a.proto:152: 14 Unresolved",
    ),
    (
        "a.proto package google.protobuf; message OneofOptions { extensions 1000 to max; } extend OneofOptions { optional bool x = 1000; } message A { extend OneofOptions { optional bool y = 1001; } oneof o { option (y) = true; int32 z = 1; } }",
        "links",
    ),
    (
        "a.proto package google.protobuf; message FieldOptions { extensions 1000 to max; } extend FieldOptions { optional bool x = 1000; } message A { extend FieldOptions { optional bool z = 1001; } oneof o { int32 y = 1 [(z) = true]; } }",
        "links",
    ),
    // An extension has the message around its block, else the package, and not what it extends.
    (
        "a.proto package google.protobuf; message FieldOptions { extensions 1000 to max; } extend FieldOptions { optional bool x = 1000; } message M { optional int32 x = 1; extensions 2; } extend M { optional int32 y = 2 [(x) = true]; }",
        "links",
    ),
    (
        "a.proto package google.protobuf; message FieldOptions { extensions 1000 to max; } extend FieldOptions { optional bool x = 1000; } message M { extensions 2; } message A { optional int32 x = 1; extend M { optional int32 y = 2 [(x) = true]; } }",
        "a.proto:218: 14 Unresolved",
    ),
    (
        "a.proto package google.protobuf; message FieldOptions { extensions 1000 to max; } extend FieldOptions { optional bool x = 1000; } message M { extensions 2; } message A { extend FieldOptions { optional bool z = 1001; } extend M { optional int32 y = 2 [(z) = true]; } }",
        "links",
    ),
    // A method has its service.
    (
        "a.proto package google.protobuf; message MethodOptions { extensions 1000 to max; } extend MethodOptions { optional bool x = 1000; } message M { } service S { rpc R (M) returns (M) { option (x) = true; } }",
        "links",
    ),
    (
        "a.proto package google.protobuf; message MethodOptions { extensions 1000 to max; } extend MethodOptions { optional bool x = 1000; } message M { } service S { rpc x (M) returns (M) { option (x) = true; } }",
        "a.proto:182: 14 Unresolved",
    ),
    (
        "a.proto package google.protobuf; message MethodOptions { extensions 1000 to max; } extend MethodOptions { optional bool x = 1000; } message M { } service S { rpc x (M) returns (M); rpc R (M) returns (M) { option (x) = true; } }",
        "a.proto:205: 14 Unresolved",
    ),
    (
        "a.proto package google.protobuf; message MethodOptions { extensions 1000 to max; } extend MethodOptions { optional bool x = 1000; } message M { } service S { rpc x (M) returns (M); rpc R (M) returns (M) { option (protobuf.x) = true; } }",
        "links",
    ),
    // The fields behind the name are not looked up, and the value is not.
    (
        "a.proto package google.protobuf; message FieldOptions { extensions 1000 to max; } extend FieldOptions { optional bool x = 1000; } message A { optional int32 y = 1 [(z).x = true]; }",
        "a.proto:157: 14 Unresolved",
    ),
];

#[test]
fn names_of_options_mean_extensions(rt: HostRuntime) {
    expect_answers_as_written(&rt, MEANINGS);
}

/// An option of each element, and the files whose extensions they are.
const EACH: &str =
    r#"a.proto import "o.proto"; package opt.p; option (opt.file) = true; message M { option (message) = true; optional int32 f = 1 [json_name = "g", (field) = true]; oneof o { option (opt.oneof) = true; int32 g = 2 [(opt.field) = true]; } map<int32, int32> h = 3 [(.opt.field) = true]; extensions 100; enum E { option (.opt.enum) = true; V = 0 [(value) = true]; } } extend M { optional int32 x = 100 [(field) = true]; } service S { option (service) = true; rpc R (M) returns (M) { option (method) = true; } }|d.proto package google.protobuf; message FileOptions { extensions 1000 to max; } message MessageOptions { extensions 1000 to max; } message FieldOptions { extensions 1000 to max; } message OneofOptions { extensions 1000 to max; } message EnumOptions { extensions 1000 to max; } message EnumValueOptions { extensions 1000 to max; } message ServiceOptions { extensions 1000 to max; } message MethodOptions { extensions 1000 to max; }|o.proto import "d.proto"; package opt; extend google.protobuf.FileOptions { optional bool file = 1000; } extend google.protobuf.MessageOptions { optional bool message = 1000; } extend google.protobuf.FieldOptions { optional bool field = 1000; } extend google.protobuf.OneofOptions { optional bool oneof = 1000; } extend google.protobuf.EnumOptions { optional bool enum = 1000; } extend google.protobuf.EnumValueOptions { optional bool value = 1000; } extend google.protobuf.ServiceOptions { optional bool service = 1000; } extend google.protobuf.MethodOptions { optional bool method = 1000; }"#;

const REFERENCES: &[Told] = &[
    (Ask::References, "opt.file", "a.proto:41"),
    (Ask::References, "opt.message", "a.proto:79"),
    (
        Ask::References,
        "opt.field",
        "a.proto:136,a.proto:203,a.proto:251,a.proto:388",
    ),
    (Ask::References, "opt.oneof", "a.proto:170"),
    (Ask::References, "opt.enum", "a.proto:305"),
    (Ask::References, "opt.value", "a.proto:332"),
    (Ask::References, "opt.service", "a.proto:426"),
    (Ask::References, "opt.method", "a.proto:475"),
    (Ask::References, "opt", ""),
    (
        Ask::MeantIn(0),
        "",
        "a.proto:41 opt.file,a.proto:79 opt.message,a.proto:136 opt.field,a.proto:170 opt.oneof,a.proto:203 opt.field,a.proto:251 opt.field,a.proto:305 opt.enum,a.proto:332 opt.value,a.proto:359 opt.p.M,a.proto:388 opt.field,a.proto:426 opt.service,a.proto:450 opt.p.M,a.proto:462 opt.p.M,a.proto:475 opt.method",
    ),
];

#[test]
fn options_of_each_element_refer(rt: HostRuntime) {
    expect_told_as_written(&rt, EACH, REFERENCES);
}

/// Files with two extensions of one name, each of the names with the options that mean it.
const SCOPES: &[(&str, &[(&str, &str)])] = &[
    // Of a file.
    (
        r#"a.proto import "b.proto"; import "c.proto"; package p.q; option (x) = true;|b.proto package p; import "d.proto"; extend google.protobuf.FileOptions { optional bool x = 1000; }|c.proto import "d.proto"; extend google.protobuf.FileOptions { optional bool x = 1001; }|d.proto package google.protobuf; message FileOptions { extensions 1000 to max; }"#,
        &[("p.x", "a.proto:57")],
    ),
    // Of a message.
    (
        "a.proto package google.protobuf; message MessageOptions { extensions 1000 to max; } extend MessageOptions { optional bool x = 1000; } message A { extend MessageOptions { optional bool x = 1001; } option (x) = true; message B { option (x) = true; } }",
        &[
            ("google.protobuf.A.x", "a.proto:227"),
            ("google.protobuf.x", "a.proto:196"),
        ],
    ),
    // Of an enum.
    (
        "a.proto package google.protobuf; message EnumOptions { extensions 1000 to max; } extend EnumOptions { optional bool x = 1000; } message A { extend EnumOptions { optional bool x = 1001; } enum E { option (x) = true; V = 0; } } enum F { option (x) = true; W = 0; }",
        &[
            ("google.protobuf.A.x", "a.proto:196"),
            ("google.protobuf.x", "a.proto:235"),
        ],
    ),
    // Of a value.
    (
        "a.proto package google.protobuf; message EnumValueOptions { extensions 1000 to max; } extend EnumValueOptions { optional bool x = 1000; } message A { extend EnumValueOptions { optional bool x = 1001; } enum E { V = 0 [(x) = true]; } } enum F { W = 0 [(x) = true]; }",
        &[
            ("google.protobuf.A.x", "a.proto:211"),
            ("google.protobuf.x", "a.proto:244"),
        ],
    ),
    // Of a field.
    (
        "a.proto package google.protobuf; message FieldOptions { extensions 1000 to max; } extend FieldOptions { optional bool x = 1000; } message A { extend FieldOptions { optional bool x = 1001; } optional int32 y = 1 [(x) = true]; map<int32, int32> z = 2 [(x) = true]; oneof o { int32 w = 3 [(x) = true]; } message B { optional int32 y = 1 [(x) = true]; } } message C { optional int32 y = 1 [(x) = true]; }",
        &[
            (
                "google.protobuf.A.x",
                "a.proto:205,a.proto:243,a.proto:279,a.proto:328",
            ),
            ("google.protobuf.x", "a.proto:379"),
        ],
    ),
    // Of a oneof.
    (
        "a.proto package google.protobuf; message OneofOptions { extensions 1000 to max; } extend OneofOptions { optional bool x = 1000; } message A { extend OneofOptions { optional bool x = 1001; } oneof o { option (x) = true; int32 y = 1; } } message C { oneof o { option (x) = true; int32 y = 1; } }",
        &[
            ("google.protobuf.A.x", "a.proto:200"),
            ("google.protobuf.x", "a.proto:258"),
        ],
    ),
    // Of an extension.
    (
        "a.proto package google.protobuf; message FieldOptions { extensions 1000 to max; } extend FieldOptions { optional bool x = 1000; } message A { extend FieldOptions { optional bool x = 1001; } extensions 2 to 9; extend A { optional int32 w = 4 [(x) = true]; } } message B { extend A { optional int32 y = 2 [(x) = true]; } } extend A { optional int32 z = 3 [(x) = true]; }",
        &[
            ("google.protobuf.A.x", "a.proto:235"),
            ("google.protobuf.x", "a.proto:297,a.proto:347"),
        ],
    ),
    // Of a service and a method.
    (
        r#"a.proto import "b.proto"; import "c.proto"; package p.q; message M { } service S { option (x) = true; rpc R (M) returns (M) { option (y) = true; } }|b.proto package p; import "d.proto"; extend google.protobuf.ServiceOptions { optional bool x = 1000; } extend google.protobuf.MethodOptions { optional bool y = 1000; }|c.proto import "d.proto"; extend google.protobuf.ServiceOptions { optional bool x = 1001; } extend google.protobuf.MethodOptions { optional bool y = 1001; }|d.proto package google.protobuf; message ServiceOptions { extensions 1000 to max; } message MethodOptions { extensions 1000 to max; }"#,
        &[("p.x", "a.proto:83"), ("p.y", "a.proto:126")],
    ),
];

#[test]
fn the_nearest_extension_is_meant(rt: HostRuntime) {
    for (texts, names) in SCOPES {
        for (name, places) in *names {
            expect_told_as_written(&rt, texts, &[(Ask::References, *name, *places)]);
        }
    }
}
