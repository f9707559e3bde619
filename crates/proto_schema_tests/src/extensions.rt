//! The faults of extensions that the workspace decides: the number of an extension and what it extends may stand in two files.

use crate::calls::expect_answers;

const NUMBERS: &[(&str, &str)] = &[
    // Inside no range of what it extends.
    (
        "a.proto message M { extensions 100 to 199; } extend M { optional int32 x = 99; }",
        "a.proto:67: 36 NotExtendable",
    ),
    (
        "a.proto message M { extensions 100 to 199; } extend M { optional int32 x = 100; optional int32 y = 199; optional int32 z = 200; }",
        "a.proto:115: 36 NotExtendable",
    ),
    (
        "a.proto message M { reserved 2; extensions 1, 3; } extend M { optional int32 x = 0x3; optional int32 y = 2; }",
        "a.proto:97: 36 NotExtendable",
    ),
    (
        "a.proto extend M { optional int32 x = 5; } message M { extensions 9 to 1; }",
        "a.proto:30: 36 NotExtendable",
    ),
    (
        "a.proto message M { message N { extensions 5; } } extend M { optional int32 x = 5; }",
        "a.proto:72: 36 NotExtendable",
    ),
    (
        "a.proto message M { extensions 1; } message P { message M { extensions 2; } extend M { optional int32 x = 1; } }",
        "a.proto:98: 36 NotExtendable",
    ),
    (
        "a.proto package p; message M { extensions 1; } message P { extend .p.M { optional int32 x = 1; } extend p.P { optional int32 y = 1; } }",
        "a.proto:121: 36 NotExtendable",
    ),
    // A faulty range holds its numbers.
    (
        "a.proto extend M { optional int32 x = 5; } message M { extensions 0 to 9; }",
        "a.proto:58: 17 NumberRange",
    ),
    (
        "a.proto message M { extensions 1 to 99999999999999999999; } extend M { optional int32 x = 7; }",
        "a.proto:23: 17 NumberRange",
    ),
    // Its limits come first, also where the number is past every machine number.
    (
        "a.proto message M { extensions 1; } extend M { optional int32 x = 0; }",
        "a.proto:58: 17 NumberRange",
    ),
    (
        "a.proto extend M { optional int32 x = 99999999999999999999; optional int32 y = 99999999999999999998; } message M { extensions 1; }",
        "a.proto:30: 17 NumberRange",
    ),
    // The number of an earlier one.
    (
        "a.proto message M { extensions 1; } extend M { optional int32 x = 0x1; optional int32 y = 1; }",
        "a.proto:82: 37 DuplicateExtension",
    ),
    (
        "a.proto message M { extensions 10 to max; } extend M { optional int32 x = 536870911; } extend .M { optional int32 y = 536870911; }",
        "a.proto:110: 37 DuplicateExtension",
    ),
    (
        "a.proto message M { extensions 1; extend M { optional int32 x = 1; } } extend M { optional int32 y = 1; }",
        "a.proto:93: 37 DuplicateExtension",
    ),
    (
        "a.proto extend M { optional int32 y = 1; } message M { extensions 1; message N { extend M { optional int32 x = 01; } } }",
        "a.proto:103: 37 DuplicateExtension",
    ),
    (
        "a.proto message M { extensions 1; } message N { extensions 1; } extend M { optional int32 x = 1; } extend N { optional int32 y = 1; } enum E {}",
        "a.proto:131: 22 EmptyEnum",
    ),
];

#[test]
fn numbers_of_extensions_are_refused_at_their_place(rt: HostRuntime) {
    expect_answers(&rt, NUMBERS);
}

const OF_MORE_FILES: &[(&str, &str)] = &[
    // By path, then offset, whether the files see each other or not.
    (
        "c.proto import \"a.proto\"; extend M { optional int32 z = 1; }|a.proto message M { extensions 1; }|b.proto import \"a.proto\"; package b; extend M { optional int32 y = 1; }",
        "c.proto:48: 37 DuplicateExtension",
    ),
    (
        "b.proto import \"a.proto\"; package b; extend M { optional int32 y = 1; }|a.proto message M { extensions 1; } extend M { optional int32 x = 1; }|c.proto import \"a.proto\"; package c; extend M { optional int32 z = 1; }",
        "b.proto:59: 37 DuplicateExtension",
    ),
    // What is extended may stand in a later file, and its ranges there.
    (
        "a.proto import \"c.proto\"; extend M { optional int32 x = 1; }|b.proto import \"c.proto\"; package b; extend M { optional int32 y = 1; }|c.proto message M { extensions 1; }",
        "b.proto:59: 37 DuplicateExtension",
    ),
    (
        "a.proto import \"b.proto\"; extend M { optional int32 x = 2; optional int32 y = 3; }|b.proto message N { extensions 3; } message M { extensions 1 to 2; }",
        "a.proto:70: 36 NotExtendable",
    ),
    (
        "a.proto import \"b.proto\"; import \"c.proto\"; package a; message M { extensions 1; } extend b.M { optional int32 x = 2; } extend M { optional int32 y = 1; } extend c.M { optional int32 z = 2; }|b.proto package b; message M { extensions 2; }|c.proto package c; message M { extensions 3; }",
        "a.proto:179: 36 NotExtendable",
    ),
    // The fault of an earlier file, or of an earlier phase, comes first.
    (
        "a.proto enum E {}|b.proto message M {} extend M { optional int32 x = 1; }",
        "a.proto:5: 22 EmptyEnum",
    ),
    (
        "a.proto message M {} extend M { optional int32 x = 1; }|b.proto message N { optional X x = 1; }",
        "b.proto:21: 14 Unresolved",
    ),
    (
        "a.proto extend M { optional int32 x = 1; }|b.proto message M { extensions 1; }",
        "a.proto:7: 14 Unresolved",
    ),
];

#[test]
fn numbers_of_extensions_of_more_files(rt: HostRuntime) {
    expect_answers(&rt, OF_MORE_FILES);
}
