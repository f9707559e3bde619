//! One schema and more for each fault of the checks of one file, with the place of the fault.

use crate::calls::expect_answers;

const NUMBERS: &[(&str, &str)] = &[
    (
        "a.proto syntax = \"proto3\"; message A { string b = 0; }",
        "a.proto:42: 17 NumberRange",
    ),
    (
        "a.proto syntax = \"proto3\"; message A { string b = 536870912; }",
        "a.proto:42: 17 NumberRange",
    ),
    (
        "a.proto syntax = \"proto3\"; message A { string b = 19000; }",
        "a.proto:42: 17 NumberRange",
    ),
    (
        "a.proto message M { reserved 5 to 2; }",
        "a.proto:21: 17 NumberRange",
    ),
    (
        "a.proto message M { optional int32 a = 9; extensions 2, 0 to 1; }",
        "a.proto:48: 17 NumberRange",
    ),
    (
        "a.proto message M { optional int32 a = 3; reserved 5 to 1; }",
        "a.proto:43: 17 NumberRange",
    ),
    (
        "a.proto message M { reserved 1 to 536870912; }",
        "a.proto:21: 17 NumberRange",
    ),
    (
        "a.proto enum E { V = 2147483648; }",
        "a.proto:13: 17 NumberRange",
    ),
    (
        "a.proto enum E { V = -2147483649; }",
        "a.proto:13: 17 NumberRange",
    ),
    (
        "a.proto enum E { reserved -2147483649; V = 0; }",
        "a.proto:18: 17 NumberRange",
    ),
    (
        "a.proto message M { optional int32 a = 99999999999999999999; optional int32 b = 99999999999999999999; }",
        "a.proto:31: 17 NumberRange",
    ),
    (
        "a.proto message M { optional int32 a = 010; optional int32 b = 8; }",
        "a.proto:55: 18 DuplicateNumber",
    ),
    (
        "a.proto syntax = \"proto3\"; message M { map<string,int32> a = 1; oneof o { int32 b = 0x1; } }",
        "a.proto:76: 18 DuplicateNumber",
    ),
    (
        "a.proto message M { optional int32 a = 3; reserved 1 to 4; }",
        "a.proto:31: 19 ReservedNumber",
    ),
    (
        "a.proto message M { optional int32 a = 536870911; extensions 100 to max; }",
        "a.proto:31: 19 ReservedNumber",
    ),
    (
        "a.proto message M { optional int32 a = 3; reserved 0 to 5; }",
        "a.proto:31: 19 ReservedNumber",
    ),
    (
        "a.proto message M { optional int32 a = 7; reserved 1 to 99999999999999999999; }",
        "a.proto:31: 19 ReservedNumber",
    ),
    (
        "a.proto enum E { V = -3; reserved -5 to -2; }",
        "a.proto:13: 19 ReservedNumber",
    ),
];

const NAMES_AND_TYPES: &[(&str, &str)] = &[
    (
        "a.proto message M { reserved \"a\"; optional int32 a = 1; }",
        "a.proto:41: 20 ReservedName",
    ),
    (
        "a.proto message M { reserved \"a\", \"b\"; reserved '\\141'; }",
        "a.proto:40: 20 ReservedName",
    ),
    (
        "a.proto enum E { V = 0; reserved \"W\", \"V\"; }",
        "a.proto:9: 20 ReservedName",
    ),
    (
        "a.proto message M { reserved 1 to 3, 3; }",
        "a.proto:29: 21 RangeOverlap",
    ),
    (
        "a.proto message M { reserved 10 to max; extensions 1, 536870911; }",
        "a.proto:46: 21 RangeOverlap",
    ),
    (
        "a.proto enum E { V = 0; reserved -3 to -1, -2 to -2; }",
        "a.proto:35: 21 RangeOverlap",
    ),
    (
        "a.proto enum E { option allow_alias = true; }",
        "a.proto:5: 22 EmptyEnum",
    ),
    (
        "a.proto message M { map<int32,E> m = 1; } enum E {}",
        "a.proto:39: 22 EmptyEnum",
    ),
    (
        "a.proto syntax = \"proto3\"; enum E { V = 1; }",
        "a.proto:32: 23 FirstNotZero",
    ),
    (
        "a.proto enum E { V = 1; } message M { map<int32,E> m = 1; }",
        "a.proto:40: 23 FirstNotZero",
    ),
    (
        "a.proto syntax = \"proto3\"; enum E { V = -1; W = 0; }",
        "a.proto:32: 23 FirstNotZero",
    ),
    ("a.proto message M { int32 a = 1; }", "a.proto:12: 25 Label"),
    (
        "a.proto message M { .M a = 1; oneof o { int32 b = 2; } map<int32,M> c = 3; }",
        "a.proto:12: 25 Label",
    ),
    (
        "a.proto syntax = \"proto3\"; message M { map<float,int32> m = 1; }",
        "a.proto:35: 26 BadMap",
    ),
    (
        "a.proto syntax = \"proto3\"; message M { map<bytes,int32> m = 1; }",
        "a.proto:35: 26 BadMap",
    ),
];

const OPTIONS: &[(&str, &str)] = &[
    (
        "a.proto option go_packag = \"a\";",
        "a.proto:7: 27 BadOption",
    ),
    (
        "a.proto option deprecated = true; option deprecated = true;",
        "a.proto:33: 27 BadOption",
    ),
    (
        "a.proto option java_package = true;",
        "a.proto:7: 27 BadOption",
    ),
    (
        "a.proto option deprecated = \"true\";",
        "a.proto:7: 27 BadOption",
    ),
    (
        "a.proto option optimize_for = FAST;",
        "a.proto:7: 27 BadOption",
    ),
    (
        "a.proto message M { option map_entry = true; }",
        "a.proto:19: 27 BadOption",
    ),
    (
        "a.proto enum E { V = 0 [allow_alias = true]; }",
        "a.proto:16: 27 BadOption",
    ),
    (
        "a.proto service S { option idempotency_level = IDEMPOTENT; }",
        "a.proto:19: 27 BadOption",
    ),
    (
        "a.proto message M {} service S { rpc R (M) returns (M) { option idempotency_level = NONE; } }",
        "a.proto:56: 27 BadOption",
    ),
    (
        "a.proto message M { optional int32 a = 1 [packed = true]; }",
        "a.proto:34: 27 BadOption",
    ),
    (
        "a.proto message M { repeated string a = 1 [packed = false]; }",
        "a.proto:35: 27 BadOption",
    ),
    (
        "a.proto message M { repeated bytes a = 1 [packed = true]; }",
        "a.proto:34: 27 BadOption",
    ),
    (
        "a.proto message M { repeated M a = 1 [packed = true]; }",
        "a.proto:30: 27 BadOption",
    ),
    (
        "a.proto syntax = \"proto3\"; message M { map<int32,int32> a = 1 [packed = true]; }",
        "a.proto:55: 27 BadOption",
    ),
    (
        "a.proto syntax = \"proto3\"; message M { string q = 1; string b = 2 [json_name = 3, json_name = \"q\"]; }",
        "a.proto:59: 27 BadOption",
    ),
    (
        "a.proto enum E { option allow_alias = false; A = 0; B = 0; option allow_alias = true; }",
        "a.proto:58: 27 BadOption",
    ),
    (
        "a.proto message M { optional int32 a = 1 [default = 1, default = x]; }",
        "a.proto:47: 27 BadOption",
    ),
];

const DEFAULTS: &[(&str, &str)] = &[
    (
        "a.proto message M { optional int32 a = 1 [default = 2147483648]; }",
        "a.proto:34: 28 BadDefault",
    ),
    (
        "a.proto message M { optional uint32 a = 1 [default = -1]; }",
        "a.proto:35: 28 BadDefault",
    ),
    (
        "a.proto message M { optional uint64 a = 1 [default = 18446744073709551616]; }",
        "a.proto:35: 28 BadDefault",
    ),
    (
        "a.proto message M { optional int64 a = 1 [default = -9223372036854775809]; }",
        "a.proto:34: 28 BadDefault",
    ),
    (
        "a.proto message M { optional bool a = 1 [default = 1]; }",
        "a.proto:33: 28 BadDefault",
    ),
    (
        "a.proto message M { optional string a = 1 [default = a]; }",
        "a.proto:35: 28 BadDefault",
    ),
    (
        "a.proto message M { optional double a = 1 [default = 1]; }",
        "a.proto:35: 28 BadDefault",
    ),
    (
        "a.proto message M { optional bytes a = 1 [default = \"a\"]; }",
        "a.proto:34: 28 BadDefault",
    ),
    (
        "a.proto message M { repeated int32 a = 1 [default = 1]; }",
        "a.proto:34: 28 BadDefault",
    ),
    (
        "a.proto message M { map<int32,int32> a = 1 [default = 1]; }",
        "a.proto:36: 28 BadDefault",
    ),
    (
        "a.proto message M { optional M a = 1 [default = M]; }",
        "a.proto:30: 28 BadDefault",
    ),
    (
        "a.proto message M { enum E { V = 0; } enum F { W = 0; } optional E a = 1 [default = W]; }",
        "a.proto:66: 28 BadDefault",
    ),
];

const OTHERS: &[(&str, &str)] = &[
    (
        "a.proto syntax = \"proto3\"; message M { oneof o {} }",
        "a.proto:37: 29 EmptyOneof",
    ),
    (
        "a.proto syntax = \"proto3\"; message M { string fooBar = 1; string foo_bar = 2; }",
        "a.proto:57: 30 JsonClash",
    ),
    // Many fields, of which the last has the name of the first.
    (
        "a.proto syntax = \"proto3\"; message M { int32 a_b = 1; int32 c = 2; int32 d = 3; int32 e = 4; int32 f = 5; int32 g = 6; int32 h = 7; int32 i = 8; int32 j = 9; int32 k = 10; int32 l = 11; int32 m = 12; int32 n = 13; int32 o = 14; int32 p = 15; int32 q = 16; int32 r = 17; int32 s = 18; int32 t = 19; int32 aB = 20; }",
        "a.proto:296: 30 JsonClash",
    ),
    // Three words, of which the first is a name of its own.
    (
        "a.proto syntax = \"proto3\"; message M { int32 foobar = 1; int32 foo__bar = 2; int32 fooBar = 3; }",
        "a.proto:75: 30 JsonClash",
    ),
    (
        "a.proto syntax = \"proto3\"; message M { string a = 1; string a_ = 2 [json_name = 3]; }",
        "a.proto:52: 30 JsonClash",
    ),
    (
        "a.proto syntax = \"proto3\"; message M { string x = 1; string b = 2 [json_name = \"x\", json_name = \"q\"]; }",
        "a.proto:52: 30 JsonClash",
    ),
    (
        "a.proto syntax = \"proto3\"; message M { required string a = 1; }",
        "a.proto:31: 31 NotInProto3",
    ),
    (
        "a.proto syntax = \"proto3\"; message M { string a = 1 [default = \"a\"]; }",
        "a.proto:45: 31 NotInProto3",
    ),
    (
        "a.proto syntax = \"proto3\"; message M { extensions 1; }",
        "a.proto:31: 31 NotInProto3",
    ),
    (
        "a.proto enum E { A = 0; B = -0; }",
        "a.proto:20: 32 AliasNotAllowed",
    ),
    (
        "a.proto enum E { option allow_alias = false; A = 1; B = 0x1; }",
        "a.proto:48: 32 AliasNotAllowed",
    ),
];

// An extension is asked as a field, but for its name, its JSON name and the numbers of others.
const EXTENSIONS: &[(&str, &str)] = &[
    (
        "a.proto message M { extensions 1 to max; } extend M { optional int32 x = 0; }",
        "a.proto:65: 17 NumberRange",
    ),
    (
        "a.proto message M { extensions 1 to max; } extend M { repeated M x = 536870912; }",
        "a.proto:61: 17 NumberRange",
    ),
    (
        "a.proto message M { extensions 1 to max; extend M { optional int32 x = 19000; } }",
        "a.proto:63: 17 NumberRange",
    ),
    (
        "a.proto message M { extensions 1; } extend M { M x = 1; }",
        "a.proto:39: 25 Label",
    ),
    (
        "a.proto message M { extensions 1; } extend M { required int32 x = 1; }",
        "a.proto:39: 38 RequiredExtension",
    ),
    (
        "a.proto message M { extensions 1; extend M { required int32 x = 0; } }",
        "a.proto:37: 38 RequiredExtension",
    ),
    (
        "a.proto message M { extensions 1; } extend M { optional int32 x = 1 [json_name = \"y\"]; }",
        "a.proto:61: 27 BadOption",
    ),
    (
        "a.proto message M { extensions 1; } extend M { optional int32 x = 1 [packed = true]; }",
        "a.proto:61: 27 BadOption",
    ),
    (
        "a.proto message M { extensions 1; } extend M { optional int32 x = 1 [deprecated = true, deprecated = true]; }",
        "a.proto:80: 27 BadOption",
    ),
    (
        "a.proto message M { extensions 1; } extend M { optional int32 x = 1 [default = 2147483648]; }",
        "a.proto:61: 28 BadDefault",
    ),
    (
        "a.proto message M { reserved 2 to 9; reserved \"x\"; extensions 1; } extend M { optional int32 x = 1 [packed = true]; }",
        "a.proto:92: 27 BadOption",
    ),
    (
        "a.proto message N { extensions 1; } message M { extensions 1; extend M { optional int32 x = 1; } extend N { optional int32 y = 1 [packed = true]; } }",
        "a.proto:122: 27 BadOption",
    ),
    (
        "a.proto syntax = \"proto3\"; message M {} extend M { required int32 x = 0; }",
        "a.proto:32: 31 NotInProto3",
    ),
    (
        "a.proto syntax = \"proto3\"; message M { extend M { int32 x = 1 [default = 1]; } }",
        "a.proto:31: 31 NotInProto3",
    ),
];

#[test]
fn numbers_are_refused_at_their_place(rt: HostRuntime) {
    expect_answers(&rt, NUMBERS);
}

#[test]
fn names_ranges_enums_and_maps_are_refused_at_their_place(rt: HostRuntime) {
    expect_answers(&rt, NAMES_AND_TYPES);
}

#[test]
fn options_are_refused_at_their_place(rt: HostRuntime) {
    expect_answers(&rt, OPTIONS);
}

#[test]
fn defaults_are_refused_at_their_place(rt: HostRuntime) {
    expect_answers(&rt, DEFAULTS);
}

#[test]
fn other_faults_stand_at_their_place(rt: HostRuntime) {
    expect_answers(&rt, OTHERS);
}

#[test]
fn extensions_are_refused_at_their_place(rt: HostRuntime) {
    expect_answers(&rt, EXTENSIONS);
}

const FAULTS_OF_TWO: &[(&str, &str)] = &[
    // An enum of a proto2 file is closed.
    (
        "a.proto enum E { V = 0; }|b.proto syntax = \"proto3\"; import \"a.proto\"; message M { repeated int32 a = 1; E e = 2; }",
        "b.proto:71: 24 ClosedEnum",
    ),
    (
        "a.proto enum E { V = 0; }|b.proto syntax = \"proto3\"; import \"a.proto\"; message M { map<int32,E> m = 1; }",
        "b.proto:59: 24 ClosedEnum",
    ),
    // An earlier phase comes first.
    (
        "a.proto message M { int32 a = 0; }|b.proto message N { optional X x = 1; }",
        "b.proto:21: 14 Unresolved",
    ),
    (
        "a.proto message {|b.proto message N { optional int32 x = 1x; }",
        "b.proto:31: 7 BadNumber",
    ),
    // In one phase, the first path.
    (
        "b.proto enum E {}|a.proto message M { optional int32 a = 1; oneof o {} }",
        "a.proto:40: 29 EmptyOneof",
    ),
];

#[test]
fn the_least_fault_of_two_files(rt: HostRuntime) {
    expect_answers(&rt, FAULTS_OF_TWO);
}
