//! Rows that tests of refused allocations and of counts try, by the rules of docs/edits.md. Places are counted in the texts.
//! All others are data of `protoref_rows`.

use super::calls::Flat;
use protoref_test_cases::Texts;

pub(crate) const ONE: Texts<'static> = &[(
    "a.proto",
    "syntax = \"proto3\"; message A { string b_c = 1; }",
)];

pub(crate) const DONE: Texts<'static> = &[(
    "a.proto",
    "syntax = \"proto3\"; message A { string d_e = 1; }",
)];

/// A field.
pub(crate) const FIELD: Flat = [
    "a.proto syntax = \"proto3\"; message A { string b_c = 1; }",
    "rename A.b_c d_e > a.proto 48 48 (38 b_c d_e);",
    "a.proto syntax = \"proto3\"; message A { string d_e = 1; }",
    "{\"file\":[{\"messageType\":[{\"field\":[{\"jsonName\":\"dE\",\"label\":\"LABEL_OPTIONAL\",\"name\":\"d_e\",\"number\":1,\"type\":\"TYPE_STRING\"}],\"name\":\"A\"}],\"name\":\"a.proto\",\"syntax\":\"proto3\"}]}",
];

/// A value that is a default.
pub(crate) const VALUE: Flat = [
    "a.proto message M { enum E { V = 0; } optional E e = 1 [default = V]; } message N { enum F { V = 0; } optional F f = 1 [default = V]; }",
    "rename M.V W > a.proto 127 127 (21 V W) (58 V W);",
    "a.proto message M { enum E { W = 0; } optional E e = 1 [default = W]; } message N { enum F { V = 0; } optional F f = 1 [default = V]; }",
    "[{\"enumType\":[{\"name\":\"E\",\"value\":[{\"name\":\"W\",\"number\":0}]}],\"field\":[{\"defaultValue\":\"W\",\"jsonName\":\"e\",\"label\":\"LABEL_OPTIONAL\",\"name\":\"e\",\"number\":1,\"type\":\"TYPE_ENUM\",\"typeName\":\".M.E\"}],\"name\":\"M\"},{\"enumType\":[{\"name\":\"F\",\"value\":[{\"name\":\"V\",\"number\":0}]}],\"field\":[{\"defaultValue\":\"V\",",
];

/// A message that two other files use.
pub(crate) const WIDE: Flat = [
    "a.proto syntax = \"proto3\"; message M {}|b.proto syntax = \"proto3\"; import \"a.proto\"; message B { M m = 1; }|c.proto syntax = \"proto3\"; import \"a.proto\"; message C { M m = 1; }",
    "rename M N > a.proto 31 31 (27 M N);b.proto 59 59 (49 M N);c.proto 59 59 (49 M N);",
    "a.proto syntax = \"proto3\"; message N {}|b.proto syntax = \"proto3\"; import \"a.proto\"; message B { N m = 1; }|c.proto syntax = \"proto3\"; import \"a.proto\"; message C { N m = 1; }",
    "\"typeName\":\".N\"}],\"name\":\"C\"",
];

/// A map field, whose entry is renamed with it.
pub(crate) const FIRST_MAP: Flat = [
    "a.proto syntax = \"proto3\"; message M { map<string,int32> foo = 1; }",
    "rename M.foo FooEntry > a.proto 59 64 (49 foo FooEntry);",
    "a.proto syntax = \"proto3\"; message M { map<string,int32> FooEntry = 1; }",
    "{\"field\":[{\"jsonName\":\"FooEntry\",\"label\":\"LABEL_REPEATED\",\"name\":\"FooEntry\",\"number\":1,\"type\":\"TYPE_MESSAGE\",\"typeName\":\".M.FooEntryEntry\"}],\"name\":\"M\",\"nestedType\":[{\"field\":[{\"jsonName\":\"key\",\"label\":\"LABEL_OPTIONAL\",\"name\":\"key\",\"number\":1,\"type\":\"TYPE_STRING\"},{\"jsonName\":\"value\",\"label\":\"LABEL_OPTIONAL\",\"name\":\"value\",\"number\":2,\"type\":\"TYPE_INT32\"}],\"name\":\"FooEntryEntry\",\"options\":{\"mapEntry\":true}}]}",
];

/// A field of a oneof, and the last one, which stays.
pub(crate) const ONEOF: Flat = [
    "a.proto syntax = \"proto3\"; message M { oneof o { string a = 1; int32 b = 2; } }",
    "delete M.o > 2 KindNotAllowed|delete M.a > a.proto 71 84 (41 string a = 1; int32 b = 2; }  int32 b = 2; } reserved 1; reserved \"a\";);|delete M.b > 10 LastOfOneof",
    "a.proto syntax = \"proto3\"; message M { oneof o {  int32 b = 2; } reserved 1; reserved \"a\"; }",
    "\"oneofDecl\":[{\"name\":\"o\"}],\"reservedName\":[\"a\"],\"reservedRange\":[{\"end\":2,\"start\":1}]",
];

/// A field outside of a oneof, with what refuses others before.
pub(crate) const PLAIN: Flat = [
    "a.proto syntax = \"proto3\"; message A { string b_c = 1; }",
    "delete A > 2 KindNotAllowed|delete A.q > 1 UnknownTarget|delete .A.b_c > 1 UnknownTarget|delete A.b_c > a.proto 48 60 (31 string b_c = 1; reserved 1; reserved \"b_c\";);",
    "a.proto syntax = \"proto3\"; message A { reserved 1; reserved \"b_c\"; }",
    "{\"file\":[{\"messageType\":[{\"name\":\"A\",\"reservedName\":[\"b_c\"],\"reservedRange\":[{\"end\":2,\"start\":1}]}],\"name\":\"a.proto\",\"syntax\":\"proto3\"}]}",
];

/// An import added and dropped, with what refuses others between.
pub(crate) const IMPORT: Flat = [
    "a.proto syntax = \"proto3\"; message A { string b_c = 1; }|b.proto",
    "add a.proto b.proto > a.proto 48 66 (18  \nimport \"b.proto\";);|add a.proto b.proto > 12 AlreadyImported|add b.proto a.proto > 14 Cycle|drop a.proto b.proto > a.proto 66 49 (19 import \"b.proto\"; );",
    "a.proto syntax = \"proto3\";\n message A { string b_c = 1; }|b.proto",
    "",
];

/// An import added to an empty file.
pub(crate) const EMPTY: Flat = [
    "a.proto|b.proto",
    "add a.proto b.proto > a.proto 0 18 (0  import \"b.proto\";\n);",
    "a.proto import \"b.proto\";\n|b.proto",
    "{\"dependency\":[\"b.proto\"],\"name\":\"a.proto\"}",
];
