//! What files as written are answered, beside what they are in the core language: weak imports, options, `extend` in proto3, one
//! extension number in two files, and the elements of custom options.

use crate::calls::{answer_in, expect_text, given_files};
use proto_base::Profile;
use std::process::Abort;

/// Files with weak imports, with the answers in the core language and as written.
const WEAK_IMPORTS: &[(&str, &str, &str)] = &[
    (
        "a.proto import public \"d.proto\"; import weak \"c.proto\"; import weak \"b.proto\"; message M { optional B b = 1; }|b.proto message B {}|c.proto |d.proto ",
        "a.proto:25: 8 Syntax",
        "{\"file\":[{\"dependency\":[\"d.proto\",\"c.proto\",\"b.proto\"],\"messageType\":[{\"field\":[{\"jsonName\":\"b\",\"label\":\"LABEL_OPTIONAL\",\"name\":\"b\",\"number\":1,\"type\":\"TYPE_MESSAGE\",\"typeName\":\".B\"}],\"name\":\"M\"}],\"name\":\"a.proto\",\"publicDependency\":[0],\"weakDependency\":[1,2]},{\"messageType\":[{\"name\":\"B\"}],\"name\":\"b.proto\"},{\"name\":\"c.proto\"},{\"name\":\"d.proto\"}]}",
    ),
    (
        "a.proto import \"b.proto\"; message M { optional C c = 1; }|b.proto import weak \"c.proto\";|c.proto message C {}",
        "b.proto:0: 8 Syntax",
        "a.proto:39: 14 Unresolved",
    ),
    (
        "a.proto import weak \"b.proto\";|b.proto import weak \"a.proto\";",
        "a.proto:0: 8 Syntax",
        "a.proto:12: 12 ImportCycle",
    ),
    (
        "a.proto import weak \"b.proto\";",
        "a.proto:0: 8 Syntax",
        "a.proto:12: 10 UnknownImport",
    ),
    (
        "a.proto import public weak \"b.proto\";|b.proto ",
        "a.proto:0: 8 Syntax",
        "a.proto:0: 8 Syntax",
    ),
    (
        "a.proto import weak public \"b.proto\";|b.proto ",
        "a.proto:0: 8 Syntax",
        "a.proto:0: 8 Syntax",
    ),
    (
        "a.proto message weak { optional .weak weak = 1; }",
        "{\"file\":[{\"messageType\":[{\"field\":[{\"jsonName\":\"weak\",\"label\":\"LABEL_OPTIONAL\",\"name\":\"weak\",\"number\":1,\"type\":\"TYPE_MESSAGE\",\"typeName\":\".weak\"}],\"name\":\"weak\"}],\"name\":\"a.proto\"}]}",
        "{\"file\":[{\"messageType\":[{\"field\":[{\"jsonName\":\"weak\",\"label\":\"LABEL_OPTIONAL\",\"name\":\"weak\",\"number\":1,\"type\":\"TYPE_MESSAGE\",\"typeName\":\".weak\"}],\"name\":\"weak\"}],\"name\":\"a.proto\"}]}",
    ),
];

/// Files with plain options of files, messages and values, with the answers in the core language and as written.
const PLAIN_OPTIONS: &[(&str, &str, &str)] = &[
    // Options of a file.
    (
        "a.proto syntax = \"proto3\"; option ruby_package = \"R\" \"\\\\b\";",
        "a.proto:26: 27 BadOption",
        "{\"file\":[{\"name\":\"a.proto\",\"options\":{\"rubyPackage\":\"R\\\\b\"},\"syntax\":\"proto3\"}]}",
    ),
    (
        "a.proto option java_generic_services = true; option java_generate_equals_and_hash = false;",
        "a.proto:7: 27 BadOption",
        "{\"file\":[{\"name\":\"a.proto\",\"options\":{\"javaGenerateEqualsAndHash\":false,\"javaGenericServices\":true}}]}",
    ),
    (
        "a.proto option ruby_package = true;",
        "a.proto:7: 27 BadOption",
        "a.proto:7: 27 BadOption",
    ),
    (
        "a.proto option java_generic_services = \"true\";",
        "a.proto:7: 27 BadOption",
        "a.proto:7: 27 BadOption",
    ),
    (
        "a.proto option java_generate_equals_and_hash = yes;",
        "a.proto:7: 27 BadOption",
        "a.proto:7: 27 BadOption",
    ),
    (
        "a.proto message M { option ruby_package = \"R\"; }",
        "a.proto:19: 27 BadOption",
        "a.proto:19: 27 BadOption",
    ),
    (
        "a.proto option ctype = CORD;",
        "a.proto:7: 27 BadOption",
        "a.proto:7: 27 BadOption",
    ),
    (
        "a.proto option ruby_package = \"R\"; option ruby_package = \"R\";",
        "a.proto:7: 27 BadOption",
        "a.proto:34: 27 BadOption",
    ),
    (
        "a.proto option swift_prefix = \"S\"; option php_class_prefix = \"P\" \"Q\"; option php_metadata_namespace = \"N\"; option java_string_check_utf8 = true; option cc_generic_services = false; option py_generic_services = true; option php_generic_services = false;",
        "a.proto:7: 27 BadOption",
        "{\"file\":[{\"name\":\"a.proto\",\"options\":{\"ccGenericServices\":false,\"javaStringCheckUtf8\":true,\"phpClassPrefix\":\"PQ\",\"phpGenericServices\":false,\"phpMetadataNamespace\":\"N\",\"pyGenericServices\":true,\"swiftPrefix\":\"S\"}}]}",
    ),
    (
        "a.proto option swift_prefix = S;",
        "a.proto:7: 27 BadOption",
        "a.proto:7: 27 BadOption",
    ),
    (
        "a.proto option php_class_prefix = 1;",
        "a.proto:7: 27 BadOption",
        "a.proto:7: 27 BadOption",
    ),
    (
        "a.proto option php_metadata_namespace = true;",
        "a.proto:7: 27 BadOption",
        "a.proto:7: 27 BadOption",
    ),
    (
        "a.proto option java_string_check_utf8 = \"true\";",
        "a.proto:7: 27 BadOption",
        "a.proto:7: 27 BadOption",
    ),
    (
        "a.proto option cc_generic_services = yes;",
        "a.proto:7: 27 BadOption",
        "a.proto:7: 27 BadOption",
    ),
    (
        "a.proto option py_generic_services = 1;",
        "a.proto:7: 27 BadOption",
        "a.proto:7: 27 BadOption",
    ),
    (
        "a.proto option php_generic_services = True;",
        "a.proto:7: 27 BadOption",
        "a.proto:7: 27 BadOption",
    ),
    (
        "a.proto option jstype = JS_STRING;",
        "a.proto:7: 27 BadOption",
        "a.proto:7: 27 BadOption",
    ),
    (
        "a.proto option no_standard_descriptor_accessor = true;",
        "a.proto:7: 27 BadOption",
        "a.proto:7: 27 BadOption",
    ),
    // Options of messages.
    (
        "a.proto message M { option no_standard_descriptor_accessor = true; option deprecated = false; }",
        "a.proto:19: 27 BadOption",
        "{\"file\":[{\"messageType\":[{\"name\":\"M\",\"options\":{\"deprecated\":false,\"noStandardDescriptorAccessor\":true}}],\"name\":\"a.proto\"}]}",
    ),
    (
        "a.proto message M { option no_standard_descriptor_accessor = 1; }",
        "a.proto:19: 27 BadOption",
        "a.proto:19: 27 BadOption",
    ),
    (
        "a.proto message M { option message_set_wire_format = false; }",
        "a.proto:19: 27 BadOption",
        "a.proto:19: 27 BadOption",
    ),
    (
        "a.proto message M { option swift_prefix = \"S\"; }",
        "a.proto:19: 27 BadOption",
        "a.proto:19: 27 BadOption",
    ),
    (
        "a.proto message M { option weak = true; }",
        "a.proto:19: 27 BadOption",
        "a.proto:19: 27 BadOption",
    ),
];

/// The same with plain options of fields.
const FIELD_OPTIONS: &[(&str, &str, &str)] = &[
    // Options of fields and extensions.
    (
        "a.proto message M { optional string a = 1 [ctype = CORD, deprecated = true]; repeated bytes b = 2 [ctype = STRING_PIECE]; oneof o { int32 c = 3 [ctype = STRING]; } extensions 4; } extend M { optional string x = 4 [ctype = CORD]; }",
        "a.proto:35: 27 BadOption",
        "{\"file\":[{\"extension\":[{\"extendee\":\".M\",\"label\":\"LABEL_OPTIONAL\",\"name\":\"x\",\"number\":4,\"options\":{\"ctype\":\"CORD\"},\"type\":\"TYPE_STRING\"}],\"messageType\":[{\"extensionRange\":[{\"end\":5,\"start\":4}],\"field\":[{\"jsonName\":\"a\",\"label\":\"LABEL_OPTIONAL\",\"name\":\"a\",\"number\":1,\"options\":{\"ctype\":\"CORD\",\"deprecated\":true},\"type\":\"TYPE_STRING\"},{\"jsonName\":\"b\",\"label\":\"LABEL_REPEATED\",\"name\":\"b\",\"number\":2,\"options\":{\"ctype\":\"STRING_PIECE\"},\"type\":\"TYPE_BYTES\"},{\"jsonName\":\"c\",\"label\":\"LABEL_OPTIONAL\",\"name\":\"c\",\"number\":3,\"oneofIndex\":0,\"options\":{\"ctype\":\"STRING\"},\"type\":\"TYPE_INT32\"}],\"name\":\"M\",\"oneofDecl\":[{\"name\":\"o\"}]}],\"name\":\"a.proto\"}]}",
    ),
    (
        "a.proto message M { optional string a = 1 [ctype = STRINGPIECE]; }",
        "a.proto:35: 27 BadOption",
        "a.proto:35: 27 BadOption",
    ),
    (
        "a.proto message M { optional string a = 1 [ctype = \"CORD\"]; }",
        "a.proto:35: 27 BadOption",
        "a.proto:35: 27 BadOption",
    ),
    (
        "a.proto message M { optional string a = 1 [ctype = 1]; }",
        "a.proto:35: 27 BadOption",
        "a.proto:35: 27 BadOption",
    ),
    (
        "a.proto enum E { V = 0 [ctype = CORD]; }",
        "a.proto:16: 27 BadOption",
        "a.proto:16: 27 BadOption",
    ),
    (
        "a.proto message M { extensions 1; } extend M { optional string x = 1 [ctype = cord]; }",
        "a.proto:62: 27 BadOption",
        "a.proto:62: 27 BadOption",
    ),
    (
        "a.proto message M { optional int64 a = 1 [jstype = JS_STRING, weak = true]; repeated sfixed64 b = 2 [jstype = JS_NUMBER, packed = true]; optional bool c = 3 [jstype = JS_NORMAL, lazy = false]; optional M d = 4 [lazy = true, weak = false]; map<int32, int32> e = 5 [unverified_lazy = true]; oneof o { fixed64 f = 6 [jstype = JS_STRING]; E g = 7 [unverified_lazy = false, deprecated = true]; } extensions 8; } extend M { repeated M x = 8 [lazy = true, unverified_lazy = true]; } enum E { V = 0; }",
        "a.proto:34: 27 BadOption",
        "{\"file\":[{\"enumType\":[{\"name\":\"E\",\"value\":[{\"name\":\"V\",\"number\":0}]}],\"extension\":[{\"extendee\":\".M\",\"label\":\"LABEL_REPEATED\",\"name\":\"x\",\"number\":8,\"options\":{\"lazy\":true,\"unverifiedLazy\":true},\"type\":\"TYPE_MESSAGE\",\"typeName\":\".M\"}],\"messageType\":[{\"extensionRange\":[{\"end\":9,\"start\":8}],\"field\":[{\"jsonName\":\"a\",\"label\":\"LABEL_OPTIONAL\",\"name\":\"a\",\"number\":1,\"options\":{\"jstype\":\"JS_STRING\",\"weak\":true},\"type\":\"TYPE_INT64\"},{\"jsonName\":\"b\",\"label\":\"LABEL_REPEATED\",\"name\":\"b\",\"number\":2,\"options\":{\"jstype\":\"JS_NUMBER\",\"packed\":true},\"type\":\"TYPE_SFIXED64\"},{\"jsonName\":\"c\",\"label\":\"LABEL_OPTIONAL\",\"name\":\"c\",\"number\":3,\"options\":{\"jstype\":\"JS_NORMAL\",\"lazy\":false},\"type\":\"TYPE_BOOL\"},{\"jsonName\":\"d\",\"label\":\"LABEL_OPTIONAL\",\"name\":\"d\",\"number\":4,\"options\":{\"lazy\":true,\"weak\":false},\"type\":\"TYPE_MESSAGE\",\"typeName\":\".M\"},{\"jsonName\":\"e\",\"label\":\"LABEL_REPEATED\",\"name\":\"e\",\"number\":5,\"options\":{\"unverifiedLazy\":true},\"type\":\"TYPE_MESSAGE\",\"typeName\":\".M.EEntry\"},{\"jsonName\":\"f\",\"label\":\"LABEL_OPTIONAL\",\"name\":\"f\",\"number\":6,\"oneofIndex\":0,\"options\":{\"jstype\":\"JS_STRING\"},\"type\":\"TYPE_FIXED64\"},{\"jsonName\":\"g\",\"label\":\"LABEL_OPTIONAL\",\"name\":\"g\",\"number\":7,\"oneofIndex\":0,\"options\":{\"deprecated\":true,\"unverifiedLazy\":false},\"type\":\"TYPE_ENUM\",\"typeName\":\".E\"}],\"name\":\"M\",\"nestedType\":[{\"field\":[{\"jsonName\":\"key\",\"label\":\"LABEL_OPTIONAL\",\"name\":\"key\",\"number\":1,\"type\":\"TYPE_INT32\"},{\"jsonName\":\"value\",\"label\":\"LABEL_OPTIONAL\",\"name\":\"value\",\"number\":2,\"type\":\"TYPE_INT32\"}],\"name\":\"EEntry\",\"options\":{\"mapEntry\":true}}],\"oneofDecl\":[{\"name\":\"o\"}]}],\"name\":\"a.proto\"}]}",
    ),
    (
        "a.proto message M { optional int32 a = 1 [jstype = JS_STRING]; }",
        "a.proto:34: 27 BadOption",
        "a.proto:34: 27 BadOption",
    ),
    (
        "a.proto message M { optional string a = 1 [jstype = JS_NUMBER]; }",
        "a.proto:35: 27 BadOption",
        "a.proto:35: 27 BadOption",
    ),
    (
        "a.proto message M { map<int64, int64> a = 1 [jstype = JS_STRING]; }",
        "a.proto:37: 27 BadOption",
        "a.proto:37: 27 BadOption",
    ),
    (
        "a.proto message M { optional M a = 1 [jstype = JS_NUMBER]; }",
        "a.proto:30: 27 BadOption",
        "a.proto:30: 27 BadOption",
    ),
    (
        "a.proto message M { optional int64 a = 1 [jstype = STRING]; }",
        "a.proto:34: 27 BadOption",
        "a.proto:34: 27 BadOption",
    ),
    (
        "a.proto message M { optional int64 a = 1 [jstype = \"JS_STRING\"]; }",
        "a.proto:34: 27 BadOption",
        "a.proto:34: 27 BadOption",
    ),
    (
        "a.proto message M { optional bytes a = 1 [lazy = true]; }",
        "a.proto:34: 27 BadOption",
        "a.proto:34: 27 BadOption",
    ),
    (
        "a.proto message M { optional E a = 1 [unverified_lazy = true]; } enum E { V = 0; }",
        "a.proto:30: 27 BadOption",
        "a.proto:30: 27 BadOption",
    ),
    (
        "a.proto message M { optional M a = 1 [lazy = 1]; }",
        "a.proto:30: 27 BadOption",
        "a.proto:30: 27 BadOption",
    ),
    (
        "a.proto message M { optional M a = 1 [weak = \"true\"]; }",
        "a.proto:30: 27 BadOption",
        "a.proto:30: 27 BadOption",
    ),
    (
        "a.proto message M { optional M a = 1 [lazy = true, lazy = true]; }",
        "a.proto:30: 27 BadOption",
        "a.proto:43: 27 BadOption",
    ),
    (
        "a.proto message M { extensions 1; } extend M { optional uint32 x = 1 [jstype = JS_NUMBER]; }",
        "a.proto:62: 27 BadOption",
        "a.proto:62: 27 BadOption",
    ),
    (
        "a.proto enum E { V = 0 [weak = true]; }",
        "a.proto:16: 27 BadOption",
        "a.proto:16: 27 BadOption",
    ),
];

/// The same with extensions.
const EXTENSIONS: &[(&str, &str, &str)] = &[
    // `extend` in proto3.
    (
        "a.proto syntax = \"proto3\"; import \"b.proto\"; extend google.protobuf.FieldOptions { int32 x = 1; optional google.protobuf.FieldOptions y = 2; repeated string z = 3; }|b.proto package google.protobuf; message FieldOptions { extensions 1 to 9; } enum E { V = 0; }",
        "a.proto:37: 31 NotInProto3",
        "{\"file\":[{\"dependency\":[\"b.proto\"],\"extension\":[{\"extendee\":\".google.protobuf.FieldOptions\",\"label\":\"LABEL_OPTIONAL\",\"name\":\"x\",\"number\":1,\"type\":\"TYPE_INT32\"},{\"extendee\":\".google.protobuf.FieldOptions\",\"label\":\"LABEL_OPTIONAL\",\"name\":\"y\",\"number\":2,\"proto3Optional\":true,\"type\":\"TYPE_MESSAGE\",\"typeName\":\".google.protobuf.FieldOptions\"},{\"extendee\":\".google.protobuf.FieldOptions\",\"label\":\"LABEL_REPEATED\",\"name\":\"z\",\"number\":3,\"type\":\"TYPE_STRING\"}],\"name\":\"a.proto\",\"syntax\":\"proto3\"},{\"enumType\":[{\"name\":\"E\",\"value\":[{\"name\":\"V\",\"number\":0}]}],\"messageType\":[{\"extensionRange\":[{\"end\":10,\"start\":1}],\"name\":\"FieldOptions\"}],\"name\":\"b.proto\",\"package\":\"google.protobuf\"}]}",
    ),
    (
        "a.proto syntax = \"proto3\"; import \"b.proto\"; message N { extend google.protobuf.FieldOptions { int32 x = 1; } }|b.proto package google.protobuf; message FieldOptions { extensions 1 to 9; } enum E { V = 0; }",
        "a.proto:49: 31 NotInProto3",
        "{\"file\":[{\"dependency\":[\"b.proto\"],\"messageType\":[{\"extension\":[{\"extendee\":\".google.protobuf.FieldOptions\",\"label\":\"LABEL_OPTIONAL\",\"name\":\"x\",\"number\":1,\"type\":\"TYPE_INT32\"}],\"name\":\"N\"}],\"name\":\"a.proto\",\"syntax\":\"proto3\"},{\"enumType\":[{\"name\":\"E\",\"value\":[{\"name\":\"V\",\"number\":0}]}],\"messageType\":[{\"extensionRange\":[{\"end\":10,\"start\":1}],\"name\":\"FieldOptions\"}],\"name\":\"b.proto\",\"package\":\"google.protobuf\"}]}",
    ),
    (
        "a.proto syntax = \"proto3\"; import \"b.proto\"; extend google.protobuf.FieldOptions { required int32 x = 1; }|b.proto package google.protobuf; message FieldOptions { extensions 1 to 9; } enum E { V = 0; }",
        "a.proto:37: 31 NotInProto3",
        "a.proto:75: 31 NotInProto3",
    ),
    (
        "a.proto syntax = \"proto3\"; import \"b.proto\"; extend google.protobuf.FieldOptions { int32 x = 1 [default = 1]; }|b.proto package google.protobuf; message FieldOptions { extensions 1 to 9; } enum E { V = 0; }",
        "a.proto:37: 31 NotInProto3",
        "a.proto:88: 31 NotInProto3",
    ),
    (
        "a.proto syntax = \"proto3\"; import \"b.proto\"; extend google.protobuf.FieldOptions { google.protobuf.E x = 1; }|b.proto package google.protobuf; message FieldOptions { extensions 1 to 9; } enum E { V = 0; }",
        "a.proto:37: 31 NotInProto3",
        "a.proto:75: 24 ClosedEnum",
    ),
    (
        "a.proto syntax = \"proto3\"; import \"b.proto\"; extend google.protobuf.FieldOptions { int32 x = 10; }|b.proto package google.protobuf; message FieldOptions { extensions 1 to 9; } enum E { V = 0; }",
        "a.proto:37: 31 NotInProto3",
        "a.proto:85: 36 NotExtendable",
    ),
    (
        "a.proto syntax = \"proto3\"; import \"b.proto\"; extend google.protobuf.FieldOptions { int32 x = 0; }|b.proto package google.protobuf; message FieldOptions { extensions 1 to 9; } enum E { V = 0; }",
        "a.proto:37: 31 NotInProto3",
        "a.proto:85: 17 NumberRange",
    ),
    (
        "a.proto syntax = \"proto3\"; import \"b.proto\"; extend google.protobuf.FieldOptions { int32 x = 1 [packed = true]; }|b.proto package google.protobuf; message FieldOptions { extensions 1 to 9; } enum E { V = 0; }",
        "a.proto:37: 31 NotInProto3",
        "a.proto:88: 27 BadOption",
    ),
    // Of other messages, and of one of the options messages below a message.
    (
        "a.proto syntax = \"proto3\"; import \"b.proto\"; extend M { int32 x = 1; }|b.proto message M { extensions 1; }",
        "a.proto:37: 31 NotInProto3",
        "a.proto:37: 31 NotInProto3",
    ),
    (
        "a.proto syntax = \"proto3\"; import \"b.proto\"; extend google.protobuf.M { int32 x = 1; }|b.proto package google.protobuf; message M { extensions 1; }",
        "a.proto:37: 31 NotInProto3",
        "a.proto:37: 31 NotInProto3",
    ),
    (
        "a.proto syntax = \"proto3\"; import \"b.proto\"; extend FieldOptions { int32 x = 1; }|b.proto message FieldOptions { extensions 1; }",
        "a.proto:37: 31 NotInProto3",
        "a.proto:37: 31 NotInProto3",
    ),
    (
        "a.proto syntax = \"proto3\"; import \"b.proto\"; extend proto2.FileOptions { int32 x = 1; }|b.proto package proto2; message FileOptions { extensions 1; }",
        "a.proto:37: 31 NotInProto3",
        "a.proto:37: 31 NotInProto3",
    ),
    (
        "a.proto syntax = \"proto3\"; import \"b.proto\"; extend google.protobuf.ExtensionRangeOptions { int32 x = 1; }|b.proto package google; message protobuf { message ExtensionRangeOptions { extensions 1; } }",
        "a.proto:37: 31 NotInProto3",
        "{\"file\":[{\"dependency\":[\"b.proto\"],\"extension\":[{\"extendee\":\".google.protobuf.ExtensionRangeOptions\",\"label\":\"LABEL_OPTIONAL\",\"name\":\"x\",\"number\":1,\"type\":\"TYPE_INT32\"}],\"name\":\"a.proto\",\"syntax\":\"proto3\"},{\"messageType\":[{\"name\":\"protobuf\",\"nestedType\":[{\"extensionRange\":[{\"end\":2,\"start\":1}],\"name\":\"ExtensionRangeOptions\"}]}],\"name\":\"b.proto\",\"package\":\"google\"}]}",
    ),
    (
        "a.proto syntax = \"proto3\"; message M { extensions 1; }",
        "a.proto:31: 31 NotInProto3",
        "a.proto:31: 31 NotInProto3",
    ),
    // One number in two files, and in one.
    (
        "a.proto message M { extensions 1; } extend M { optional int32 x = 1; }|b.proto import \"a.proto\"; extend M { optional int32 y = 1; }",
        "b.proto:48: 37 DuplicateExtension",
        "{\"file\":[{\"extension\":[{\"extendee\":\".M\",\"label\":\"LABEL_OPTIONAL\",\"name\":\"x\",\"number\":1,\"type\":\"TYPE_INT32\"}],\"messageType\":[{\"extensionRange\":[{\"end\":2,\"start\":1}],\"name\":\"M\"}],\"name\":\"a.proto\"},{\"dependency\":[\"a.proto\"],\"extension\":[{\"extendee\":\".M\",\"label\":\"LABEL_OPTIONAL\",\"name\":\"y\",\"number\":1,\"type\":\"TYPE_INT32\"}],\"name\":\"b.proto\"}]}",
    ),
    (
        "a.proto message M { extensions 1; } extend M { optional int32 x = 1; }|b.proto import \"a.proto\"; extend M { optional int32 y = 1; } message N { extend M { optional int32 z = 1; } }",
        "b.proto:48: 37 DuplicateExtension",
        "b.proto:95: 37 DuplicateExtension",
    ),
];

/// Files with custom options, of their elements and of others, with the answers in the core language and as written;
/// protoc refuses the same files.
const FIRST_ELEMENTS: &[(&str, &str, &str)] = &[
    // Of each element, and of all but one each its own.
    (
        "c.proto import \"d.proto\"; package p; extend google.protobuf.FileOptions { optional bool f = 1000; } extend google.protobuf.MessageOptions { optional bool m = 1000; } extend google.protobuf.FieldOptions { optional bool x = 1000; } extend google.protobuf.OneofOptions { optional bool o = 1000; } extend google.protobuf.EnumOptions { optional bool e = 1000; } extend google.protobuf.EnumValueOptions { optional bool v = 1000; } extend google.protobuf.ServiceOptions { optional bool s = 1000; } extend google.protobuf.MethodOptions { optional bool r = 1000; }|a.proto import \"c.proto\"; import \"b.proto\"; option (p.f) = true; message M { option (p.m) = true; optional int32 a = 1 [(p.x) = true]; map<int32, int32> b = 2 [(p.x) = true]; oneof y { option (p.o) = true; int32 c = 3 [(p.x) = true]; } } extend B { optional int32 z = 1 [(p.x) = true]; } enum E { option (p.e) = true; V = 0 [(p.v) = true]; } service S { option (p.s) = true; rpc R (M) returns (M) { option (p.r) = true; } }|b.proto message B { extensions 1; }|d.proto package google.protobuf; message FileOptions { extensions 1000 to max; } message MessageOptions { extensions 1000 to max; } message FieldOptions { extensions 1000 to max; } message OneofOptions { extensions 1000 to max; } message EnumOptions { extensions 1000 to max; } message EnumValueOptions { extensions 1000 to max; } message ServiceOptions { extensions 1000 to max; } message MethodOptions { extensions 1000 to max; }",
        "a.proto:36: 8 Syntax",
        "{\"file\":[{\"dependency\":[\"c.proto\",\"b.proto\"],\"enumType\":[{\"name\":\"E\",\"value\":[{\"name\":\"V\",\"number\":0}]}],\"extension\":[{\"extendee\":\".B\",\"label\":\"LABEL_OPTIONAL\",\"name\":\"z\",\"number\":1,\"type\":\"TYPE_INT32\"}],\"messageType\":[{\"field\":[{\"jsonName\":\"a\",\"label\":\"LABEL_OPTIONAL\",\"name\":\"a\",\"number\":1,\"type\":\"TYPE_INT32\"},{\"jsonName\":\"b\",\"label\":\"LABEL_REPEATED\",\"name\":\"b\",\"number\":2,\"type\":\"TYPE_MESSAGE\",\"typeName\":\".M.BEntry\"},{\"jsonName\":\"c\",\"label\":\"LABEL_OPTIONAL\",\"name\":\"c\",\"number\":3,\"oneofIndex\":0,\"type\":\"TYPE_INT32\"}],\"name\":\"M\",\"nestedType\":[{\"field\":[{\"jsonName\":\"key\",\"label\":\"LABEL_OPTIONAL\",\"name\":\"key\",\"number\":1,\"type\":\"TYPE_INT32\"},{\"jsonName\":\"value\",\"label\":\"LABEL_OPTIONAL\",\"name\":\"value\",\"number\":2,\"type\":\"TYPE_INT32\"}],\"name\":\"BEntry\",\"options\":{\"mapEntry\":true}}],\"oneofDecl\":[{\"name\":\"y\"}]}],\"name\":\"a.proto\",\"service\":[{\"method\":[{\"inputType\":\".M\",\"name\":\"R\",\"outputType\":\".M\"}],\"name\":\"S\"}]},{\"messageType\":[{\"extensionRange\":[{\"end\":2,\"start\":1}],\"name\":\"B\"}],\"name\":\"b.proto\"},{\"dependency\":[\"d.proto\"],\"extension\":[{\"extendee\":\".google.protobuf.FileOptions\",\"label\":\"LABEL_OPTIONAL\",\"name\":\"f\",\"number\":1000,\"type\":\"TYPE_BOOL\"},{\"extendee\":\".google.protobuf.MessageOptions\",\"label\":\"LABEL_OPTIONAL\",\"name\":\"m\",\"number\":1000,\"type\":\"TYPE_BOOL\"},{\"extendee\":\".google.protobuf.FieldOptions\",\"label\":\"LABEL_OPTIONAL\",\"name\":\"x\",\"number\":1000,\"type\":\"TYPE_BOOL\"},{\"extendee\":\".google.protobuf.OneofOptions\",\"label\":\"LABEL_OPTIONAL\",\"name\":\"o\",\"number\":1000,\"type\":\"TYPE_BOOL\"},{\"extendee\":\".google.protobuf.EnumOptions\",\"label\":\"LABEL_OPTIONAL\",\"name\":\"e\",\"number\":1000,\"type\":\"TYPE_BOOL\"},{\"extendee\":\".google.protobuf.EnumValueOptions\",\"label\":\"LABEL_OPTIONAL\",\"name\":\"v\",\"number\":1000,\"type\":\"TYPE_BOOL\"},{\"extendee\":\".google.protobuf.ServiceOptions\",\"label\":\"LABEL_OPTIONAL\",\"name\":\"s\",\"number\":1000,\"type\":\"TYPE_BOOL\"},{\"extendee\":\".google.protobuf.MethodOptions\",\"label\":\"LABEL_OPTIONAL\",\"name\":\"r\",\"number\":1000,\"type\":\"TYPE_BOOL\"}],\"name\":\"c.proto\",\"package\":\"p\"},{\"messageType\":[{\"extensionRange\":[{\"end\":536870912,\"start\":1000}],\"name\":\"FileOptions\"},{\"extensionRange\":[{\"end\":536870912,\"start\":1000}],\"name\":\"MessageOptions\"},{\"extensionRange\":[{\"end\":536870912,\"start\":1000}],\"name\":\"FieldOptions\"},{\"extensionRange\":[{\"end\":536870912,\"start\":1000}],\"name\":\"OneofOptions\"},{\"extensionRange\":[{\"end\":536870912,\"start\":1000}],\"name\":\"EnumOptions\"},{\"extensionRange\":[{\"end\":536870912,\"start\":1000}],\"name\":\"EnumValueOptions\"},{\"extensionRange\":[{\"end\":536870912,\"start\":1000}],\"name\":\"ServiceOptions\"},{\"extensionRange\":[{\"end\":536870912,\"start\":1000}],\"name\":\"MethodOptions\"}],\"name\":\"d.proto\",\"package\":\"google.protobuf\"}]}",
    ),
    (
        "c.proto import \"d.proto\"; package p; extend google.protobuf.FileOptions { optional bool f = 1000; } extend google.protobuf.MessageOptions { optional bool m = 1000; } extend google.protobuf.FieldOptions { optional bool x = 1000; } extend google.protobuf.OneofOptions { optional bool o = 1000; } extend google.protobuf.EnumOptions { optional bool e = 1000; } extend google.protobuf.EnumValueOptions { optional bool v = 1000; } extend google.protobuf.ServiceOptions { optional bool s = 1000; } extend google.protobuf.MethodOptions { optional bool r = 1000; }|a.proto import \"c.proto\"; import \"b.proto\"; option (p.x) = true; message M { option (p.m) = true; optional int32 a = 1 [(p.x) = true]; map<int32, int32> b = 2 [(p.x) = true]; oneof y { option (p.o) = true; int32 c = 3 [(p.x) = true]; } } extend B { optional int32 z = 1 [(p.x) = true]; } enum E { option (p.e) = true; V = 0 [(p.v) = true]; } service S { option (p.s) = true; rpc R (M) returns (M) { option (p.r) = true; } }|b.proto message B { extensions 1; }|d.proto package google.protobuf; message FileOptions { extensions 1000 to max; } message MessageOptions { extensions 1000 to max; } message FieldOptions { extensions 1000 to max; } message OneofOptions { extensions 1000 to max; } message EnumOptions { extensions 1000 to max; } message EnumValueOptions { extensions 1000 to max; } message ServiceOptions { extensions 1000 to max; } message MethodOptions { extensions 1000 to max; }",
        "a.proto:36: 8 Syntax",
        "a.proto:44: 39 NotAnOption",
    ),
    (
        "c.proto import \"d.proto\"; package p; extend google.protobuf.FileOptions { optional bool f = 1000; } extend google.protobuf.MessageOptions { optional bool m = 1000; } extend google.protobuf.FieldOptions { optional bool x = 1000; } extend google.protobuf.OneofOptions { optional bool o = 1000; } extend google.protobuf.EnumOptions { optional bool e = 1000; } extend google.protobuf.EnumValueOptions { optional bool v = 1000; } extend google.protobuf.ServiceOptions { optional bool s = 1000; } extend google.protobuf.MethodOptions { optional bool r = 1000; }|a.proto import \"c.proto\"; import \"b.proto\"; option (p.f) = true; message M { option (p.x) = true; optional int32 a = 1 [(p.x) = true]; map<int32, int32> b = 2 [(p.x) = true]; oneof y { option (p.o) = true; int32 c = 3 [(p.x) = true]; } } extend B { optional int32 z = 1 [(p.x) = true]; } enum E { option (p.e) = true; V = 0 [(p.v) = true]; } service S { option (p.s) = true; rpc R (M) returns (M) { option (p.r) = true; } }|b.proto message B { extensions 1; }|d.proto package google.protobuf; message FileOptions { extensions 1000 to max; } message MessageOptions { extensions 1000 to max; } message FieldOptions { extensions 1000 to max; } message OneofOptions { extensions 1000 to max; } message EnumOptions { extensions 1000 to max; } message EnumValueOptions { extensions 1000 to max; } message ServiceOptions { extensions 1000 to max; } message MethodOptions { extensions 1000 to max; }",
        "a.proto:36: 8 Syntax",
        "a.proto:77: 39 NotAnOption",
    ),
    (
        "c.proto import \"d.proto\"; package p; extend google.protobuf.FileOptions { optional bool f = 1000; } extend google.protobuf.MessageOptions { optional bool m = 1000; } extend google.protobuf.FieldOptions { optional bool x = 1000; } extend google.protobuf.OneofOptions { optional bool o = 1000; } extend google.protobuf.EnumOptions { optional bool e = 1000; } extend google.protobuf.EnumValueOptions { optional bool v = 1000; } extend google.protobuf.ServiceOptions { optional bool s = 1000; } extend google.protobuf.MethodOptions { optional bool r = 1000; }|a.proto import \"c.proto\"; import \"b.proto\"; option (p.f) = true; message M { option (p.m) = true; optional int32 a = 1 [(p.m) = true]; map<int32, int32> b = 2 [(p.x) = true]; oneof y { option (p.o) = true; int32 c = 3 [(p.x) = true]; } } extend B { optional int32 z = 1 [(p.x) = true]; } enum E { option (p.e) = true; V = 0 [(p.v) = true]; } service S { option (p.s) = true; rpc R (M) returns (M) { option (p.r) = true; } }|b.proto message B { extensions 1; }|d.proto package google.protobuf; message FileOptions { extensions 1000 to max; } message MessageOptions { extensions 1000 to max; } message FieldOptions { extensions 1000 to max; } message OneofOptions { extensions 1000 to max; } message EnumOptions { extensions 1000 to max; } message EnumValueOptions { extensions 1000 to max; } message ServiceOptions { extensions 1000 to max; } message MethodOptions { extensions 1000 to max; }",
        "a.proto:36: 8 Syntax",
        "a.proto:113: 39 NotAnOption",
    ),
];

/// The same, where one stands on a field or a oneof.
const FIELDS_AND_ONEOFS: &[(&str, &str, &str)] = &[
    (
        "c.proto import \"d.proto\"; package p; extend google.protobuf.FileOptions { optional bool f = 1000; } extend google.protobuf.MessageOptions { optional bool m = 1000; } extend google.protobuf.FieldOptions { optional bool x = 1000; } extend google.protobuf.OneofOptions { optional bool o = 1000; } extend google.protobuf.EnumOptions { optional bool e = 1000; } extend google.protobuf.EnumValueOptions { optional bool v = 1000; } extend google.protobuf.ServiceOptions { optional bool s = 1000; } extend google.protobuf.MethodOptions { optional bool r = 1000; }|a.proto import \"c.proto\"; import \"b.proto\"; option (p.f) = true; message M { option (p.m) = true; optional int32 a = 1 [(p.x) = true]; map<int32, int32> b = 2 [(p.o) = true]; oneof y { option (p.o) = true; int32 c = 3 [(p.x) = true]; } } extend B { optional int32 z = 1 [(p.x) = true]; } enum E { option (p.e) = true; V = 0 [(p.v) = true]; } service S { option (p.s) = true; rpc R (M) returns (M) { option (p.r) = true; } }|b.proto message B { extensions 1; }|d.proto package google.protobuf; message FileOptions { extensions 1000 to max; } message MessageOptions { extensions 1000 to max; } message FieldOptions { extensions 1000 to max; } message OneofOptions { extensions 1000 to max; } message EnumOptions { extensions 1000 to max; } message EnumValueOptions { extensions 1000 to max; } message ServiceOptions { extensions 1000 to max; } message MethodOptions { extensions 1000 to max; }",
        "a.proto:36: 8 Syntax",
        "a.proto:153: 39 NotAnOption",
    ),
    (
        "c.proto import \"d.proto\"; package p; extend google.protobuf.FileOptions { optional bool f = 1000; } extend google.protobuf.MessageOptions { optional bool m = 1000; } extend google.protobuf.FieldOptions { optional bool x = 1000; } extend google.protobuf.OneofOptions { optional bool o = 1000; } extend google.protobuf.EnumOptions { optional bool e = 1000; } extend google.protobuf.EnumValueOptions { optional bool v = 1000; } extend google.protobuf.ServiceOptions { optional bool s = 1000; } extend google.protobuf.MethodOptions { optional bool r = 1000; }|a.proto import \"c.proto\"; import \"b.proto\"; option (p.f) = true; message M { option (p.m) = true; optional int32 a = 1 [(p.x) = true]; map<int32, int32> b = 2 [(p.x) = true]; oneof y { option (p.o) = true; int32 c = 3 [(p.o) = true]; } } extend B { optional int32 z = 1 [(p.x) = true]; } enum E { option (p.e) = true; V = 0 [(p.v) = true]; } service S { option (p.s) = true; rpc R (M) returns (M) { option (p.r) = true; } }|b.proto message B { extensions 1; }|d.proto package google.protobuf; message FileOptions { extensions 1000 to max; } message MessageOptions { extensions 1000 to max; } message FieldOptions { extensions 1000 to max; } message OneofOptions { extensions 1000 to max; } message EnumOptions { extensions 1000 to max; } message EnumValueOptions { extensions 1000 to max; } message ServiceOptions { extensions 1000 to max; } message MethodOptions { extensions 1000 to max; }",
        "a.proto:36: 8 Syntax",
        "a.proto:212: 39 NotAnOption",
    ),
    (
        "c.proto import \"d.proto\"; package p; extend google.protobuf.FileOptions { optional bool f = 1000; } extend google.protobuf.MessageOptions { optional bool m = 1000; } extend google.protobuf.FieldOptions { optional bool x = 1000; } extend google.protobuf.OneofOptions { optional bool o = 1000; } extend google.protobuf.EnumOptions { optional bool e = 1000; } extend google.protobuf.EnumValueOptions { optional bool v = 1000; } extend google.protobuf.ServiceOptions { optional bool s = 1000; } extend google.protobuf.MethodOptions { optional bool r = 1000; }|a.proto import \"c.proto\"; import \"b.proto\"; option (p.f) = true; message M { option (p.m) = true; optional int32 a = 1 [(p.x) = true]; map<int32, int32> b = 2 [(p.x) = true]; oneof y { option (p.o) = true; int32 c = 3 [(p.x) = true]; } } extend B { optional int32 z = 1 [(p.m) = true]; } enum E { option (p.e) = true; V = 0 [(p.v) = true]; } service S { option (p.s) = true; rpc R (M) returns (M) { option (p.r) = true; } }|b.proto message B { extensions 1; }|d.proto package google.protobuf; message FileOptions { extensions 1000 to max; } message MessageOptions { extensions 1000 to max; } message FieldOptions { extensions 1000 to max; } message OneofOptions { extensions 1000 to max; } message EnumOptions { extensions 1000 to max; } message EnumValueOptions { extensions 1000 to max; } message ServiceOptions { extensions 1000 to max; } message MethodOptions { extensions 1000 to max; }",
        "a.proto:36: 8 Syntax",
        "a.proto:264: 39 NotAnOption",
    ),
    (
        "c.proto import \"d.proto\"; package p; extend google.protobuf.FileOptions { optional bool f = 1000; } extend google.protobuf.MessageOptions { optional bool m = 1000; } extend google.protobuf.FieldOptions { optional bool x = 1000; } extend google.protobuf.OneofOptions { optional bool o = 1000; } extend google.protobuf.EnumOptions { optional bool e = 1000; } extend google.protobuf.EnumValueOptions { optional bool v = 1000; } extend google.protobuf.ServiceOptions { optional bool s = 1000; } extend google.protobuf.MethodOptions { optional bool r = 1000; }|a.proto import \"c.proto\"; import \"b.proto\"; option (p.f) = true; message M { option (p.m) = true; optional int32 a = 1 [(p.x) = true]; map<int32, int32> b = 2 [(p.x) = true]; oneof y { option (p.x) = true; int32 c = 3 [(p.x) = true]; } } extend B { optional int32 z = 1 [(p.x) = true]; } enum E { option (p.e) = true; V = 0 [(p.v) = true]; } service S { option (p.s) = true; rpc R (M) returns (M) { option (p.r) = true; } }|b.proto message B { extensions 1; }|d.proto package google.protobuf; message FileOptions { extensions 1000 to max; } message MessageOptions { extensions 1000 to max; } message FieldOptions { extensions 1000 to max; } message OneofOptions { extensions 1000 to max; } message EnumOptions { extensions 1000 to max; } message EnumValueOptions { extensions 1000 to max; } message ServiceOptions { extensions 1000 to max; } message MethodOptions { extensions 1000 to max; }",
        "a.proto:36: 8 Syntax",
        "a.proto:185: 39 NotAnOption",
    ),
];

/// The same, where one stands on an enum, a value, a service or a method.
const ENUMS_AND_SERVICES: &[(&str, &str, &str)] = &[
    (
        "c.proto import \"d.proto\"; package p; extend google.protobuf.FileOptions { optional bool f = 1000; } extend google.protobuf.MessageOptions { optional bool m = 1000; } extend google.protobuf.FieldOptions { optional bool x = 1000; } extend google.protobuf.OneofOptions { optional bool o = 1000; } extend google.protobuf.EnumOptions { optional bool e = 1000; } extend google.protobuf.EnumValueOptions { optional bool v = 1000; } extend google.protobuf.ServiceOptions { optional bool s = 1000; } extend google.protobuf.MethodOptions { optional bool r = 1000; }|a.proto import \"c.proto\"; import \"b.proto\"; option (p.f) = true; message M { option (p.m) = true; optional int32 a = 1 [(p.x) = true]; map<int32, int32> b = 2 [(p.x) = true]; oneof y { option (p.o) = true; int32 c = 3 [(p.x) = true]; } } extend B { optional int32 z = 1 [(p.x) = true]; } enum E { option (p.v) = true; V = 0 [(p.v) = true]; } service S { option (p.s) = true; rpc R (M) returns (M) { option (p.r) = true; } }|b.proto message B { extensions 1; }|d.proto package google.protobuf; message FileOptions { extensions 1000 to max; } message MessageOptions { extensions 1000 to max; } message FieldOptions { extensions 1000 to max; } message OneofOptions { extensions 1000 to max; } message EnumOptions { extensions 1000 to max; } message EnumValueOptions { extensions 1000 to max; } message ServiceOptions { extensions 1000 to max; } message MethodOptions { extensions 1000 to max; }",
        "a.proto:36: 8 Syntax",
        "a.proto:297: 39 NotAnOption",
    ),
    (
        "c.proto import \"d.proto\"; package p; extend google.protobuf.FileOptions { optional bool f = 1000; } extend google.protobuf.MessageOptions { optional bool m = 1000; } extend google.protobuf.FieldOptions { optional bool x = 1000; } extend google.protobuf.OneofOptions { optional bool o = 1000; } extend google.protobuf.EnumOptions { optional bool e = 1000; } extend google.protobuf.EnumValueOptions { optional bool v = 1000; } extend google.protobuf.ServiceOptions { optional bool s = 1000; } extend google.protobuf.MethodOptions { optional bool r = 1000; }|a.proto import \"c.proto\"; import \"b.proto\"; option (p.f) = true; message M { option (p.m) = true; optional int32 a = 1 [(p.x) = true]; map<int32, int32> b = 2 [(p.x) = true]; oneof y { option (p.o) = true; int32 c = 3 [(p.x) = true]; } } extend B { optional int32 z = 1 [(p.x) = true]; } enum E { option (p.e) = true; V = 0 [(p.e) = true]; } service S { option (p.s) = true; rpc R (M) returns (M) { option (p.r) = true; } }|b.proto message B { extensions 1; }|d.proto package google.protobuf; message FileOptions { extensions 1000 to max; } message MessageOptions { extensions 1000 to max; } message FieldOptions { extensions 1000 to max; } message OneofOptions { extensions 1000 to max; } message EnumOptions { extensions 1000 to max; } message EnumValueOptions { extensions 1000 to max; } message ServiceOptions { extensions 1000 to max; } message MethodOptions { extensions 1000 to max; }",
        "a.proto:36: 8 Syntax",
        "a.proto:318: 39 NotAnOption",
    ),
    (
        "c.proto import \"d.proto\"; package p; extend google.protobuf.FileOptions { optional bool f = 1000; } extend google.protobuf.MessageOptions { optional bool m = 1000; } extend google.protobuf.FieldOptions { optional bool x = 1000; } extend google.protobuf.OneofOptions { optional bool o = 1000; } extend google.protobuf.EnumOptions { optional bool e = 1000; } extend google.protobuf.EnumValueOptions { optional bool v = 1000; } extend google.protobuf.ServiceOptions { optional bool s = 1000; } extend google.protobuf.MethodOptions { optional bool r = 1000; }|a.proto import \"c.proto\"; import \"b.proto\"; option (p.f) = true; message M { option (p.m) = true; optional int32 a = 1 [(p.x) = true]; map<int32, int32> b = 2 [(p.x) = true]; oneof y { option (p.o) = true; int32 c = 3 [(p.x) = true]; } } extend B { optional int32 z = 1 [(p.x) = true]; } enum E { option (p.e) = true; V = 0 [(p.v) = true]; } service S { option (p.r) = true; rpc R (M) returns (M) { option (p.r) = true; } }|b.proto message B { extensions 1; }|d.proto package google.protobuf; message FileOptions { extensions 1000 to max; } message MessageOptions { extensions 1000 to max; } message FieldOptions { extensions 1000 to max; } message OneofOptions { extensions 1000 to max; } message EnumOptions { extensions 1000 to max; } message EnumValueOptions { extensions 1000 to max; } message ServiceOptions { extensions 1000 to max; } message MethodOptions { extensions 1000 to max; }",
        "a.proto:36: 8 Syntax",
        "a.proto:354: 39 NotAnOption",
    ),
    (
        "c.proto import \"d.proto\"; package p; extend google.protobuf.FileOptions { optional bool f = 1000; } extend google.protobuf.MessageOptions { optional bool m = 1000; } extend google.protobuf.FieldOptions { optional bool x = 1000; } extend google.protobuf.OneofOptions { optional bool o = 1000; } extend google.protobuf.EnumOptions { optional bool e = 1000; } extend google.protobuf.EnumValueOptions { optional bool v = 1000; } extend google.protobuf.ServiceOptions { optional bool s = 1000; } extend google.protobuf.MethodOptions { optional bool r = 1000; }|a.proto import \"c.proto\"; import \"b.proto\"; option (p.f) = true; message M { option (p.m) = true; optional int32 a = 1 [(p.x) = true]; map<int32, int32> b = 2 [(p.x) = true]; oneof y { option (p.o) = true; int32 c = 3 [(p.x) = true]; } } extend B { optional int32 z = 1 [(p.x) = true]; } enum E { option (p.e) = true; V = 0 [(p.v) = true]; } service S { option (p.s) = true; rpc R (M) returns (M) { option (p.s) = true; } }|b.proto message B { extensions 1; }|d.proto package google.protobuf; message FileOptions { extensions 1000 to max; } message MessageOptions { extensions 1000 to max; } message FieldOptions { extensions 1000 to max; } message OneofOptions { extensions 1000 to max; } message EnumOptions { extensions 1000 to max; } message EnumValueOptions { extensions 1000 to max; } message ServiceOptions { extensions 1000 to max; } message MethodOptions { extensions 1000 to max; }",
        "a.proto:36: 8 Syntax",
        "a.proto:399: 39 NotAnOption",
    ),
];

/// The same, where the extension extends another message than its name says.
const EXTENDEES: &[(&str, &str, &str)] = &[
    // Messages that are no options messages, with names like theirs.
    (
        "a.proto import \"c.proto\"; message A { optional int32 a = 1 [(x) = true]; }|c.proto import \"b.proto\"; extend B { optional bool x = 1000; }|b.proto message B { extensions 1000; }|d.proto package google.protobuf; message FieldOptions { extensions 1000 to max; optional bool deprecated = 3; } message MessageOptions { extensions 1000 to max; optional bool deprecated = 3; }",
        "a.proto:30: 8 Syntax",
        "a.proto:53: 39 NotAnOption",
    ),
    (
        "a.proto import \"c.proto\"; message A { optional int32 a = 1 [(x) = true]; }|c.proto import \"b.proto\"; extend google.protobuf.FieldOptionsX { optional bool x = 1000; }|b.proto package google.protobuf; message FieldOptionsX { extensions 1000; }|d.proto package google.protobuf; message FieldOptions { extensions 1000 to max; optional bool deprecated = 3; } message MessageOptions { extensions 1000 to max; optional bool deprecated = 3; }",
        "a.proto:30: 8 Syntax",
        "a.proto:53: 39 NotAnOption",
    ),
    (
        "a.proto import \"c.proto\"; message A { optional int32 a = 1 [(x) = true]; }|c.proto import \"b.proto\"; extend google.protobuf.XFieldOptions { optional bool x = 1000; }|b.proto package google.protobuf; message XFieldOptions { extensions 1000; }|d.proto package google.protobuf; message FieldOptions { extensions 1000 to max; optional bool deprecated = 3; } message MessageOptions { extensions 1000 to max; optional bool deprecated = 3; }",
        "a.proto:30: 8 Syntax",
        "a.proto:53: 39 NotAnOption",
    ),
    (
        "a.proto import \"c.proto\"; message A { optional int32 a = 1 [(x) = true]; }|c.proto import \"b.proto\"; extend google.protobuf.A.FieldOptions { optional bool x = 1000; }|b.proto package google.protobuf; message A { message FieldOptions { extensions 1000; } }|d.proto package google.protobuf; message FieldOptions { extensions 1000 to max; optional bool deprecated = 3; } message MessageOptions { extensions 1000 to max; optional bool deprecated = 3; }",
        "a.proto:30: 8 Syntax",
        "a.proto:53: 39 NotAnOption",
    ),
    (
        "a.proto import \"c.proto\"; message A { optional int32 a = 1 [(x) = true]; }|c.proto import \"b.proto\"; extend google.protobufx.FieldOptions { optional bool x = 1000; }|b.proto package google.protobufx; message FieldOptions { extensions 1000; }|d.proto package google.protobuf; message FieldOptions { extensions 1000 to max; optional bool deprecated = 3; } message MessageOptions { extensions 1000 to max; optional bool deprecated = 3; }",
        "a.proto:30: 8 Syntax",
        "a.proto:53: 39 NotAnOption",
    ),
    (
        "a.proto import \"c.proto\"; message A { optional int32 a = 1 [(x) = true]; }|c.proto import \"b.proto\"; extend protobuf.FieldOptions { optional bool x = 1000; }|b.proto package protobuf; message FieldOptions { extensions 1000; }|d.proto package google.protobuf; message FieldOptions { extensions 1000 to max; optional bool deprecated = 3; } message MessageOptions { extensions 1000 to max; optional bool deprecated = 3; }",
        "a.proto:30: 8 Syntax",
        "a.proto:53: 39 NotAnOption",
    ),
    (
        "a.proto import \"c.proto\"; message A { optional int32 a = 1 [(x) = true]; }|c.proto import \"b.proto\"; extend proto2.FieldOptions { optional bool x = 1000; }|b.proto package proto2; message FieldOptions { extensions 1000; }|d.proto package google.protobuf; message FieldOptions { extensions 1000 to max; optional bool deprecated = 3; } message MessageOptions { extensions 1000 to max; optional bool deprecated = 3; }",
        "a.proto:30: 8 Syntax",
        "a.proto:53: 39 NotAnOption",
    ),
    (
        "a.proto import \"c.proto\"; message A { optional int32 a = 1 [(x) = true]; }|c.proto import \"b.proto\"; extend FieldOptions { optional bool x = 1000; }|b.proto message FieldOptions { extensions 1000; }|d.proto package google.protobuf; message FieldOptions { extensions 1000 to max; optional bool deprecated = 3; } message MessageOptions { extensions 1000 to max; optional bool deprecated = 3; }",
        "a.proto:30: 8 Syntax",
        "a.proto:53: 39 NotAnOption",
    ),
    (
        "a.proto import \"c.proto\"; message A { optional int32 a = 1 [(x) = true]; }|c.proto import \"b.proto\"; extend y.google.protobuf.FieldOptions { optional bool x = 1000; }|b.proto package y.google.protobuf; message FieldOptions { extensions 1000; }|d.proto package google.protobuf; message FieldOptions { extensions 1000 to max; optional bool deprecated = 3; } message MessageOptions { extensions 1000 to max; optional bool deprecated = 3; }",
        "a.proto:30: 8 Syntax",
        "a.proto:53: 39 NotAnOption",
    ),
    (
        "a.proto import \"c.proto\"; message A { optional int32 a = 1 [(x) = true]; }|c.proto import \"b.proto\"; extend google.protobuf.ExtensionRangeOptions { optional bool x = 1000; }|b.proto package google.protobuf; message ExtensionRangeOptions { extensions 1000; }|d.proto package google.protobuf; message FieldOptions { extensions 1000 to max; optional bool deprecated = 3; } message MessageOptions { extensions 1000 to max; optional bool deprecated = 3; }",
        "a.proto:30: 8 Syntax",
        "a.proto:53: 39 NotAnOption",
    ),
    // An options message below a message.
    (
        "a.proto import \"c.proto\"; message A { optional int32 a = 1 [(x) = true]; }|c.proto import \"b.proto\"; extend google.protobuf.FieldOptions { optional bool x = 1000; }|b.proto package google; message protobuf { message FieldOptions { extensions 1000; } }|d.proto ",
        "a.proto:30: 8 Syntax",
        "{\"file\":[{\"dependency\":[\"c.proto\"],\"messageType\":[{\"field\":[{\"jsonName\":\"a\",\"label\":\"LABEL_OPTIONAL\",\"name\":\"a\",\"number\":1,\"type\":\"TYPE_INT32\"}],\"name\":\"A\"}],\"name\":\"a.proto\"},{\"messageType\":[{\"name\":\"protobuf\",\"nestedType\":[{\"extensionRange\":[{\"end\":1001,\"start\":1000}],\"name\":\"FieldOptions\"}]}],\"name\":\"b.proto\",\"package\":\"google\"},{\"dependency\":[\"b.proto\"],\"extension\":[{\"extendee\":\".google.protobuf.FieldOptions\",\"label\":\"LABEL_OPTIONAL\",\"name\":\"x\",\"number\":1000,\"type\":\"TYPE_BOOL\"}],\"name\":\"c.proto\"},{\"name\":\"d.proto\"}]}",
    ),
];

/// The same with several options, or with another fault beside.
const SEVERAL_OPTIONS: &[(&str, &str, &str)] = &[
    // The least of several.
    (
        "a.proto import \"c.proto\"; message A { option (p.m) = true; optional int32 a = 1 [(p.m) = true, deprecated = true, (p.x) = true]; }|c.proto import \"d.proto\"; package p; extend google.protobuf.FieldOptions { optional bool x = 1000; } extend google.protobuf.MessageOptions { optional bool m = 1000; }|d.proto package google.protobuf; message FieldOptions { extensions 1000 to max; optional bool deprecated = 3; } message MessageOptions { extensions 1000 to max; optional bool deprecated = 3; }",
        "a.proto:30: 8 Syntax",
        "a.proto:74: 39 NotAnOption",
    ),
    (
        "a.proto import \"c.proto\"; message A { option (p.m) = true; optional int32 a = 1 [(p.x) = true, deprecated = true, (p.m) = true]; }|c.proto import \"d.proto\"; package p; extend google.protobuf.FieldOptions { optional bool x = 1000; } extend google.protobuf.MessageOptions { optional bool m = 1000; }|d.proto package google.protobuf; message FieldOptions { extensions 1000 to max; optional bool deprecated = 3; } message MessageOptions { extensions 1000 to max; optional bool deprecated = 3; }",
        "a.proto:30: 8 Syntax",
        "a.proto:107: 39 NotAnOption",
    ),
    (
        "a.proto import \"c.proto\"; message A { option (p.x) = true; option (p.m) = true; optional int32 a = 1 [(.p.m) = true]; }|c.proto import \"d.proto\"; package p; extend google.protobuf.FieldOptions { optional bool x = 1000; } extend google.protobuf.MessageOptions { optional bool m = 1000; }|d.proto package google.protobuf; message FieldOptions { extensions 1000 to max; optional bool deprecated = 3; } message MessageOptions { extensions 1000 to max; optional bool deprecated = 3; }",
        "a.proto:30: 8 Syntax",
        "a.proto:38: 39 NotAnOption",
    ),
    (
        "a.proto import \"c.proto\"; message A { message B { option (p.m) = true; enum E { V = 0 [(p.x) = true]; } } }|c.proto import \"d.proto\"; package p; extend google.protobuf.FieldOptions { optional bool x = 1000; } extend google.protobuf.MessageOptions { optional bool m = 1000; }|d.proto package google.protobuf; message FieldOptions { extensions 1000 to max; optional bool deprecated = 3; } message MessageOptions { extensions 1000 to max; optional bool deprecated = 3; }",
        "a.proto:42: 8 Syntax",
        "a.proto:80: 39 NotAnOption",
    ),
    (
        "a.proto import \"c.proto\"; message A { optional int32 a = 1 [deprecated = 1, (p.m) = true]; }|c.proto import \"d.proto\"; package p; extend google.protobuf.FieldOptions { optional bool x = 1000; } extend google.protobuf.MessageOptions { optional bool m = 1000; }|d.proto package google.protobuf; message FieldOptions { extensions 1000 to max; optional bool deprecated = 3; } message MessageOptions { extensions 1000 to max; optional bool deprecated = 3; }",
        "a.proto:30: 8 Syntax",
        "a.proto:52: 27 BadOption",
    ),
    (
        "a.proto import \"c.proto\"; message A { optional int32 a = 1 [(p.m) = true, deprecated = 1]; }|c.proto import \"d.proto\"; package p; extend google.protobuf.FieldOptions { optional bool x = 1000; } extend google.protobuf.MessageOptions { optional bool m = 1000; }|d.proto package google.protobuf; message FieldOptions { extensions 1000 to max; optional bool deprecated = 3; } message MessageOptions { extensions 1000 to max; optional bool deprecated = 3; }",
        "a.proto:30: 8 Syntax",
        "a.proto:53: 39 NotAnOption",
    ),
    (
        "a.proto import \"c.proto\"; message A { optional int32 a = 0 [(p.m) = true]; }|c.proto import \"d.proto\"; package p; extend google.protobuf.FieldOptions { optional bool x = 1000; } extend google.protobuf.MessageOptions { optional bool m = 1000; }|d.proto package google.protobuf; message FieldOptions { extensions 1000 to max; optional bool deprecated = 3; } message MessageOptions { extensions 1000 to max; optional bool deprecated = 3; }",
        "a.proto:30: 8 Syntax",
        "a.proto:49: 17 NumberRange",
    ),
    (
        "b.proto import \"c.proto\"; message A { optional int32 a = 1 [(p.m) = true]; }|a.proto message B { optional int32 a = 0; }|c.proto import \"d.proto\"; package p; extend google.protobuf.FieldOptions { optional bool x = 1000; } extend google.protobuf.MessageOptions { optional bool m = 1000; }|d.proto package google.protobuf; message FieldOptions { extensions 1000 to max; optional bool deprecated = 3; } message MessageOptions { extensions 1000 to max; optional bool deprecated = 3; }",
        "b.proto:30: 8 Syntax",
        "a.proto:31: 17 NumberRange",
    ),
    // Where each name means something; and in order with the numbers of extensions.
    (
        "a.proto import \"c.proto\"; message A { option (p.x) = true; option (p.z) = true; }|c.proto import \"d.proto\"; package p; extend google.protobuf.FieldOptions { optional bool x = 1000; } extend google.protobuf.MessageOptions { optional bool m = 1000; }|d.proto package google.protobuf; message FieldOptions { extensions 1000 to max; optional bool deprecated = 3; } message MessageOptions { extensions 1000 to max; optional bool deprecated = 3; }",
        "a.proto:30: 8 Syntax",
        "a.proto:59: 14 Unresolved",
    ),
    (
        "a.proto import \"c.proto\"; message B { extensions 1; } extend B { optional bool y = 2; optional bool z = 1 [(p.m) = true]; }|c.proto import \"d.proto\"; package p; extend google.protobuf.FieldOptions { optional bool x = 1000; } extend google.protobuf.MessageOptions { optional bool m = 1000; }|d.proto package google.protobuf; message FieldOptions { extensions 1000 to max; optional bool deprecated = 3; } message MessageOptions { extensions 1000 to max; optional bool deprecated = 3; }",
        "a.proto:78: 8 Syntax",
        "a.proto:75: 36 NotExtendable",
    ),
    (
        "a.proto import \"c.proto\"; message B { extensions 1; } extend B { optional bool z = 1 [(p.m) = true]; optional bool y = 2; }|c.proto import \"d.proto\"; package p; extend google.protobuf.FieldOptions { optional bool x = 1000; } extend google.protobuf.MessageOptions { optional bool m = 1000; }|d.proto package google.protobuf; message FieldOptions { extensions 1000 to max; optional bool deprecated = 3; } message MessageOptions { extensions 1000 to max; optional bool deprecated = 3; }",
        "a.proto:57: 8 Syntax",
        "a.proto:79: 39 NotAnOption",
    ),
];

/// The same, where the file declares the extension that its option is, or is of proto3.
const OWN_EXTENSIONS: &[(&str, &str, &str)] = &[
    // An option of an extension that is the extension itself.
    (
        "a.proto import \"c.proto\"; extend google.protobuf.FieldOptions { optional bool y = 1001 [(y) = true]; }|c.proto import public \"d.proto\"; package p; extend google.protobuf.FieldOptions { optional bool x = 1000; } extend google.protobuf.MessageOptions { optional bool m = 1000; }|d.proto package google.protobuf; message FieldOptions { extensions 1000 to max; optional bool deprecated = 3; } message MessageOptions { extensions 1000 to max; optional bool deprecated = 3; }",
        "a.proto:56: 8 Syntax",
        "{\"file\":[{\"dependency\":[\"c.proto\"],\"extension\":[{\"extendee\":\".google.protobuf.FieldOptions\",\"label\":\"LABEL_OPTIONAL\",\"name\":\"y\",\"number\":1001,\"type\":\"TYPE_BOOL\"}],\"name\":\"a.proto\"},{\"dependency\":[\"d.proto\"],\"extension\":[{\"extendee\":\".google.protobuf.FieldOptions\",\"label\":\"LABEL_OPTIONAL\",\"name\":\"x\",\"number\":1000,\"type\":\"TYPE_BOOL\"},{\"extendee\":\".google.protobuf.MessageOptions\",\"label\":\"LABEL_OPTIONAL\",\"name\":\"m\",\"number\":1000,\"type\":\"TYPE_BOOL\"}],\"name\":\"c.proto\",\"package\":\"p\",\"publicDependency\":[0]},{\"messageType\":[{\"extensionRange\":[{\"end\":536870912,\"start\":1000}],\"field\":[{\"jsonName\":\"deprecated\",\"label\":\"LABEL_OPTIONAL\",\"name\":\"deprecated\",\"number\":3,\"type\":\"TYPE_BOOL\"}],\"name\":\"FieldOptions\"},{\"extensionRange\":[{\"end\":536870912,\"start\":1000}],\"field\":[{\"jsonName\":\"deprecated\",\"label\":\"LABEL_OPTIONAL\",\"name\":\"deprecated\",\"number\":3,\"type\":\"TYPE_BOOL\"}],\"name\":\"MessageOptions\"}],\"name\":\"d.proto\",\"package\":\"google.protobuf\"}]}",
    ),
    (
        "a.proto import \"c.proto\"; extend google.protobuf.MessageOptions { optional bool y = 1001 [(y) = true]; }|c.proto import public \"d.proto\"; package p; extend google.protobuf.FieldOptions { optional bool x = 1000; } extend google.protobuf.MessageOptions { optional bool m = 1000; }|d.proto package google.protobuf; message FieldOptions { extensions 1000 to max; optional bool deprecated = 3; } message MessageOptions { extensions 1000 to max; optional bool deprecated = 3; }",
        "a.proto:58: 8 Syntax",
        "a.proto:83: 39 NotAnOption",
    ),
    // What extends an options message stands in a message, and is asked where it is named.
    (
        "a.proto import \"c.proto\"; message A { extend google.protobuf.MessageOptions { optional bool y = 1001; } option (A.y) = true; }|c.proto import public \"d.proto\"; package p; extend google.protobuf.FieldOptions { optional bool x = 1000; } extend google.protobuf.MessageOptions { optional bool m = 1000; }|d.proto package google.protobuf; message FieldOptions { extensions 1000 to max; optional bool deprecated = 3; } message MessageOptions { extensions 1000 to max; optional bool deprecated = 3; }",
        "a.proto:96: 8 Syntax",
        "{\"file\":[{\"dependency\":[\"c.proto\"],\"messageType\":[{\"extension\":[{\"extendee\":\".google.protobuf.MessageOptions\",\"label\":\"LABEL_OPTIONAL\",\"name\":\"y\",\"number\":1001,\"type\":\"TYPE_BOOL\"}],\"name\":\"A\"}],\"name\":\"a.proto\"},{\"dependency\":[\"d.proto\"],\"extension\":[{\"extendee\":\".google.protobuf.FieldOptions\",\"label\":\"LABEL_OPTIONAL\",\"name\":\"x\",\"number\":1000,\"type\":\"TYPE_BOOL\"},{\"extendee\":\".google.protobuf.MessageOptions\",\"label\":\"LABEL_OPTIONAL\",\"name\":\"m\",\"number\":1000,\"type\":\"TYPE_BOOL\"}],\"name\":\"c.proto\",\"package\":\"p\",\"publicDependency\":[0]},{\"messageType\":[{\"extensionRange\":[{\"end\":536870912,\"start\":1000}],\"field\":[{\"jsonName\":\"deprecated\",\"label\":\"LABEL_OPTIONAL\",\"name\":\"deprecated\",\"number\":3,\"type\":\"TYPE_BOOL\"}],\"name\":\"FieldOptions\"},{\"extensionRange\":[{\"end\":536870912,\"start\":1000}],\"field\":[{\"jsonName\":\"deprecated\",\"label\":\"LABEL_OPTIONAL\",\"name\":\"deprecated\",\"number\":3,\"type\":\"TYPE_BOOL\"}],\"name\":\"MessageOptions\"}],\"name\":\"d.proto\",\"package\":\"google.protobuf\"}]}",
    ),
    (
        "a.proto import \"c.proto\"; message A { extend google.protobuf.MessageOptions { optional bool y = 1001; } optional int32 a = 1 [(y) = true]; }|c.proto import public \"d.proto\"; package p; extend google.protobuf.FieldOptions { optional bool x = 1000; } extend google.protobuf.MessageOptions { optional bool m = 1000; }|d.proto package google.protobuf; message FieldOptions { extensions 1000 to max; optional bool deprecated = 3; } message MessageOptions { extensions 1000 to max; optional bool deprecated = 3; }",
        "a.proto:96: 8 Syntax",
        "a.proto:119: 39 NotAnOption",
    ),
    // In proto3.
    (
        "a.proto syntax = \"proto3\"; import \"c.proto\"; message A { int32 a = 1 [(p.y) = true]; }|c.proto syntax = \"proto3\"; import \"d.proto\"; package p; extend google.protobuf.MessageOptions { bool y = 1000; }|d.proto package google.protobuf; message FieldOptions { extensions 1000 to max; optional bool deprecated = 3; } message MessageOptions { extensions 1000 to max; optional bool deprecated = 3; }",
        "a.proto:49: 8 Syntax",
        "a.proto:63: 39 NotAnOption",
    ),
    (
        "a.proto syntax = \"proto3\"; import \"c.proto\"; message A { option (p.y) = true; int32 a = 1; }|c.proto syntax = \"proto3\"; import \"d.proto\"; package p; extend google.protobuf.MessageOptions { bool y = 1000; }|d.proto package google.protobuf; message FieldOptions { extensions 1000 to max; optional bool deprecated = 3; } message MessageOptions { extensions 1000 to max; optional bool deprecated = 3; }",
        "a.proto:49: 8 Syntax",
        "{\"file\":[{\"dependency\":[\"c.proto\"],\"messageType\":[{\"field\":[{\"jsonName\":\"a\",\"label\":\"LABEL_OPTIONAL\",\"name\":\"a\",\"number\":1,\"type\":\"TYPE_INT32\"}],\"name\":\"A\"}],\"name\":\"a.proto\",\"syntax\":\"proto3\"},{\"dependency\":[\"d.proto\"],\"extension\":[{\"extendee\":\".google.protobuf.MessageOptions\",\"label\":\"LABEL_OPTIONAL\",\"name\":\"y\",\"number\":1000,\"type\":\"TYPE_BOOL\"}],\"name\":\"c.proto\",\"package\":\"p\",\"syntax\":\"proto3\"},{\"messageType\":[{\"extensionRange\":[{\"end\":536870912,\"start\":1000}],\"field\":[{\"jsonName\":\"deprecated\",\"label\":\"LABEL_OPTIONAL\",\"name\":\"deprecated\",\"number\":3,\"type\":\"TYPE_BOOL\"}],\"name\":\"FieldOptions\"},{\"extensionRange\":[{\"end\":536870912,\"start\":1000}],\"field\":[{\"jsonName\":\"deprecated\",\"label\":\"LABEL_OPTIONAL\",\"name\":\"deprecated\",\"number\":3,\"type\":\"TYPE_BOOL\"}],\"name\":\"MessageOptions\"}],\"name\":\"d.proto\",\"package\":\"google.protobuf\"}]}",
    ),
];

fn expect_answers<R: AllocGlobal + Abort>(rt: &R, rows: &[(&str, &str, &str)]) {
    for (texts, core, written) in rows {
        let files = given_files(rt.alloc(), texts).expect(rt, "memory");
        let found = answer_in(rt, Profile::Core, files).expect(rt, "memory");
        expect_text(rt, found.as_str(), core);
        let files = given_files(rt.alloc(), texts).expect(rt, "memory");
        let found = answer_in(rt, Profile::AsWritten, files).expect(rt, "memory");
        expect_text(rt, found.as_str(), written);
    }
}

#[test]
fn weak_imports_have_their_answers(rt: HostRuntime) {
    expect_answers(&rt, WEAK_IMPORTS);
}

#[test]
fn plain_options_have_their_answers(rt: HostRuntime) {
    expect_answers(&rt, PLAIN_OPTIONS);
}

#[test]
fn field_options_have_their_answers(rt: HostRuntime) {
    expect_answers(&rt, FIELD_OPTIONS);
}

#[test]
fn extensions_have_their_answers(rt: HostRuntime) {
    expect_answers(&rt, EXTENSIONS);
}

#[test]
fn options_are_of_files_messages_and_fields(rt: HostRuntime) {
    expect_answers(&rt, FIRST_ELEMENTS);
}

#[test]
fn options_are_of_fields_and_oneofs(rt: HostRuntime) {
    expect_answers(&rt, FIELDS_AND_ONEOFS);
}

#[test]
fn options_are_of_enums_and_services(rt: HostRuntime) {
    expect_answers(&rt, ENUMS_AND_SERVICES);
}

#[test]
fn options_are_of_what_they_extend(rt: HostRuntime) {
    expect_answers(&rt, EXTENDEES);
}

#[test]
fn the_first_of_several_options_is_refused(rt: HostRuntime) {
    expect_answers(&rt, SEVERAL_OPTIONS);
}

#[test]
fn options_of_the_same_file_have_their_answers(rt: HostRuntime) {
    expect_answers(&rt, OWN_EXTENSIONS);
}
