//! Descriptors, each with its JSON text, and the names that stand in these.

use crate::expect::{expect, owned_text};
use proto_base::NoMemory;
use proto_descriptors::{
    CType, EnumDescriptor, EnumOptions, EnumReservedRange, EnumValueDescriptor, EnumValueOptions,
    FieldDescriptor, FieldOptions, FieldRole, FieldType, FileDescriptor, FileOptions,
    IdempotencyLevel, JsType, Label, MessageDescriptor, MessageOptions, MethodDescriptor,
    MethodOptions, NumberRange, OptimizeMode, ServiceDescriptor, ServiceOptions, Syntax,
    copy_files,
};
use proto_descriptors_json::text_of_files;
use std::alloc::Global;
use std::process::Abort;

/// What descriptors are made of: one file, and what stands in it.
enum Sample {
    /// Not even a file.
    Nothing,
    /// A file of this name.
    Empty(&'static str),
    /// A message with a field.
    Field,
    /// A message with a map field.
    MapField,
    /// A message with numbers that are left to extensions, and others that no field may have.
    Ranges,
    /// A message with numbers that are left to extensions, and an extension of it.
    Extension,
    /// Messages, of which one has two extensions of the other in it.
    NestedExtensions,
    /// An enum with a value, and numbers that no other may have.
    EnumRanges,
    /// A message with a field that has a default and an option.
    Default,
    /// A public import.
    Imports,
    /// A service whose method streams its answers, and options.
    Service,
}

/// Descriptors, each with their text.
const TEXTS: &[(Sample, &str)] = &[
    (Sample::Nothing, "{}"),
    (
        Sample::Empty("a.proto"),
        "{\"file\":[{\"name\":\"a.proto\"}]}",
    ),
    (
        Sample::Field,
        "{\"file\":[{\"messageType\":[{\"field\":[{\"jsonName\":\"bC\",\"label\":\"LABEL_OPTIONAL\",\"name\":\"b_c\",\"number\":1,\"type\":\"TYPE_STRING\"}],\"name\":\"A\"}],\"name\":\"a.proto\",\"syntax\":\"proto3\"}]}",
    ),
    (
        Sample::MapField,
        "{\"file\":[{\"messageType\":[{\"field\":[{\"jsonName\":\"FooEntry\",\"label\":\"LABEL_REPEATED\",\"name\":\"FooEntry\",\"number\":1,\"type\":\"TYPE_MESSAGE\",\"typeName\":\".M.FooEntryEntry\"}],\"name\":\"M\",\"nestedType\":[{\"field\":[{\"jsonName\":\"key\",\"label\":\"LABEL_OPTIONAL\",\"name\":\"key\",\"number\":1,\"type\":\"TYPE_STRING\"},{\"jsonName\":\"value\",\"label\":\"LABEL_OPTIONAL\",\"name\":\"value\",\"number\":2,\"type\":\"TYPE_INT32\"}],\"name\":\"FooEntryEntry\",\"options\":{\"mapEntry\":true}}]}],\"name\":\"a.proto\",\"syntax\":\"proto3\"}]}",
    ),
    // The ranges of messages end before their end, those of enums with it.
    (
        Sample::Ranges,
        "{\"file\":[{\"messageType\":[{\"extensionRange\":[{\"end\":2,\"start\":1}],\"name\":\"M\",\"reservedRange\":[{\"end\":536870912,\"start\":2}]}],\"name\":\"a.proto\"}]}",
    ),
    (
        Sample::Extension,
        "{\"file\":[{\"extension\":[{\"extendee\":\".M\",\"label\":\"LABEL_OPTIONAL\",\"name\":\"x\",\"number\":100,\"type\":\"TYPE_INT32\"}],\"messageType\":[{\"extensionRange\":[{\"end\":200,\"start\":100}],\"name\":\"M\"}],\"name\":\"a.proto\"}]}",
    ),
    // As protoc writes them, but for the JSON names of the extensions.
    (
        Sample::NestedExtensions,
        "{\"file\":[{\"messageType\":[{\"extensionRange\":[{\"end\":10,\"start\":4}],\"name\":\"M\"},{\"extension\":[{\"extendee\":\".p.M\",\"label\":\"LABEL_REPEATED\",\"name\":\"m\",\"number\":4,\"type\":\"TYPE_MESSAGE\",\"typeName\":\".p.M\"},{\"defaultValue\":\"7\",\"extendee\":\".p.M\",\"label\":\"LABEL_OPTIONAL\",\"name\":\"d\",\"number\":5,\"options\":{\"deprecated\":true},\"type\":\"TYPE_INT32\"}],\"field\":[{\"jsonName\":\"f\",\"label\":\"LABEL_OPTIONAL\",\"name\":\"f\",\"number\":1,\"type\":\"TYPE_INT32\"}],\"name\":\"P\"}],\"name\":\"a.proto\",\"package\":\"p\"}]}",
    ),
    (
        Sample::EnumRanges,
        "{\"file\":[{\"enumType\":[{\"name\":\"E\",\"reservedRange\":[{\"end\":-1,\"start\":-1},{\"end\":2147483647,\"start\":2}],\"value\":[{\"name\":\"V\",\"number\":0}]}],\"name\":\"a.proto\"}]}",
    ),
    (
        Sample::Default,
        "{\"file\":[{\"messageType\":[{\"field\":[{\"defaultValue\":\"0\",\"jsonName\":\"a\",\"label\":\"LABEL_OPTIONAL\",\"name\":\"a\",\"number\":1,\"options\":{\"deprecated\":true},\"type\":\"TYPE_INT32\"}],\"name\":\"M\"}],\"name\":\"a.proto\"}]}",
    ),
    (
        Sample::Imports,
        "{\"file\":[{\"dependency\":[\"c.proto\",\"d.proto\"],\"name\":\"b.proto\",\"publicDependency\":[0],\"syntax\":\"proto3\",\"weakDependency\":[1]}]}",
    ),
    (
        Sample::Service,
        "{\"file\":[{\"name\":\"a.proto\",\"options\":{\"javaPackage\":\"j\",\"optimizeFor\":\"CODE_SIZE\"},\"package\":\"p\",\"service\":[{\"method\":[{\"inputType\":\".p.M\",\"name\":\"R\",\"options\":{\"deprecated\":false,\"idempotencyLevel\":\"NO_SIDE_EFFECTS\"},\"outputType\":\".p.N\",\"serverStreaming\":true}],\"name\":\"S\"}],\"syntax\":\"proto3\"}]}",
    ),
    // Quoting.
    (
        Sample::Empty("\"\\/\0\u{8}\u{c}\n\r\t\u{1f}\u{7f}é"),
        "{\"file\":[{\"name\":\"\\\"\\\\/\\u0000\\b\\f\\n\\r\\t\\u001f\u{7f}é\"}]}",
    ),
];

// Puts one more into a list.
fn push<T, R: Abort>(rt: &R, list: &mut Vec<T>, one: T) {
    list.push(one).expect(rt, "memory");
}

fn set<R: AllocGlobal + Abort>(rt: &R, place: &mut Option<String>, text: &str) {
    *place = Some(owned_text(rt, text));
}

fn file_of<R: AllocGlobal + Abort>(rt: &R, name: &str, syntax: Syntax) -> FileDescriptor {
    empty_file(rt.alloc(), owned_text(rt, name), syntax)
}

fn empty_file(alloc: Global, name: String, syntax: Syntax) -> FileDescriptor {
    FileDescriptor {
        name,
        package: None,
        dependency: Vec::new(alloc),
        public_dependency: Vec::new(alloc),
        weak_dependency: Vec::new(alloc),
        message_type: Vec::new(alloc),
        enum_type: Vec::new(alloc),
        service: Vec::new(alloc),
        extension: Vec::new(alloc),
        options: FileOptions {
            java_package: None,
            java_outer_classname: None,
            java_multiple_files: None,
            optimize_for: None,
            go_package: None,
            deprecated: None,
            cc_enable_arenas: None,
            objc_class_prefix: None,
            csharp_namespace: None,
            php_namespace: None,
            java_generate_equals_and_hash: None,
            java_generic_services: None,
            ruby_package: None,
            java_string_check_utf8: None,
            cc_generic_services: None,
            py_generic_services: None,
            php_generic_services: None,
            swift_prefix: None,
            php_class_prefix: None,
            php_metadata_namespace: None,
        },
        syntax,
    }
}

fn message_of<R: AllocGlobal + Abort>(rt: &R, name: &str, map_entry: bool) -> MessageDescriptor {
    empty_message(rt.alloc(), owned_text(rt, name), map_entry)
}

fn empty_message(alloc: Global, name: String, map_entry: bool) -> MessageDescriptor {
    MessageDescriptor {
        name,
        field: Vec::new(alloc),
        extension: Vec::new(alloc),
        nested_type: Vec::new(alloc),
        enum_type: Vec::new(alloc),
        extension_range: Vec::new(alloc),
        oneof_decl: Vec::new(alloc),
        reserved_range: Vec::new(alloc),
        reserved_name: Vec::new(alloc),
        options: MessageOptions {
            map_entry,
            deprecated: None,
            no_standard_descriptor_accessor: None,
        },
    }
}

fn field_of<R: AllocGlobal + Abort>(
    rt: &R,
    name: &str,
    json_name: &str,
    number: u32,
    field_type: FieldType,
) -> FieldDescriptor {
    FieldDescriptor {
        name: owned_text(rt, name),
        number,
        label: Label::Optional,
        field_type,
        type_name: None,
        default_value: None,
        oneof_index: None,
        role: FieldRole::Regular {
            json_name: owned_text(rt, json_name),
        },
        proto3_optional: false,
        options: FieldOptions {
            deprecated: None,
            ctype: None,
            jstype: None,
            packed: None,
            lazy: None,
            unverified_lazy: None,
            weak: None,
        },
    }
}

fn extension_of<R: AllocGlobal + Abort>(
    rt: &R,
    name: &str,
    number: u32,
    field_type: FieldType,
    extendee: &str,
) -> FieldDescriptor {
    let mut extension = field_of(rt, name, name, number, field_type);
    extension.role = FieldRole::Extension {
        extendee: owned_text(rt, extendee),
    };
    extension
}

fn with_field<R: AllocGlobal + Abort>(rt: &R) -> MessageDescriptor {
    let mut message = message_of(rt, "A", false);
    let field = field_of(rt, "b_c", "bC", 1, FieldType::String);
    push(rt, &mut message.field, field);
    message
}

fn with_map_field<R: AllocGlobal + Abort>(rt: &R) -> MessageDescriptor {
    let mut field = field_of(rt, "FooEntry", "FooEntry", 1, FieldType::Message);
    field.label = Label::Repeated;
    set(rt, &mut field.type_name, ".M.FooEntryEntry");
    let key = field_of(rt, "key", "key", 1, FieldType::String);
    let value = field_of(rt, "value", "value", 2, FieldType::Int32);
    let mut entry = message_of(rt, "FooEntryEntry", true);
    push(rt, &mut entry.field, key);
    push(rt, &mut entry.field, value);
    let mut message = message_of(rt, "M", false);
    push(rt, &mut message.field, field);
    push(rt, &mut message.nested_type, entry);
    message
}

fn with_ranges<R: AllocGlobal + Abort>(rt: &R) -> MessageDescriptor {
    let mut message = message_of(rt, "M", false);
    let extensions = NumberRange { start: 1, end: 2 };
    push(rt, &mut message.extension_range, extensions);
    let reserved = NumberRange {
        start: 2,
        end: 536870912,
    };
    push(rt, &mut message.reserved_range, reserved);
    message
}

// A message whose numbers from `start` up to `end` are left to extensions.
fn extendable<R: AllocGlobal + Abort>(rt: &R, start: u32, end: u32) -> MessageDescriptor {
    let mut message = message_of(rt, "M", false);
    push(rt, &mut message.extension_range, NumberRange { start, end });
    message
}

fn with_extensions<R: AllocGlobal + Abort>(rt: &R) -> MessageDescriptor {
    let mut message = message_of(rt, "P", false);
    let mut typed = extension_of(rt, "m", 4, FieldType::Message, ".p.M");
    typed.label = Label::Repeated;
    set(rt, &mut typed.type_name, ".p.M");
    push(rt, &mut message.extension, typed);
    let mut defaulted = extension_of(rt, "d", 5, FieldType::Int32, ".p.M");
    set(rt, &mut defaulted.default_value, "7");
    defaulted.options.deprecated = Some(true);
    push(rt, &mut message.extension, defaulted);
    let field = field_of(rt, "f", "f", 1, FieldType::Int32);
    push(rt, &mut message.field, field);
    message
}

fn with_default<R: AllocGlobal + Abort>(rt: &R) -> MessageDescriptor {
    let mut field = field_of(rt, "a", "a", 1, FieldType::Int32);
    set(rt, &mut field.default_value, "0");
    field.options.deprecated = Some(true);
    let mut message = message_of(rt, "M", false);
    push(rt, &mut message.field, field);
    message
}

fn enum_of<R: AllocGlobal + Abort>(rt: &R) -> EnumDescriptor {
    let mut declared = EnumDescriptor {
        name: owned_text(rt, "E"),
        value: Vec::new(rt.alloc()),
        reserved_range: Vec::new(rt.alloc()),
        reserved_name: Vec::new(rt.alloc()),
        options: EnumOptions {
            allow_alias: None,
            deprecated: None,
        },
    };
    let value = EnumValueDescriptor {
        name: owned_text(rt, "V"),
        number: 0,
        options: EnumValueOptions { deprecated: None },
    };
    push(rt, &mut declared.value, value);
    let below = EnumReservedRange { start: -1, end: -1 };
    push(rt, &mut declared.reserved_range, below);
    let above = EnumReservedRange {
        start: 2,
        end: 2147483647,
    };
    push(rt, &mut declared.reserved_range, above);
    declared
}

fn service_of<R: AllocGlobal + Abort>(rt: &R) -> ServiceDescriptor {
    let mut service = ServiceDescriptor {
        name: owned_text(rt, "S"),
        method: Vec::new(rt.alloc()),
        options: ServiceOptions { deprecated: None },
    };
    let method = MethodDescriptor {
        name: owned_text(rt, "R"),
        input_type: owned_text(rt, ".p.M"),
        output_type: owned_text(rt, ".p.N"),
        options: MethodOptions {
            deprecated: Some(false),
            idempotency_level: Some(IdempotencyLevel::NoSideEffects),
        },
        client_streaming: false,
        server_streaming: true,
    };
    push(rt, &mut service.method, method);
    service
}

// A file with a message.
fn with_message<R: AllocGlobal + Abort>(
    rt: &R,
    syntax: Syntax,
    message: MessageDescriptor,
) -> FileDescriptor {
    let mut file = file_of(rt, "a.proto", syntax);
    push(rt, &mut file.message_type, message);
    file
}

fn with_extension<R: AllocGlobal + Abort>(rt: &R) -> FileDescriptor {
    let mut file = with_message(rt, Syntax::Proto2, extendable(rt, 100, 200));
    let extension = extension_of(rt, "x", 100, FieldType::Int32, ".M");
    push(rt, &mut file.extension, extension);
    file
}

fn with_nested_extensions<R: AllocGlobal + Abort>(rt: &R) -> FileDescriptor {
    let mut file = with_message(rt, Syntax::Proto2, extendable(rt, 4, 10));
    set(rt, &mut file.package, "p");
    push(rt, &mut file.message_type, with_extensions(rt));
    file
}

fn with_enum<R: AllocGlobal + Abort>(rt: &R) -> FileDescriptor {
    let mut file = file_of(rt, "a.proto", Syntax::Proto2);
    push(rt, &mut file.enum_type, enum_of(rt));
    file
}

fn with_imports<R: AllocGlobal + Abort>(rt: &R) -> FileDescriptor {
    let mut file = file_of(rt, "b.proto", Syntax::Proto3);
    push(rt, &mut file.dependency, owned_text(rt, "c.proto"));
    push(rt, &mut file.public_dependency, 0);
    push(rt, &mut file.dependency, owned_text(rt, "d.proto"));
    push(rt, &mut file.weak_dependency, 1);
    file
}

fn with_service<R: AllocGlobal + Abort>(rt: &R) -> FileDescriptor {
    let mut file = file_of(rt, "a.proto", Syntax::Proto3);
    set(rt, &mut file.package, "p");
    set(rt, &mut file.options.java_package, "j");
    file.options.optimize_for = Some(OptimizeMode::CodeSize);
    push(rt, &mut file.service, service_of(rt));
    file
}

fn put<R: AllocGlobal + Abort>(rt: &R, files: &mut Vec<FileDescriptor>, sample: &Sample) {
    let file = match sample {
        Sample::Nothing => return,
        Sample::Empty(name) => file_of(rt, name, Syntax::Proto2),
        Sample::Field => with_message(rt, Syntax::Proto3, with_field(rt)),
        Sample::MapField => with_message(rt, Syntax::Proto3, with_map_field(rt)),
        Sample::Ranges => with_message(rt, Syntax::Proto2, with_ranges(rt)),
        Sample::Extension => with_extension(rt),
        Sample::NestedExtensions => with_nested_extensions(rt),
        Sample::EnumRanges => with_enum(rt),
        Sample::Default => with_message(rt, Syntax::Proto2, with_default(rt)),
        Sample::Imports => with_imports(rt),
        Sample::Service => with_service(rt),
    };
    push(rt, files, file);
}

// Whether the files have this text; where memory is refused once, that of the next call.
fn are_text<R: AllocGlobal + Abort>(rt: &R, files: &[FileDescriptor], json: &str) -> bool {
    let text = match text_of_files(rt.alloc(), "file", files) {
        Ok(text) => text,
        Err(_) => text_of_files(rt.alloc(), "file", files).expect(rt, "memory"),
    };
    text.as_str() == json
}

// The one place where descriptors are dropped.
fn release(_files: Vec<FileDescriptor>) {}

// Whether the copy has this text; where memory is refused once, that of the next call.
fn is_copied<R: AllocGlobal + Abort>(rt: &R, made: &[FileDescriptor], json: &str) -> bool {
    let copy = match copy_files(rt.alloc(), made) {
        Ok(copy) => copy,
        Err(_) => copy_files(rt.alloc(), made).expect(rt, "memory"),
    };
    let is_so = are_text(rt, &copy, json);
    release(copy);
    is_so
}

// Whether the sample and its copy have this text.
fn is_text<R: AllocGlobal + Abort>(rt: &R, sample: &Sample, json: &str) -> bool {
    let mut made = Vec::new(rt.alloc());
    put(rt, &mut made, sample);
    let is_so = are_text(rt, &made, json) && is_copied(rt, &made, json);
    release(made);
    is_so
}

#[test]
fn descriptors_as_json(rt: HostRuntime) {
    for (sample, json) in TEXTS {
        expect(&rt, is_text(&rt, sample, json), json);
    }
}

// A message that has another in it.
fn nested_message(alloc: Global) -> Result<MessageDescriptor, NoMemory> {
    let inner = empty_message(alloc, String::from_str(alloc, "N")?, false);
    let mut outer = empty_message(alloc, String::from_str(alloc, "M")?, false);
    outer.nested_type.push(inner)?;
    Ok(outer)
}

// A file of that message, unless memory is refused.
fn nested_file(alloc: Global) -> Result<FileDescriptor, NoMemory> {
    let outer = nested_message(alloc)?;
    let mut file = empty_file(alloc, String::from_str(alloc, "a.proto")?, Syntax::Proto2);
    file.message_type.push(outer)?;
    Ok(file)
}

// Fails only where no memory is there for the descriptors.
fn expect_copy<R: AllocGlobal + Abort>(rt: &R) -> Result<(), NoMemory> {
    let mut made = Vec::new(rt.alloc());
    made.push(nested_file(rt.alloc())?)?;
    let is_so = is_copied(rt, &made, NESTED);
    release(made);
    assert!(rt; is_so);
    Ok(())
}

const NESTED: &str =
    "{\"file\":[{\"messageType\":[{\"name\":\"M\",\"nestedType\":[{\"name\":\"N\"}]}],\"name\":\"a.proto\"}]}";

/// In a run that refuses one allocation this test still passes, whichever it is.
#[test]
fn one_is_refused(rt: HostRuntime) {
    assert!(rt; expect_copy(&rt).is_ok() || expect_copy(&rt).is_ok());
}

/// A value whose name stands in the text.
enum Named {
    Type(FieldType),
    Label(Label),
    Mode(OptimizeMode),
    Level(IdempotencyLevel),
    CType(CType),
    JsType(JsType),
}

/// All of them, with their names in descriptor.proto and in its order.
const NAMES: &[(Named, &str)] = &[
    (Named::Type(FieldType::Double), "TYPE_DOUBLE"),
    (Named::Type(FieldType::Float), "TYPE_FLOAT"),
    (Named::Type(FieldType::Int64), "TYPE_INT64"),
    (Named::Type(FieldType::Uint64), "TYPE_UINT64"),
    (Named::Type(FieldType::Int32), "TYPE_INT32"),
    (Named::Type(FieldType::Fixed64), "TYPE_FIXED64"),
    (Named::Type(FieldType::Fixed32), "TYPE_FIXED32"),
    (Named::Type(FieldType::Bool), "TYPE_BOOL"),
    (Named::Type(FieldType::String), "TYPE_STRING"),
    (Named::Type(FieldType::Message), "TYPE_MESSAGE"),
    (Named::Type(FieldType::Bytes), "TYPE_BYTES"),
    (Named::Type(FieldType::Uint32), "TYPE_UINT32"),
    (Named::Type(FieldType::Enum), "TYPE_ENUM"),
    (Named::Type(FieldType::Sfixed32), "TYPE_SFIXED32"),
    (Named::Type(FieldType::Sfixed64), "TYPE_SFIXED64"),
    (Named::Type(FieldType::Sint32), "TYPE_SINT32"),
    (Named::Type(FieldType::Sint64), "TYPE_SINT64"),
    (Named::Label(Label::Optional), "LABEL_OPTIONAL"),
    (Named::Label(Label::Required), "LABEL_REQUIRED"),
    (Named::Label(Label::Repeated), "LABEL_REPEATED"),
    (Named::Mode(OptimizeMode::Speed), "SPEED"),
    (Named::Mode(OptimizeMode::CodeSize), "CODE_SIZE"),
    (Named::Mode(OptimizeMode::LiteRuntime), "LITE_RUNTIME"),
    (
        Named::Level(IdempotencyLevel::Unknown),
        "IDEMPOTENCY_UNKNOWN",
    ),
    (
        Named::Level(IdempotencyLevel::NoSideEffects),
        "NO_SIDE_EFFECTS",
    ),
    (Named::Level(IdempotencyLevel::Idempotent), "IDEMPOTENT"),
    (Named::CType(CType::String), "STRING"),
    (Named::CType(CType::Cord), "CORD"),
    (Named::CType(CType::StringPiece), "STRING_PIECE"),
    (Named::JsType(JsType::Normal), "JS_NORMAL"),
    (Named::JsType(JsType::String), "JS_STRING"),
    (Named::JsType(JsType::Number), "JS_NUMBER"),
];

fn name_of(named: &Named) -> &'static str {
    match named {
        Named::Type(field_type) => field_type.name(),
        Named::Label(label) => label.name(),
        Named::Mode(mode) => mode.name(),
        Named::Level(level) => level.name(),
        Named::CType(c_type) => c_type.name(),
        Named::JsType(js_type) => js_type.name(),
    }
}

#[test]
fn names_of_values(rt: HostRuntime) {
    for (named, name) in NAMES {
        expect(&rt, name_of(named) == *name, name);
    }
}
