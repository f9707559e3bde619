//! Names that options are looked up by, and which files are as written.

use crate::calls::{given, read};
use proto_base::{Profile, SchemaFault};
use proto_option_values::{has_written, is_fixed};
use std::process::Abort;

// A full name, and whether it is on the path of one of the nine options messages.
const NAMES: &[(&str, bool)] = &[
    ("", true),
    ("google", true),
    ("google.protobuf", true),
    ("google.protobuf.FileOptions", true),
    ("google.protobuf.MessageOptions", true),
    ("google.protobuf.FieldOptions", true),
    ("google.protobuf.OneofOptions", true),
    ("google.protobuf.ExtensionRangeOptions", true),
    ("google.protobuf.EnumOptions", true),
    ("google.protobuf.EnumValueOptions", true),
    ("google.protobuf.ServiceOptions", true),
    ("google.protobuf.MethodOptions", true),
    ("google.protobuf.FieldOptions.deprecated", true),
    ("google.protobuf.FieldOptions.JSType.JS_NORMAL", true),
    ("google.protobuf.FieldOption", false),
    ("google.protobuf.Any", false),
    ("google.protobuf.Any.FieldOptions", false),
    ("google.api", false),
    ("google.api.FieldOptions", false),
    ("googles", false),
    ("protobuf.FieldOptions", false),
    ("FieldOptions", false),
    ("a.google.protobuf.FieldOptions", false),
];

#[test]
fn names_are_fixed(rt: HostRuntime) {
    for (name, said) in NAMES {
        assert!(&rt; is_fixed(name) == *said, "{name}");
    }
}

// Whether some of the files is as written.
fn is_written<R: AllocGlobal>(rt: &R, profile: Profile, texts: &str) -> Result<bool, SchemaFault> {
    let files = read(rt.alloc(), profile, given(rt.alloc(), texts)?)?;
    let written = has_written(&files);
    files.release();
    Ok(written)
}

#[test]
fn files_are_as_written(rt: HostRuntime) {
    let text = "a.proto syntax = \"proto3\"; message A {}|b.proto syntax = \"proto3\";";
    let written = is_written(&rt, Profile::AsWritten, text).expect(&rt, "files");
    assert!(&rt; written, "as written");
    let core = is_written(&rt, Profile::Core, text).expect(&rt, "files");
    assert!(&rt; !core, "core");
}
