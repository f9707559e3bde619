//! The messages of descriptor.proto that extensions extend to be options.

ghost use Rattle.std.specs.Prelude.{◌≡◌};
ghost use Rattle.proto_custom_options.specs.CustomOptions.{is_options_message};

/// Whether the full name is that of one of the nine options messages.
pub fn is_options_message(name: &str) -> bool
    ensures { result ≡ is_options_message name.now }
{
    matches!(
        name,
        "google.protobuf.FileOptions"
            | "google.protobuf.MessageOptions"
            | "google.protobuf.FieldOptions"
            | "google.protobuf.OneofOptions"
            | "google.protobuf.ExtensionRangeOptions"
            | "google.protobuf.EnumOptions"
            | "google.protobuf.EnumValueOptions"
            | "google.protobuf.ServiceOptions"
            | "google.protobuf.MethodOptions"
    )
}
