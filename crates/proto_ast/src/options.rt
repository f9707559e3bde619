//! The options of each language.

ghost use Rattle.std.specs.Prelude.{◌≡◌};
ghost use Rattle.proto_ast.specs.Options.{value_kind_as, value_kind_of, written_kind_of};
ghost use Rattle.proto_ast.specs.declared.options.Element.TheVariants as element;

use proto_base::Profile;

/// What an option may stand at.
#[derive(Clone, Copy, PartialEq, Eq)]
pub enum Element {
    File,
    Message,
    Service,
    EnumValue,
    Field,
    /// A field of an `extend` block.
    Extension,
    Enum,
    Method,
}

/// What the value of an option is.
#[derive(Clone, Copy, PartialEq, Eq)]
pub enum ValueKind {
    /// Strings.
    Text,
    /// `true` or `false`.
    Truth,
    /// `SPEED`, `CODE_SIZE` or `LITE_RUNTIME`.
    OptimizeMode,
    /// `IDEMPOTENCY_UNKNOWN`, `NO_SIDE_EFFECTS` or `IDEMPOTENT`.
    IdempotencyLevel,
    /// `STRING`, `CORD` or `STRING_PIECE`.
    CType,
    /// `JS_NORMAL`, `JS_STRING` or `JS_NUMBER`.
    JsType,
    /// What a field's type says.
    Default,
}

fn file_option(name: &str) -> Option<ValueKind>
    ensures { result ≡ value_kind_of element.File name.now }
{
    match name {
        "java_package"
        | "java_outer_classname"
        | "go_package"
        | "csharp_namespace"
        | "objc_class_prefix"
        | "php_namespace" => Some(ValueKind::Text),
        "java_multiple_files" | "cc_enable_arenas" | "deprecated" => Some(ValueKind::Truth),
        "optimize_for" => Some(ValueKind::OptimizeMode),
        _ => None,
    }
}

// The kind of an option of the core language.
fn core_option(element: Element, name: &str) -> Option<ValueKind>
    ensures { result ≡ value_kind_of element name.now }
{
    match (element, name) {
        (Element::File, _) => file_option(name),
        (Element::Field | Element::Extension, "packed") => Some(ValueKind::Truth),
        (Element::Field | Element::Extension, "default") => Some(ValueKind::Default),
        (Element::Field, "json_name") => Some(ValueKind::Text),
        (Element::Enum, "allow_alias") => Some(ValueKind::Truth),
        (Element::Method, "idempotency_level") => Some(ValueKind::IdempotencyLevel),
        (_, "deprecated") => Some(ValueKind::Truth),
        _ => None,
    }
}

fn written_file_option(name: &str) -> Option<ValueKind>
    ensures { result ≡ written_kind_of element.File name.now }
{
    match name {
        "ruby_package" | "swift_prefix" | "php_class_prefix" | "php_metadata_namespace" => {
            Some(ValueKind::Text)
        }
        "java_generate_equals_and_hash"
        | "java_generic_services"
        | "java_string_check_utf8"
        | "cc_generic_services"
        | "py_generic_services"
        | "php_generic_services" => Some(ValueKind::Truth),
        _ => None,
    }
}

fn written_message_option(name: &str) -> Option<ValueKind>
    ensures { result ≡ written_kind_of element.Message name.now }
{
    match name {
        "no_standard_descriptor_accessor" => Some(ValueKind::Truth),
        _ => None,
    }
}

fn written_field_option(name: &str) -> Option<ValueKind>
    ensures { result ≡ written_kind_of element.Field name.now }
{
    match name {
        "lazy" | "unverified_lazy" | "weak" => Some(ValueKind::Truth),
        "ctype" => Some(ValueKind::CType),
        "jstype" => Some(ValueKind::JsType),
        _ => None,
    }
}

// The kind of an option that the language as written has besides.
fn written_option(element: Element, name: &str) -> Option<ValueKind>
    ensures { result ≡ written_kind_of element name.now }
{
    match element {
        Element::File => written_file_option(name),
        Element::Field | Element::Extension => written_field_option(name),
        Element::Message => written_message_option(name),
        Element::Service | Element::EnumValue | Element::Enum | Element::Method => None,
    }
}

/// The kind of the value of an element's option, where the element may have the option in the
/// language.
pub(crate) fn value_kind(profile: Profile, element: Element, name: &str) -> Option<ValueKind>
    ensures { result ≡ value_kind_as profile element name.now }
{
    let kind = core_option(element, name);
    match profile {
        Profile::Core => kind,
        Profile::AsWritten => kind.or(written_option(element, name)),
    }
}
