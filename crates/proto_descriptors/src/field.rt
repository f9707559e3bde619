//! Fields of messages, and extensions.

ghost use Rattle.std.specs.Prelude.{◌≡◌, IfOk};
ghost use Rattle.proto_descriptors.specs.Descriptors.{FieldDesc};
ghost use Rattle.proto_descriptors.specs.Names.{c_type_name, js_type_name, label_name, type_word};
ghost use Rattle.proto_descriptors.specs.Views.{field_desc, role_extendee, role_json_name};

use crate::copying::{HasCopy, copied_text};
use proto_base::NoMemory;
use std::alloc::Global;

/// A field, or an extension: a field that an `extend` block gives another message.
#[derive(Drop)]
pub struct FieldDescriptor {
    /// The name that its declaration gives it.
    pub name: String,
    /// Its number, from 1.
    pub number: u32,
    /// How many values it may have.
    pub label: Label,
    /// Its scalar type, or which kind of type `type_name` names.
    pub field_type: FieldType,
    /// The full name of the message or enum, behind a dot.
    pub type_name: Option<String>,
    /// The default as text: decimal, `true` or `false`, the string, or the name of an enum's value.
    pub default_value: Option<String>,
    /// The place of its oneof in the message's `oneof_decl`, from 0.
    pub oneof_index: Option<usize>,
    /// Whether it is a regular field or an extension, and what is said of that kind alone.
    pub role: FieldRole,
    /// Whether a proto3 field says `optional`.
    pub proto3_optional: bool,
    /// The options in brackets behind it.
    pub options: FieldOptions,
}

/// Whether a field is declared in its message or in an `extend` block.
#[derive(Drop)]
pub enum FieldRole {
    /// A field that stands in its message.
    Regular {
        /// The name in JSON texts: the one that is written, or the field's own in camel case.
        json_name: String,
    },
    /// A field that an `extend` block gives another message.
    Extension {
        /// The full name of the message that it extends, behind a dot.
        extendee: String,
    },
}

/// How many values a field may have.
#[derive(Clone, Copy)]
pub enum Label {
    /// One or none: also where no label is written.
    Optional,
    /// Exactly one.
    Required,
    /// Any number: also of a map field.
    Repeated,
}

/// A scalar type, or which kind of type `type_name` names.
#[derive(Clone, Copy)]
pub enum FieldType {
    /// `double`.
    Double,
    /// `float`.
    Float,
    /// `int64`.
    Int64,
    /// `uint64`.
    Uint64,
    /// `int32`.
    Int32,
    /// `fixed64`.
    Fixed64,
    /// `fixed32`.
    Fixed32,
    /// `bool`.
    Bool,
    /// `string`.
    String,
    /// A message, that of a map field's entry among them.
    Message,
    /// `bytes`.
    Bytes,
    /// `uint32`.
    Uint32,
    /// An enum.
    Enum,
    /// `sfixed32`.
    Sfixed32,
    /// `sfixed64`.
    Sfixed64,
    /// `sint32`.
    Sint32,
    /// `sint64`.
    Sint64,
}

/// The options that stand at a field.
#[derive(Clone, Copy)]
pub struct FieldOptions {
    /// The C++ type of a text.
    pub ctype: Option<CType>,
    /// Whether the values of a repeated field stand in one block.
    pub packed: Option<bool>,
    /// The JavaScript type of a whole number of 64 bits.
    pub jstype: Option<JsType>,
    /// Whether a message is read only when it is asked for.
    pub lazy: Option<bool>,
    /// The same, where nothing checks the bytes that are not read yet.
    pub unverified_lazy: Option<bool>,
    /// Whether the field is no longer to be used.
    pub deprecated: Option<bool>,
    /// Whether code may be linked without the field's type.
    pub weak: Option<bool>,
}

/// The C++ type of a text.
#[derive(Clone, Copy)]
pub enum CType {
    /// `std::string`.
    String,
    /// A cord, whose parts are shared.
    Cord,
    /// A part of a text that stands elsewhere.
    StringPiece,
}

/// The JavaScript type of a whole number of 64 bits.
#[derive(Clone, Copy)]
pub enum JsType {
    /// The one that the code generator chooses.
    Normal,
    /// A string.
    String,
    /// A number, which may lose digits.
    Number,
}

impl HasCopy for FieldDescriptor {
    ghost View = { FieldDesc };

    ghost view = { λ f. field_desc f };

    fn copy(&self, alloc: Global) -> Result<FieldDescriptor, NoMemory> {
        let name = self.name.copy(alloc)?;
        let type_name = copied_text(alloc, &self.type_name)?;
        let default_value = copied_text(alloc, &self.default_value)?;
        let role = copied_role(alloc, &self.role)?;
        Ok(FieldDescriptor {
            name,
            number: self.number,
            label: self.label,
            field_type: self.field_type,
            type_name,
            default_value,
            oneof_index: self.oneof_index,
            role,
            proto3_optional: self.proto3_optional,
            options: self.options,
        })
    }
}

/// The same role.
fn copied_role(alloc: Global, role: &FieldRole) -> Result<FieldRole, NoMemory>
    ensures extendee { IfOk result (λ copy. role_extendee copy ≡ role_extendee role.now) }
    ensures json_name { IfOk result (λ copy. role_json_name copy ≡ role_json_name role.now) }
{
    match role {
        FieldRole::Regular { json_name } => {
            let json_name = json_name.copy(alloc)?;
            Ok(FieldRole::Regular { json_name })
        }
        FieldRole::Extension { extendee } => {
            let extendee = extendee.copy(alloc)?;
            Ok(FieldRole::Extension { extendee })
        }
    }
}

impl Label {
    /// The name in descriptor.proto.
    pub fn name(self) -> &'static str
        ensures { result.now ≡ label_name self }
    {
        match self {
            Label::Optional => "LABEL_OPTIONAL",
            Label::Required => "LABEL_REQUIRED",
            Label::Repeated => "LABEL_REPEATED",
        }
    }
}

impl FieldType {
    /// The name in descriptor.proto.
    pub fn name(self) -> &'static str
        ensures { result.now ≡ type_word self }
    {
        match self {
            FieldType::Double => "TYPE_DOUBLE",
            FieldType::Float => "TYPE_FLOAT",
            FieldType::Int64 => "TYPE_INT64",
            FieldType::Uint64 => "TYPE_UINT64",
            FieldType::Int32 => "TYPE_INT32",
            FieldType::Fixed64 => "TYPE_FIXED64",
            FieldType::Fixed32 => "TYPE_FIXED32",
            FieldType::Bool => "TYPE_BOOL",
            FieldType::String => "TYPE_STRING",
            FieldType::Message => "TYPE_MESSAGE",
            FieldType::Bytes => "TYPE_BYTES",
            FieldType::Uint32 => "TYPE_UINT32",
            FieldType::Enum => "TYPE_ENUM",
            FieldType::Sfixed32 => "TYPE_SFIXED32",
            FieldType::Sfixed64 => "TYPE_SFIXED64",
            FieldType::Sint32 => "TYPE_SINT32",
            FieldType::Sint64 => "TYPE_SINT64",
        }
    }
}

impl CType {
    /// The name in descriptor.proto.
    pub fn name(self) -> &'static str
        ensures { result.now ≡ c_type_name self }
    {
        match self {
            CType::String => "STRING",
            CType::Cord => "CORD",
            CType::StringPiece => "STRING_PIECE",
        }
    }
}

impl JsType {
    /// The name in descriptor.proto.
    pub fn name(self) -> &'static str
        ensures { result.now ≡ js_type_name self }
    {
        match self {
            JsType::Normal => "JS_NORMAL",
            JsType::String => "JS_STRING",
            JsType::Number => "JS_NUMBER",
        }
    }
}
