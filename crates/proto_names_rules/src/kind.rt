//! What a symbol is.

ghost use Rattle.std.specs.Prelude.{◌≡◌};
ghost use Rattle.proto_names_rules.specs.Linked.{is_package};
ghost use Rattle.proto_names_rules.specs.Names.{is_extension, is_type, is_outer};

use std::fmt;

/// The kind of a symbol.
#[derive(Clone, Copy, Debug, PartialEq, Eq)]
pub enum Kind {
    /// A package, or a prefix of one.
    Package,
    /// A message that is written.
    Message,
    /// The message that stands for a map field's pairs; it counts as a message.
    Entry,
    /// An enum, without its values.
    Enum,
    /// A service, without its methods.
    Service,
    /// A field of a message or of a oneof, also a map field.
    Field,
    /// `key` or `value` of a map field's entry.
    EntryField,
    /// A oneof, without its fields: these are its siblings.
    Oneof,
    /// An enum's value, which is a sibling of its enum.
    Value,
    /// A method of a service.
    Method,
    /// An extension: a field of an `extend` block, declared where the block stands.
    Extension,
}

impl fmt::Display for Kind {
    fn fmt<W: fmt::Write>(&self, f: &mut fmt::Formatter<W>) -> fmt::Result {
        f.write_str(self.text())
    }
}

impl Kind {
    // What it is, in words, for people.
    fn text(self) -> &'static str {
        match self {
            Kind::Package => "package",
            Kind::Message => "message",
            Kind::Entry => "map entry",
            Kind::Enum => "enum",
            Kind::Service => "service",
            Kind::Field => "field",
            Kind::EntryField => "field of a map entry",
            Kind::Oneof => "oneof",
            Kind::Value => "enum value",
            Kind::Method => "method",
            Kind::Extension => "extension",
        }
    }

    /// Whether it is a package, or a prefix of one.
    pub fn is_package(self) -> bool
        ensures { result ≡ is_package self }
    {
        match self {
            Kind::Package => true,
            _ => false,
        }
    }

    /// Whether a reference to a type may mean a symbol of this kind: a message, also a generated
    /// one, or an enum.
    pub fn is_type(self) -> bool
        ensures { result ≡ is_type self }
    {
        match self {
            Kind::Message | Kind::Entry | Kind::Enum => true,
            _ => false,
        }
    }

    /// Whether it is an extension.
    pub fn is_extension(self) -> bool
        ensures { result ≡ is_extension self }
    {
        match self {
            Kind::Extension => true,
            _ => false,
        }
    }

    /// Whether the first word of a longer reference may stand for a symbol of this kind: a package,
    /// a message, also a generated one, an enum or a service.
    pub fn is_outer(self) -> bool
        ensures { result ≡ is_outer self }
    {
        match self {
            Kind::Package | Kind::Message | Kind::Entry | Kind::Enum | Kind::Service => true,
            _ => false,
        }
    }
}
