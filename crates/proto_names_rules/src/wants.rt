//! What a reference may resolve to.

ghost use Rattle.std.specs.Prelude.{◌≡◌};
ghost use Rattle.proto_names_rules.specs.Names.{fits_alone, may_resolve_to};

use crate::kind::Kind;

/// What a reference may resolve to.
#[derive(Clone, Copy, Debug, PartialEq, Eq)]
pub enum Wants {
    /// A message or an enum: the type of a field.
    Type,
    /// A message: the input or the output of a method, or what an `extend` block extends.
    Message,
    /// An extension: the name of a custom option.
    Extension,
}

impl Wants {
    /// Whether such a reference of one word fits a symbol of this kind.
    pub fn fits_alone(self, kind: Kind) -> bool
        ensures { result ≡ fits_alone self kind }
    {
        match self {
            Wants::Type | Wants::Message => kind.is_type(),
            Wants::Extension => true,
        }
    }

    /// Whether such a reference may resolve to a symbol of this kind.
    pub fn may_resolve_to(self, kind: Kind) -> bool
        ensures { result ≡ may_resolve_to self kind }
    {
        match self {
            Wants::Type | Wants::Message => kind.is_type(),
            Wants::Extension => kind.is_extension(),
        }
    }
}
