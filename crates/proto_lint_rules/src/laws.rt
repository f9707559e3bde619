//! Laws of the definitions. None of these does anything.

ghost use Rattle.proto_lint_rules.specs.Laws.{IdentifiersRise};

/// The order of rules is that of the bytes of their identifiers.
pub fn identifiers_rise()
    ensures { IdentifiersRise }
{}
