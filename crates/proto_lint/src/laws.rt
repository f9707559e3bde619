//! Laws of the definitions, for the layers above. None of these does anything.

ghost use Rattle.proto_lint.specs.AsWritten.{FindingsAskNoLanguage};

pub use proto_lint_names::laws::identifiers_rise;

/// What rules find in files does not ask for the files' language: files of the core language have
/// the same findings as written.
pub fn findings_ask_no_language()
    ensures { FindingsAskNoLanguage }
{}
