//! Laws of the definitions, for the layers above. None of these does anything.

ghost use Rattle.proto_desc_checks.specs.Capped.{CapsKeepTheLeast};
ghost use Rattle.proto_desc_checks.specs.Written.{FlawsAsWrittenAreOfCore};

/// The least flaw of a file is the same whether its numbers stop at a cap past every limit or not.
pub fn caps_keep_the_least()
    ensures { CapsKeepTheLeast }
{}

/// What is wrong with a file as written is wrong with it in the core language, too: so a file of the
/// core language that passes the checks passes them as written.
pub fn flaws_as_written_are_of_core()
    ensures { FlawsAsWrittenAreOfCore }
{}
