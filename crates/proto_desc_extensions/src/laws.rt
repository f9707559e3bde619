//! Laws of the definitions, for the layers above. None of these does anything.

ghost use Rattle.proto_desc_extensions.specs.Capped.{CapsKeepTheLeastOfFile};

/// The least flaw of a file in its workspace is the same whether numbers stop at a cap past every
/// limit or not.
pub fn caps_keep_the_least()
    ensures { CapsKeepTheLeastOfFile }
{}
