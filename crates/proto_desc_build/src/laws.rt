//! Laws of the definitions, for the layers above. None of these does anything.

ghost use Rattle.proto_desc_build.specs.Capped.{CapsKeepTheDescriptor};
ghost use Rattle.proto_desc_build.specs.Written.{DescriptorsAskNoLanguage};

/// The descriptor of a file is the same whether its numbers stop at a cap past every limit or not.
pub fn caps_keep_the_descriptor()
    ensures { CapsKeepTheDescriptor }
{}

/// The descriptor of a file is the same whether the file is of the core language or as written.
pub fn descriptors_ask_no_language()
    ensures { DescriptorsAskNoLanguage }
{}
