//! Laws of the definitions, for the layers above. None of these does anything.

ghost use Rattle.proto_desc.specs.AsWritten.{CoreFilesAreDescribed, CoreFilesCompile};
ghost use Rattle.proto_desc.specs.Opening.{NoOpenFault, OneOpenFault};

pub use proto_desc_build::laws::caps_keep_the_descriptor;

/// `Schema::open` and `CheckedSchema::open` answer the same fault of the same files: there is one,
/// and none of files that compile.
pub fn one_fault_is_answered()
    ensures one { OneOpenFault }
    ensures none { NoOpenFault }
{}

/// Files that are read in the core language and have no fault there have none as written, and the
/// same descriptors.
pub fn core_files_compile_as_written()
    ensures clean { CoreFilesCompile }
    ensures described { CoreFilesAreDescribed }
{}
