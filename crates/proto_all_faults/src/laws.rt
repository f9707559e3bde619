//! Laws of the faults that are listed, for the layers above. None of these does anything.

ghost use Rattle.proto_all_faults.specs.Laws.{CapsKeepAllElse, FirstIsLeast, NoneIsListed};

/// The first fault that is listed is the least fault, which `Schema::open` answers; none is listed
/// exactly where the files compile.
pub fn first_is_least()
    ensures first { FirstIsLeast }
    ensures none { NoneIsListed }
{}

/// Numbers that are read up to 2^64 change no fault but others at the place of one with a lower
/// number.
pub fn caps_keep_all_else()
    ensures { CapsKeepAllElse }
{}
