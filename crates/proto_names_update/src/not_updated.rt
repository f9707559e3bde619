//! Why what was made of files is not updated in place.

ghost use Rattle.std.specs.Prelude.{◌≡◌};

use proto_base::NoMemory;
use std::alloc::{AllocError, AllocFailed};

// No `OrNoMemory`: its fault says nothing more, and it is copied.
/// Why what was made of files is not changed in place to that of edited files.
#[derive(Clone, Copy, Debug, PartialEq, Eq)]
pub enum NotUpdated {
    /// It needs a rebuild: that tells whether the files have a fault, and which.
    NeedsRebuild,
    /// A growth was refused.
    NoMemory,
}

impl From<AllocError> for NotUpdated {
    ghost use Rattle.proto_names_update.specs.declared.not_updated.NotUpdated.TheVariants.{NoMemory};

    ghost from_gives = { λ _ e. e ≡ NoMemory };

    fn from(_e: AllocError) -> NotUpdated {
        NotUpdated::NoMemory
    }
}

impl From<NoMemory> for NotUpdated {
    ghost use Rattle.proto_names_update.specs.declared.not_updated.NotUpdated.TheVariants.{NoMemory as OutOfMemory};

    ghost from_gives = { λ _ e. e ≡ OutOfMemory };

    fn from(_e: NoMemory) -> NotUpdated {
        NotUpdated::NoMemory
    }
}

impl<T: Drop> From<AllocFailed<T>> for NotUpdated {
    ghost use Rattle.proto_names_update.specs.declared.not_updated.NotUpdated.TheVariants.{NoMemory as OutOfMemory};

    ghost from_gives = { λ _ e. e ≡ OutOfMemory };

    fn from(_e: AllocFailed<T>) -> NotUpdated {
        NotUpdated::NoMemory
    }
}
