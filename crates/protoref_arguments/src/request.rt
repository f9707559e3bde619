//! What is asked for.

ghost use Rattle.std.specs.Prelude.{◌≡◌};

use proto_base::NoMemory;
use proto_lint_rules::RuleSet;
use std::alloc::{AllocError, AllocFailed};
use thiserror::Error;

/// What the words ask for.
#[derive(Drop)]
pub enum Request {
    /// This text.
    Help(String),
    /// The version of the program.
    Version,
    /// The descriptors of the schemas in a folder.
    Compile {
        root: String,
    },
    /// What these rules find in the schemas in a folder.
    Lint {
        root: String,
        rules: RuleSet,
    },
    /// A new simple name for the symbol of a full name.
    Rename {
        root: String,
        name: String,
        to: String,
    },
    /// The field of a full name deleted.
    DeleteField {
        root: String,
        name: String,
    },
    /// An import of a path in a schema.
    AddImport {
        root: String,
        file: String,
        path: String,
    },
    /// No import of a path in a schema.
    DropImport {
        root: String,
        file: String,
        path: String,
    },
    /// The last entry of the journal undone.
    Undo {
        root: String,
    },
    /// The entries of the journal.
    Log {
        root: String,
    },
    /// A torn folder brought back to before the last entry of its journal.
    Recover {
        root: String,
    },
    /// The journal of a folder moved to the second version.
    Migrate {
        root: String,
    },
}

// No `OrNoMemory`: its fault says nothing more, and each case has a text for people.
/// Why the words ask for nothing. Out of memory is never told as a bad command line.
#[derive(Clone, Copy, Debug, PartialEq, Eq, Error)]
pub enum UsageError {
    /// The words are none of the program's, or name a rule that there is not.
    #[error("bad command line")]
    BadCommandLine,
    /// Memory ran out.
    #[error("no memory")]
    NoMemory,
}

impl From<NoMemory> for UsageError {
    ghost use Rattle.protoref_arguments.specs.declared.request.UsageError.TheVariants as fault;

    ghost from_gives = { λ _ e. e ≡ fault.NoMemory };

    fn from(_error: NoMemory) -> UsageError {
        UsageError::NoMemory
    }
}

impl From<AllocError> for UsageError {
    ghost use Rattle.protoref_arguments.specs.declared.request.UsageError.TheVariants as fault;

    ghost from_gives = { λ _ e. e ≡ fault.NoMemory };

    fn from(_error: AllocError) -> UsageError {
        UsageError::NoMemory
    }
}

impl<T: Drop> From<AllocFailed<T>> for UsageError {
    ghost use Rattle.protoref_arguments.specs.declared.request.UsageError.TheVariants as fault;

    ghost from_gives = { λ _ e. e ≡ fault.NoMemory };

    fn from(_error: AllocFailed<T>) -> UsageError {
        UsageError::NoMemory
    }
}
