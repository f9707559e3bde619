//! The target of a rename: a written declaration.

use proto_base::NoMemory;
use proto_names_rules::Kind;

/// A written declaration that may be renamed.
#[derive(Clone, Copy)]
pub struct RenameTarget<'a> {
    /// Its full name, without a leading dot.
    pub name: &'a str,
    pub kind: Kind,
    /// The file that declares it, by its place.
    pub file: u32,
    /// The token of its simple name.
    pub token: u32,
    /// Whether it is a map field, which has a generated entry beside it.
    pub is_map: bool,
}

/// Why a name is none that may be renamed.
#[derive(Clone, Copy)]
pub enum NoTarget {
    /// No symbol has it.
    Unknown,
    /// What has it may not be renamed.
    NotAllowed,
    NoMemory,
}

impl From<NoMemory> for NoTarget {
    ghost use Rattle.std.specs.Prelude.{◌≡◌};
    ghost use Rattle.proto_edit_captures.specs.declared.rename_target.NoTarget.TheVariants.{NoMemory as OutOfMemory};

    ghost from_gives = { λ _ e. e ≡ OutOfMemory };

    fn from(_e: NoMemory) -> NoTarget {
        NoTarget::NoMemory
    }
}
