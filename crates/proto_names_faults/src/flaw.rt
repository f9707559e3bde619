//! A fault by the file and the token that it stands at, before it has a path and an offset.

ghost use Rattle.std.specs.Prelude.{◌≡◌, ◌++◌, OnOk};
ghost use Rattle.proto_names_faults.specs.Flaws.{flaw_if, kind_if};

use proto_base::{FaultKind, NoMemory};

/// A fault of a file, at one of its tokens.
#[derive(Clone, Copy)]
pub(crate) struct Flaw {
    /// The number of the file, from 0.
    pub(crate) file: u32,
    /// The token, by its index among those of the file.
    pub(crate) token: u32,
    /// What is wrong there.
    pub(crate) kind: FaultKind,
}

/// Adds the flaw of this kind at a token, if there is a kind.
pub(crate) fn add_flaw(
    found: &mut Vec<Flaw>,
    file: u32,
    token: u32,
    kind: Option<FaultKind>,
) -> Result<(), NoMemory>
    ensures { OnOk result (found.new.items ≡ found.old.items ++ flaw_if file token kind) }
{
    if let Some(kind) = kind {
        found.push(Flaw { file, token, kind })?;
    }
    Ok(())
}

/// The kind, if it is so.
pub(crate) fn kind_if(is_so: bool, kind: FaultKind) -> Option<FaultKind>
    ensures { result ≡ kind_if is_so kind }
{
    if is_so { Some(kind) } else { None }
}
