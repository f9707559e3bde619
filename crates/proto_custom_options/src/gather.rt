//! Gathering, one by one.

ghost use Rattle.std.specs.Prelude.{◌≡◌, ◌++◌, [], ◌∷◌, OnOk};

use proto_base::NoMemory;

pub(crate) fn push<T: Copy>(found: &mut Vec<T>, item: T) -> Result<(), NoMemory>
    ensures { OnOk result (found.new.items ≡ found.old.items ++ (item ∷ [])) }
{
    Ok(found.push(item)?)
}
