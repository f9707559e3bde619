//! Gathering, one by one, and what stands with a separator between each two.

ghost use Rattle.std.specs.Prelude.{◌≡◌, ◌++◌, [], ◌∷◌, map, OnOk};
ghost use Rattle.proto_ast.specs.Parts.{separated};

use proto_base::NoMemory;
use proto_tree::Separated;

pub(crate) fn push<T: Copy>(found: &mut Vec<T>, item: T) -> Result<(), NoMemory>
    ensures { OnOk result (found.new.items ≡ found.old.items ++ (item ∷ [])) }
{
    Ok(found.push(item)?)
}

pub(crate) fn push_separated<'a, T: Drop>(
    found: &mut Vec<&'a T>,
    items: &'a Separated<T>,
) -> Result<(), NoMemory>
    ensures { OnOk result (map (λ r. r.now) found.new.items
        ≡ map (λ r. r.now) found.old.items ++ separated items.now) }
{
    push(found, &items.first)?;
    for behind in items.rest.as_slice() {
        push(found, &behind.item)?;
    }
    Ok(())
}

pub(crate) fn push_tokens(found: &mut Vec<u32>, tokens: &Separated<u32>) -> Result<(), NoMemory>
    ensures { OnOk result (found.new.items ≡ found.old.items ++ separated tokens.now) }
{
    push(found, tokens.first)?;
    for behind in tokens.rest.as_slice() {
        push(found, behind.item)?;
    }
    Ok(())
}
