//! The words of a custom option's path and of its value.

ghost use Rattle.std.specs.Prelude.{◌≡◌, ◌++◌, map, flat_map, IfOk, OnOk};
ghost use Rattle.proto_custom_options.specs.CustomOptions.{atom_words, constant_words, custom_words, value_words};

use crate::gather::push;
use proto_base::NoMemory;
use proto_tree::{Atom, Behind, Constant, Custom, CustomValue};
use std::alloc::Global;

fn push_path(found: &mut Vec<u32>, path: &[Behind<u32>]) -> Result<(), NoMemory>
    ensures { OnOk result (found.new.items ≡ found.old.items ++ map (λ b. b.item) path.now) }
{
    for behind in path {
        push(found, behind.item)?;
    }
    Ok(())
}

fn push_atom(found: &mut Vec<u32>, atom: Atom) -> Result<(), NoMemory>
    ensures { OnOk result (found.new.items ≡ found.old.items ++ atom_words atom) }
{
    match atom {
        Atom::Word(word) => push(found, word),
        _ => Ok(()),
    }
}

fn push_atoms(found: &mut Vec<u32>, atoms: &[Atom]) -> Result<(), NoMemory>
    ensures { OnOk result (found.new.items ≡ found.old.items ++ flat_map atom_words atoms.now) }
{
    for atom in atoms {
        push_atom(found, *atom)?;
    }
    Ok(())
}

fn push_constant(found: &mut Vec<u32>, value: &Constant) -> Result<(), NoMemory>
    ensures { OnOk result (found.new.items ≡ found.old.items ++ constant_words value.now) }
{
    match value {
        Constant::Word(word) => push(found, *word),
        _ => Ok(()),
    }
}

fn push_value(found: &mut Vec<u32>, value: &CustomValue) -> Result<(), NoMemory>
    ensures { OnOk result (found.new.items ≡ found.old.items ++ value_words value.now) }
{
    match value {
        CustomValue::Constant(constant) => push_constant(found, constant),
        CustomValue::Aggregate(aggregate) => push_atoms(found, aggregate.atoms.as_slice()),
    }
}

/// The tokens of the words of a custom option's path and of its value, in order.
pub fn custom_words(alloc: Global, custom: &Custom) -> Result<Vec<u32>, NoMemory>
    ensures { IfOk result (λ words. words.items ≡ custom_words custom.now) }
{
    let mut words = Vec::new(alloc);
    push_path(&mut words, custom.path.as_slice())?;
    push_value(&mut words, &custom.value)?;
    Ok(words)
}
