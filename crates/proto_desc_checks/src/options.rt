//! What is wrong with the options of an element.

ghost use Rattle.std.specs.Prelude.{◌≡◌, ◌++◌, map, OnOk};
ghost use Rattle.proto_ast.specs.Views.{option_of};
ghost use Rattle.proto_desc_checks.specs.FieldFlaws.{misplaced_options, repeated_options, option_flaws};

use proto_ast::{Element, OptionAt, Scene, is_allowed};
use proto_base::{FaultKind, NoMemory};
use proto_desc_numbers::{Flaw, add_if, add_marked, repeats};
use std::alloc::Global;

fn add_misplaced(
    found: &mut Vec<Flaw>,
    scene: &Scene,
    element: Element,
    options: &[OptionAt],
) -> Result<(), NoMemory>
    ensures { OnOk result (found.new.items ≡ found.old.items
        ++ misplaced_options scene.now element (map option_of options.now)) }
{
    for option in options {
        let is_misplaced = !is_allowed(scene, element, *option);
        add_if(found, is_misplaced, FaultKind::BadOption, option.name)?;
    }
    Ok(())
}

fn add_repeated(
    alloc: Global,
    found: &mut Vec<Flaw>,
    scene: &Scene,
    options: &[OptionAt],
) -> Result<(), NoMemory>
    ensures { OnOk result (found.new.items ≡ found.old.items
        ++ repeated_options scene.now (map option_of options.now)) }
{
    let mut tokens = Vec::new(alloc);
    let mut names = Vec::new(alloc);
    for option in options {
        tokens.push(option.name)?;
        names.push(scene.text(option.name))?;
    }
    let flags = repeats(alloc, names)?;
    add_marked(found, FaultKind::BadOption, &tokens, &flags)
}

/// Adds the options that the element may not have, or not with such a value, and those that were
/// given before.
pub(crate) fn add_option_flaws(
    alloc: Global,
    found: &mut Vec<Flaw>,
    scene: &Scene,
    element: Element,
    options: &[OptionAt],
) -> Result<(), NoMemory>
    ensures { OnOk result (found.new.items ≡ found.old.items
        ++ option_flaws scene.now element (map option_of options.now)) }
{
    add_misplaced(found, scene, element, options)?;
    add_repeated(alloc, found, scene, options)
}
