//! What is wrong with names: those that are reserved.

ghost use Rattle.std.specs.Prelude.{◌≡◌, ◌++◌, ℕ, List, flat_map, length, map, IfOk, OnOk};
ghost use Rattle.std.specs.List.{list_any};
ghost use Rattle.std.specs.Str.{bytes_eq};
ghost use Rattle.std.specs.String.{string_bytes};
ghost use Rattle.proto_base.specs.declared.fault.FaultKind.TheVariants as kind;
ghost use Rattle.proto_ast.specs.Scenes.{text, value};
ghost use Rattle.proto_desc_numbers.specs.Flaws.{after_earlier, flaw_if, marked};
ghost use Rattle.proto_desc_checks.specs.FileFlaws.{name_flaws};

use indexmap::IndexSet;
use proto_ast::Scene;
use proto_base::{FaultKind, NoMemory};
use proto_desc_numbers::{Flaw, add_if, add_marked, repeats};
use std::alloc::Global;

fn values(alloc: Global, scene: &Scene, tokens: &[u32]) -> Result<Vec<String>, NoMemory>
    ensures { IfOk result (λ values. map string_bytes values.items
        ≡ map (value scene.now) tokens.now) }
{
    let mut values = Vec::new(alloc);
    for token in tokens {
        values.push(scene.string(alloc, *token)?)?;
    }
    Ok(values)
}

fn known_names<'a>(alloc: Global, names: &'a [String]) -> Result<IndexSet<&'a str>, NoMemory>
    ensures { IfOk result (λ known. (w : List ℕ) → list_any (bytes_eq w)
        (map (λ k. k.now) known.keys) ≡ list_any (bytes_eq w) (map string_bytes names.entry.now)) }
{
    let mut known = IndexSet::new(alloc);
    for name in names {
        known.insert(name.as_str())?;
    }
    Ok(known)
}

fn is_known(scene: &Scene, known: &IndexSet<&str>, name: u32) -> bool
    ensures { result ≡ list_any (bytes_eq (text scene.now name)) (map (λ k. k.now) known.now.keys) }
{
    known.contains(scene.text(name))
}

fn add_known(
    found: &mut Vec<Flaw>,
    scene: &Scene,
    known: &IndexSet<&str>,
    names: &[u32],
) -> Result<(), NoMemory>
    ensures { OnOk result (found.new.items ≡ found.old.items ++ flat_map
        (λ t. flaw_if (list_any (bytes_eq (text scene.now t)) (map (λ k. k.now) known.now.keys))
        kind.ReservedName t) names.now) }
{
    for name in names {
        let is_known = is_known(scene, known, *name);
        add_if(found, is_known, FaultKind::ReservedName, *name)?;
    }
    Ok(())
}

fn add_reserved(
    alloc: Global,
    found: &mut Vec<Flaw>,
    scene: &Scene,
    reserved: &[String],
    names: &[u32],
) -> Result<(), NoMemory>
    ensures { OnOk result (found.new.items ≡ found.old.items ++ flat_map
        (λ t. flaw_if (list_any (bytes_eq (text scene.now t)) (map string_bytes reserved.now))
        kind.ReservedName t) names.now) }
{
    let known = known_names(alloc, reserved)?;
    add_known(found, scene, &known, names)
}

fn add_repeated_names(
    alloc: Global,
    found: &mut Vec<Flaw>,
    tokens: &[u32],
    names: Vec<String>,
) -> Result<(), NoMemory>
    requires { length tokens.now ≡ length names.items }
    ensures { OnOk result (found.new.items ≡ found.old.items ++ marked kind.ReservedName tokens.now
        (after_earlier bytes_eq (map string_bytes names.items))) }
{
    let flags = repeats(alloc, names)?;
    add_marked(found, FaultKind::ReservedName, tokens, &flags)
}

/// Adds the names that are reserved, by their tokens, and the reserved names that were given
/// before.
pub(crate) fn add_name_flaws(
    alloc: Global,
    found: &mut Vec<Flaw>,
    scene: &Scene,
    reserved: &[u32],
    names: &[u32],
) -> Result<(), NoMemory>
    ensures { OnOk result (found.new.items ≡ found.old.items
        ++ name_flaws scene.now reserved.now names.now) }
{
    let values = values(alloc, scene, reserved)?;
    add_reserved(alloc, found, scene, &values, names)?;
    add_repeated_names(alloc, found, reserved, values)
}
