//! JSON names that clash.

ghost use Rattle.std.specs.Prelude.{◌≡◌, ◌++◌, [], map, not, true, ◌==◌, IfOk, IfSome, OnOk};
ghost use Rattle.std.specs.List.{list_any};
ghost use Rattle.std.specs.Str.{bytes_eq};
ghost use Rattle.std.specs.String.{string_bytes};
ghost use Rattle.proto_base.specs.declared.fault.FaultKind.TheVariants as kind;
ghost use Rattle.proto_ast.specs.JsonNames.{json_name_of, name_digest};
ghost use Rattle.proto_ast.specs.Views.{field_of};
ghost use Rattle.proto_desc_numbers.specs.Flaws.{after_earlier, marked};
ghost use Rattle.proto_desc_checks.specs.FileFlaws.{json_clashes};

use proto_ast::{FieldAt, Scene, json_digest, json_name};
use proto_base::{FaultKind, NoMemory};
use proto_desc_numbers::{Flaw, add_marked, repeats};
use std::alloc::Global;

/// A number of each field's JSON name; none where a field has an option `json_name`.
fn json_digests(
    alloc: Global,
    scene: &Scene,
    fields: &[FieldAt],
) -> Result<Option<Vec<u64>>, NoMemory>
    ensures { IfOk result (λ found. IfSome found (λ digests. digests.items
        ≡ map (λ f. name_digest (json_name_of scene.now f)) (map field_of fields.now))) }
{
    let mut digests = Vec::with_capacity(alloc, fields.len())?;
    for field in fields {
        match json_digest(scene, *field) {
            Some(digest) => digests.push(digest)?,
            None => return Ok(None),
        }
    }
    Ok(Some(digests))
}

fn is_any_set(flags: &[bool]) -> bool
    ensures { result ≡ list_any (λ b. b) flags.now }
{
    flags.iter().any(|flag| *flag)
}

fn are_apart(alloc: Global, digests: Vec<u64>) -> Result<bool, NoMemory>
    ensures { IfOk result (λ apart. apart
        ≡ not (list_any (λ b. b) (after_earlier (λ a b. a == b) digests.items))) }
{
    let flags = repeats(alloc, digests)?;
    Ok(!is_any_set(&flags))
}

/// Whether numbers alone tell that no field has the JSON name of an earlier one. No name is made.
fn have_no_clash(alloc: Global, scene: &Scene, fields: &[FieldAt]) -> Result<bool, NoMemory>
    ensures { IfOk result (λ none. none ≡ true
        → json_clashes scene.now (map field_of fields.now) ≡ []) }
{
    match json_digests(alloc, scene, fields)? {
        Some(digests) => are_apart(alloc, digests),
        None => Ok(false),
    }
}

fn json_names(alloc: Global, scene: &Scene, fields: &[FieldAt]) -> Result<Vec<String>, NoMemory>
    ensures { IfOk result (λ names. map string_bytes names.items
        ≡ map (json_name_of scene.now) (map field_of fields.now)) }
{
    let mut names = Vec::with_capacity(alloc, fields.len())?;
    for field in fields {
        names.push(json_name(alloc, scene, *field)?)?;
    }
    Ok(names)
}

/// The tokens of the fields' names.
pub(crate) fn name_tokens(alloc: Global, fields: &[FieldAt]) -> Result<Vec<u32>, NoMemory>
    ensures { IfOk result (λ tokens. tokens.items ≡ map (λ f. f.name) (map field_of fields.now)) }
{
    let mut tokens = Vec::with_capacity(alloc, fields.len())?;
    for field in fields {
        tokens.push(field.name)?;
    }
    Ok(tokens)
}

fn add_repeated_names(
    alloc: Global,
    found: &mut Vec<Flaw>,
    scene: &Scene,
    fields: &[FieldAt],
) -> Result<(), NoMemory>
    ensures { OnOk result (found.new.items ≡ found.old.items ++ marked kind.JsonClash
        (map (λ f. f.name) (map field_of fields.now))
        (after_earlier bytes_eq (map (json_name_of scene.now) (map field_of fields.now)))) }
{
    let names = json_names(alloc, scene, fields)?;
    let flags = repeats(alloc, names)?;
    let tokens = name_tokens(alloc, fields)?;
    add_marked(found, FaultKind::JsonClash, &tokens, &flags)
}

/// Adds the fields of a proto3 file with the JSON name of an earlier one.
pub(crate) fn add_json_clashes(
    alloc: Global,
    found: &mut Vec<Flaw>,
    scene: &Scene,
    fields: &[FieldAt],
) -> Result<(), NoMemory>
    ensures { OnOk result (found.new.items ≡ found.old.items
        ++ json_clashes scene.now (map field_of fields.now)) }
{
    if !scene.is_proto3() {
        return Ok(());
    }
    if have_no_clash(alloc, scene, fields)? {
        return Ok(());
    }
    add_repeated_names(alloc, found, scene, fields)
}
