//! Names in descriptors.

ghost use Rattle.std.specs.Prelude.{◌≡◌, map, string_bytes, IfOk};
ghost use Rattle.proto_ast.specs.Scenes.{value};
ghost use Rattle.proto_desc_build.specs.Described.{absolute, type_text};

use proto_ast::Scene;
use proto_base::NoMemory;
use proto_names_rules::below;
use proto_tree::Reference;
use std::alloc::Global;

/// A full name behind a dot. Fails only when out of memory.
pub fn absolute(alloc: Global, name: &str) -> Result<String, NoMemory>
    ensures { IfOk result (λ s. string_bytes s ≡ absolute name.now) }
{
    below(alloc, "", name)
}

/// The full name that a reference means, behind a dot.
pub(crate) fn type_text(
    alloc: Global,
    scene: &Scene,
    reference: &Reference,
) -> Result<String, NoMemory>
    ensures { IfOk result (λ s. string_bytes s ≡ type_text scene.now reference.now) }
{
    match scene.meaning(reference) {
        Some(meant) => absolute(alloc, meant.name),
        None => Ok(String::new(alloc)),
    }
}

/// The values of string tokens.
pub(crate) fn strings(alloc: Global, scene: &Scene, tokens: &[u32]) -> Result<Vec<String>, NoMemory>
    ensures { IfOk result (λ strings. map string_bytes strings.items
        ≡ map (value scene.now) tokens.now) }
{
    let mut strings = Vec::new(alloc);
    for token in tokens {
        strings.push(scene.string(alloc, *token)?)?;
    }
    Ok(strings)
}
