//! What a file says of others: its package and its imports.

ghost use Rattle.std.specs.Prelude.{◌≡◌, ◌∷◌, map, option_map, string_bytes, IfOk};
ghost use Rattle.proto_tree.specs.File.{tree_of_file};
ghost use Rattle.proto_names_outline.specs.FromTree.{imports_in, items_in};
ghost use Rattle.proto_names_outline.specs.Listing.{wanted_of};
ghost use Rattle.proto_names_rules.specs.Joined.{joined};
ghost use Rattle.proto_names_rules.specs.Tree.{package_of};
ghost use Rattle.proto_ast.specs.Scenes.{text, value};
ghost use Rattle.proto_desc_build.specs.Described.{package_named, public_places, weak_places};

use proto_ast::Scene;
use proto_base::NoMemory;
use proto_names_outline::wanted::{Wanted, imports, package};
use proto_tree::File;
use std::alloc::Global;

fn joined_words(alloc: Global, scene: &Scene, first: u32, rest: &[u32]) -> Result<String, NoMemory>
    ensures { IfOk result (λ s. string_bytes s ≡ joined (map (text scene.now) (first ∷ rest.now))) }
{
    let mut name = String::from_str(alloc, scene.text(first))?;
    for word in rest {
        name.push('.')?;
        name.push_str(scene.text(*word))?;
    }
    Ok(name)
}

fn package_name(alloc: Global, scene: &Scene, words: &[u32]) -> Result<Option<String>, NoMemory>
    ensures { IfOk result (λ name. option_map string_bytes name
        ≡ package_named scene.now words.now) }
{
    match words {
        [] => Ok(None),
        [first, rest @ ..] => Ok(Some(joined_words(alloc, scene, *first, rest)?)),
    }
}

fn dependencies(alloc: Global, scene: &Scene, imports: &[Wanted]) -> Result<Vec<String>, NoMemory>
    ensures { IfOk result (λ paths. map string_bytes paths.items
        ≡ map (λ w. value scene.now w.path) (map wanted_of imports.now)) }
{
    let mut paths = Vec::new(alloc);
    for import in imports {
        paths.push(scene.string(alloc, import.path)?)?;
    }
    Ok(paths)
}

fn public_dependencies(alloc: Global, imports: &[Wanted]) -> Result<Vec<usize>, NoMemory>
    ensures { IfOk result (λ places. places.items ≡ public_places 0 (map wanted_of imports.now)) }
{
    let mut places = Vec::new(alloc);
    for place in 0..imports.len() {
        if imports[place].is_public {
            places.push(place)?;
        }
    }
    Ok(places)
}

fn weak_dependencies(alloc: Global, imports: &[Wanted]) -> Result<Vec<usize>, NoMemory>
    ensures { IfOk result (λ places. places.items ≡ weak_places 0 (map wanted_of imports.now)) }
{
    let mut places = Vec::new(alloc);
    for place in 0..imports.len() {
        if imports[place].is_weak {
            places.push(place)?;
        }
    }
    Ok(places)
}

/// What a file says of others.
#[derive(Drop)]
pub(crate) struct FileHead {
    /// The full name of its package.
    pub package: Option<String>,
    /// The paths of its imports, in order.
    pub dependency: Vec<String>,
    /// The places of the public imports among these, from 0.
    pub public_dependency: Vec<usize>,
    /// The places of the weak imports among these, from 0.
    pub weak_dependency: Vec<usize>,
}

/// What a file says of others.
pub(crate) fn head(alloc: Global, scene: &Scene, file: &File) -> Result<FileHead, NoMemory>
    ensures name { IfOk result (λ h. option_map string_bytes h.package
        ≡ package_named scene.now (package_of (items_in (tree_of_file file.now)))) }
    ensures paths { IfOk result (λ h. map string_bytes h.dependency.items
        ≡ map (λ w. value scene.now w.path) (imports_in (tree_of_file file.now))) }
    ensures places { IfOk result (λ h. h.public_dependency.items
        ≡ public_places 0 (imports_in (tree_of_file file.now))) }
    ensures weak { IfOk result (λ h. h.weak_dependency.items
        ≡ weak_places 0 (imports_in (tree_of_file file.now))) }
{
    let package = package_name(alloc, scene, &package(alloc, file)?)?;
    let imports = imports(alloc, file)?;
    let dependency = dependencies(alloc, scene, &imports)?;
    let public_dependency = public_dependencies(alloc, &imports)?;
    let weak_dependency = weak_dependencies(alloc, &imports)?;
    Ok(FileHead {
        package,
        dependency,
        public_dependency,
        weak_dependency,
    })
}
