//! What a file imports, and its package.

ghost use Rattle.std.specs.Prelude.{◌≡◌, [], map, IfOk, MatchOption};
ghost use Rattle.proto_tree.specs.File.{item_tree, tree_of_file};
ghost use Rattle.proto_tree.specs.References.{dotted};
ghost use Rattle.proto_names_outline.specs.FromTree.{imports_in, items_in};
ghost use Rattle.proto_names_outline.specs.Listing.{wanted_of, wanted_if};
ghost use Rattle.proto_names_rules.specs.Tree.{package_of};

use proto_base::NoMemory;
use proto_tree::{Dotted, File, Item};
use std::alloc::Global;

/// An import: the token of its path, and whether it is public or weak.
#[derive(Clone, Copy)]
pub struct Wanted {
    pub path: u32,
    pub is_public: bool,
    pub is_weak: bool,
}

fn import(item: &Item) -> Option<Wanted>
    ensures { imports_in (item_tree item.now) ≡ wanted_if result }
{
    match item {
        Item::Import(import) => Some(Wanted {
            path: import.path,
            is_public: import.is_public(),
            is_weak: import.is_weak(),
        }),
        _ => None,
    }
}

/// The imports of a file, in order.
pub fn imports(alloc: Global, file: &File) -> Result<Vec<Wanted>, NoMemory>
    ensures { IfOk result (λ found. map wanted_of found.items
        ≡ imports_in (tree_of_file file.now)) }
{
    let mut found = Vec::new(alloc);
    for item in &file.items {
        if let Some(wanted) = import(item) {
            found.push(wanted)?;
        }
    }
    Ok(found)
}

fn package_name(item: &Item) -> Option<&Dotted>
    ensures { MatchOption result (package_of (items_in (item_tree item.now)) ≡ [])
        (λ name. package_of (items_in (item_tree item.now)) ≡ dotted name.now) }
{
    match item {
        Item::Package(package) => Some(&package.name),
        _ => None,
    }
}

/// The tokens of words joined by dots.
pub fn tokens_of(alloc: Global, words: &Dotted) -> Result<Vec<u32>, NoMemory>
    ensures { IfOk result (λ tokens. tokens.items ≡ dotted words.now) }
{
    let mut tokens = Vec::new(alloc);
    tokens.push(words.first)?;
    for behind in words.rest.as_slice() {
        tokens.push(behind.item)?;
    }
    Ok(tokens)
}

/// The tokens of the words of a file's package.
#[tactic(auto, using(crate::proofs::Behind::package_behind, crate::proofs::Behind::package_here))]
pub fn package(alloc: Global, file: &File) -> Result<Vec<u32>, NoMemory>
    ensures { IfOk result (λ tokens. tokens.items ≡ package_of (items_in (tree_of_file file.now))) }
{
    for item in &file.items {
        if let Some(name) = package_name(item) {
            return tokens_of(alloc, name);
        }
    }
    Ok(Vec::new(alloc))
}
