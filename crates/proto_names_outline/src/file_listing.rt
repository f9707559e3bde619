//! Listing what a file declares and refers to.

ghost use Rattle.std.specs.Prelude.{◌≡◌, ◌↔◌, ℕ, ◌≤◌, length, [], map, IfOk, OnOk};
ghost use Rattle.std.specs.List.{Contains};
ghost use Rattle.proto_tree.specs.File.{trees, item_tree, tree_of_file};
ghost use Rattle.proto_names_outline.specs.FromTree.{items_in, item_uses, file_names};
ghost use Rattle.proto_names_outline.specs.Listing.{Adds, IsSound, items_below, needs, package_first, path_at, read, uses_in};
ghost use Rattle.proto_names_outline.specs.declared.listing.Above.TheVariants.{Outermost};
ghost use Rattle.proto_names_rules.specs.Skeleton.{Token};
ghost use Rattle.proto_names_rules.specs.Tree.{prefixes, file_placed, ItemsSpan, Placed};

use crate::enum_listing::list_enum;
use crate::extend_listing::list_extend;
use crate::listing::{Above, Listing};
use crate::message_listing::list_message;
use crate::option_listing::list_setting;
use crate::service_listing::list_service;
use crate::wanted::package;
use proto_base::NoMemory;
use proto_names_rules::Kind;
use proto_tree::{File, Item};
use std::alloc::Global;

/// What a file declares, its package first, and what it refers to.
pub fn list_file<'a>(alloc: Global, file: &'a File) -> Result<Listing<'a>, NoMemory>
    ensures sound { IfOk result IsSound }
    ensures declared { IfOk result
        (λ l. read l.declared.items ≡ package_first (items_in (tree_of_file file.now))) }
    ensures same { IfOk result (λ l. (low high : ℕ) → ItemsSpan low high
        (items_in (tree_of_file file.now)) → (p : Placed) → Contains
        (read l.declared.items) p ↔ Contains (file_placed (items_in (tree_of_file file.now))) p) }
    ensures used { IfOk result (λ l. uses_in l ≡ (file_names (tree_of_file file.now)).used) }
{
    let words = package(alloc, file)?;
    let mut listing = Listing::new(alloc);
    let above = list_package(&mut listing, &words)?;
    list_items(&mut listing, above, &file.items)?;
    Ok(listing)
}

/// A package, word below word; answers what stands right below it.
fn list_package(listing: &mut Listing, words: &[u32]) -> Result<Above, NoMemory>
    ensures adds { OnOk result (Adds listing.old listing.new Outermost
        (λ path. prefixes path words.now) (λ path. [])) }
    ensures above { IfOk result (λ above. (needs above ≤ length listing.new.declared.items)
        × (path_at (read listing.new.declared.items) above ≡ map (λ t. Token t) words.now)) }
{
    let mut above = Above::Outermost;
    for word in words {
        let index = listing.name(above, *word, Kind::Package)?;
        above = Above::Below(index);
    }
    Ok(above)
}

fn list_items<'a>(
    listing: &mut Listing<'a>,
    above: Above,
    items: &'a [Item],
) -> Result<(), NoMemory>
    requires { needs above ≤ length listing.old.declared.items }
    ensures { OnOk result (Adds listing.old listing.new above
        (λ path. items_below path (items_in (trees item_tree items.now)))
        (λ path. item_uses path (trees item_tree items.now))) }
{
    for item in items {
        list_item(listing, above, item)?;
    }
    Ok(())
}

fn list_item<'a>(listing: &mut Listing<'a>, above: Above, item: &'a Item) -> Result<(), NoMemory>
    requires { needs above ≤ length listing.old.declared.items }
    ensures { OnOk result (Adds listing.old listing.new above
        (λ path. items_below path (items_in (item_tree item.now)))
        (λ path. item_uses path (item_tree item.now))) }
{
    match item {
        Item::Message(message) => list_message(listing, above, message),
        Item::Enum(names) => list_enum(listing, above, names),
        Item::Service(service) => list_service(listing, above, service),
        Item::Extend(block) => list_extend(listing, above, block),
        Item::Option(option) => list_setting(listing, above, &option.setting),
        Item::Syntax(_) => Ok(()),
        Item::Import(_) => Ok(()),
        Item::Package(_) => Ok(()),
        Item::Empty(_) => Ok(()),
    }
}
