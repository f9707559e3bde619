//! Listing an enum, and its values beside it.

ghost use Rattle.std.specs.Prelude.{◌≤◌, length, map, OnOk};
ghost use Rattle.proto_tree.specs.File.{trees, enum_item_tree};
ghost use Rattle.proto_names_outline.specs.FromTree.{value_names, no_names, picked, flat_uses};
ghost use Rattle.proto_names_outline.specs.Listing.{Adds, needs};
ghost use Rattle.proto_names_rules.specs.Skeleton.{Token};
ghost use Rattle.proto_names_rules.specs.Tree.{place, beside};

use crate::listing::{Above, Listing};
use crate::option_listing::{list_setting, list_settings};
use proto_base::NoMemory;
use proto_names_rules::Kind;
use proto_tree::{Enum, EnumItem};

/// An enum, and its values beside it.
pub(crate) fn list_enum<'a>(
    listing: &mut Listing<'a>,
    above: Above,
    names: &'a Enum,
) -> Result<(), NoMemory>
    requires { needs above ≤ length listing.old.declared.items }
    ensures { OnOk result (Adds listing.old listing.new above
        (λ path. beside path names.now.name Kind.Enum Kind.Value
        (picked value_names no_names (trees enum_item_tree names.now.members.items)))
        (λ path. flat_uses path path (trees enum_item_tree names.now.members.items))) }
{
    listing.name(above, names.name, Kind::Enum)?;
    list_values(listing, above, &names.members)
}

fn list_values<'a>(
    listing: &mut Listing<'a>,
    above: Above,
    items: &'a [EnumItem],
) -> Result<(), NoMemory>
    requires { needs above ≤ length listing.old.declared.items }
    ensures { OnOk result (Adds listing.old listing.new above
        (λ path. map (λ i. place path (Token i) Kind.Value)
        (picked value_names no_names (trees enum_item_tree items.now)))
        (λ path. flat_uses path path (trees enum_item_tree items.now))) }
{
    for item in items {
        list_value(listing, above, item)?;
    }
    Ok(())
}

fn list_value<'a>(
    listing: &mut Listing<'a>,
    above: Above,
    item: &'a EnumItem,
) -> Result<(), NoMemory>
    requires { needs above ≤ length listing.old.declared.items }
    ensures { OnOk result (Adds listing.old listing.new above
        (λ path. map (λ i. place path (Token i) Kind.Value)
        (picked value_names no_names (enum_item_tree item.now)))
        (λ path. flat_uses path path (enum_item_tree item.now))) }
{
    match item {
        EnumItem::Value(value) => {
            listing.name(above, value.name, Kind::Value)?;
            list_settings(listing, above, &value.settings)
        }
        EnumItem::Option(option) => list_setting(listing, above, &option.setting),
        EnumItem::Reserved(_) => Ok(()),
        EnumItem::Empty(_) => Ok(()),
    }
}
