//! Listing the fields of a message, and its oneofs.

ghost use Rattle.std.specs.Prelude.{◌<◌, ◌≤◌, ◌++◌, length, [], ◌∷◌, map, OnOk};
ghost use Rattle.proto_tree.specs.File.{oneof_item_tree, trees};
ghost use Rattle.proto_names_outline.specs.FromTree.{field_names, no_names, picked, type_uses, settings_uses, flat_uses};
ghost use Rattle.proto_names_outline.specs.Listing.{Adds, needs};
ghost use Rattle.proto_names_outline.specs.declared.listing.Above.TheVariants.{Below};
ghost use Rattle.proto_names_rules.specs.Skeleton.{Token, EntryOf, Given};
ghost use Rattle.proto_names_rules.specs.Tree.{place, placed, beside, key_word, value_word, map_field};

use crate::listing::{Above, LastWord, Listed, Listing};
use crate::option_listing::{list_setting, list_settings};
use proto_base::NoMemory;
use proto_names_rules::{Kind, Wants};
use proto_tree::{Field, FieldType, MapField, Oneof, OneofItem};

/// The reference of a type, if it is one.
pub(crate) fn list_type<'a>(
    listing: &mut Listing<'a>,
    scope: Above,
    kind: &'a FieldType,
) -> Result<(), NoMemory>
    requires { needs scope ≤ length listing.old.declared.items }
    ensures { OnOk result (Adds listing.old listing.new
        scope (λ path. []) (λ path. type_uses path kind.now)) }
{
    match kind {
        FieldType::Scalar(_) => Ok(()),
        FieldType::Reference(reference) => listing.refer(scope, Wants::Type, reference),
    }
}

pub(crate) fn list_field<'a>(
    listing: &mut Listing<'a>,
    scope: usize,
    field: &'a Field,
) -> Result<(), NoMemory>
    requires { scope < length listing.old.declared.items }
    ensures { OnOk result (Adds listing.old listing.new (Below scope)
        (λ path. place path (Token field.now.name) Kind.Field ∷ [])
        (λ path. type_uses path field.now.kind ++ settings_uses path field.now.settings)) }
{
    listing.name(Above::Below(scope), field.name, Kind::Field)?;
    list_type(listing, Above::Below(scope), &field.kind)?;
    list_settings(listing, Above::Below(scope), &field.settings)
}

/// A map field, its entry and the entry's fields.
pub(crate) fn list_map_field<'a>(
    listing: &mut Listing<'a>,
    scope: usize,
    field: &'a MapField,
) -> Result<(), NoMemory>
    requires { scope < length listing.old.declared.items }
    ensures { OnOk result (Adds listing.old listing.new (Below scope)
        (λ path. placed path (map_field field.now.name))
        (λ path. type_uses path field.now.value ++ settings_uses path field.now.settings)) }
{
    listing.name(Above::Below(scope), field.name, Kind::Field)?;
    list_entry(listing, scope, field.name)?;
    list_type(listing, Above::Below(scope), &field.value)?;
    list_settings(listing, Above::Below(scope), &field.settings)
}

fn list_entry(listing: &mut Listing, scope: usize, token: u32) -> Result<(), NoMemory>
    requires { scope < length listing.old.declared.items }
    ensures { OnOk result (Adds listing.old listing.new (Below scope)
        (λ path. place path (EntryOf token) Kind.Entry ∷ place (path ++ EntryOf token ∷ [])
        (Given key_word) Kind.EntryField ∷ place
        (path ++ EntryOf token ∷ []) (Given value_word) Kind.EntryField ∷ []) (λ path. [])) }
{
    let index = listing.add(Listed {
        above: Above::Below(scope),
        word: LastWord::EntryName,
        token,
        kind: Kind::Entry,
    })?;
    listing.add(Listed {
        above: Above::Below(index),
        word: LastWord::Key,
        token,
        kind: Kind::EntryField,
    })?;
    listing.add(Listed {
        above: Above::Below(index),
        word: LastWord::Value,
        token,
        kind: Kind::EntryField,
    })?;
    Ok(())
}

/// A oneof, and its fields beside it.
pub(crate) fn list_oneof<'a>(
    listing: &mut Listing<'a>,
    scope: usize,
    oneof: &'a Oneof,
) -> Result<(), NoMemory>
    requires { scope < length listing.old.declared.items }
    ensures { OnOk result (Adds listing.old listing.new (Below scope)
        (λ path. beside path oneof.now.name Kind.Oneof Kind.Field
        (picked field_names no_names (trees oneof_item_tree oneof.now.members.items)))
        (λ path. flat_uses path path (trees oneof_item_tree oneof.now.members.items))) }
{
    listing.name(Above::Below(scope), oneof.name, Kind::Oneof)?;
    list_oneof_items(listing, scope, &oneof.members)
}

/// What stands in a oneof: a field, or an option, whose name stands in the scope of the fields.
fn list_oneof_item<'a>(
    listing: &mut Listing<'a>,
    scope: usize,
    item: &'a OneofItem,
) -> Result<(), NoMemory>
    requires { scope < length listing.old.declared.items }
    ensures { OnOk result (Adds listing.old listing.new (Below scope)
        (λ path. map (λ i. place path (Token i) Kind.Field)
        (picked field_names no_names (oneof_item_tree item.now)))
        (λ path. flat_uses path path (oneof_item_tree item.now))) }
{
    match item {
        OneofItem::Field(field) => list_field(listing, scope, field),
        OneofItem::Option(option) => list_setting(listing, Above::Below(scope), &option.setting),
    }
}

fn list_oneof_items<'a>(
    listing: &mut Listing<'a>,
    scope: usize,
    items: &'a [OneofItem],
) -> Result<(), NoMemory>
    requires { scope < length listing.old.declared.items }
    ensures { OnOk result (Adds listing.old listing.new (Below scope)
        (λ path. map (λ i. place path (Token i) Kind.Field)
        (picked field_names no_names (trees oneof_item_tree items.now)))
        (λ path. flat_uses path path (trees oneof_item_tree items.now))) }
{
    for item in items {
        list_oneof_item(listing, scope, item)?;
    }
    Ok(())
}
