//! Listing an `extend`: its fields, which are declared where it stands, and what they refer to.

ghost use Rattle.std.specs.Prelude.{◌≤◌, length, [], ◌∷◌, ◌++◌, map, OnOk};
ghost use Rattle.proto_tree.specs.File.{trees, extension_tree};
ghost use Rattle.proto_names_outline.specs.FromTree.{field_names, no_names, picked, type_uses, settings_uses, flat_uses, used_as};
ghost use Rattle.proto_names_outline.specs.Listing.{Adds, needs};
ghost use Rattle.proto_names_rules.specs.Skeleton.{Token};
ghost use Rattle.proto_names_rules.specs.Tree.{place, placed, extend as extend_of};

use crate::field_listing::list_type;
use crate::listing::{Above, Listing};
use crate::option_listing::list_settings;
use proto_base::NoMemory;
use proto_names_rules::{Kind, Wants};
use proto_tree::{Extend, Extension};

/// What an `extend` extends, and its fields.
pub(crate) fn list_extend<'a>(
    listing: &mut Listing<'a>,
    above: Above,
    block: &'a Extend,
) -> Result<(), NoMemory>
    requires { needs above ≤ length listing.old.declared.items }
    ensures { OnOk result (Adds listing.old listing.new above
        (λ path. placed path (extend_of
        (picked field_names no_names (trees extension_tree block.now.fields.items))))
        (λ path. used_as path Wants.Message block.now.extendee
        ∷ flat_uses path path (trees extension_tree block.now.fields.items))) }
{
    listing.refer(above, Wants::Message, &block.extendee)?;
    list_extensions(listing, above, &block.fields)
}

fn list_extensions<'a>(
    listing: &mut Listing<'a>,
    above: Above,
    extensions: &'a [Extension],
) -> Result<(), NoMemory>
    requires { needs above ≤ length listing.old.declared.items }
    ensures { OnOk result (Adds listing.old listing.new above
        (λ path. map (λ i. place path (Token i) Kind.Extension)
        (picked field_names no_names (trees extension_tree extensions.now)))
        (λ path. flat_uses path path (trees extension_tree extensions.now))) }
{
    for extension in extensions {
        list_extension(listing, above, extension)?;
    }
    Ok(())
}

fn list_extension<'a>(
    listing: &mut Listing<'a>,
    above: Above,
    extension: &'a Extension,
) -> Result<(), NoMemory>
    requires { needs above ≤ length listing.old.declared.items }
    ensures { OnOk result (Adds listing.old listing.new above
        (λ path. place path (Token extension.now.field.name) Kind.Extension ∷ [])
        (λ path. type_uses path extension.now.field.kind
        ++ settings_uses path extension.now.field.settings)) }
{
    listing.name(above, extension.field.name, Kind::Extension)?;
    list_type(listing, above, &extension.field.kind)?;
    list_settings(listing, above, &extension.field.settings)
}
