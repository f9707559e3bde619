//! Listing a service, and its methods below it.

ghost use Rattle.std.specs.Prelude.{◌<◌, ◌≤◌, ◌++◌, length, [], ◌∷◌, map, OnOk};
ghost use Rattle.proto_tree.specs.File.{method_item_tree, method_tree, service_item_tree, trees};
ghost use Rattle.proto_names_outline.specs.FromTree.{block_names, flat_uses, method_names, picked, signature_uses};
ghost use Rattle.proto_names_outline.specs.Listing.{Adds, needs, path_at, read};
ghost use Rattle.proto_names_outline.specs.declared.listing.Above.TheVariants.{Below};
ghost use Rattle.proto_names_rules.specs.Skeleton.{Token};
ghost use Rattle.proto_names_rules.specs.Tree.{place, placed, service as service_of};

use crate::listing::{Above, Listing};
use crate::option_listing::list_setting;
use proto_base::NoMemory;
use proto_names_rules::{Kind, Wants};
use proto_tree::{Method, MethodEnd, MethodItem, Service, ServiceItem, Signature};

/// A service, and its methods below it.
pub(crate) fn list_service<'a>(
    listing: &mut Listing<'a>,
    above: Above,
    service: &'a Service,
) -> Result<(), NoMemory>
    requires { needs above ≤ length listing.old.declared.items }
    ensures { OnOk result (Adds listing.old listing.new above
        (λ path. placed path (service_of service.now.name
        (picked method_names block_names (trees service_item_tree service.now.members.items))))
        (λ path. flat_uses path (path ++ Token service.now.name ∷ [])
        (trees service_item_tree service.now.members.items))) }
{
    let index = listing.name(above, service.name, Kind::Service)?;
    list_methods(listing, above, index, &service.members)
}

fn list_methods<'a>(
    listing: &mut Listing<'a>,
    around: Above,
    scope: usize,
    items: &'a [ServiceItem],
) -> Result<(), NoMemory>
    requires around { needs around ≤ length listing.old.declared.items }
    requires within { scope < length listing.old.declared.items }
    ensures { OnOk result (Adds listing.old listing.new (Below scope)
        (λ path. map (λ i. place path (Token i) Kind.Method)
        (picked method_names block_names (trees service_item_tree items.now)))
        (λ path. flat_uses (path_at (read listing.old.declared.items) around) path
        (trees service_item_tree items.now))) }
{
    for item in items {
        list_service_item(listing, around, scope, item)?;
    }
    Ok(())
}

fn list_service_item<'a>(
    listing: &mut Listing<'a>,
    around: Above,
    scope: usize,
    item: &'a ServiceItem,
) -> Result<(), NoMemory>
    requires around { needs around ≤ length listing.old.declared.items }
    requires within { scope < length listing.old.declared.items }
    ensures { OnOk result (Adds listing.old listing.new (Below scope)
        (λ path. map (λ i. place path (Token i) Kind.Method)
        (picked method_names block_names (service_item_tree item.now)))
        (λ path. flat_uses (path_at (read listing.old.declared.items) around) path
        (service_item_tree item.now))) }
{
    match item {
        ServiceItem::Method(method) => list_method(listing, scope, method),
        ServiceItem::Option(option) => list_setting(listing, around, &option.setting),
        ServiceItem::Empty(_) => Ok(()),
    }
}

fn list_method<'a>(
    listing: &mut Listing<'a>,
    scope: usize,
    method: &'a Method,
) -> Result<(), NoMemory>
    requires { scope < length listing.old.declared.items }
    ensures { OnOk result (Adds listing.old listing.new (Below scope)
        (λ path. place path (Token method.now.signature.name) Kind.Method ∷ [])
        (λ path. flat_uses path path (method_tree method.now))) }
{
    list_signature(listing, scope, &method.signature)?;
    match &method.end {
        MethodEnd::Semicolon(_) => Ok(()),
        MethodEnd::Block { items, .. } => list_method_items(listing, scope, items),
    }
}

fn list_signature<'a>(
    listing: &mut Listing<'a>,
    scope: usize,
    signature: &'a Signature,
) -> Result<(), NoMemory>
    requires { scope < length listing.old.declared.items }
    ensures { OnOk result (Adds listing.old listing.new (Below scope)
        (λ path. place path (Token signature.now.name) Kind.Method ∷ [])
        (λ path. signature_uses path signature.now)) }
{
    listing.name(Above::Below(scope), signature.name, Kind::Method)?;
    listing.refer(
        Above::Below(scope),
        Wants::Message,
        &signature.input.reference,
    )?;
    listing.refer(
        Above::Below(scope),
        Wants::Message,
        &signature.output.reference,
    )
}

/// The names of the custom options in the block of a method: they stand in the service.
fn list_method_items<'a>(
    listing: &mut Listing<'a>,
    scope: usize,
    items: &'a [MethodItem],
) -> Result<(), NoMemory>
    requires { scope < length listing.old.declared.items }
    ensures { OnOk result (Adds listing.old listing.new (Below scope)
        (λ path. []) (λ path. flat_uses path path (trees method_item_tree items.now))) }
{
    for item in items {
        list_method_item(listing, scope, item)?;
    }
    Ok(())
}

fn list_method_item<'a>(
    listing: &mut Listing<'a>,
    scope: usize,
    item: &'a MethodItem,
) -> Result<(), NoMemory>
    requires { scope < length listing.old.declared.items }
    ensures { OnOk result (Adds listing.old listing.new (Below scope)
        (λ path. []) (λ path. flat_uses path path (method_item_tree item.now))) }
{
    match item {
        MethodItem::Option(option) => list_setting(listing, Above::Below(scope), &option.setting),
        MethodItem::Empty(_) => Ok(()),
    }
}
