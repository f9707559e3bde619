//! Listing the names of custom options.

ghost use Rattle.std.specs.Prelude.{◌≤◌, length, [], flat_map, OnOk};
ghost use Rattle.proto_names_outline.specs.FromTree.{setting_uses, settings_uses};
ghost use Rattle.proto_names_outline.specs.Listing.{Adds, needs};

use crate::listing::{Above, Listing};
use proto_base::NoMemory;
use proto_names_rules::Wants;
use proto_tree::{Behind, OnHeap, Setting, Settings};

/// The name of an option, if it is a custom one.
pub(crate) fn list_setting<'a>(
    listing: &mut Listing<'a>,
    scope: Above,
    setting: &'a Setting,
) -> Result<(), NoMemory>
    requires { needs scope ≤ length listing.old.declared.items }
    ensures { OnOk result (Adds listing.old listing.new
        scope (λ path. []) (λ path. setting_uses path setting.now)) }
{
    match setting {
        Setting::Plain(_) => Ok(()),
        Setting::Custom(custom) => listing.refer(scope, Wants::Extension, &custom.get().name),
    }
}

/// The names of the custom options between brackets.
pub(crate) fn list_settings<'a>(
    listing: &mut Listing<'a>,
    scope: Above,
    settings: &'a Option<OnHeap<Settings>>,
) -> Result<(), NoMemory>
    requires { needs scope ≤ length listing.old.declared.items }
    ensures { OnOk result (Adds listing.old listing.new
        scope (λ path. []) (λ path. settings_uses path settings.now)) }
{
    match settings {
        Some(settings) => {
            let list = &settings.get().list;
            list_setting(listing, scope, &list.first)?;
            list_behind(listing, scope, list.rest.as_slice())
        }
        None => Ok(()),
    }
}

fn list_behind<'a>(
    listing: &mut Listing<'a>,
    scope: Above,
    settings: &'a [Behind<Setting>],
) -> Result<(), NoMemory>
    requires { needs scope ≤ length listing.old.declared.items }
    ensures { OnOk result (Adds listing.old listing.new
        scope (λ path. []) (λ path. flat_map (λ b. setting_uses path b.item) settings.now)) }
{
    for behind in settings {
        list_setting(listing, scope, &behind.item)?;
    }
    Ok(())
}
