//! The rules of services, and those of their methods.

ghost use Rattle.std.specs.Prelude.{◌≡◌, ◌++◌, nat_eq, codes, flat_map, OnOk};
ghost use Rattle.std.specs.List.{ends_with};
ghost use Rattle.proto_tree.specs.File.{service_item_tree, trees};
ghost use Rattle.proto_lint_names.specs.Readings.{reading_of};
ghost use Rattle.proto_lint_names.specs.Methods.{method_finds, methods_finds, signatures_in};
ghost use Rattle.proto_lint_names.specs.NameRules.{service_finds};

use crate::Rule;
use crate::found::{FileFindings, Verdict, under};
use crate::methods::{ServiceName, add_method};
use crate::names::add_name;
use crate::walk::Walk;
use proto_base::NoMemory;
use proto_case::is_pascal;
use proto_tree::{Service, ServiceItem};
use std::alloc::Global;

fn has_service_suffix(word: &str) -> bool
    ensures { result ≡ ends_with nat_eq word.now (codes "Service") }
{
    word.ends_with("Service")
}

// What the rules of methods find at an item of a service.
fn add_item(
    found: &mut FileFindings,
    walk: &Walk,
    service: &ServiceName,
    item: &ServiceItem,
) -> Result<(), NoMemory>
    ensures { OnOk result (found.new ≡ found.old ++ flat_map
        (method_finds walk.now.rules.now.chosen (reading_of walk.now.reading.now)
        walk.now.messages.now service.now.full.now service.now.token)
        (signatures_in (service_item_tree item.now))) }
{
    match item {
        ServiceItem::Method(method) => add_method(found, walk, service, &method.signature),
        _ => Ok(()),
    }
}

fn add_items(
    found: &mut FileFindings,
    walk: &Walk,
    service: &ServiceName,
    items: &[ServiceItem],
) -> Result<(), NoMemory>
    ensures { OnOk result (found.new ≡ found.old ++ flat_map
        (method_finds walk.now.rules.now.chosen (reading_of walk.now.reading.now)
        walk.now.messages.now service.now.full.now service.now.token)
        (signatures_in (trees service_item_tree items.now))) }
{
    for item in items {
        add_item(found, walk, service, item)?;
    }
    Ok(())
}

fn add_methods(
    alloc: Global,
    found: &mut FileFindings,
    walk: &Walk,
    scope: &str,
    service: &Service,
) -> Result<(), NoMemory>
    ensures { OnOk result (found.new ≡ found.old
        ++ methods_finds walk.now.rules.now.chosen (reading_of walk.now.reading.now)
        walk.now.messages.now scope.now service.now.name
        (trees service_item_tree service.now.members.items)) }
{
    let full = under(alloc, scope, walk.reading.text(service.name))?;
    let name = ServiceName {
        full: &full,
        token: service.name,
    };
    add_items(found, walk, &name, &service.members)
}

/// Adds what the rules find at a service in a scope: its name, and its methods.
pub(crate) fn add_service(
    alloc: Global,
    found: &mut FileFindings,
    walk: &Walk,
    scope: &str,
    service: &Service,
) -> Result<(), NoMemory>
    ensures { OnOk result (found.new ≡ found.old ++
        (service_finds walk.now.rules.now.chosen (reading_of walk.now.reading.now)
        scope.now service.now.name
        ++ methods_finds walk.now.rules.now.chosen (reading_of walk.now.reading.now)
        walk.now.messages.now scope.now service.now.name
        (trees service_item_tree service.now.members.items))) }
{
    let reading = walk.reading;
    let token = service.name;
    let rule = Rule::ServicePascalCase;
    let passes = is_pascal(reading.text(token));
    add_name(found, walk, Verdict { rule, passes }, scope, token)?;
    let rule = Rule::ServiceSuffix;
    let passes = has_service_suffix(reading.text(token));
    add_name(found, walk, Verdict { rule, passes }, scope, token)?;
    add_methods(alloc, found, walk, scope, service)
}
