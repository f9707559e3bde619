//! The descriptors of services and their methods.

ghost use Rattle.std.specs.Prelude.{◌≡◌, [], ◌∷◌, ◌++◌, map, IfOk, OnOk};
ghost use Rattle.proto_tree.specs.File.{method_tree, service_item_tree, trees};
ghost use Rattle.proto_ast.specs.Views.{option_of};
ghost use Rattle.proto_desc_build.specs.Described.{level_named, method_described, method_options, methods_described, service_described};
ghost use Rattle.proto_descriptors.specs.Views.{method_desc, service_desc};

use crate::described_names::type_text;
use proto_ast::{OptionAt, Scene, method_options, service_options, truth_option, word_option};
use proto_base::NoMemory;
use proto_descriptors::{
    IdempotencyLevel, MethodDescriptor, MethodOptions, ServiceDescriptor, ServiceOptions,
};
use proto_tree::{Method, MethodEnd, Service, ServiceItem, Signature};
use std::alloc::Global;

fn level_named(word: &str) -> IdempotencyLevel
    ensures { result ≡ level_named word.now }
{
    match word {
        "NO_SIDE_EFFECTS" => IdempotencyLevel::NoSideEffects,
        "IDEMPOTENT" => IdempotencyLevel::Idempotent,
        _ => IdempotencyLevel::Unknown,
    }
}

fn options_of_method(scene: &Scene, options: &[OptionAt]) -> MethodOptions
    ensures { result ≡ method_options scene.now (map option_of options.now) }
{
    let level = word_option(scene, options, "idempotency_level");
    MethodOptions {
        deprecated: truth_option(scene, options, "deprecated"),
        idempotency_level: level.map(level_named),
    }
}

fn signature_descriptor(
    alloc: Global,
    scene: &Scene,
    signature: &Signature,
    options: &[OptionAt],
) -> Result<MethodDescriptor, NoMemory>
    ensures { IfOk result (λ d. method_desc d
        ≡ method_described scene.now signature.now (map option_of options.now)) }
{
    Ok(MethodDescriptor {
        name: String::from_str(alloc, scene.text(signature.name))?,
        input_type: type_text(alloc, scene, &signature.input.reference)?,
        output_type: type_text(alloc, scene, &signature.output.reference)?,
        options: options_of_method(scene, options),
        client_streaming: signature.input.stream.is_some(),
        server_streaming: signature.output.stream.is_some(),
    })
}

fn method_descriptor(
    alloc: Global,
    scene: &Scene,
    method: &Method,
) -> Result<MethodDescriptor, NoMemory>
    ensures { IfOk result (λ d. method_desc d
        ∷ [] ≡ methods_described scene.now (method_tree method.now)) }
{
    match &method.end {
        MethodEnd::Semicolon(_) => signature_descriptor(alloc, scene, &method.signature, &[]),
        MethodEnd::Block { items, .. } => {
            let options = method_options(alloc, items)?;
            signature_descriptor(alloc, scene, &method.signature, &options)
        }
    }
}

fn push_method(
    alloc: Global,
    scene: &Scene,
    found: &mut Vec<MethodDescriptor>,
    item: &ServiceItem,
) -> Result<(), NoMemory>
    ensures { OnOk result (map method_desc found.new.items ≡ map method_desc found.old.items
        ++ methods_described scene.now (service_item_tree item.now)) }
{
    match item {
        ServiceItem::Method(method) => Ok(found.push(method_descriptor(alloc, scene, method)?)?),
        _ => Ok(()),
    }
}

fn method_descriptors(
    alloc: Global,
    scene: &Scene,
    items: &[ServiceItem],
) -> Result<Vec<MethodDescriptor>, NoMemory>
    ensures { IfOk result (λ ds. map method_desc ds.items
        ≡ methods_described scene.now (trees service_item_tree items.now)) }
{
    let mut descriptors = Vec::new(alloc);
    for item in items {
        push_method(alloc, scene, &mut descriptors, item)?;
    }
    Ok(descriptors)
}

/// The service with its methods. Fails only when out of memory.
pub fn service_descriptor(
    alloc: Global,
    scene: &Scene,
    service: &Service,
) -> Result<ServiceDescriptor, NoMemory>
    ensures { IfOk result (λ d. service_desc d ≡ service_described scene.now service.now.name
        (trees service_item_tree service.now.members.items)) }
{
    let members = service.members.as_slice();
    let options = service_options(alloc, members)?;
    Ok(ServiceDescriptor {
        name: String::from_str(alloc, scene.text(service.name))?,
        method: method_descriptors(alloc, scene, members)?,
        options: ServiceOptions {
            deprecated: truth_option(scene, &options, "deprecated"),
        },
    })
}
