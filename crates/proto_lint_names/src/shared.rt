//! The messages of methods, and which of them stand more than once.

ghost use Rattle.std.specs.Prelude.{◌≡◌, ℕ, List, [], ◌∷◌, ◌++◌, map, IfOk, OnOk};
ghost use Rattle.std.specs.Cmp.Lexicographic.{slice_cmp};
ghost use Rattle.std.specs.List.Sorted.{IsPermutation, IsSortedBy};
ghost use Rattle.std.specs.Ordering.{is_lt, nat_cmp};
ghost use Rattle.proto_tree.specs.File.{service_item_tree, trees};
ghost use Rattle.proto_lint_names.specs.Readings.{reading_of};
ghost use Rattle.proto_lint_names.specs.Methods.{is_shared, method_messages, signatures_in, type_meant};

use crate::reading::LintFile;
use proto_base::NoMemory;
use proto_tree::{Service, ServiceItem, Signature};
use std::alloc::Global;
use std::marker::Model;

/// The full names of the inputs and outputs of all methods, in the order added.
#[derive(Drop)]
pub struct Messages<'a> {
    all: Vec<&'a str>,
    sorted: Vec<&'a str>,
}

impl<'a> Model for Messages<'a> {
    ghost Value = { List (List ℕ) };

    ghost view = { λ m. map (λ s. s.now) m.all.items };

    ghost invariant = { λ m. IsPermutation m.all.items m.sorted.items
        × IsSortedBy (λ s t. is_lt (slice_cmp nat_cmp s.now t.now)) m.sorted.items };
}

// Whether a name stands more than once among names that rise.
fn stands_twice(sorted: &[&str], name: &str) -> bool
    requires { IsSortedBy (λ s t. is_lt (slice_cmp nat_cmp s.now t.now)) sorted.now }
    ensures { result ≡ is_shared (map (λ s. s.now) sorted.now) name.now }
{
    let first = sorted.partition_point(|message| *message < name);
    match sorted.get(first + 1) {
        Some(second) => name == *second,
        None => false,
    }
}

impl<'a> Messages<'a> {
    /// Takes the names in the order added. Fails only when out of memory.
    pub fn new(alloc: Global, all: Vec<&'a str>) -> Result<Messages<'a>, NoMemory>
        ensures { IfOk result (λ m. m ≡ map (λ s. s.now) all.entry.items) }
    {
        let mut sorted = Vec::new(alloc);
        sorted.extend_from_slice(&all)?;
        sorted.sort_unstable();
        Ok(Messages { all, sorted })
    }

    /// Whether the name stands more than once among them.
    pub(crate) fn is_shared(&self, name: &str) -> bool
        ensures { result ≡ is_shared self.now name.now }
    {
        stands_twice(&self.sorted, name)
    }
}

// The messages of a method.
fn add_of_method<'a>(
    all: &mut Vec<&'a str>,
    reading: &LintFile<'a>,
    method: &Signature,
) -> Result<(), NoMemory>
    ensures { OnOk result (map (λ s. s.now) all.new.items ≡ map (λ s. s.now) all.old.items ++
        (type_meant (reading_of reading.now) method.now.input
        ∷ type_meant (reading_of reading.now) method.now.output ∷ [])) }
{
    all.push(reading.meant_name(&method.input.reference))?;
    all.push(reading.meant_name(&method.output.reference))?;
    Ok(())
}

fn add_of_item<'a>(
    all: &mut Vec<&'a str>,
    reading: &LintFile<'a>,
    item: &ServiceItem,
) -> Result<(), NoMemory>
    ensures { OnOk result (map (λ s. s.now) all.new.items ≡ map (λ s. s.now) all.old.items
        ++ method_messages (reading_of reading.now) (signatures_in (service_item_tree item.now))) }
{
    match item {
        ServiceItem::Method(method) => add_of_method(all, reading, &method.signature),
        _ => Ok(()),
    }
}

/// Adds the messages of the methods of a service.
pub(crate) fn add_messages<'a>(
    all: &mut Vec<&'a str>,
    reading: &LintFile<'a>,
    service: &Service,
) -> Result<(), NoMemory>
    ensures { OnOk result (map (λ s. s.now) all.new.items ≡ map (λ s. s.now) all.old.items
        ++ method_messages (reading_of reading.now)
        (signatures_in (trees service_item_tree service.now.members.items))) }
{
    for item in &service.members {
        add_of_item(all, reading, item)?;
    }
    Ok(())
}
