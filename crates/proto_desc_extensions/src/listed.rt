//! The extensions of a file, with what they extend.

ghost use Rattle.std.specs.Prelude.{◌≡◌, ◌<◌, ◌++◌, List, Some, length, map, IfOk, OnOk};
ghost use Rattle.proto_tree.specs.File.{extension_tree, trees};
ghost use Rattle.proto_files.specs.FilesRead.{AreRead, ReadOf};
ghost use Rattle.proto_ast.specs.Numbers.{past};
ghost use Rattle.proto_ast.specs.Parts.{fields_in};
ghost use Rattle.proto_ast.specs.declared.ranges.RangeAt.{RangeAt as RangeOf};
ghost use Rattle.proto_desc_numbers.specs.NumberFlaws.{number_of_field};
ghost use Rattle.proto_desc_numbers.specs.RangeIndex.{IsRangeIndexOf};
ghost use Rattle.proto_resolved.specs.Blocks.{block_of};
ghost use Rattle.proto_resolved.specs.Scenes.{IsSceneOf};
ghost use Rattle.proto_desc_extensions.specs.Extensions.{block_extensions};
ghost use Rattle.proto_desc_extensions.specs.Listed.{AreExtensionsOf, IsExtendee, told, told_by, told_number};
ghost use Rattle.proto_desc_extensions.specs.OpenTables.{IsOpenTable};

use crate::open_table::index_at;
use indexmap::IndexMap;
use proto_ast::{Scene, extension_fields};
use proto_base::NoMemory;
use proto_desc_numbers::{NumberAt, RangeAt, field_numbers, is_covered};
use proto_resolved::{BlockAt, Linked, blocks_of};
use proto_tree::{Extend, Reference};
use std::alloc::Global;

/// An extension: its number, the full name of what it extends, and whether that leaves the number
/// to extensions.
#[derive(Clone, Copy)]
pub(crate) struct ExtensionAt<'a> {
    pub number: NumberAt,
    pub extendee: &'a str,
    pub is_extendable: bool,
}

/// What an `extend` block extends: its full name, and an index of the ranges that it leaves to
/// extensions.
#[derive(Clone, Copy)]
pub(crate) struct Extendee<'a> {
    pub name: &'a str,
    pub ranges: &'a [RangeAt],
}

/// A file with the link, and the ranges that messages leave to extensions.
#[derive(Clone, Copy)]
pub(crate) struct LinkedFile<'a> {
    pub linked: &'a Linked<'a>,
    pub table: &'a [IndexMap<u32, Vec<RangeAt>>],
    pub file: u32,
}

/// What a reference of a file means, with its ranges; none where it means nothing.
fn extendee_of<'a>(at: &LinkedFile<'a>, reference: &Reference) -> Option<Extendee<'a>>
    requires table { IsOpenTable at.now.linked.now.files at.now.table.now }
    requires file { at.now.file < length at.now.linked.now.files }
    ensures { (reads : List ReadOf) → AreRead at.now.linked.now.files reads
        → IsExtendee at.now.linked.now.files reads at.now.file reference.now result }
{
    let link = at.linked.link();
    let first = reference.dot.unwrap_or(reference.words.first);
    let meant = link.meaning(at.file, first)?;
    let name = link.name_of(meant)?;
    let declared = link.file_of(meant)?;
    let token = link.token_of(meant)?;
    Some(Extendee {
        name,
        ranges: index_at(at.table, declared, token),
    })
}

/// Adds numbers as extensions.
fn push_numbers<'a>(
    found: &mut Vec<ExtensionAt<'a>>,
    extendee: Extendee<'a>,
    numbers: &[NumberAt],
) -> Result<(), NoMemory>
    ensures { OnOk result ((ranges : List RangeOf) → IsRangeIndexOf ranges extendee.entry.ranges.now
        → map told_by found.new.items ≡ map told_by found.old.items
        ++ map (told_number extendee.entry.name.now ranges) numbers.now) }
{
    for number in numbers {
        let is_extendable = is_covered(extendee.ranges, *number);
        found.push(ExtensionAt {
            number: *number,
            extendee: extendee.name,
            is_extendable,
        })?;
    }
    Ok(())
}

/// Adds the fields of an `extend` block as extensions.
fn push_fields<'a>(
    alloc: Global,
    found: &mut Vec<ExtensionAt<'a>>,
    scene: &Scene,
    extendee: Extendee<'a>,
    extend: &Extend,
) -> Result<(), NoMemory>
    ensures { OnOk result ((ranges : List RangeOf) → IsRangeIndexOf ranges extendee.entry.ranges.now
        → map told_by found.new.items ≡ map told_by found.old.items
        ++ map (told_number extendee.entry.name.now ranges) (map (number_of_field scene.now)
        (fields_in (trees extension_tree extend.now.fields.items)))) }
{
    let fields = extension_fields(alloc, &extend.fields)?;
    let numbers = field_numbers(alloc, scene, &fields)?;
    push_numbers(found, extendee, &numbers)
}

/// Adds the extensions of a block.
fn push_block<'a>(
    alloc: Global,
    found: &mut Vec<ExtensionAt<'a>>,
    at: &LinkedFile<'a>,
    scene: &Scene,
    block: BlockAt,
) -> Result<(), NoMemory>
    requires table { IsOpenTable at.now.linked.now.files at.now.table.now }
    requires file { at.now.file < length at.now.linked.now.files }
    requires scene { IsSceneOf at.now.linked.now.files at.now.file scene.now }
    ensures { OnOk result ((reads : List ReadOf) → AreRead at.now.linked.now.files reads
        → map told_by found.new.items ≡ map told_by found.old.items
        ++ map (told at.now.linked.now.files reads)
        (block_extensions (Some past) at.now.linked.now.files reads at.now.file
        (block_of block.entry))) }
{
    match block {
        BlockAt::Extend(extend) => match extendee_of(at, &extend.extendee) {
            Some(extendee) => push_fields(alloc, found, scene, extendee, extend),
            None => Ok(()),
        },
        BlockAt::Message(_) => Ok(()),
        BlockAt::Oneof(_) => Ok(()),
        BlockAt::Enum(_) => Ok(()),
    }
}

/// The extensions of a file, in order.
pub(crate) fn extensions<'a>(
    alloc: Global,
    at: &LinkedFile<'a>,
    scene: &Scene,
) -> Result<Vec<ExtensionAt<'a>>, NoMemory>
    requires table { IsOpenTable at.now.linked.now.files at.now.table.now }
    requires file { at.now.file < length at.now.linked.now.files }
    requires scene { IsSceneOf at.now.linked.now.files at.now.file scene.now }
    ensures { IfOk result (λ found.
        AreExtensionsOf at.now.linked.now.files at.now.file found.items) }
{
    let tree = at.linked.files().tree(at.file);
    let blocks = blocks_of(alloc, tree)?;
    let mut found = Vec::new(alloc);
    for block in &blocks {
        push_block(alloc, &mut found, at, scene, *block)?;
    }
    Ok(found)
}
