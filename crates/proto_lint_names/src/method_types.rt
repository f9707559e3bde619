//! The messages that methods take and answer, of all files.

ghost use Rattle.std.specs.Prelude.{◌≡◌, ◌++◌, List, map, IfOk, OnOk};
ghost use Rattle.proto_tree.specs.File.{item_tree, tree_of_file};
ghost use Rattle.proto_files.specs.FilesRead.{AreRead, ReadOf};
ghost use Rattle.proto_lint_names.specs.Readings.{reading_of};
ghost use Rattle.proto_lint_names.specs.BlockFinds.{all_messages};
ghost use Rattle.proto_lint_names.specs.Walks.{outer_messages};

use crate::reading::LintFile;
use crate::shared::{Messages, add_messages};
use proto_base::NoMemory;
use proto_resolved::Linked;
use proto_tree::{File, Item};
use std::alloc::Global;

fn add_item_messages<'a>(
    all: &mut Vec<&'a str>,
    reading: &LintFile<'a>,
    item: &Item,
) -> Result<(), NoMemory>
    ensures { OnOk result (map (λ s. s.now) all.new.items ≡ map (λ s. s.now) all.old.items
        ++ outer_messages (reading_of reading.now) (item_tree item.now)) }
{
    match item {
        Item::Service(service) => add_messages(all, reading, service),
        _ => Ok(()),
    }
}

// The steps of `add_messages` once more, over items of another type.
fn add_file_messages<'a>(
    all: &mut Vec<&'a str>,
    reading: &LintFile<'a>,
    file: &File,
) -> Result<(), NoMemory>
    ensures { OnOk result (map (λ s. s.now) all.new.items ≡ map (λ s. s.now) all.old.items
        ++ outer_messages (reading_of reading.now) (tree_of_file file.now)) }
{
    for item in &file.items {
        add_item_messages(all, reading, item)?;
    }
    Ok(())
}

/// The full names of the inputs and outputs of all methods, in order; empty where a reference means
/// none. Fails only when out of memory.
fn all_messages<'a>(alloc: Global, linked: &Linked<'a>) -> Result<Vec<&'a str>, NoMemory>
    ensures { IfOk result (λ all. (reads : List ReadOf) → AreRead linked.now.files reads
        → map (λ s. s.now) all.items ≡ all_messages linked.now.files reads) }
{
    let files = linked.files();
    let mut all = Vec::new(alloc);
    for file in 0..linked.file_count() as u32 {
        let reading = LintFile::of(linked, file);
        add_file_messages(&mut all, &reading, files.tree(file))?;
    }
    Ok(all)
}

/// The messages of all methods of a workspace. Fails only when out of memory.
pub fn messages_of<'a>(alloc: Global, linked: &Linked<'a>) -> Result<Messages<'a>, NoMemory>
    ensures { IfOk result (λ m. (reads : List ReadOf)
        → AreRead linked.now.files reads → m ≡ all_messages linked.now.files reads) }
{
    let all = all_messages(alloc, linked)?;
    Messages::new(alloc, all)
}
