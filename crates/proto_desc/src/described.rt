//! The descriptor of a file.

ghost use Rattle.std.specs.Prelude.{◌≡◌, option_map, string_bytes, IfOk};
ghost use Rattle.proto_tree.specs.File.{item_tree, tree_of_file, trees};
ghost use Rattle.proto_desc_build.specs.Described.{file_described, messages_described, package_prefix};
ghost use Rattle.proto_descriptors.specs.Views.{file_desc, messages_desc};

use crate::described_items::{
    enum_descriptors, extension_descriptors, message_descriptors, prefix, service_descriptors,
};
use crate::file_options::{syntax, written_options};
use crate::head::{FileHead, head};
use proto_ast::Scene;
use proto_base::NoMemory;
use proto_descriptors::{FileDescriptor, MessageDescriptor};
use proto_tree::{File, Item};
use std::alloc::Global;

// The messages of a package's items.
fn messages_of(
    alloc: Global,
    scene: &Scene,
    name: &Option<String>,
    items: &[Item],
) -> Result<Vec<MessageDescriptor>, NoMemory>
    ensures { IfOk result (λ ds. messages_desc ds.items ≡ messages_described scene.now
        (package_prefix (option_map string_bytes name.now)) (trees item_tree items.now)) }
{
    let prefix = prefix(alloc, name)?;
    message_descriptors(alloc, scene, &prefix, items)
}

/// The descriptor of the file at the path. Of numbers outside their limits, which checks refuse,
/// nothing is said. Fails only when out of memory.
pub fn file_descriptor(
    alloc: Global,
    scene: &Scene,
    path: &str,
    file: &File,
) -> Result<FileDescriptor, NoMemory>
    ensures { IfOk result (λ d. file_desc d ≡ file_described scene.now path.now
        (tree_of_file file.now)) }
{
    let items = file.items.as_slice();
    let FileHead {
        package,
        dependency,
        public_dependency,
        weak_dependency,
    } = head(alloc, scene, file)?;
    let message_type = messages_of(alloc, scene, &package, items)?;
    Ok(FileDescriptor {
        name: String::from_str(alloc, path)?,
        package,
        dependency,
        public_dependency,
        weak_dependency,
        message_type,
        enum_type: enum_descriptors(alloc, scene, items)?,
        service: service_descriptors(alloc, scene, items)?,
        extension: extension_descriptors(alloc, scene, items)?,
        options: written_options(alloc, scene, file)?,
        syntax: syntax(scene),
    })
}
