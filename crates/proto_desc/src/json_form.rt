//! The JSON text of descriptors.

ghost use Rattle.std.specs.Prelude.{◌≡◌, ◌++◌, ◌∷◌, [], IfOk, List, OnOk, map, string_bytes};
ghost use Rattle.proto_descriptors.specs.Views.{file_desc};
ghost use Rattle.proto_descriptors_json.specs.DescriptorText.{json_text};
ghost use Rattle.proto_descriptors.specs.Descriptors.{FileDesc};
ghost use Rattle.proto_desc.specs.Printing.{open_text};
ghost use Rattle.proto_desc.specs.Views.{files_desc};

use crate::descriptors::Descriptors;
use proto_base::NoMemory;
use proto_descriptors::FileDescriptor;
use proto_descriptors_json::{text_of_file, text_of_files};
use std::alloc::Global;

/// The JSON text of descriptors of files, as `to_json` makes it. Fails only when out of memory.
pub fn files_to_json(alloc: Global, files: &[FileDescriptor]) -> Result<String, NoMemory>
    ensures { IfOk result (λ s. string_bytes s ≡ json_text (map file_desc files.now)) }
{
    text_of_files(alloc, "file", files)
}

/// The JSON text of the descriptors: one compact object, keys in the order of their bytes. Numbers
/// are always written; empty lists, options that are not given and false marks are left out. Fails
/// only when out of memory.
pub fn to_json(alloc: Global, descriptors: &Descriptors) -> Result<String, NoMemory>
    ensures { IfOk result (λ s. string_bytes s ≡ json_text (files_desc descriptors.now)) }
{
    files_to_json(alloc, descriptors.file.as_slice())
}

/// Puts the text of a file behind those of the files before it, where these have begun an object.
pub(crate) fn push_file(
    alloc: Global,
    text: &mut String,
    file: &FileDescriptor,
) -> Result<(), NoMemory>
    ensures { OnOk result ((before : List FileDesc) → string_bytes text.old ≡ open_text before
        → string_bytes text.new ≡ open_text (before ++ file_desc file.now ∷ [])) }
{
    let separator = if text.is_empty() { "{\"file\":[" } else { "," };
    let one = text_of_file(alloc, file)?;
    text.push_str(separator)?;
    text.push_str(&one)?;
    Ok(())
}

/// Ends the object.
pub(crate) fn close(text: &mut String) -> Result<(), NoMemory>
    ensures { OnOk result ((files : List FileDesc) → string_bytes text.old ≡ open_text files
        → string_bytes text.new ≡ json_text files) }
{
    let end = if text.is_empty() { "{}" } else { "]}" };
    text.push_str(end)?;
    Ok(())
}
