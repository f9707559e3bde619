//! The file that declares the extension of a custom option.

ghost use Rattle.std.specs.Prelude.{◌≡◌};
ghost use Rattle.proto_option_values.specs.Extensions.{extension_file, is_leading};

use proto_file_sets::FileSet;
use proto_names::{Link, token_of};
use proto_tree::Custom;

/// The file that declares what the name of an option of a file means.
fn extension_file(link: &Link, file: u32, custom: &Custom) -> Option<u32>
    ensures { result ≡ extension_file link.now file custom.now }
{
    let extension = link.meaning(file, token_of(&custom.name))?;
    link.file_of(extension)
}

/// Whether that is one of these files.
pub(crate) fn is_leading(link: &Link, leading: &FileSet, file: u32, custom: &Custom) -> bool
    ensures { result ≡ is_leading link.now leading.now file custom.now }
{
    match extension_file(link, file, custom) {
        Some(declaring) => leading.contains(declaring),
        None => false,
    }
}
