//! Where an import of a path stands.

ghost use Rattle.std.specs.Prelude.{◌≡◌, ◌<◌, List, length};
ghost use Rattle.proto_files.specs.FilesRead.{ReadOf, AreRead};
ghost use Rattle.proto_edit_statements.specs.Imported.{IsImportNamed, import_in};
ghost use Rattle.proto_files.specs.StringTokens.{string_at};
ghost use Rattle.proto_text.specs.Values.{is_value};
ghost use Rattle.proto_tree.specs.File.{item_tree};

use proto_files::{Files, Words};
use proto_tree::{Import, Item};

fn import_of(words: &Words, item: &Item, path: &str) -> Option<Import>
    ensures { result ≡ import_in (λ i. is_value (string_at words.now i) path.now)
        (item_tree item.now) }
{
    match item {
        Item::Import(import) if words.says(import.path, path.as_bytes()) => Some(*import),
        _ => None,
    }
}

/// The import of a file whose string has this path as its value, if there is one.
pub(crate) fn import_named(files: &Files, file: u32, path: &str) -> Option<Import>
    requires { file < length files.now }
    ensures { (reads : List ReadOf) → AreRead files.now reads
        → IsImportNamed files.now reads file path.now result }
{
    let words = Words::new(files, file);
    for item in &files.tree(file).items {
        if let Some(import) = import_of(&words, item, path) {
            return Some(import);
        }
    }
    None
}
