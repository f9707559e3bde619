//! Words that a declaration may not be named, and the one that it has.

ghost use Rattle.std.specs.Prelude.{◌≡◌, ◌↔◌, IsTrue, List};
ghost use Rattle.proto_files.specs.FilesRead.{ReadOf, AreRead};
ghost use Rattle.proto_names_imports.specs.Links.{text_of};
ghost use Rattle.proto_names_rules.specs.Grown.{at};
ghost use Rattle.proto_edit_rules.specs.Rename.{is_keyword_of};
ghost use Rattle.proto_edit_captures.specs.FoundTargets.{IsTargetOf};

use crate::parts::word;
use crate::rename_target::RenameTarget;
use proto_files::{Files, are_read};
use proto_names_rules::Kind;
use proto_tree::{is_listed, may_name_value};

/// Whether a symbol of this kind may not be named by the word: a message, an enum or a service by a
/// listed word, a value by `option` or `reserved`.
pub fn is_keyword(kind: Kind, word: &str) -> bool
    ensures { result ≡ is_keyword_of kind word.now }
{
    match kind {
        Kind::Message | Kind::Enum | Kind::Service => is_listed(word),
        Kind::Value => !may_name_value(word),
        _ => false,
    }
}

/// Whether this is the simple name of the target.
pub fn has_name(files: &Files, target: RenameTarget, name: &str) -> bool
    requires { IsTargetOf files.now target }
    ensures { (reads : List ReadOf) → AreRead files.now reads → IsTrue result
        ↔ (text_of files.now reads (at target.entry.file target.entry.token) ≡ name.now) }
{
    // Each file has tokens and a tree.
    are_read(files);
    word(files, target.file, target.token) == name
}
