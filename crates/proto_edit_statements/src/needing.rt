//! The first reference that needs an import.

ghost use Rattle.std.specs.Prelude.{◌≡◌, ◌<◌, ℕ, List, length};
ghost use Rattle.proto_files.specs.FilesRead.{ReadOf, AreRead};
ghost use Rattle.proto_edit_statements.specs.Steps.{AreSeenIn, IsFirstNeeded, first_hidden, is_hidden};
ghost use Rattle.proto_edit_rules.specs.DropImport.{with_dropped};

use proto_file_sets::FileSet;
use proto_names::{Link, RefId, SymbolId};
use proto_resolved::CleanLinked;

/// Whether a name is of a file that is not in the set.
fn is_hidden(link: &Link, sees: &FileSet, symbol: SymbolId) -> bool
    ensures { result ≡ is_hidden link.now sees.now symbol.row }
{
    match link.file_of(symbol) {
        Some(file) => !sees.contains(file),
        None => false,
    }
}

/// The first token of the first reference of a file that means a name of a file that is not in
/// the set.
fn first_hidden(link: &Link, file: u32, sees: &FileSet) -> Option<u32>
    ensures { result ≡ first_hidden link.now file sees.now }
{
    for meant in link.meant_in(file) {
        if is_hidden(link, sees, meant.symbol()) {
            return Some(meant.token());
        }
    }
    None
}

/// The first reference, by file and first token, that means a name of a file that its own would not
/// see. For each file, those that it would see are given.
pub(crate) fn first_needed(linked: &CleanLinked<'_>, seen: &[FileSet]) -> Option<RefId>
    requires { length seen.now ≡ length linked.now.files }
    ensures { (reads : List ReadOf) → AreRead linked.now.files reads → (k : ℕ) (path : List ℕ)
        → AreSeenIn linked.now.files (with_dropped linked.now.files reads k path) seen.now
        → IsFirstNeeded linked.now.files reads k path result }
{
    let link = linked.link();
    for place in 0..linked.file_count() {
        let file = place as u32;
        if let Some(token) = first_hidden(link, file, &seen[place]) {
            return Some(RefId { file, token });
        }
    }
    None
}
