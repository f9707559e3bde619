//! The first reference that a rename captures.

ghost use Rattle.std.specs.Prelude.{◌≡◌, ◌<◌, ℕ, List, length, true, IfOk};
ghost use Rattle.proto_edit_captures.specs.FirstCaptured.{IsFirstCaptured, IsFirstIn, IsRenameOf, AreNewNames, first_passing, captures_by};
ghost use Rattle.proto_edit_captures.specs.FirstKeys.{first_keys_of};
ghost use Rattle.proto_edit_captures.specs.NewTexts.{texts_of};
ghost use Rattle.proto_files.specs.FilesRead.{ReadOf, AreRead};
ghost use Rattle.proto_names_imports.specs.Links.{names_of_files};
ghost use Rattle.proto_names_outline.specs.Listing.{IsSound};
ghost use Rattle.proto_names_rules.specs.Edits.{Collides};
ghost use Rattle.proto_edit_rules.specs.Rename.{Target, name_map};
ghost use Rattle.proto_edit_captures.specs.FoundTargets.{IsTargetOf, IsFoundTarget};
ghost use Rattle.proto_text.specs.Texts.{word_at};
ghost use Rattle.proto_text.specs.Words.{is_run};

use crate::capturing::{is_captured, meaning};
use crate::first_keys::FirstKeys;
use crate::names::NewNames;
use crate::rename_target::RenameTarget;
use crate::scope::Declared;
use crate::shown::NamesAfter;
use proto_base::NoMemory;
use proto_files::Words;
use proto_names::laws::visible_is_seen;
use proto_names::{Meant, RefId};
use proto_names_outline::file_listing::list_file;
use proto_names_outline::listing::Listing;
use proto_names_rules::laws::captures_begin_so;
use proto_resolved::CleanLinked;
use std::alloc::Global;

/// The first token of the first reference of a list that is captured. What
/// they mean is given in the same order.
fn first_of(
    alloc: Global,
    after: &NamesAfter,
    words: &Words,
    listing: &Listing,
    meant: &[Meant],
) -> Result<Option<u32>, NoMemory>
    requires { IsSound listing.now }
    ensures { IfOk result (λ first. first ≡ first_passing
        (captures_by after.now.link.now after.now.file (texts_of after.now.names.now)
        (word_at words.now) listing.now.declared.items) listing.now.used.items meant.now) }
{
    let all = listing.declared.as_slice();
    let declared = Declared { words, all };
    for (used, meant) in listing.used.iter().zip(meant) {
        let meaning = meaning(after.link, *meant);
        if is_captured(alloc, after, &declared, used, meaning)? {
            return Ok(Some(meant.token()));
        }
    }
    Ok(None)
}

/// The first reference of a file that is captured, by its first token.
fn first_in(
    alloc: Global,
    linked: &CleanLinked<'_>,
    names: &NewNames,
    file: u32,
) -> Result<Option<u32>, NoMemory>
    requires { file < length linked.now.files }
    ensures { IfOk result (λ first. (reads : List ReadOf) (t : Target) (to : List ℕ)
        → IsRenameOf linked.now.files reads t to
        → AreNewNames linked.now.files reads t to (texts_of names.now)
        → IsFirstIn linked.now.files reads t to file first) }
{
    visible_is_seen();
    let files = linked.files();
    let link = linked.link();
    let words = Words::new(files, file);
    let listing = list_file(alloc, files.tree(file))?;
    let after = NamesAfter { link, names, file };
    first_of(alloc, &after, &words, &listing, link.meant_in(file))
}

/// The same, where the file is listed only if one of its references begins with a word of these
/// keys, and for the old word only if the file sees what is renamed: no other is captured.
fn first_in_asked(
    alloc: Global,
    linked: &CleanLinked<'_>,
    names: &NewNames,
    keys: FirstKeys,
    file: u32,
) -> Result<Option<u32>, NoMemory>
    requires file { file < length linked.now.files }
    requires keys { keys ≡ first_keys_of (texts_of names.now) }
    ensures { IfOk result (λ first. (reads : List ReadOf) (t : Target) (to : List ℕ)
        → IsRenameOf linked.now.files reads t to
        → AreNewNames linked.now.files reads t to (texts_of names.now)
        → IsFirstIn linked.now.files reads t to file first) }
{
    captures_begin_so();
    visible_is_seen();
    if !keys.concern(linked.link(), file, names.target) {
        return Ok(None);
    }
    first_in(alloc, linked, names, file)
}

/// The first reference that a rename captures, by file and first token, where nothing collides.
pub fn first_captured<'a>(
    alloc: Global,
    linked: &CleanLinked<'a>,
    target: &RenameTarget<'a>,
    to: &'a str,
) -> Result<Option<RefId>, NoMemory>
    requires target { IsTargetOf linked.now.files target.now }
    requires word { is_run to.now ≡ true }
    requires free { (reads : List ReadOf) → AreRead linked.now.files reads → (t : Target)
        → IsFoundTarget linked.now.files reads target.now t → Collides
        (name_map linked.now.files reads t to.now) (names_of_files linked.now.files reads) → ⊥ }
    ensures { IfOk result (λ first. (reads : List ReadOf) → AreRead linked.now.files reads
        → (t : Target) → IsFoundTarget linked.now.files reads target.now t
        → IsFirstCaptured linked.now.files reads t to.now first) }
{
    captures_begin_so();
    visible_is_seen();
    let files = linked.files();
    let own = Words::new(files, target.file);
    let names = NewNames::new(alloc, &own, target, to)?;
    let keys = FirstKeys::new(&names);
    let asked = keys.files(alloc, linked.link(), linked.file_count())?;
    for file in &asked {
        if let Some(token) = first_in_asked(alloc, linked, &names, keys, *file)? {
            return Ok(Some(RefId { file: *file, token }));
        }
    }
    Ok(None)
}
