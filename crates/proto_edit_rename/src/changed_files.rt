//! The files in which a rename may change words, by the references that the link has of each name.

ghost use Rattle.std.specs.Prelude.{◌≡◌, ◌<◌, ℕ, List, true, false, length, get_or, option_map, IfOk, Some};
ghost use Rattle.proto_names.specs.Linking.{name_text};
ghost use Rattle.proto_edit_rename.specs.ChangedFiles.{AreChangedFiles, HasReferencesMarked, with_references, with_row, with_rows};
ghost use Rattle.proto_edit_rename.specs.StandingTokens.{goes_on};

use crate::standing::words_behind;
use proto_base::NoMemory;
use proto_edit_captures::RenameTarget;
use proto_file_sets::FileSet;
use proto_names::{DeclaredNames, Link, RefId, SymbolId};
use proto_resolved::CleanLinked;
use std::alloc::Global;

/// Puts the files of these references into the set.
fn mark_references(changed: &mut FileSet, references: &[RefId])
    ensures { changed.new ≡ with_references changed.old references.now }
{
    for reference in references {
        changed.insert(reference.file);
    }
}

/// Whether it is this name, or goes on from it.
fn goes_on(link: &Link, name: &str, id: SymbolId) -> bool
    ensures { result ≡ goes_on link.now name.now id.row }
{
    match link.name_of(id) {
        Some(text) => words_behind(name.as_bytes(), text.as_bytes()).is_some(),
        None => false,
    }
}

/// Puts the files of the references to a name into the set, if it is this one or goes on from it.
fn mark_name(changed: &mut FileSet, link: &Link, name: &str, id: SymbolId)
    ensures { changed.new ≡ with_row link.now name.now changed.old id.row }
{
    if !goes_on(link, name, id) {
        return;
    }
    mark_references(changed, link.references(id));
}

/// One of these names.
fn declared_name(declared: &DeclaredNames, place: usize) -> SymbolId
    requires { place < length declared.now.rows.now }
    ensures { result.row ≡ get_or declared.now.rows.now place 0 }
{
    match declared.get(place) {
        Some(id) => id,
        None => unreachable!(),
    }
}

/// The same of all these names.
fn mark_names(changed: &mut FileSet, link: &Link, name: &str, declared: &DeclaredNames)
    ensures { changed.new ≡ with_rows link.now name.now changed.old declared.now.rows.now }
{
    for place in 0..declared.len() {
        mark_name(changed, link, name, declared_name(declared, place));
    }
}

/// Puts the files of the references to the name with this text into the set, if there is one.
fn mark_named(changed: &mut FileSet, link: &Link, name: &str)
    ensures as_many { length changed.new ≡ length changed.old }
    ensures kept { (file : ℕ) → file < length changed.old
        → get_or changed.old file false ≡ true → get_or changed.new file false ≡ true }
    ensures users { (row : ℕ) → name_text link.now row ≡ Some name.now
        → HasReferencesMarked link.now changed.new row }
{
    match link.symbol(name) {
        Some(id) => mark_references(changed, link.references(id)),
        None => {}
    }
}

/// The same of an enum, if there is one.
fn mark_users(changed: &mut FileSet, link: &Link, enum_name: Option<&str>)
    ensures as_many { length changed.new ≡ length changed.old }
    ensures kept { (file : ℕ) → file < length changed.old
        → get_or changed.old file false ≡ true → get_or changed.new file false ≡ true }
    ensures users { (row : ℕ) (name : List ℕ) → option_map (λ x. x.now) enum_name.entry ≡ Some name
        → name_text link.now row ≡ Some name → HasReferencesMarked link.now changed.new row }
{
    match enum_name {
        Some(name) => mark_named(changed, link, name),
        None => {}
    }
}

/// The files in which a rename of the target may change words. The enum is that of a
/// value.
pub(crate) fn changed_files(
    alloc: Global,
    linked: &CleanLinked<'_>,
    target: RenameTarget,
    enum_name: Option<&str>,
) -> Result<FileSet, NoMemory>
    requires { target.file < length linked.now.files }
    ensures { IfOk result (λ changed. AreChangedFiles linked.now.link target.entry
        (option_map (λ x. x.now) enum_name.entry) (length linked.now.files) changed) }
{
    let link = linked.link();
    let mut changed = FileSet::new(alloc, linked.file_count())?;
    changed.insert(target.file);
    let declared = link.declared_in(target.file);
    mark_names(&mut changed, link, target.name, &declared);
    mark_users(&mut changed, link, enum_name);
    Ok(changed)
}
