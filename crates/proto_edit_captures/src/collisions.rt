//! Whether a new name is that of another symbol.

ghost use Rattle.std.specs.Prelude.{◌≡◌, ◌↔◌, ◌++◌, List, true, IsTrue, IfOk, option_map};
ghost use Rattle.proto_files.specs.FilesRead.{ReadOf, AreRead};
ghost use Rattle.proto_names_imports.specs.Links.{names_of_files};
ghost use Rattle.proto_names_rules.specs.Edits.{Collides};
ghost use Rattle.proto_edit_rules.specs.Rename.{Target, name_map};
ghost use Rattle.proto_edit_captures.specs.FoundTargets.{IsTargetOf, IsFoundTarget};
ghost use Rattle.proto_edit_captures.specs.Collisions.{IsOneTaken, IsTakenText, is_freed};
ghost use Rattle.proto_edit_captures.specs.Looked.{HasText};
ghost use Rattle.proto_text.specs.Words.{is_run};

use crate::parts::{beside, entry_of, front, word};
use crate::rename_target::RenameTarget;
use proto_base::NoMemory;
use proto_names::Link;
use proto_resolved::CleanLinked;
use std::alloc::Global;

/// A name that is changed: what stands before its last word, that word, and the one of its entry.
#[derive(Clone, Copy)]
struct OldName<'a, 'b> {
    front: &'a str,
    own: &'a str,
    entry: Option<&'b str>,
}

/// Whether the word is freed: that of what is renamed, or of its entry.
fn is_freed(own: &str, entry: Option<&str>, word: &str) -> bool
    ensures { result ≡ is_freed own.now (option_map (λ x. x.now) entry.entry) word.now }
{
    match entry {
        Some(entry) => word == own || word == entry,
        None => word == own,
    }
}

/// Whether a name of the link is this word behind the front.
fn is_name(alloc: Global, link: &Link, front: &str, word: &str) -> Result<bool, NoMemory>
    ensures { IfOk result (λ is. IsTrue is ↔ HasText link.now (front.now ++ word.now)) }
{
    let name = beside(alloc, front, word)?;
    Ok(link.symbol(name.as_str()).is_some())
}

/// Whether a name that is not freed is this word behind the front.
fn is_taken(alloc: Global, link: &Link, old: &OldName, word: &str) -> Result<bool, NoMemory>
    ensures { IfOk result (λ is. IsTrue is ↔ IsTakenText link.now old.now.front.now old.now.own.now
        (option_map (λ x. x.now) old.now.entry) word.now) }
{
    if is_freed(old.own, old.entry, word) {
        return Ok(false);
    }
    is_name(alloc, link, old.front, word)
}

/// Whether the new word behind the front is taken, or that of the new entry.
fn is_one_taken(
    alloc: Global,
    link: &Link,
    old: &OldName,
    to: &str,
    new_entry: Option<&str>,
) -> Result<bool, NoMemory>
    ensures { IfOk result (λ is. IsTrue is ↔ IsOneTaken link.now old.now.front.now old.now.own.now
        (option_map (λ x. x.now) old.now.entry) to.now
        (option_map (λ x. x.now) new_entry.entry)) }
{
    if is_taken(alloc, link, old, to)? {
        return Ok(true);
    }
    match new_entry {
        Some(new_entry) => is_taken(alloc, link, old, new_entry),
        None => Ok(false),
    }
}

/// Whether a new name of what is renamed is that of a symbol that keeps its name: by the law of
/// collisions only its own new name counts, and that of a map field's entry.
pub fn collides<'a>(
    alloc: Global,
    linked: &CleanLinked<'a>,
    target: RenameTarget<'a>,
    to: &str,
) -> Result<bool, NoMemory>
    requires target { IsTargetOf linked.now.files target }
    requires word { is_run to.now ≡ true }
    ensures { (reads : List ReadOf) → AreRead linked.now.files reads → (t : Target)
        → IsFoundTarget linked.now.files reads target.entry t
        → IfOk result (λ is. IsTrue is ↔ Collides
        (name_map linked.now.files reads t to.now) (names_of_files linked.now.files reads)) }
{
    let own = word(linked.files(), target.file, target.token);
    let front = front(target.name, own);
    let old_entry = entry_of(alloc, target.is_map, own)?;
    let new_entry = entry_of(alloc, target.is_map, to)?;
    let entry = old_entry.as_deref();
    let new_entry = new_entry.as_deref();
    let old = OldName { front, own, entry };
    is_one_taken(alloc, linked.link(), &old, to, new_entry)
}
