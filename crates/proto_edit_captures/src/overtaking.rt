//! The first reference of a file that is overtaken where the file sees more.

ghost use Rattle.std.specs.Prelude.{◌≡◌, ◌<◌, ◌≤◌, ◌&&◌, ◌||◌, ℕ, nat_le, List, [], length, get_or, map, IfOk, OnOk, string_bytes};
ghost use Rattle.std.specs.HashSet.{contains_text};
ghost use Rattle.std.specs.List.{list_any};
ghost use Rattle.std.specs.Str.{bytes_eq};
ghost use Rattle.proto_edit_captures.specs.FirstCaptured.{first_passing};
ghost use Rattle.proto_edit_captures.specs.Overtaking.{IsFirstOvertaken, SeesMarked, TellsPackages, fronts_from, overtakes_by, overtakes_use, sees_text};
ghost use Rattle.proto_edit_captures.specs.Capturing.{shown_from};
ghost use Rattle.proto_names_rules.specs.Joined.{below};
ghost use Rattle.proto_files.specs.FilesRead.{ReadOf, AreRead};
ghost use Rattle.proto_names_outline.specs.Listing.{IsSound, needs};
ghost use Rattle.proto_names_outline.specs.declared.listing.Listed.{Listed as ListedOf};
ghost use Rattle.proto_names_rules.specs.Names.{Workspace};
ghost use Rattle.proto_text.specs.Texts.{word_at};

use crate::capturing::{bytes_before, extend, meaning};
use crate::scope::{Around, Declared, Fit, scope_words};
use crate::shown::fits;
use proto_base::NoMemory;
use proto_file_sets::FileSet;
use proto_files::{Files, Words};
use proto_names::{Link, Meant};
use proto_names_outline::file_listing::list_file;
use proto_names_outline::listing::{Listing, Use};
use proto_names_outline::wanted::package;
use proto_names_rules::below;
use proto_resolved::CleanLinked;
use std::alloc::Global;
use std::collections::HashSet;

/// What is seen of a link: some files, and the packages of these files, each with its fronts,
/// as text.
#[derive(Drop)]
struct Seen<'a> {
    link: &'a Link,
    files: &'a FileSet,
    packages: HashSet<String>,
}

/// Adds a package with its fronts, by the tokens of its words.
fn add_fronts(
    packages: &mut HashSet<String>,
    alloc: Global,
    words: &Words,
    tokens: &[u32],
) -> Result<(), NoMemory>
    ensures { OnOk result ((text : List ℕ) → contains_text packages.new text ≡
        (contains_text packages.old text || list_any
        (λ t. bytes_eq t text) (fronts_from [] (map (word_at words.now) tokens.now)))) }
{
    let mut front = String::new(alloc);
    for token in tokens {
        extend(&mut front, words.get(*token))?;
        packages.insert(String::from_str(alloc, front.as_str())?)?;
    }
    Ok(())
}

/// The packages of the files of a set, with their fronts.
fn packages(alloc: Global, files: &Files, set: &FileSet) -> Result<HashSet<String>, NoMemory>
    ensures { IfOk result (λ packages. TellsPackages files.now set.now (contains_text packages)) }
{
    let mut packages = HashSet::new(alloc);
    for file in 0..files.len() as u32 {
        if set.contains(file) {
            let words = Words::new(files, file);
            let tokens = package(alloc, files.tree(file))?;
            add_fronts(&mut packages, alloc, &words, &tokens)?;
        }
    }
    Ok(packages)
}

/// Whether a name with this text fits and is seen.
fn is_seen(seen: &Seen, fit: Fit, name: &str) -> bool
    ensures { result ≡ sees_text seen.now.link.now seen.now.files.now
        (contains_text seen.now.packages) fit name.now }
{
    let Some(id) = seen.link.symbol(name) else {
        return false;
    };
    let Some(kind) = seen.link.kind_of(id) else {
        return false;
    };
    if !fits(kind, fit) {
        return false;
    }
    match seen.link.file_of(id) {
        Some(file) => seen.files.contains(file),
        None => seen.packages.contains(name),
    }
}

/// Whether a front has at least so many bytes, and something that fits is seen in it under the
/// word.
fn is_seen_in(
    alloc: Global,
    seen: &Seen,
    around: Around,
    front: &str,
    word: &str,
) -> Result<bool, NoMemory>
    ensures { IfOk result (λ b. b ≡ (nat_le around.entry.least (length front.now)
        && sees_text seen.now.link.now seen.now.files.now (contains_text seen.now.packages)
        around.entry.fit (below front.now word.now))) }
{
    if front.len() < around.least {
        return Ok(false);
    }
    let name = below(alloc, front, word)?;
    Ok(is_seen(seen, around.fit, name.as_str()))
}

/// Whether in one of the fronts of a scope that have at least so many bytes, something
/// that fits is seen under the word.
fn is_seen_from(alloc: Global, seen: &Seen, around: Around, word: &str) -> Result<bool, NoMemory>
    ensures { IfOk result (λ b. b ≡ shown_from
        (λ front. sees_text seen.now.link.now seen.now.files.now
        (contains_text seen.now.packages) around.entry.fit (below front word.now))
        around.entry.least [] (map string_bytes around.entry.scope.now)) }
{
    let mut front = String::new(alloc);
    for part in around.scope {
        extend(&mut front, part.as_str())?;
        if is_seen_in(alloc, seen, around, front.as_str(), word)? {
            return Ok(true);
        }
    }
    Ok(false)
}

/// Whether a reference is overtaken, by what it means. An absolute one never is.
fn is_overtaken(
    alloc: Global,
    seen: &Seen,
    declared: &Declared,
    used: &Use,
    meaning: &str,
) -> Result<bool, NoMemory>
    requires ordered { (k : ℕ) (d : ListedOf) → k < length declared.now.all.now
        → needs (get_or declared.now.all.now k d).above ≤ k }
    requires within { needs used.now.scope ≤ length declared.now.all.now }
    ensures { IfOk result (λ b. b ≡ overtakes_use seen.now.link.now seen.now.files.now
        (contains_text seen.now.packages) (word_at declared.now.words.now) declared.now.all.now
        used.now meaning.now) }
{
    if used.reference.dot.is_some() {
        return Ok(false);
    }
    let behind = used.reference.words.rest.as_slice();
    let first = declared.words.get(used.reference.words.first);
    let len = bytes_before(declared.words, behind, meaning.len());
    let scope = scope_words(alloc, declared.words, declared.all, used.scope)?;
    let around = Around {
        scope: &scope,
        least: len.saturating_sub(first.len()),
        fit: Fit {
            wants: used.wants,
            is_long: !behind.is_empty(),
        },
    };
    is_seen_from(alloc, seen, around, first)
}

/// The first token of the first reference of a list that is overtaken. What
/// they mean is given in the same order.
// As `first_passing` of first.rt, with another test of a reference.
fn first_in_list(
    alloc: Global,
    seen: &Seen,
    words: &Words,
    listing: &Listing,
    meant: &[Meant],
) -> Result<Option<u32>, NoMemory>
    requires { IsSound listing.now }
    ensures { IfOk result (λ first. first ≡ first_passing
        (overtakes_by seen.now.link.now seen.now.files.now (contains_text seen.now.packages)
        (word_at words.now) listing.now.declared.items) listing.now.used.items meant.now) }
{
    let all = listing.declared.as_slice();
    let declared = Declared { words, all };
    for (used, meant) in listing.used.iter().zip(meant) {
        let meaning = meaning(seen.link, *meant);
        if is_overtaken(alloc, seen, &declared, used, meaning)? {
            return Ok(Some(meant.token()));
        }
    }
    Ok(None)
}

/// The first reference of a file that is overtaken where the file sees those of a set, by its first
/// token: with the imports by which it sees this, it would be found further inward than it is now.
pub fn first_overtaken(
    alloc: Global,
    linked: &CleanLinked<'_>,
    file: u32,
    sees: &FileSet,
) -> Result<Option<u32>, NoMemory>
    requires { file < length linked.now.files }
    ensures { IfOk result (λ first. (reads : List ReadOf) → AreRead linked.now.files reads →
        (v : Workspace) → SeesMarked linked.now.files reads v file sees.now
        → IsFirstOvertaken linked.now.files reads v file first) }
{
    let files = linked.files();
    let link = linked.link();
    let packages = packages(alloc, files, sees)?;
    let seen = Seen {
        link,
        files: sees,
        packages,
    };
    let words = Words::new(files, file);
    let listing = list_file(alloc, files.tree(file))?;
    first_in_list(alloc, &seen, &words, &listing, link.meant_in(file))
}
