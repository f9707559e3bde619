//! Whether a rename captures a reference: what its first word is then, and
//! what it finds on the way to its hit.

ghost use Rattle.std.specs.Prelude.{◌≡◌, ◌<◌, ◌≤◌, ◌&&◌, ℕ, nat_le, [], length, get_or, map, IfOk, OnOk, string_bytes};
ghost use Rattle.proto_base.specs.Texts.{or_nothing};
ghost use Rattle.proto_edit_captures.specs.Capturing.{bytes_before, captures_use, first_now, shown_from, stands_first};
ghost use Rattle.proto_edit_captures.specs.NewTexts.{texts_of};
ghost use Rattle.proto_edit_captures.specs.ShownTexts.{shown_below};
ghost use Rattle.proto_names_outline.specs.Listing.{needs};
ghost use Rattle.proto_names_outline.specs.declared.listing.Listed.{Listed as ListedOf};
ghost use Rattle.proto_names_rules.specs.Forest.{under};
ghost use Rattle.proto_names.specs.Linking.{name_text};
ghost use Rattle.proto_text.specs.Texts.{word_at};

use crate::names::NewNames;
use crate::scope::{Around, Declared, Fit, scope_words};
use crate::shown::{NamesAfter, is_shown_below};
use proto_base::NoMemory;
use proto_files::Words;
use proto_names::{Link, Meant};
use proto_names_outline::listing::Use;
use proto_tree::Behind;
use std::alloc::Global;

/// How long the text is before these words, each with a dot before it.
pub(crate) fn bytes_before(words: &Words, behind: &[Behind<u32>], len: usize) -> usize
    ensures { result ≡ bytes_before len (map (λ b. word_at words.now b.item) behind.now) }
{
    let mut left = len;
    for word in behind {
        left = left.saturating_sub(words.get(word.item).len() + 1);
    }
    left
}

/// Whether the first bytes of a meaning, as many as told, are the target's name.
fn stands_first(target: &str, meaning: &str, len: usize) -> bool
    ensures { result ≡ stands_first target.now meaning.now len }
{
    len == target.len() && meaning.as_bytes().starts_with(target.as_bytes())
}

/// The first word of a reference as it is rewritten.
fn first_now<'a>(names: &NewNames<'a>, meaning: &str, len: usize, first: &'a str) -> &'a str
    ensures { result.now ≡ first_now (texts_of names.now) meaning.now len first.now }
{
    if stands_first(names.target, meaning, len) {
        names.new
    } else {
        first
    }
}

/// Adds a word right below a name.
pub(crate) fn extend(name: &mut String, word: &str) -> Result<(), NoMemory>
    ensures { OnOk result (string_bytes name.new ≡ under (string_bytes name.old) word.now) }
{
    if !name.is_empty() {
        name.push_str(".")?;
    }
    name.push_str(word)?;
    Ok(())
}

/// The text of what a reference means; empty where the link has no such name.
pub(crate) fn meaning<'a>(link: &'a Link, meant: Meant) -> &'a str
    ensures { result.now ≡ or_nothing (name_text link.now meant.row) }
{
    match link.name_of(meant.symbol()) {
        Some(text) => text,
        None => "",
    }
}

/// Whether a front has at least so many bytes, and something is shown in it under the word.
fn is_shown_in(
    alloc: Global,
    after: &NamesAfter,
    around: Around,
    front: &str,
    word: &str,
) -> Result<bool, NoMemory>
    ensures { IfOk result (λ b. b ≡ (nat_le around.entry.least (length front.now)
        && shown_below after.now.link.now after.now.file around.entry.fit
        (texts_of after.now.names.now) front.now word.now)) }
{
    if front.len() < around.least {
        return Ok(false);
    }
    is_shown_below(alloc, after, around.fit, front, word)
}

/// Whether in one of the fronts of a scope that have at least so many bytes,
/// something is shown under the word.
fn is_shown_from(
    alloc: Global,
    after: &NamesAfter,
    around: Around,
    word: &str,
) -> Result<bool, NoMemory>
    ensures { IfOk result (λ b. b ≡ shown_from
        (λ front. shown_below after.now.link.now after.now.file around.entry.fit
        (texts_of after.now.names.now) front word.now)
        around.entry.least [] (map string_bytes around.entry.scope.now)) }
{
    let mut front = String::new(alloc);
    for part in around.scope {
        extend(&mut front, part.as_str())?;
        if is_shown_in(alloc, after, around, front.as_str(), word)? {
            return Ok(true);
        }
    }
    Ok(false)
}

/// Whether a reference is captured, by what it means. An absolute one never is.
pub(crate) fn is_captured(
    alloc: Global,
    after: &NamesAfter,
    declared: &Declared,
    used: &Use,
    meaning: &str,
) -> Result<bool, NoMemory>
    requires ordered { (k : ℕ) (d : ListedOf) → k < length declared.now.all.now
        → needs (get_or declared.now.all.now k d).above ≤ k }
    requires within { needs used.now.scope ≤ length declared.now.all.now }
    ensures { IfOk result (λ b. b ≡ captures_use after.now.link.now after.now.file
        (texts_of after.now.names.now) (word_at declared.now.words.now) declared.now.all.now
        used.now meaning.now) }
{
    if used.reference.dot.is_some() {
        return Ok(false);
    }
    let behind = used.reference.words.rest.as_slice();
    let first = declared.words.get(used.reference.words.first);
    let len = bytes_before(declared.words, behind, meaning.len());
    let word = first_now(after.names, meaning, len, first);
    if !after.names.has_new(word) {
        return Ok(false);
    }
    let scope = scope_words(alloc, declared.words, declared.all, used.scope)?;
    let around = Around {
        scope: &scope,
        least: len.saturating_sub(first.len()),
        fit: Fit {
            wants: used.wants,
            is_long: !behind.is_empty(),
        },
    };
    is_shown_from(alloc, after, around, word)
}
