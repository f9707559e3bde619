//! The name for which a word of a reference stands.

ghost use Rattle.std.specs.Prelude.{◌≡◌, ◌≢◌, ◌↔◌, ◌<◌, ◌∷◌, ◌++◌, ℕ, List, IfOk, OnOk, IfSome, IfNone, Some, length, map, option_map};
ghost use Rattle.std.specs.String.{string_bytes};
ghost use Rattle.proto_base.specs.Ascii as ascii;
ghost use Rattle.proto_text.specs.Texts.{word_at};
ghost use Rattle.proto_tree.specs.References.{dotted};
ghost use Rattle.proto_files.specs.FilesRead.{AreRead, ReadOf};
ghost use Rattle.proto_names.specs.Linking.{name_text};
ghost use Rattle.proto_edit_rules.specs.Rename.{dotted_text};
ghost use Rattle.proto_names_at.specs.NamesAt.{HasTarget, IsOnlyName, RefersToName, at_place};
ghost use Rattle.proto_names_at.specs.References.{behind_token, word_meant, word_of};

use crate::place::Place;
use crate::targets::target;
use proto_base::NoMemory;
use proto_files::Words;
use proto_names::{Link, Meant};
use proto_names_outline::file_listing::list_file;
use proto_names_outline::listing::Use;
use proto_resolved::CleanLinked;
use proto_tree::{Behind, Dotted};
use std::alloc::Global;

/// What a reference means, and those of its words that stand behind one of them.
#[derive(Clone, Copy)]
pub(crate) struct WordMeant<'a> {
    meant: Meant,
    behind: &'a [Behind<u32>],
}

/// The words of a reference behind the one at the token; none where it has no word there.
fn words_behind(words: &Dotted, token: u32) -> Option<&[Behind<u32>]>
    ensures { option_map (λ found. map (λ b. b.item) found.now) result
        ≡ behind_token token (dotted words.now) }
{
    let rest = words.rest.as_slice();
    if words.first == token {
        return Some(rest);
    }
    for place in 0..rest.len() {
        if rest[place].item == token {
            let (_, behind) = rest.split_at(place + 1);
            return Some(behind);
        }
    }
    None
}

/// The first reference of which the token is a word; the references come with what each means.
fn word_meant<'a>(uses: &[Use<'a>], meant: &[Meant], token: u32) -> Option<WordMeant<'a>>
    requires { length meant.now ≡ length uses.now }
    ensures { option_map word_of result ≡ word_meant token uses.now meant.now }
{
    for place in 0..uses.len() {
        let reference = uses[place].reference;
        if let Some(behind) = words_behind(&reference.words, token) {
            let meant = meant[place];
            return Some(WordMeant { meant, behind });
        }
    }
    None
}

/// Adds a dot and a word.
fn push_word(text: &mut String, word: &str) -> Result<(), NoMemory>
    ensures { OnOk result (string_bytes text.new ≡ string_bytes text.old ++ ascii.dot ∷ word.now) }
{
    text.push_str(".")?;
    text.push_str(word)?;
    Ok(())
}

/// The words, each behind a dot.
fn dotted_text(alloc: Global, words: &Words, behind: &[Behind<u32>]) -> Result<String, NoMemory>
    ensures { IfOk result (λ text. string_bytes text
        ≡ dotted_text (map (λ b. word_at words.now b.item) behind.now)) }
{
    let mut text = String::new(alloc);
    for word in behind {
        push_word(&mut text, words.get(word.item))?;
    }
    Ok(text)
}

/// What stands before the end of a text; none where the text has another end.
fn before<'a>(text: &'a str, end: &str) -> Option<&'a str>
    ensures some { IfSome result (λ front. text.entry.now ≡ front.now ++ end.now) }
    ensures none { IfNone result ((front : List ℕ) → text.entry.now ≢ front ++ end.now) }
{
    text.strip_suffix(end)
}

/// What the name that a reference means has before the words behind one of its words.
fn front_of<'a>(
    alloc: Global,
    link: &'a Link,
    words: &Words,
    word: WordMeant,
) -> Result<Option<&'a str>, NoMemory>
    ensures { IfOk result (λ found. (text : List ℕ)
        → name_text link.now word.entry.meant.row ≡ Some text
        → (front : List ℕ) → (option_map (λ t. t.now) found ≡ Some front)
        ↔ (text ≡ front ++ dotted_text (map (word_at words.now) (word_of word.entry).behind))) }
{
    let Some(text) = link.name_of(word.meant.symbol()) else {
        return Ok(None);
    };
    let end = dotted_text(alloc, words, word.behind)?;
    Ok(before(text, end.as_str()))
}

/// The name for which the token stands as a word of a reference, if what has the name may be
/// renamed.
fn name_of_word<'a>(
    alloc: Global,
    linked: &CleanLinked<'a>,
    place: Place,
) -> Result<Option<&'a str>, NoMemory>
    requires { place.file < length linked.now.files }
    ensures { IfOk result (λ found. (reads : List ReadOf) → AreRead linked.now.files reads
        → (n : List ℕ)
        → ((option_map (λ text. text.now) found ≡ Some n) × HasTarget linked.now.files reads n)
        ↔ RefersToName linked.now.files reads (at_place place) n) }
{
    let files = linked.files();
    let link = linked.link();
    let listing = list_file(alloc, files.tree(place.file))?;
    let meant = link.meant_in(place.file);
    let words = Words::new(files, place.file);
    match word_meant(&listing.used, meant, place.token) {
        Some(word) => front_of(alloc, link, &words, word),
        None => Ok(None),
    }
}

/// The name for which the token stands as a word of a reference. A reference that means a name
/// stands for it with its last word, and each word before that for the name before.
pub(crate) fn referred_name<'a>(
    alloc: Global,
    linked: &CleanLinked<'a>,
    place: Place,
) -> Result<Option<&'a str>, NoMemory>
    requires { place.file < length linked.now.files }
    ensures { IfOk result (λ found. IsOnlyName linked.now.files
        (λ reads. RefersToName linked.now.files reads (at_place place))
        (option_map (λ text. text.now) found)) }
{
    let Some(name) = name_of_word(alloc, linked, place)? else {
        return Ok(None);
    };
    match target(alloc, linked, name)? {
        Some(_) => Ok(Some(name)),
        None => Ok(None),
    }
}
