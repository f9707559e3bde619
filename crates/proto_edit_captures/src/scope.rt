//! The words of a scope, from the outermost.

ghost use Rattle.std.specs.Prelude.{◌≡◌, ◌<◌, ◌≤◌, ℕ, length, get_or, map, IfOk, string_bytes};
ghost use Rattle.proto_case.specs.Camel.{entry_name};
ghost use Rattle.proto_names_outline.specs.Listing.{needs, path_at, read, source_of};
ghost use Rattle.proto_names_outline.specs.declared.listing.Listed.{Listed as ListedOf};
ghost use Rattle.proto_names_rules.specs.Skeleton.{name_of, spell};
ghost use Rattle.proto_text.specs.Texts.{word_at};

use proto_base::NoMemory;
use proto_case::entry_name;
use proto_files::Words;
use proto_names_outline::listing::{Above, LastWord, Listed};
use proto_names_rules::Wants;
use std::alloc::Global;

/// The texts of a file's tokens, and what the file declares.
#[derive(Clone, Copy)]
pub(crate) struct Declared<'a> {
    pub(crate) words: &'a Words<'a>,
    pub(crate) all: &'a [Listed],
}

/// What a reference's first word has to fit: what the reference wants, and whether more words
/// follow it.
#[derive(Clone, Copy)]
pub(crate) struct Fit {
    pub(crate) wants: Wants,
    pub(crate) is_long: bool,
}

/// From where a reference's first word is looked up: the words around it, and from how many bytes
/// on; and what it has to fit.
#[derive(Clone, Copy)]
pub(crate) struct Around<'a> {
    pub(crate) scope: &'a [String],
    pub(crate) least: usize,
    pub(crate) fit: Fit,
}

/// The last word of a declaration's name.
fn last_word(alloc: Global, words: &Words, entry: &Listed) -> Result<String, NoMemory>
    ensures { IfOk result (λ word. string_bytes word
        ≡ spell (word_at words.now) entry_name (source_of entry.now.word entry.now.token)) }
{
    match entry.word {
        LastWord::Text => Ok(String::from_str(alloc, words.get(entry.token))?),
        LastWord::EntryName => entry_name(alloc, words.get(entry.token)),
        LastWord::Key => Ok(String::from_str(alloc, "key")?),
        LastWord::Value => Ok(String::from_str(alloc, "value")?),
    }
}

/// The words of the full name of what stands right above, from the outermost; none for what is
/// outermost.
pub(crate) fn scope_words(
    alloc: Global,
    words: &Words,
    declared: &[Listed],
    scope: Above,
) -> Result<Vec<String>, NoMemory>
    requires ordered { (k : ℕ) (d : ListedOf)
        → k < length declared.now → needs (get_or declared.now k d).above ≤ k }
    requires within { needs scope ≤ length declared.now }
    ensures { IfOk result (λ ws. map string_bytes ws.items
        ≡ name_of (word_at words.now) entry_name (path_at (read declared.now) scope)) }
{
    let mut outward = Vec::new(alloc);
    let mut above = scope;
    while let Above::Below(next) = above {
        let entry = &declared[next];
        outward.push(last_word(alloc, words, entry)?)?;
        above = entry.above;
    }
    outward.reverse();
    Ok(outward)
}
