//! The declarations of a file with their last words.

ghost use Rattle.std.specs.Prelude.{◌≡◌, ◌<◌, ◌≤◌, ℕ, length, get_or, map, Some, IfOk};
ghost use Rattle.std.specs.Cow.{cow_str_bytes};
ghost use Rattle.proto_text.specs.Texts.{word_at};
ghost use Rattle.proto_names_table.specs.LastWords.{AreListed, EntriesAreKept, last_word, named_as};
ghost use Rattle.proto_names_outline.specs.Listing.{last_token, needs, read, whole};
ghost use Rattle.proto_names_table.specs.Spelled.{AreSpelled, named_in};

use crate::spelled::Spelled;
use proto_base::NoMemory;
use proto_case::entry_name;
use proto_files::Words;
use proto_names_outline::listing::{LastWord, Listed};
use std::alloc::Global;
use std::borrow::CowStr;

/// The last word of a declaration's name, borrowed unless it is that of a map's entry.
fn last_word<'a>(alloc: Global, words: &Words<'a>, entry: &Listed) -> Result<CowStr<'a>, NoMemory>
    ensures { IfOk result (λ word. cow_str_bytes word ≡ last_word (word_at words.now) entry.now) }
{
    match entry.word {
        LastWord::Text => Ok(CowStr::Borrowed(words.get(entry.token))),
        LastWord::EntryName => {
            let name = entry_name(alloc, words.get(entry.token))?;
            Ok(CowStr::Owned(name))
        }
        LastWord::Key => Ok(CowStr::Borrowed("key")),
        LastWord::Value => Ok(CowStr::Borrowed("value")),
    }
}

/// The declarations of a file, in their order, with their last words. Fails only when out of
/// memory.
pub fn spelled_names<'a>(
    alloc: Global,
    words: &Words<'a>,
    declared: &[Listed],
) -> Result<Vec<Spelled<'a>>, NoMemory>
    requires ordered { (k : ℕ) (d : Listed) → k
        < length declared.now → needs (get_or declared.now k d).above ≤ k }
    requires tokens { map (λ e. Some e.token) declared.now
        ≡ map (λ p. last_token (whole p)) (read declared.now) }
    ensures names { IfOk result (λ ss. (file : ℕ)
        → named_in file ss.items ≡ map (named_as file (word_at words.now)) (read declared.now)) }
    ensures kept { IfOk result (λ ss. EntriesAreKept declared.now ss.items) }
    ensures spelled { IfOk result (λ ss. AreListed
        (word_at words.now) declared.now → AreSpelled ss.items) }
{
    let mut spelled = Vec::with_capacity(alloc, declared.len())?;
    for entry in declared {
        let word = last_word(alloc, words, entry)?;
        spelled.push(Spelled {
            above: entry.above,
            word,
            kind: entry.kind,
            token: entry.token,
        })?;
    }
    Ok(spelled)
}
