//! The rows of a table by the name above them and their last word.

ghost use Rattle.std.specs.Prelude.{◌≡◌, ◌≢◌, ◌≤◌, ◌+◌, ◌++◌, ◌∷◌, ◌⊎◌, [], ℕ, List, ◌&&◌, ◌==◌, if◌then◌else◌, Some, None, length, map, take, string_bytes, IfOk, OnOk, OnErr};
ghost use Rattle.std.specs.Str.{bytes_eq};
ghost use Rattle.proto_names_table.specs.Indexes.{aboves_in, AreSameKeys, HasWords, IsFrontOf, keys_in, look_in, word_place};

use indexmap::IndexSet;
use proto_base::NoMemory;
use std::alloc::Global;

/// A row by the number of the name above it, and the number of its word.
#[derive(Clone, Copy, PartialEq, Eq, Hash)]
pub struct Below {
    pub above: usize,
    pub word: usize,
}

/// Words, each with its number, and rows, each with its index.
#[derive(Drop)]
pub struct Index {
    pub words: IndexSet<String>,
    pub rows: IndexSet<Below>,
}

/// The number of a word, which is put behind the others where it is new. Fails only when out of
/// memory; then the words stay as they were.
fn number(alloc: Global, words: &mut IndexSet<String>, word: &str) -> Result<usize, NoMemory>
    ensures found { IfOk result (λ k. word_place words.new.keys word.now ≡ Some k) }
    ensures old_or_new { IfOk result (λ k. (words.new.keys ≡ words.old.keys)
        ⊎ ((k ≡ length words.old.keys) × (word_place words.old.keys word.now ≡ None))) }
    ensures other { OnOk result ((v : List ℕ) → v ≢ word.now
        → word_place words.new.keys v ≡ word_place words.old.keys v) }
    ensures long { length words.old.keys ≤ length words.new.keys }
    ensures front { OnOk result (take (length words.old.keys) words.new.keys ≡ words.old.keys) }
    ensures kept { OnErr result (words.new.keys ≡ words.old.keys) }
{
    match words.get_index_of(word) {
        Some(number) => Ok(number),
        None => {
            let key = String::from_str(alloc, word)?;
            let (number, _) = words.insert_full(key)?;
            Ok(number)
        }
    }
}

impl Index {
    /// The index of the row of this word right below the name with this number, if there is one.
    pub fn find(&self, above: usize, word: &str) -> Option<usize>
        ensures { result ≡ look_in self.now above word.now }
    {
        let word = self.words.get_index_of(word)?;
        self.rows.get_index_of(&Below { above, word })
    }

    /// A new row, behind the others. Fails only when out of memory; then nothing has changed.
    pub(crate) fn add(&mut self, alloc: Global, above: usize, word: &str) -> Result<(), NoMemory>
        requires new { look_in self.old above word.now ≡ None }
        requires words { HasWords self.old }
        ensures words { HasWords self.new }
        ensures look { OnOk result ((p : ℕ) (v : List ℕ) → look_in self.new p v
            ≡ (if (above == p) && bytes_eq word.now v then Some (length self.old.rows.keys)
            else look_in self.old p v)) }
        ensures aboves { OnOk result (aboves_in self.new ≡ aboves_in self.old ++ above ∷ []) }
        ensures len { OnOk result (length self.new.rows.keys ≡ length (self.old.rows.keys) + 1) }
        ensures front { OnOk result (IsFrontOf self.old self.new) }
        ensures kept { OnErr result (keys_in self.new ≡ keys_in self.old) }
    {
        self.rows.reserve(1)?;
        let word = number(alloc, &mut self.words, word)?;
        self.rows.insert(Below { above, word }).unwrap();
        Ok(())
    }

    /// Takes the last words and rows away, so that at most as many are left. Takes no memory.
    pub(crate) fn cut_back(&mut self, words: usize, rows: usize)
        ensures words { self.new.words.keys ≡ take words self.old.words.keys }
        ensures rows { self.new.rows.keys ≡ take rows self.old.rows.keys }
    {
        self.words.truncate(words);
        self.rows.truncate(rows);
    }

    /// The same words, as texts of its own, and the same rows. Fails only when out of memory.
    pub(crate) fn copy(&self, alloc: Global) -> Result<Index, NoMemory>
        ensures { IfOk result (AreSameKeys self.now) }
    {
        let words = copied_words(alloc, &self.words)?;
        let rows = copied_rows(alloc, &self.rows)?;
        Ok(Index { words, rows })
    }
}

/// The same words in the same order, as texts of its own.
fn copied_words(alloc: Global, words: &IndexSet<String>) -> Result<IndexSet<String>, NoMemory>
    ensures { IfOk result
        (λ copy. map string_bytes copy.keys ≡ map string_bytes words.now.keys) }
{
    let texts = words.as_slice();
    let mut copy = IndexSet::with_capacity(alloc, texts.len())?;
    for word in texts {
        let own = String::from_str(alloc, word.as_str())?;
        copy.insert(own)?;
    }
    Ok(copy)
}

/// The same rows in the same order.
fn copied_rows(alloc: Global, rows: &IndexSet<Below>) -> Result<IndexSet<Below>, NoMemory>
    ensures { IfOk result (λ copy. copy.keys ≡ rows.now.keys) }
{
    let given = rows.as_slice();
    let mut copy = IndexSet::with_capacity(alloc, given.len())?;
    for row in given {
        copy.insert(*row)?;
    }
    Ok(copy)
}
