// Words of 64 bits, with a bit for each file.
ghost use Rattle.std.specs.Prelude.{◌≡◌, ◌≢◌, ◌↔◌, ℕ, ◌+◌, ◌*◌, ◌/◌, ◌^◌, ◌<◌, ◌≤◌, true, not, ◌&&◌, ◌||◌, ◌++◌, ◌∷◌, [], length, get_or, replicate, filter, IfOk, OnOk};
ghost use Rattle.std.specs.Int.{div_ceil};
ghost use Rattle.std.specs.List.{range_with_len};
ghost use Rattle.proto_file_sets.specs.Words.{has_file, AreWords};

use proto_base::NoMemory;
use std::alloc::Global;

/// So many words as the files need, all of them this one. Fails only when out of memory.
pub(crate) fn filled(alloc: Global, word: u64, file_count: usize) -> Result<Vec<u64>, NoMemory>
    ensures { IfOk result (λ words. words.items ≡ replicate (div_ceil file_count 64) word) }
{
    Ok(vec![in alloc; word; file_count.div_ceil(64)]?)
}

/// The word with this index; 0 past the end.
fn word_at(words: &[u64], index: usize) -> u64
    ensures { result ≡ get_or words.now index 0 }
{
    match words.get(index) {
        Some(word) => *word,
        None => 0,
    }
}

/// Whether the bit of a file is set; false past the end.
pub(crate) fn has_bit(words: &[u64], file: usize) -> bool
    ensures { result ≡ has_file words.now file }
{
    (word_at(words, file / 64) >> (file % 64)) & 1 == 1
}

/// Sets the bit of a file.
pub(crate) fn set_bit(words: &mut [u64], file: usize)
    requires { file / 64 < length words.old }
    ensures set { has_file words.new file ≡ true }
    ensures others { (other : ℕ) → other ≢ file
        → has_file words.new other ≡ has_file words.old other }
    ensures count { length words.new ≡ length words.old }
{
    words[file / 64] |= 1 << (file % 64);
}

/// Clears the bits past the last of so many files.
pub(crate) fn clear_spare(words: &mut [u64], file_count: usize)
    requires { length words.old ≡ div_ceil file_count 64 }
    ensures words { AreWords file_count words.new }
    ensures files { (file : ℕ) → file < file_count
        → has_file words.new file ≡ has_file words.old file }
{
    let last = file_count / 64;
    if last < words.len() {
        words[last] &= (1 << (file_count % 64)) - 1;
    }
}

/// Whether as many words have the same bits.
pub(crate) fn are_same(words: &[u64], others: &[u64]) -> bool
    requires { length words.now ≡ length others.now }
    ensures { (result ≡ true) ↔ ((file : ℕ) → has_file words.now file ≡ has_file others.now file) }
{
    *words == *others
}

/// Whether the bit of some file is set in both.
pub(crate) fn have_common(words: &[u64], others: &[u64]) -> bool
    ensures { (result ≡ true) ↔ ((file : ℕ)
        × (has_file words.now file ≡ true) × (has_file others.now file ≡ true)) }
{
    for index in 0..words.len() {
        if word_at(words, index) & word_at(others, index) != 0 {
            return true;
        }
    }
    false
}

/// Sets the bits of the files that are seen and were not before.
pub(crate) fn add_new_bits(words: &mut [u64], seen: &[u64], before: &[u64])
    ensures files { (file : ℕ) → file / 64 < length words.old → has_file words.new file
        ≡ (has_file words.old file || has_file seen.now file && not (has_file before.now file)) }
    ensures count { length words.new ≡ length words.old }
{
    for index in 0..words.len() {
        words[index] |= word_at(seen, index) & !word_at(before, index);
    }
}

/// Puts a file behind the list where its bit is set. Fails only when out of memory.
fn push_file(files: &mut Vec<u32>, words: &[u64], file: usize) -> Result<(), NoMemory>
    requires { file < 2 ^ 32 }
    ensures { OnOk result (files.new.items
        ≡ files.old.items ++ filter (has_file words.now) (file ∷ [])) }
{
    if has_bit(words, file) {
        files.push(file as u32)?;
        return Ok(());
    }
    Ok(())
}

/// Puts the files of one word behind the list, in order. Fails only when out of memory.
fn push_files(files: &mut Vec<u32>, words: &[u64], index: usize) -> Result<(), NoMemory>
    requires { 64 * index + 64 ≤ 2 ^ 32 }
    ensures { OnOk result (files.new.items
        ≡ files.old.items ++ filter (has_file words.now) (range_with_len (64 * index) 64)) }
{
    if word_at(words, index) == 0 {
        return Ok(());
    }
    for bit in 0..64 {
        push_file(files, words, 64 * index + bit)?;
    }
    Ok(())
}

/// The files whose bits are set, in order. Fails only when out of memory.
pub(crate) fn set_files(alloc: Global, words: &[u64]) -> Result<Vec<u32>, NoMemory>
    requires { 64 * length words.now ≤ 2 ^ 32 }
    ensures { IfOk result (λ files. files.items
        ≡ filter (has_file words.now) (range_with_len 0 (64 * length words.now))) }
{
    let mut files = Vec::new(alloc);
    for index in 0..words.len() {
        push_files(&mut files, words, index)?;
    }
    Ok(files)
}
