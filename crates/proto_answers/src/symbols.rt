//! The declarations that are written in a file.

ghost use Rattle.std.specs.Prelude.{◌≡◌, ◌<◌, ◌≤◌, ◌++◌, ℕ, List, Some, IfOk, OnOk, get_or, length, map};
ghost use Rattle.std.specs.List.{filter_map};
ghost use Rattle.proto_files.specs.FilesRead.{AreRead, ReadOf};
ghost use Rattle.proto_names_outline.specs.Listing.{last_token, needs, read, whole};
ghost use Rattle.proto_names_outline.specs.declared.listing.Listed.{Listed as Entry};
ghost use Rattle.proto_answers.specs.Symbols.{container_token, if_written, is_written, symbol_if_written, symbols_of};

use crate::ranges::{Location, range_from, span_of};
use proto_edit::{Files, Kind, NoMemory};
use proto_names_outline::file_listing::list_file;
use proto_names_outline::listing::{Above, LastWord, Listed};
use proto_positions::{Cursor, Encoding};
use std::alloc::Global;

/// A declaration whose name is written in a file: the text of the token.
#[derive(Clone, Copy, Debug, PartialEq, Eq)]
pub struct Symbol {
    /// What is declared.
    pub kind: Kind,
    /// The token of its name, by its index from 0.
    pub token: u32,
    /// That of the name of what contains it; none where nothing does. As in names, the values of an
    /// enum stand beside it, and the fields of a oneof beside that.
    pub container: Option<u32>,
    /// Where its name stands.
    pub location: Location,
}

/// The token of what stands right above.
fn container_token(declared: &[Listed], above: Above) -> Option<u32>
    requires { needs above ≤ length declared.now }
    ensures { result ≡ container_token declared.now above }
{
    match above {
        Above::Outermost => None,
        Above::Below(index) => Some(declared[index].token),
    }
}

fn is_written(word: LastWord) -> bool
    ensures { result ≡ is_written word }
{
    match word {
        LastWord::Text => true,
        LastWord::EntryName | LastWord::Key | LastWord::Value => false,
    }
}

/// Adds a symbol, if its name is written.
fn push_written(all: &mut Vec<Symbol>, word: LastWord, symbol: Symbol) -> Result<(), NoMemory>
    ensures { OnOk result (all.new.items ≡ all.old.items ++ if_written word symbol) }
{
    if is_written(word) {
        all.push(symbol)?;
    }
    Ok(())
}

/// The symbols of what is listed of a file. As their tokens mostly rise, its text is gone through
/// once.
fn symbols_listed(
    alloc: Global,
    files: &Files,
    encoding: Encoding,
    file: u32,
    declared: &[Listed],
) -> Result<Vec<Symbol>, NoMemory>
    requires file { file < length files.now }
    requires ordered { (k : ℕ) (d : Entry) → k < length declared.now
        → needs (get_or declared.now k d).above ≤ k }
    requires tokens { map (λ e. Some e.token) declared.now
        ≡ map (λ p. last_token (whole p)) (read declared.now) }
    ensures { IfOk result (λ all. (reads : List ReadOf) → AreRead files.now reads
        → all.items ≡ filter_map (symbol_if_written encoding files.now reads file)
        (read declared.now)) }
{
    let text = files.source(file).as_bytes();
    let tokens = files.tokens(file);
    let mut all = Vec::new(alloc);
    let mut cursor = Cursor::new();
    for listed in declared {
        let (range, next) = range_from(text, encoding, cursor, span_of(tokens, listed.token));
        cursor = next;
        let symbol = Symbol {
            kind: listed.kind,
            token: listed.token,
            container: container_token(declared, listed.above),
            location: Location { file, range },
        };
        push_written(&mut all, listed.word, symbol)?;
    }
    Ok(all)
}

/// The declarations that are written in the file, its package first, word by word, each after what
/// contains it; of a map field the field alone. Fails only when out of memory.
pub fn symbols_in(
    alloc: Global,
    files: &Files,
    encoding: Encoding,
    file: u32,
) -> Result<Vec<Symbol>, NoMemory>
    requires { file < length files.now }
    ensures { IfOk result (λ all. (reads : List ReadOf) → AreRead files.now reads
        → all.items ≡ symbols_of encoding files.now reads file) }
{
    let listing = list_file(alloc, files.tree(file))?;
    symbols_listed(alloc, files, encoding, file, &listing.declared)
}
