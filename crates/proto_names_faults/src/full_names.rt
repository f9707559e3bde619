//! The full names of declarations as text.

ghost use Rattle.std.specs.Prelude.{◌≡◌, ◌++◌, ◌≤◌, ◌^◌, length, map, string_bytes, IfOk, OnOk};
ghost use Rattle.std.specs.Cow.{cow_str_bytes};
ghost use Rattle.std.specs.List.{All};
ghost use Rattle.proto_names_outline.specs.Listing.{needs};
ghost use Rattle.proto_names_rules.specs.Forest.{under};
ghost use Rattle.proto_names_table.specs.Spelled.{AreSpelled, all_named, named_in};
ghost use Rattle.proto_names_faults.specs.Clashes.{name_at, shown, text_above};

use proto_base::NoMemory;
use proto_names_outline::listing::Above;
use proto_names_rules::Kind;
use proto_names_table::spelled::Spelled;
use std::alloc::Global;

/// A declaration by its full name.
#[derive(Drop)]
pub(crate) struct NamedText {
    /// Its full name, its words joined by `.`.
    pub(crate) text: String,
    /// What it declares.
    pub(crate) kind: Kind,
    /// The number of its file, from 0.
    pub(crate) file: u32,
    /// The token that it stands at, by its index among those of the file.
    pub(crate) token: u32,
}

/// The declarations of all files, file after file. Fails only when out of memory.
pub(crate) fn named_texts(alloc: Global, files: &[Vec<Spelled>]) -> Result<Vec<NamedText>, NoMemory>
    requires count { length files.now ≤ 2 ^ 32 }
    requires spelled { All (λ v. AreSpelled v.items) files.now }
    ensures { IfOk result (λ all. map shown all.items
        ≡ map name_at (all_named 0 (map (λ v. v.items) files.now))) }
{
    let mut all = Vec::new(alloc);
    for file in 0..files.len() {
        add_file_texts(alloc, file as u32, &files[file], &mut all)?;
    }
    Ok(all)
}

/// Adds the declarations of one file.
fn add_file_texts(
    alloc: Global,
    file: u32,
    spelled: &[Spelled],
    all: &mut Vec<NamedText>,
) -> Result<(), NoMemory>
    requires { AreSpelled spelled.now }
    ensures { OnOk result (map shown all.new.items
        ≡ map shown all.old.items ++ map name_at (named_in file spelled.now)) }
{
    let first = all.len();
    for one in spelled {
        let (_, own) = all.as_slice().split_at(first);
        let text = full_text(alloc, own, one)?;
        all.push(NamedText {
            text,
            kind: one.kind,
            file,
            token: one.token,
        })?;
    }
    Ok(())
}

/// The full name of a declaration, given those before it.
fn full_text(alloc: Global, before: &[NamedText], one: &Spelled) -> Result<String, NoMemory>
    requires { needs one.now.above ≤ length before.now }
    ensures { IfOk result (λ text. string_bytes text
        ≡ under (text_above (map shown before.now) one.now.above) (cow_str_bytes one.now.word)) }
{
    let mut text = above_text(alloc, before, one.above)?;
    extend(&mut text, one.word.as_str())?;
    Ok(text)
}

/// The full name of what stands right above a declaration; empty where that is nothing.
fn above_text(alloc: Global, before: &[NamedText], above: Above) -> Result<String, NoMemory>
    requires { needs above ≤ length before.now }
    ensures { IfOk result (λ text. string_bytes text ≡ text_above (map shown before.now) above) }
{
    match above {
        Above::Outermost => Ok(String::new(alloc)),
        Above::Below(k) => {
            let text = String::from_str(alloc, before[k].text.as_str())?;
            Ok(text)
        }
    }
}

/// Puts a word behind a name, and a `.` before it unless the name is empty.
fn extend(name: &mut String, word: &str) -> Result<(), NoMemory>
    ensures { OnOk result (string_bytes name.new ≡ under (string_bytes name.old) word.now) }
{
    if !name.is_empty() {
        name.push_str(".")?;
    }
    name.push_str(word)?;
    Ok(())
}
