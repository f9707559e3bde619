//! The version that a file says.

ghost use Rattle.std.specs.Prelude.{◌≡◌, codes, slice_get, option_to_list};
ghost use Rattle.std.specs.Str.{bytes_eq};
ghost use Rattle.proto_tree.specs.File.{item_tree, tree_of_file};
ghost use Rattle.proto_ast.specs.Parts.{syntax_texts_in};
ghost use Rattle.proto_ast.specs.Scenes.{is_proto3, value_in};

use proto_files::Words;
use proto_tree::{File, Item};

fn syntax(item: &Item) -> Option<u32>
    ensures { option_to_list result ≡ syntax_texts_in (item_tree item.now) }
{
    match item {
        Item::Syntax(syntax) => Some(syntax.text),
        _ => None,
    }
}

/// The token of the string of a file's first syntax statement.
#[tactic(auto, using(crate::proofs::Statements::parts_joined))]
pub fn syntax_text(file: &File) -> Option<u32>
    ensures { result ≡ slice_get (syntax_texts_in (tree_of_file file.now)) 0 }
{
    for item in &file.items {
        if let Some(text) = syntax(item) {
            return Some(text);
        }
    }
    None
}

/// Whether the string token with this index says `proto3`.
fn says_proto3(words: &Words, token: u32) -> bool
    ensures { result ≡ bytes_eq (value_in words.now token) (codes "proto3") }
{
    words.says(token, b"proto3")
}

fn item_says_proto3(words: &Words, item: &Item) -> bool
    ensures { result ≡ is_proto3 (value_in words.now) (item_tree item.now) }
{
    match item {
        Item::Syntax(syntax) => says_proto3(words, syntax.text),
        _ => false,
    }
}

/// Whether a file is proto3, by its texts and its tree. Without a syntax statement it is proto2.
pub fn is_proto3(words: &Words, file: &File) -> bool
    ensures { result ≡ is_proto3 (value_in words.now) (tree_of_file file.now) }
{
    for item in &file.items {
        if item_says_proto3(words, item) {
            return true;
        }
    }
    false
}
