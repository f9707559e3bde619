//! The test of a word.

ghost use Rattle.std.specs.Prelude.{◌≡◌, ◌↔◌, IsTrue};
ghost use Rattle.std.specs.List.{list_all};
ghost use Rattle.proto_text.specs.Classes.{class_of, is_identifier};
ghost use Rattle.proto_text.specs.declared.class.Class.TheVariants.{Letter};
ghost use Rattle.proto_text.specs.Pieces.{IsRun};
ghost use Rattle.proto_text.specs.Words.{may_begin_word as begins, is_run};

use crate::class::{Class, class_of_byte, is_identifier_byte};

fn extend_word(bytes: &[u8]) -> bool
    ensures { result ≡ list_all is_identifier bytes.now }
{
    bytes.iter().all(|b| is_identifier_byte(*b))
}

fn begins_word(byte: u8) -> bool
    ensures { result ≡ begins (class_of byte) }
{
    match class_of_byte(byte) {
        Class::Letter => true,
        _ => false,
    }
}

fn are_word(bytes: &[u8]) -> bool
    ensures { result ≡ is_run bytes.now }
{
    match bytes {
        [] => false,
        [first, rest @ ..] => begins_word(*first) && extend_word(rest),
    }
}

/// Whether the text is a word: an ASCII letter or `_`, and then letters, digits and `_`.
pub fn is_word(text: &str) -> bool
    ensures { IsTrue result ↔ IsRun Letter text.now }
{
    are_word(text.as_bytes())
}
