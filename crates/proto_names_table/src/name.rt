//! The full name of a row: a text of its own, or the first bytes of a text that names share.

ghost use Rattle.std.specs.Prelude.{◌≡◌, ℕ, ◌++◌, List, IfOk, IfSome, string_bytes, take, IsCharBoundary};
ghost use Rattle.std.specs.Arc.{arc_str_bytes};
ghost use Rattle.proto_names_rules.specs.Forest.{under};
ghost use Rattle.proto_names_table.specs.NameTexts.{bytes_of, IsCut};

use proto_base::NoMemory;
use std::alloc::Global;
use std::marker::Model;
use std::sync::ArcStr;

/// Where the bytes of a name stand.
#[derive(Drop)]
enum NameText {
    /// In a text of its own.
    Own(String),
    /// They are the first ones of a text that other names have too, so many.
    First(ArcStr, usize),
}

/// A full name, its words joined by `.`. A contract sees its bytes.
#[derive(Drop)]
pub struct Name {
    text: NameText,
}

impl Model for Name {
    ghost Value = { List ℕ };

    ghost view = { λ n. bytes_of n.text };

    ghost invariant = { λ n. IsCut n.text };
}

impl Name {
    /// A name with a text of its own.
    pub(crate) fn own(text: String) -> Name
        ensures { result ≡ string_bytes text }
    {
        Name {
            text: NameText::Own(text),
        }
    }

    /// The name as text.
    pub fn as_str(&self) -> &str
        ensures { result.now ≡ self.now }
    {
        match &self.text {
            NameText::Own(text) => text.as_str(),
            NameText::First(text, len) => {
                let (name, _rest) = text.as_str().split_at(*len);
                name
            }
        }
    }

    /// The name of a word right below this one, in the same text; none where that text does not go
    /// on with the word. Takes no memory.
    pub(crate) fn below(&self, word: &str) -> Option<Name>
        ensures { IfSome result (λ name. name ≡ under self.now word.now) }
    {
        match &self.text {
            NameText::Own(_text) => None,
            NameText::First(text, len) => below_in(text, *len, word),
        }
    }

    /// The name of a word right below another, in a text that begins with both; none where it does
    /// not. Takes no memory.
    pub(crate) fn in_text(text: &ArcStr, above: &str, word: &str) -> Option<Name>
        ensures { IfSome result (λ name. name ≡ under above.now word.now) }
    {
        let (front, _rest) = text.as_str().split_at_checked(above.len())?;
        if front == above {
            below_in(text, above.len(), word)
        } else {
            None
        }
    }

    /// The same name: in the same text, or in one of its own. Fails only when out of memory.
    pub(crate) fn copy(&self, alloc: Global) -> Result<Name, NoMemory>
        ensures { IfOk result (λ name. name ≡ self.now) }
    {
        match &self.text {
            NameText::Own(text) => {
                let own = String::from_str(alloc, text.as_str())?;
                Ok(Name::own(own))
            }
            NameText::First(text, len) => {
                let shared = text.clone()?;
                Ok(Name {
                    text: NameText::First(shared, *len),
                })
            }
        }
    }
}

/// The name of a word right below the first `len` bytes of a text; none where the text does not go
/// on with it. Takes no memory.
fn below_in(text: &ArcStr, len: usize, word: &str) -> Option<Name>
    requires { IsCharBoundary (arc_str_bytes text.now) len }
    ensures { IfSome result (λ name. name ≡ under (take len (arc_str_bytes text.now)) word.now) }
{
    let whole = text.as_str();
    let (above, behind) = whole.split_at(len);
    let rest = behind_word(above, behind, word)?;
    let end = whole.len() - rest.len();
    if !whole.is_char_boundary(end) {
        return None;
    }
    match text.clone() {
        Ok(shared) => Some(Name {
            text: NameText::First(shared, end),
        }),
        Err(_full) => None,
    }
}

/// What follows a word right below a name, in what stands behind the name; none where that does not
/// begin with the word.
fn behind_word<'a>(above: &str, behind: &'a str, word: &str) -> Option<&'a str>
    ensures { IfSome result
        (λ rest. above.now ++ behind.now ≡ under above.now word.now ++ rest.now) }
{
    let start = if above.is_empty() {
        behind
    } else {
        behind.strip_prefix(".")?
    };
    start.strip_prefix(word)
}
