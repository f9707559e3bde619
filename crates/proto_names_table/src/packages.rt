//! The text of the package that a file declares.

ghost use Rattle.std.specs.Prelude.{◌≡◌, ◌≤◌, ◌∷◌, ◌++◌, if◌then◌else◌, length, map, string_bytes, take, IfOk, OnOk};
ghost use Rattle.std.specs.Arc.{arc_str_bytes};
ghost use Rattle.std.specs.Cow.{cow_str_bytes};
ghost use Rattle.proto_base.specs.Ascii as ascii;
ghost use Rattle.proto_names_rules.specs.Joined.{joined};

use crate::spelled::Spelled;
use proto_base::NoMemory;
use std::alloc::Global;
use std::sync::ArcStr;

/// The first words joined by `.`: the text of a file's package. Fails only when out of memory.
pub(crate) fn package_text(
    alloc: Global,
    spelled: &[Spelled],
    count: usize,
) -> Result<ArcStr, NoMemory>
    requires { count ≤ length spelled.now }
    ensures { IfOk result (λ text. arc_str_bytes text
        ≡ joined (map (λ s. cow_str_bytes s.word) (take count spelled.now))) }
{
    let mut text = String::new(alloc);
    for k in 0..count {
        push_word(&mut text, k == 0, spelled[k].word.as_str())?;
    }
    let shared = ArcStr::from_string(text)?;
    Ok(shared)
}

/// Puts a word behind a text, and a `.` before it unless it is the first.
fn push_word(text: &mut String, is_first: bool, word: &str) -> Result<(), NoMemory>
    ensures { OnOk result (string_bytes text.new
        ≡ string_bytes text.old ++ (if is_first then word.now else ascii.dot ∷ word.now)) }
{
    if !is_first {
        text.push_str(".")?;
    }
    text.push_str(word)?;
    Ok(())
}
