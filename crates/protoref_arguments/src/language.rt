//! The language of the schemas that the words ask for.

ghost use Rattle.std.specs.Prelude.{◌≡◌, drop, map, string_bytes};
ghost use Rattle.protoref_arguments.specs.Languages.{asked_in};

use proto_base::Profile;

/// The language of the schemas, and the words that ask for a command. The first word behind the
/// program's name may be `--as-written`: the language is the one as written then, and that word
/// stands in the place of the program's name in what is answered. Else it is the core language, and
/// all words are answered.
pub(crate) fn language_of(words: &[String]) -> (Profile, &[String])
    ensures language { result.0 ≡ (asked_in (drop 1 (map string_bytes words.now))).0 }
    ensures words { drop 1 (map string_bytes result.1.now)
        ≡ (asked_in (drop 1 (map string_bytes words.now))).1 }
{
    if words.len() > 1 && words[1].as_str() == "--as-written" {
        (Profile::AsWritten, &words[1..])
    } else {
        (Profile::Core, words)
    }
}
