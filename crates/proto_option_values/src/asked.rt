//! The words that are looked for in options.

ghost use Rattle.std.specs.Prelude.{◌≡◌, option_map, option_to_list};
ghost use Rattle.proto_option_values.specs.OptionValues.{words_asked};
ghost use Rattle.proto_option_values.specs.Words.{is_asked};

/// The simple names that a word of an option may be: the old one, and of a rename the new one.
#[derive(Clone, Copy)]
pub struct OptionWords<'a> {
    pub old: &'a str,
    pub new: Option<&'a str>,
}

/// Whether there is a new word, and it is this one.
fn is_new(asked: &OptionWords, word: &str) -> bool
    ensures { result
        ≡ is_asked (option_to_list (option_map (λ x. x.now) asked.now.new)) word.now }
{
    match asked.new {
        Some(new) => word == new,
        None => false,
    }
}

/// Whether a word is one of these.
pub(crate) fn is_asked(asked: &OptionWords, word: &str) -> bool
    ensures { result ≡ is_asked (words_asked asked.now) word.now }
{
    word == asked.old || is_new(asked, word)
}
