//! Keys of words.

ghost use Rattle.std.specs.Prelude.{◌≡◌};
ghost use Rattle.proto_base.specs.Words.{word_key};

/// The key of a word: its bytes as the digits of a number, modulo 2^32. Equal words have equal
/// keys, so that references which begin with a word are found without their texts.
pub fn word_key(word: &str) -> u32
    ensures { result ≡ word_key word.now }
{
    let mut key: u32 = 0;
    for byte in word.as_bytes() {
        key = key.wrapping_mul(31).wrapping_add(u32::from(*byte));
    }
    key
}
