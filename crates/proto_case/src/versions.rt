//! Versions of packages.

ghost use Rattle.std.specs.Prelude.{◌≡◌, ◌≤◌, length};
ghost use Rattle.std.specs.Char.{is_ascii_digit};
ghost use Rattle.std.specs.List.{list_all, prefix_len};
ghost use Rattle.proto_case.specs.Versions.{is_numbered, is_positive, is_stage, is_version};

// Digits alone.
fn are_digits(bytes: &[u8]) -> bool
    ensures { result ≡ list_all is_ascii_digit bytes.now }
{
    bytes.iter().all(|b| b.is_ascii_digit())
}

// Whether the bytes are a positive decimal without leading zero.
fn is_positive(bytes: &[u8]) -> bool
    ensures { result ≡ is_positive bytes.now }
{
    match bytes {
        [b'1'..=b'9', rest @ ..] => are_digits(rest),
        _ => false,
    }
}

// How many digits stand at the front.
fn digit_count(bytes: &[u8]) -> usize
    ensures count { result ≡ prefix_len is_ascii_digit bytes.now }
    ensures within { result ≤ length bytes.now }
{
    bytes.iter().take_while(|b| b.is_ascii_digit()).count()
}

// Whether the bytes are this name, and then nothing or a positive decimal.
fn is_numbered(name: &[u8], bytes: &[u8]) -> bool
    ensures { result ≡ is_numbered name.now bytes.now }
{
    match bytes.strip_prefix(name) {
        Some(number) => number.is_empty() || is_positive(number),
        None => false,
    }
}

// Whether the bytes are nothing, or `alpha` or `beta` and then nothing or a positive decimal.
fn is_stage(bytes: &[u8]) -> bool
    ensures { result ≡ is_stage bytes.now }
{
    bytes.is_empty() || is_numbered(b"alpha", bytes) || is_numbered(b"beta", bytes)
}

/// Whether a word is `v` and a positive decimal without leading zero, and then nothing, or `alpha`
/// or `beta` and nothing or such a decimal: `v1`, `v2alpha`, `v3beta4`.
pub fn is_version(word: &str) -> bool
    ensures { result ≡ is_version word.now }
{
    match word.as_bytes() {
        [b'v', rest @ ..] => {
            let (number, stage) = rest.split_at(digit_count(rest));
            is_positive(number) && is_stage(stage)
        }
        _ => false,
    }
}
