//! A number that equal words in camel case share.

ghost use Rattle.std.specs.Char.{to_ascii_uppercase};
ghost use Rattle.std.specs.Prelude.{◌≡◌, false, if◌then◌else◌};
ghost use Rattle.proto_case.specs.Camel.{camel_from};
ghost use Rattle.proto_case.specs.Digest.{digest_from, digest_step};

fn digest_step(digest: u64, byte: u8) -> u64
    ensures { result ≡ digest_step digest byte }
{
    digest.wrapping_mul(31).wrapping_add(u64::from(byte))
}

fn raised_if(up: bool, byte: u8) -> u8
    ensures { result ≡ if up then to_ascii_uppercase byte else byte }
{
    if up { byte.to_ascii_uppercase() } else { byte }
}

/// A number of a word without each `_`, the character after one in upper case: words of which this
/// is the same text have the same number, others seldom do. Takes no memory.
pub fn camel_digest(word: &str) -> u64
    ensures { result ≡ digest_from 0 (camel_from false word.now) }
{
    let bytes = word.as_bytes();
    let mut digest = 0;
    let mut up = false;
    for byte in bytes {
        if *byte == b'_' {
            up = true;
        } else {
            digest = digest_step(digest, raised_if(up, *byte));
            up = false;
        }
    }
    digest
}
