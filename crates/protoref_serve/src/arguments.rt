//! The command line.

ghost use Rattle.std.specs.Prelude.{◌≡◌, ◌<◌, IfErr, IfOk, Some, None, length, map, option_map, string_bytes, true};
ghost use Rattle.protoref_serve.specs.Arguments.{asked, is_as_written, root_asked};

use proto_base::Profile;
use std::alloc::{AllocError, AllocFailed};
use thiserror::Error;

/// Why a command line asks for nothing.
#[derive(Clone, Copy, Debug, PartialEq, Eq, Error)]
pub enum UsageError {
    /// Behind `--as-written`, if that comes first, it has more than one word, or one that begins with
    /// `-`; or one is no text.
    #[error("bad command line")]
    BadCommandLine,
    /// A growth was refused.
    #[error("no memory")]
    NoMemory,
}

impl From<AllocError> for UsageError {
    fn from(_error: AllocError) -> UsageError {
        UsageError::NoMemory
    }
}

impl<T: Drop> From<AllocFailed<T>> for UsageError {
    fn from(_error: AllocFailed<T>) -> UsageError {
        UsageError::NoMemory
    }
}

// The ROOT of a command line, of whose words the first is the program's name; none where it has no
// further word. A word that begins with `-` is no ROOT: an option of a later version.
fn root_of(words: Vec<String>) -> Result<Option<String>, UsageError>
    ensures ok { IfOk result (λ root. root_asked (map string_bytes words.items)
        ≡ Some (option_map string_bytes root)) }
    ensures err { IfErr result (λ fault. (fault ≡ UsageError.BadCommandLine)
        × (root_asked (map string_bytes words.items) ≡ None)) }
{
    let mut words = words;
    if words.len() > 2 {
        return Err(UsageError::BadCommandLine);
    }
    if words.len() < 2 {
        return Ok(None);
    }
    match words.pop() {
        Some(word) if !word.starts_with('-') => Ok(Some(word)),
        _ => Err(UsageError::BadCommandLine),
    }
}

// Whether the first word behind the program's name is `--as-written`.
fn is_as_written(words: &[String]) -> bool
    ensures word { result ≡ is_as_written (map string_bytes words.now) }
    ensures within { result ≡ true → 1 < length words.now }
{
    match words.get(1) {
        Some(word) => word.as_str() == "--as-written",
        None => false,
    }
}

/// The language of the schemas and the ROOT that a command line asks for, of whose words the first is
/// the program's name. The next may be `--as-written`: the schemas are read as written then, else in
/// the core language. The ROOT may be left out. Any other word that begins with `-`, and any word too
/// many, makes it a bad command line.
pub fn parse_arguments(words: Vec<String>) -> Result<(Profile, Option<String>), UsageError>
    ensures ok { IfOk result (λ found. asked (map string_bytes words.items)
        ≡ Some (found.0, option_map string_bytes found.1)) }
    ensures err { IfErr result (λ fault. (fault ≡ UsageError.BadCommandLine)
        × (asked (map string_bytes words.items) ≡ None)) }
{
    let mut words = words;
    if is_as_written(words.as_slice()) {
        words.remove(1);
        return Ok((Profile::AsWritten, root_of(words)?));
    }
    Ok((Profile::Core, root_of(words)?))
}
