//! Parts of names and paths.

ghost use Rattle.std.specs.Prelude.{◌≡◌};
ghost use Rattle.proto_base.specs.Ascii as ascii;
ghost use Rattle.proto_lint_names.specs.Placed.{before_last, behind_last};

/// The last part of a full name: what stands behind its last dot, or all of it.
pub fn last_part(name: &str) -> &str
    ensures { result.now ≡ behind_last ascii.dot name.now }
{
    match name.rsplit_once('.') {
        Some((_, last)) => last,
        None => name,
    }
}

/// What stands before the last slash of a path, or nothing.
pub fn directory_of(path: &str) -> &str
    ensures { result.now ≡ before_last ascii.slash path.now }
{
    match path.rsplit_once('/') {
        Some((directory, _)) => directory,
        None => "",
    }
}

/// The last part of a path.
pub fn file_name_of(path: &str) -> &str
    ensures { result.now ≡ behind_last ascii.slash path.now }
{
    match path.rsplit_once('/') {
        Some((_, name)) => name,
        None => path,
    }
}
