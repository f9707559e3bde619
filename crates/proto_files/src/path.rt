//! The paths of a workspace.

ghost use Rattle.std.specs.Prelude.{◌≡◌, ◌==◌, ◌↔◌, IsTrue, codes, nat_eq};
ghost use Rattle.std.specs.List.{list_all, slice_split, ends_with};
ghost use Rattle.proto_base.specs.Ascii as ascii;
ghost use Rattle.proto_files.specs.WorkspacePaths.{is_path_byte, is_path_part, is_workspace_path, IsWorkspacePath};

/// How many bytes a path has at most.
pub const MAX_PATH_LEN: usize = 255;

fn is_path_byte(byte: u8) -> bool
    ensures { result ≡ is_path_byte byte }
{
    matches!(byte, b'A'..=b'Z' | b'a'..=b'z' | b'0'..=b'9' | b'_' | b'-' | b'.')
}

fn has_path_bytes(part: &[u8]) -> bool
    ensures { result ≡ list_all is_path_byte part.now }
{
    part.iter().all(|byte| is_path_byte(*byte))
}

fn is_path_part(part: &str) -> bool
    ensures { result ≡ is_path_part part.now }
{
    !part.is_empty() && part != "." && part != ".." && has_path_bytes(part.as_bytes())
}

fn has_path_parts(path: &str) -> bool
    ensures { result ≡ list_all is_path_part (slice_split (λ b. b == ascii.slash) path.now) }
{
    path.split('/').all(|part| is_path_part(part))
}

fn has_proto_ending(path: &str) -> bool
    ensures { result ≡ ends_with nat_eq path.now (codes ".proto") }
{
    path.ends_with(".proto")
}

fn passes(path: &str) -> bool
    ensures { result ≡ is_workspace_path path.now }
{
    path.len() <= MAX_PATH_LEN && has_proto_ending(path) && has_path_parts(path)
}

/// Whether the text is the path of a file of a workspace: 1 to 255 bytes that end in `.proto`, of
/// parts joined by `/`, each of ASCII letters, digits, `_`, `-` and `.`, not empty, and neither `.`
/// nor `..`.
pub fn is_workspace_path(path: &str) -> bool
    ensures valid { IsTrue result ↔ IsWorkspacePath path.now }
    ensures test { result ≡ is_workspace_path path.now }
{
    passes(path)
}
