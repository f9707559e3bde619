//! Marks of files.

ghost use Rattle.std.specs.Prelude.{◌≡◌, false, slice_index_or};

/// Whether the file with this number, from 0, is marked; false for a number past the marks.
pub fn is_marked(marks: &[bool], file: u32) -> bool
    ensures { result ≡ slice_index_or marks.now file false }
{
    match marks.get(file as usize) {
        Some(is_marked) => *is_marked,
        None => false,
    }
}
