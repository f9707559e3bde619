//! Lines and columns.

ghost use Rattle.std.specs.Prelude.{◌≡◌, ℕ, List};
ghost use Rattle.proto_text.specs.Lines.{column_at, line_at};
ghost use Rattle.protoref_output.specs.Places.{IsCursorIn};

/// A line, and a column in bytes, both counted from 1.
#[derive(Clone, Copy, Debug, PartialEq, Eq)]
pub struct Place {
    pub line: usize,
    pub column: usize,
}

/// A place of a text, from which one goes on.
#[derive(Clone, Copy)]
pub struct Cursor {
    offset: usize,
    place: Place,
}

impl Cursor {
    /// At the beginning of whatever text.
    pub fn new() -> Cursor
        ensures { (text : List ℕ) → IsCursorIn text result }
    {
        Cursor {
            offset: 0,
            place: Place { line: 1, column: 1 },
        }
    }

    /// The line and the column where it stands.
    pub fn place(&self) -> Place
        ensures { result ≡ self.now.place }
    {
        self.place
    }

    /// At an offset of the text, or at the text's end, if it is shorter. From where it stands it
    /// goes over what lies between; only to an offset before that it goes from the beginning.
    pub fn moved_to(self, text: &[u8], offset: u32) -> Cursor
        requires { IsCursorIn text.now self }
        ensures there { IsCursorIn text.now result }
        ensures line { result.place.line ≡ line_at text.now offset }
        ensures column { result.place.column ≡ column_at text.now offset }
    {
        let end = (offset as usize).min(text.len());
        let start = if self.offset <= end {
            self
        } else {
            Cursor::new()
        };
        let mut place = start.place;
        for at in start.offset..end {
            if text[at] == b'\n' {
                place.line += 1;
                place.column = 1;
            } else {
                place.column += 1;
            }
        }
        Cursor { offset: end, place }
    }
}

/// The place of an offset of the text, or of the text's end, if it is shorter.
pub fn place_at(text: &[u8], offset: u32) -> Place
    ensures line { result.line ≡ line_at text.now offset }
    ensures column { result.column ≡ column_at text.now offset }
{
    Cursor::new().moved_to(text, offset).place
}
