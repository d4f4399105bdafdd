// The line and the column of a place.
ghost use Rattle.std.specs.Prelude.{◌≡◌, ◌^◌, ◌<◌, ◌≤◌, Err, length, take};
ghost use Rattle.notation.specs.Places.{line_of, column_of};
ghost use Rattle.notation.specs.Promises.{NotationRead};

use crate::error::{Error, Expected, Fault, Mistake};

impl Fault {
    // The same with its place as a line and a column of the text.
    pub(crate) fn in_text(self, text: &[u8]) -> Error
        requires { length text.now ≤ 2 ^ 24 }
        ensures { NotationRead text.now (Err result) }
    {
        match self {
            Fault::At(at, expected) => Error::Misread(locate(text, at, expected)),
            Fault::OutOfMemory => Error::OutOfMemory,
        }
    }
}

// What was expected behind so many bytes of the text, or behind all of them, with the line and the column of that place.
fn locate(text: &[u8], at: usize, expected: Expected) -> Mistake
    requires { length text.now ≤ 2 ^ 24 }
    ensures line { result.line ≡ line_of (take at text.now) }
    ensures column { result.column ≡ column_of (take at text.now) }
    ensures expected { result.expected ≡ expected }
{
    let front = &text[..at.min(text.len())];
    let mut line = 1;
    let mut column = 1;
    for byte in front {
        if *byte == b'\n' {
            line += 1;
            column = 1;
        } else {
            column += 1;
        }
    }
    Mistake {
        line,
        column,
        expected,
    }
}
