// The readable form of pattern lists: a text to a list's bytes. docs/NOTATION.md has the grammar.

#![tactic(auto)]

ghost use Rattle.std.specs.Prelude.{IfOk};
ghost use Rattle.notation.specs.Promises.{Notated, NotationRead};

use std::alloc::Global;

mod classes;
pub mod error;
mod expressions;
mod lines;
mod literals;
mod place;
mod scan;
mod writing;

use error::{Error, Expected, Fault, Mistake};
use scan::Reader;
pub use scan::Span;

// How many bytes a text may have.
pub const MOST_TEXT: usize = 16777216;

// What a text says: the bytes of its list, and the name of each pattern as a place of the text.
#[derive(Drop)]
pub struct Notation {
    pub bytes: Vec<u8>,
    pub names: Vec<Span>,
}

// Reads a text.
pub fn read(heap: Global, text: &[u8]) -> Result<Notation, Error>
    ensures { NotationRead text.now result }
{
    if text.len() > MOST_TEXT {
        return Err(Error::Misread(Mistake {
            line: 1,
            column: 1,
            expected: Expected::ShorterText,
        }));
    }
    read_lines(heap, text).map_err(|fault| fault.in_text(text))
}

// Reads line after line; a mistake's place is still counted in bytes.
fn read_lines(heap: Global, text: &[u8]) -> Result<Notation, Fault>
    ensures { IfOk result (λ n. Notated text.now n.bytes.items n.names.items) }
{
    let mut reader = Reader { text, at: 0 };
    let mut bytes = Vec::new(heap);
    let mut names = Vec::new(heap);
    while reader.next_line() {
        let name = reader.line(&mut bytes, names.as_slice())?;
        names.push(name)?;
    }
    Ok(Notation { bytes, names })
}
