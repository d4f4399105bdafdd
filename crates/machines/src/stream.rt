// A text that comes in pieces: a table, and the row of what was read.
ghost use Rattle.std.specs.Prelude.{◌≡◌, ℕ, ◌<◌, ◌≤◌, length, take, drop};
ghost use Rattle.machines.specs.Tables.{next, output, walk, seen};
ghost use Rattle.machines.specs.Pieces.{Joins};

use crate::table::{Row, Table};

#[derive(Clone, Copy)]
pub struct Stream<'a> {
    table: Table<'a>,
    at: Row,
    ghost inside: { at.0 < table.rows },
}

impl<'a> Stream<'a> {
    // A stream that goes on from a row of the table.
    pub fn new(table: Table<'a>, at: Row) -> Stream<'a>
        requires { at.0 < table.rows }
        ensures { (result.table ≡ table.entry) × (result.at ≡ at) }
    {
        Stream { table, at }
    }

    // The row of what was read.
    pub fn row(&self) -> Row
        ensures { result ≡ self.now.at }
    {
        self.at
    }

    // Reads one more piece: the stream stands where all that was read leads, and `ends` has the bits after each byte.
    pub fn feed(&mut self, piece: &[u8], ends: &mut [u32])
        requires { length piece.now ≤ length ends.old }
        ensures table { self.new.table ≡ self.old.table }
        ensures after { self.new.at.0 ≡ walk self.old.table.words.now self.old.at.0 piece.now }
        ensures bits { take (length piece.now) ends.new ≡ seen self.old.table.words.now self.old.at.0 piece.now }
        ensures rest { drop (length piece.now) ends.new ≡ drop (length piece.now) ends.old }
        ensures joins { Joins (next self.old.table.words.now) (output self.old.table.words.now) self.old.at.0 self.new.at.0 piece.now (take (length piece.now) ends.new) }
    {
        self.at = self.table.feed(self.at, piece, ends);
    }
}
