// A table on the way: rows at a stride of 257, of which the columns in use stand first.
ghost use Rattle.std.specs.Prelude.{◌≡◌, ◌+◌, ◌*◌, ◌^◌, ◌<◌, length, take, drop, MatchOption};
ghost use Rattle.machines.specs.Columns.{cell, shown};
ghost use Rattle.machines.specs.Inside.{Inside};

use crate::inside::is_inside;

// So many rows, one at least, each of which leads to one of them from each column. No case of `Table`: that has a cell for each byte,
// all its words are rows, and it may have none.
#[derive(Clone, Copy)]
pub struct RawTable<'a> {
    words: &'a [u32],
    columns: usize,
    rows: usize,
    pub ghost inside: { Inside columns rows words.now },
}

impl<'a> RawTable<'a> {
    // The words as a table.
    pub fn new(words: &'a [u32], columns: usize, rows: usize) -> RawTable<'a>
        requires { Inside columns rows words.now }
        ensures { (result.words.now ≡ words.now) × (result.columns ≡ columns) × (result.rows ≡ rows) }
    {
        RawTable {
            words,
            columns,
            rows,
        }
    }

    // The words as a table, if they are one.
    pub fn checked(words: &'a [u32], columns: usize, rows: usize) -> Option<RawTable<'a>>
        ensures { MatchOption result (Inside columns rows words.now → ⊥) (λ t. (t.words.now ≡ words.now) × (t.columns ≡ columns) × (t.rows ≡ rows)) }
    {
        if is_inside(words, columns, rows) {
            Some(RawTable::new(words, columns, rows))
        } else {
            None
        }
    }

    // How many columns are in use.
    pub fn columns(self) -> usize
        ensures { result ≡ self.entry.columns }
    {
        self.columns
    }

    // How many rows there are.
    pub fn rows(self) -> usize
        ensures { result ≡ self.entry.rows }
    {
        self.rows
    }

    // What a row shows. Here and below that the row is there is a clause: a number knows nothing of its table.
    pub fn shown(self, row: usize) -> u32
        requires { row < self.rows }
        ensures { result ≡ shown self.entry.words.now row }
    {
        let words = self.words;
        words[257 * row]
    }

    // The row to which a column leads from a row.
    pub fn cell(self, row: usize, column: usize) -> usize
        requires row { row < self.rows }
        requires column { column < self.columns }
        ensures is { result ≡ cell self.entry.words.now row column }
        ensures there { result < self.entry.rows }
        ensures fits { result < 2 ^ 32 }
    {
        let words = self.words;
        words[257 * row + (1 + column)] as usize
    }

    // A row's words: what it shows, then its cells.
    pub fn row(self, row: usize) -> &'a [u32]
        requires { row < self.rows }
        ensures words { result.now ≡ take 257 (drop (257 * row) self.entry.words.now) }
        ensures long { length result.now ≡ 257 }
    {
        let words = self.words;
        &words[257 * row..257 * row + 257]
    }

    // The rows to which the columns lead from a row, one after the other.
    pub fn cells(self, row: usize) -> &'a [u32]
        requires { row < self.rows }
        ensures { result.now ≡ take self.entry.columns (drop (257 * row + 1) self.entry.words.now) }
    {
        let words = self.words;
        &words[257 * row + 1..257 * row + 1 + self.columns]
    }
}
