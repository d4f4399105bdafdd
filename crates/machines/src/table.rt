// A table in memory, looked at once and then fed any number of pieces.
ghost use Rattle.std.specs.Prelude.{◌≡◌, ℕ, ◌+◌, ◌*◌, ◌<◌, ◌≤◌, true, ◌↔◌, length, take, drop};
ghost use Rattle.machines.specs.Tables.{SoundTable, LeadsInside, walk, seen};

use crate::inside::rows_lead_inside;

// A row's number.
#[derive(Clone, Copy)]
pub struct Row(pub usize);

// A table that was found sound: 257 words to a row, and no row leads out of it.
#[derive(Clone, Copy)]
pub struct Table<'a> {
    words: &'a [u32],
    rows: usize,
    ghost long: { length words.now ≡ 257 * rows },
    ghost inside: { LeadsInside rows words.now },
}

// Whether the words are a table of so many rows; 257 times as many need not fit a usize.
pub fn is_table(words: &[u32], rows: usize) -> bool
    ensures { (result ≡ true) ↔ SoundTable rows words.now }
{
    if words.len() % 257 != 0 || words.len() / 257 != rows {
        return false;
    }
    rows_lead_inside(words, 256, rows)
}

impl<'a> Table<'a> {
    // The words as a table.
    pub fn new(words: &'a [u32], rows: usize) -> Table<'a>
        requires { SoundTable rows words.now }
        ensures { (result.rows ≡ rows) × (result.words.now ≡ words.now) }
    {
        Table { words, rows }
    }

    // Reads a piece from a row, and only the cells on the way: the row after it; into `ends` go the bits after each byte.
    pub fn feed(&self, row: Row, piece: &[u8], ends: &mut [u32]) -> Row
        requires inside { row.0 < self.now.rows }
        requires room { length piece.now ≤ length ends.old }
        ensures after { result.0 ≡ walk self.now.words.now row.0 piece.now }
        ensures below { result.0 < self.now.rows }
        ensures bits { take (length piece.now) ends.new ≡ seen self.now.words.now row.0 piece.now }
        ensures rest { drop (length piece.now) ends.new ≡ drop (length piece.now) ends.old }
    {
        let words = self.words;
        let mut at = row.0;
        for (i, b) in piece.iter().enumerate() {
            at = words[257 * at + (1 + *b as usize)] as usize;
            ends[i] = words[257 * at];
        }
        Row(at)
    }
}
